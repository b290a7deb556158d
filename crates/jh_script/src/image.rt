//! The image that a board is opened with.

use crate::op::Op;
use jh_cellcfg::SystemConfig;
use jh_num::Seq;

/// Bytes that stand in memory at opening, from the physical place `at` on.
#[derive(Drop)]
pub struct Preload {
    pub at: u64,
    pub bytes: Seq<u8>,
}

/// What a CPU does while it belongs to the cell of that name.
#[derive(Drop)]
pub struct Program {
    /// The cell's name, without zero bytes.
    pub cell: Seq<u8>,
    /// 0 to 15.
    pub cpu: u8,
    /// At most 4,096.
    pub ops: Seq<Op>,
}

/// A board before it begins.
#[derive(Drop)]
pub struct Image {
    pub system: SystemConfig,
    pub preloads: Seq<Preload>,
    pub programs: Seq<Program>,
}
