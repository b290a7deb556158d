//! What a cell is wanted to have.

use jh_num::Seq;

/// How many demands one text may have: as many as there are cells besides root.
pub const MAX_DEMANDS: usize = 15;

/// What one cell is wanted to have.
#[derive(Drop)]
pub struct Demand {
    /// 1 to 31 bytes from 0x21 to 0x7e, other than a quote and a backslash.
    pub name: Seq<u8>,
    pub id: u32,
    /// How many CPUs, 1 to 15.
    pub cpus: u8,
    /// How many bytes of memory: a positive multiple of 4,096.
    pub size: u64,
    /// Whether root keeps the memory while the cell is loadable.
    pub loadable: bool,
}
