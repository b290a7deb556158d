//! What a board holds besides its image and its journal.

use crate::cells::LiveCells;
use crate::indexed::ProgramIndex;
use crate::memory::Memory;
use jh_cellcfg::MAX_CPUS;
use jh_closed::CellRegions;
use jh_cpu::Cpu;
use jh_history::{Form, OpenCall};
use jh_ivshmem::Endpoints;
use std::alloc::Global;

/// The form of the journal, memory, CPUs, live cells, their devices and the open call.
#[derive(Drop)]
pub struct Held {
    pub form: Form,
    pub memory: Memory,
    pub cpus: [Cpu; MAX_CPUS],
    pub cells: LiveCells,
    /// Where the program of each CPU is.
    pub programs: [ProgramIndex; MAX_CPUS],
    /// The endpoints of all live cells' devices, root's too.
    pub endpoints: Endpoints,
    pub call: Option<OpenCall>,
    /// The regions of the cell that a create is about to make.
    pub coming_regions: Option<CellRegions>,
    pub alloc: Global,
}
