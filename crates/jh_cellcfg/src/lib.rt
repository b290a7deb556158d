//! Configurations of cells and of the system, revision 13 of Jailhouse's `cell-config.h`: their types and flags,
//! what a memory region says of addresses and grants, and the cells that live; of a cell's configuration also its
//! limits, its reading and writing record by record, the faults that bytes can have, and laws of its spelling.
#![tactic(auto)]

mod config;
mod fault;
mod flags;
mod header;
mod laws;
mod limits;
mod live;
mod read;
mod reader;
mod record;
mod region;
mod write;
mod writer;

pub use config::{CellConfig, Console, Irqchip, MAX_CPUS, PciDevice, Platform, SystemConfig};
pub use fault::{ConfigFault, Part};
pub use flags::{CellFlags, RegionFlags};
pub use header::{Counts, HEADER_SIZE, Header, REVISION, START_SIZE};
pub use laws::{
    a_body_tells_its_configuration, a_spelling_tells_its_configuration, body_has_no_fault,
    no_fault_is_a_body, no_fault_is_a_spelling, one_body, one_spelling, size_is_length,
    spelling_has_no_fault,
};
pub use limits::{
    MAX_CACHE_REGIONS, MAX_CONFIG_SIZE, MAX_CPU_SET_BYTES, MAX_IRQCHIPS, MAX_MEMORY_REGIONS,
    MAX_PCI_CAPS, MAX_PCI_DEVICES, MAX_PIO_REGIONS, MAX_STREAM_IDS, are_printable, are_zero,
    is_name, is_within_limits,
};
pub use live::Live;
pub use read::{cell_size, check_start, read_body, read_cell};
pub use reader::Reader;
pub use record::Record;
pub use region::Region;
pub use write::{write_body, write_cell};
pub use writer::Writer;
