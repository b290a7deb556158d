//! The header of a cell's configuration.

use crate::record::Record;

/// What a cell's configuration begins with.
pub const SIGNATURE: &[u8; 6] = b"JHCELL";

/// The revision of the format: the number behind a file's signature.
pub const REVISION: u16 = 13;

/// How many bytes the signature and the revision have.
pub const START_SIZE: usize = SIGNATURE.len() + size_of::<u16>();

/// How many bytes a whole header has, from the signature on.
pub const HEADER_SIZE: usize = START_SIZE + Header::SIZE;

/// The header's fields from the name to the console.
#[derive(Clone, Copy, PartialEq, Eq, Debug)]
pub struct Header {
    pub name: [u8; 32],
    pub id: u32,
    pub flags: u32,
    pub counts: Counts,
    pub vpci_irq_base: u32,
    pub cpu_reset_address: u64,
    pub msg_reply_timeout: u64,
    pub console: [u8; 32],
}

/// How many records each part has behind the header; of the CPU bitmap, how many bytes.
#[derive(Clone, Copy, PartialEq, Eq, Debug)]
pub struct Counts {
    pub cpu_set: u32,
    pub memory_regions: u32,
    pub cache_regions: u32,
    pub irqchips: u32,
    pub pio_regions: u32,
    pub pci_devices: u32,
    pub pci_caps: u32,
    pub stream_ids: u32,
}
