//! What descriptors say, and what a walk finds.

use jh_num::Rights;

/// What a descriptor says.
#[derive(Clone, Copy, PartialEq, Eq, Debug)]
pub enum Descriptor {
    /// Nothing is mapped.
    Invalid,
    /// The place of the table of the level below.
    Table {
        next: u64,
    },
    /// The place where the slot begins, as a block or a page, what may be done there, and whether it is
    /// device memory.
    Leaf {
        out: u64,
        rights: Rights,
        device: bool,
    },
}

/// What a walk finds at an address.
#[derive(Clone, Copy, PartialEq, Eq, Debug)]
pub struct Hit {
    /// The place of the very address.
    pub out: u64,
    pub rights: Rights,
    pub device: bool,
    /// The bytes of the leaf's slot.
    pub span: u64,
}
