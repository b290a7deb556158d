//! What a descriptor is to say.

use jh_num::Rights;

/// What the descriptor of a slot is to be.
#[derive(Clone, Copy, PartialEq, Eq, Debug)]
pub enum Want {
    /// Invalid.
    Nothing,
    /// A table of the next level.
    Table,
    /// A block or a page at the physical place `out`.
    Leaf {
        out: u64,
        rights: Rights,
        device: bool,
    },
}
