//! What may be done with a byte.

/// The rights that a region or a leaf of a table grants, each by itself.
#[derive(Clone, Copy, PartialEq, Eq, Debug)]
pub struct Rights {
    pub read: bool,
    pub write: bool,
    pub execute: bool,
}
