//! What one of the two sides talks by.

/// The addresses that a side writes and reads, and what it writes to ring the other one.
#[derive(Clone, Copy, PartialEq, Eq, Debug)]
pub(crate) struct Side {
    /// The first byte of the function's configuration space.
    pub function: u64,
    /// Where its windows begin.
    pub window: u64,
    /// Its own output.
    pub out: u64,
    /// The other's output.
    pub peer: u64,
    /// The other's number in the upper 16 of 32 bits, and the number of the vector in the lower ones.
    pub ring: u64,
}
