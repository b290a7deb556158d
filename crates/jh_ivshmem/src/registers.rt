//! Where the registers of BAR 0 stand, in bytes from its start.

/// The endpoint's number on its link.
pub(crate) const ID: u32 = 0x00;

/// How many peers the link may have.
pub(crate) const PEERS: u32 = 0x04;

/// Interrupt control: vectors are raised while its bit 0 is 1.
pub(crate) const INTERRUPT_CONTROL: u32 = 0x08;

/// The doorbell, which raises a vector of a peer.
pub(crate) const DOORBELL: u32 = 0x0c;

/// The state.
pub(crate) const STATE: u32 = 0x10;
