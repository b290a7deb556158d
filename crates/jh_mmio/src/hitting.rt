//! What an access may hit.

/// A window of a device: `size` addresses from `start` on.
#[derive(Clone, Copy, PartialEq, Eq, Debug)]
pub struct Window {
    pub start: u64,
    pub size: u64,
    /// The number of the device.
    pub device: u32,
    /// The number of the base address register that tells its start.
    pub bar: u8,
}

/// What answers an access.
#[derive(Clone, Copy, PartialEq, Eq, Debug)]
pub enum Hitting {
    /// The subpage region of that number.
    Subpage { region: u32 },
    /// Configuration space.
    Ecam,
    /// The window of that number.
    Bar { window: u32 },
    /// The access is a violation.
    Nothing,
}
