//! Pins, and runs of them.

/// A pin of an interrupt controller.
#[derive(Clone, Copy, PartialEq, Eq, Debug)]
pub struct Pin {
    /// The address of the controller. Irqchips of one address are one chip.
    pub chip: u64,
    pub number: u64,
}

/// Pins of one chip whose numbers follow one another.
#[derive(Clone, Copy, PartialEq, Eq, Debug)]
pub struct PinRun {
    pub chip: u64,
    /// The number of the first pin.
    pub first: u64,
    /// The number of the last pin, which is in the run.
    pub last: u64,
}

/// Pins that two cells besides root both name, whoever holds them.
#[derive(Clone, Copy, PartialEq, Eq, Debug)]
pub struct Clash {
    /// The id of the cell that was created first.
    pub first: u32,
    /// The id of the other.
    pub second: u32,
    pub run: PinRun,
}
