//! What an immediate answer looks at.

/// What is seen of the CPU that a call names.
#[derive(Clone, Copy, PartialEq, Eq, Debug)]
pub enum CpuSeen {
    /// The board lacks it.
    Absent,
    /// The caller isn't root, and the CPU is another cell's.
    Foreign,
    /// It hasn't failed.
    Fine,
    Failed,
}

/// What is seen of the CPU that a call of the power interface names.
#[derive(Clone, Copy, PartialEq, Eq, Debug)]
pub enum PowerSeen {
    /// The caller's cell doesn't own it, or the board lacks it.
    Foreign,
    /// It runs.
    On,
    /// It is parked.
    Off,
    Failed,
}

/// What is seen when a call is made.
#[derive(Clone, Copy, PartialEq, Eq, Debug)]
pub struct Seen {
    /// Whether the caller is root.
    pub root: bool,
    /// The pages that the pool has.
    pub size: u32,
    /// The pages that live cells use.
    pub used: u32,
    /// How many cells are live, with root.
    pub cells: u32,
    /// The state word of the live cell that the call names, 0 for root, or none where no live cell has
    /// the id.
    pub state: Option<u32>,
    pub cpu: CpuSeen,
    pub power: PowerSeen,
}
