//! A change of endpoints, and which of them it means.

/// What is changed of an endpoint.
#[derive(Clone, Copy)]
pub(crate) enum EndpointChange {
    /// The vector is raised.
    Raise(u16),
    /// A register of its own is written.
    Write { bar: u8, at: u32, value: u32 },
    /// Its state gets the value.
    State(u32),
    Reset,
    /// Its pending vector is taken.
    Take(u8),
}

/// Which endpoints are meant.
#[derive(Clone, Copy)]
pub(crate) enum Whom {
    /// The one of this device of this cell.
    Device { cell: u32, device: u32 },
    /// The one with this number of the link.
    Peer { bdf: u16, id: u16 },
    /// All of the link but the one with this number.
    Others { bdf: u16, id: u8 },
}
