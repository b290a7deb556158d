//! What the hypervisor writes into communication pages.

/// A change of a communication page: of words of it, or of the whole page.
#[derive(Clone, Copy)]
pub enum PageChange {
    /// The cell is in another state.
    State(u32),
    /// The cell is sent a message, to which there is no reply yet.
    Message(u32),
    /// The page is as new: the cell's state, the console of its configuration, and where the ECAM window
    /// begins.
    Fresh {
        state: u32,
        console: [u8; 32],
        window: u64,
    },
}

/// A change of the page of a cell: of one that lives, or of the one that comes by the entry.
#[derive(Clone, Copy)]
pub struct PageWrite {
    /// The cell's id.
    pub cell: u32,
    pub change: PageChange,
}
