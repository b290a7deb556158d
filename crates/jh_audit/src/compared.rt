//! An entry beside the one that was due.

use jh_history::Entry;

/// What is found of one entry of a journal.
#[derive(Clone, Copy, PartialEq, Eq, Debug)]
pub enum Compared {
    /// The entry is the one that was due to its CPU.
    Same,
    /// The entry isn't the one: `expected` is what was due to its CPU, `None` where nothing was or the board lacks the
    /// CPU.
    Differs { expected: Option<Entry> },
}
