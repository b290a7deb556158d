//! What an audit finds.

use jh_history::Entry;

/// What is found of a journal.
#[derive(Clone, Copy, PartialEq, Eq, Debug)]
pub enum Verdict {
    /// Each of the entries, so many, is the one that was due; `quiet` tells whether nothing is due after the last.
    Legal { entries: u32, quiet: bool },
    /// The entry of this line is the first that wasn't due; lines of entries count from 1, without the first line of a
    /// text of form Two. `expected` is what was due to its CPU there, `None` where nothing was or the board lacks the
    /// CPU.
    Illegal { line: u32, expected: Option<Entry> },
}
