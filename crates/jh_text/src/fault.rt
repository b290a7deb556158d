//! Why a text is no journal's.
ghost use Rattle.std.specs.Prelude.{◌≡◌};

use jh_num::NoMemory;
use std::fmt;

/// How many entries a journal may have.
pub const MAX_ENTRIES: usize = 262_144;

/// The first fault of a text, or want of memory.
#[derive(Clone, Copy, PartialEq, Eq, Debug)]
pub enum JournalFault {
    /// The first line that isn't the text of an entry whose numbers are within their ranges, with a line feed
    /// behind it; the first line of the text, which may be its header, has the number 1.
    Line { number: u32 },
    /// There is a line of an entry behind the last that a journal may have.
    TooLong,
    NoMemory,
}

impl From<NoMemory> for JournalFault {
    ghost use Rattle.jh_text.specs.declared.fault.JournalFault.TheVariants as faults;

    ghost from_gives = { λ _ fault. fault ≡ faults.NoMemory };

    fn from(_: NoMemory) -> JournalFault {
        JournalFault::NoMemory
    }
}

impl fmt::Display for JournalFault {
    ghost use Rattle.jh_text.specs.FaultText.{journal_fault_text};
    ghost use Rattle.std.specs.Prelude.{Some};

    ghost output = { λ fault. Some (journal_fault_text fault) };

    fn fmt<W: fmt::Write>(&self, f: &mut fmt::Formatter<W>) -> fmt::Result {
        match self {
            JournalFault::Line { number } => write!(f, "line {number}"),
            JournalFault::TooLong => write!(f, "journal too long"),
            JournalFault::NoMemory => write!(f, "want of memory"),
        }
    }
}
