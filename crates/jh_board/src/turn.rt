//! What a turn answers.

use jh_history::Entry;
use jh_num::NoMemory;

/// What a turn did.
#[derive(Clone, Copy, PartialEq, Eq, Debug)]
pub enum Turn {
    /// The entry that was due, now last in the journal.
    Made(Entry),
    /// Tables were edited, and so many such turns are left. No turn answers this yet, since a Commit edits all tables in its own turn.
    Edited { left: u32 },
    /// Nothing is due to this CPU, and an entry to that other one.
    NotNow { due_to: u8 },
    /// Nothing is due to any CPU.
    Done,
}

/// Why a turn made nothing. The board is as it was, and can go on.
#[derive(Clone, Copy, PartialEq, Eq, Debug)]
pub enum TurnFault {
    /// An entry is due, and the journal is at its limit.
    Full,
    NoMemory,
}

impl From<NoMemory> for TurnFault {
    ghost use Rattle.std.specs.Prelude.{◌≡◌};
    ghost use Rattle.jh_board.specs.declared.turn.TurnFault.TheVariants.{NoMemory as TheFault};

    ghost from_gives = { λ _ e. e ≡ TheFault };

    fn from(_e: NoMemory) -> TurnFault {
        TurnFault::NoMemory
    }
}
