//! A management call that is open.
ghost use Rattle.std.specs.Prelude.{◌≡◌};
ghost use Rattle.jh_history.specs.Phases.{refused_by};

use crate::boxed::BoxedCell;
use jh_call::Call;

/// A management call that has begun and isn't finished.
#[derive(Drop)]
pub struct OpenCall {
    /// The CPU that makes it; each of its phases is an entry of this CPU.
    pub caller: u8,
    pub call: Call,
    pub phase: Phase,
}

/// What comes next in a call.
#[derive(Drop)]
pub enum Phase {
    ToDecide,
    /// The cell was asked to shut down, unless it is passive. Its CPUs have made so many entries since.
    ToSettle {
        waited: u64,
    },
    /// The new cell has this configuration.
    ToCreate {
        config: BoxedCell,
    },
    /// The cell has agreed to shut down, or its time is over.
    ToCommit,
    /// The cell `id` is told that the cell `about` was created or destroyed; the call will end with the
    /// answer.
    ToNote {
        id: u32,
        about: u64,
        answer: i64,
    },
    /// The cell `id` was told, and its CPUs have made so many entries since.
    ToNoted {
        id: u32,
        about: u64,
        answer: i64,
        waited: u64,
    },
    ToFinish {
        answer: i64,
    },
}

/// What comes of a create.
#[derive(Drop)]
pub enum Creation {
    Refused { number: i64 },
    /// The new cell has this configuration.
    Accepted { config: BoxedCell },
}

impl Creation {
    /// The number that the create is refused with; `None` where its cell comes.
    pub fn refusal(&self) -> Option<i64>
        ensures { result ≡ refused_by self.now }
    {
        match self {
            Creation::Refused { number } => Some(*number),
            Creation::Accepted { .. } => None,
        }
    }
}
