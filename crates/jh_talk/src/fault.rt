//! Why a text has no messages, and why a system and a cell can't talk.
ghost use Rattle.std.specs.Prelude.{◌≡◌};
ghost use Rattle.jh_talk.specs.declared.fault.MessagesFault.TheVariants.{NoMemory as NoMemoryForMessages};
ghost use Rattle.jh_talk.specs.declared.fault.TalkFault.TheVariants.{NoMemory as NoMemoryForTalk};

use jh_num::NoMemory;
use std::fmt;

/// The first fault of a text of messages, or want of memory. Lines count from 1; from line 2^32 - 1 on the number
/// stays.
#[derive(Clone, Copy, PartialEq, Eq, Debug)]
pub enum MessagesFault {
    /// The line is no message, no comment and not blank, or has a byte above 0x7f.
    Line { number: u32 },
    /// There is a line of a message behind the last that its side may have.
    TooLong,
    NoMemory,
}

/// Why a system and a cell can't talk: the first of these that holds, or want of memory. They are told by their numbers,
/// from 1 on in this order.
#[derive(Clone, Copy, PartialEq, Eq, Debug)]
pub enum TalkFault {
    /// The check of the system and the cell finds something, or the cell has root's name or id.
    Cell,
    /// The cell names a CPU that root lacks, or all of root's.
    Cpu,
    /// The hypervisor's memory has fewer pages than root and the cell take.
    Pool,
    /// No ivshmem device of root is linked with one of the cell so that both have two vectors or more.
    Device,
    /// A message has no room in the outputs of the two devices, or these lack rights, or root would lose a section.
    Section,
    /// The configuration space of the function isn't in the ECAM window, or a region is in its way.
    Ecam,
    /// Root or the cell has no free addresses for the windows of its device.
    Window,
    /// Root has no memory from which it may read the cell's configuration.
    Place,
    NoMemory,
}

impl From<NoMemory> for TalkFault {
    ghost from_gives = { λ _ fault. fault ≡ NoMemoryForTalk };

    fn from(_: NoMemory) -> TalkFault {
        TalkFault::NoMemory
    }
}

impl From<NoMemory> for MessagesFault {
    ghost from_gives = { λ _ fault. fault ≡ NoMemoryForMessages };

    fn from(_: NoMemory) -> MessagesFault {
        MessagesFault::NoMemory
    }
}

impl fmt::Display for MessagesFault {
    ghost use Rattle.std.specs.Prelude.{Some};
    ghost use Rattle.jh_talk.specs.FaultText.{messages_fault_text};

    ghost output = { λ fault. Some (messages_fault_text fault) };

    fn fmt<W: fmt::Write>(&self, f: &mut fmt::Formatter<W>) -> fmt::Result {
        match self {
            MessagesFault::Line { number } => write!(f, "line {number}: syntax"),
            MessagesFault::TooLong => f.write_str("messages too long"),
            MessagesFault::NoMemory => f.write_str("want of memory"),
        }
    }
}

impl fmt::Display for TalkFault {
    ghost use Rattle.std.specs.Prelude.{Some};
    ghost use Rattle.jh_talk.specs.FaultText.{talk_fault_text};

    ghost output = { λ fault. Some (talk_fault_text fault) };

    fn fmt<W: fmt::Write>(&self, f: &mut fmt::Formatter<W>) -> fmt::Result {
        f.write_str(match self {
            TalkFault::Cell => "talk 1",
            TalkFault::Cpu => "talk 2",
            TalkFault::Pool => "talk 3",
            TalkFault::Device => "talk 4",
            TalkFault::Section => "talk 5",
            TalkFault::Ecam => "talk 6",
            TalkFault::Window => "talk 7",
            TalkFault::Place => "talk 8",
            TalkFault::NoMemory => "want of memory",
        })
    }
}
