//! Why a text is no program, or no schedule.
ghost use Rattle.std.specs.Prelude.{◌≡◌};
ghost use Rattle.jh_script.specs.declared.fault.ProgramFault.TheVariants.{NoMemory as NoMemoryForProgram};
ghost use Rattle.jh_script.specs.declared.fault.ScheduleFault.TheVariants.{NoMemory as NoMemoryForSchedule};

use jh_num::NoMemory;
use std::fmt;

/// How many operations a program may have.
pub const MAX_OPS: usize = 4096;

/// How many items a schedule may have.
pub const MAX_ITEMS: usize = 262_144;

/// The first fault of a program's text, or want of memory. Lines count from 1; from line 2^32 - 1 on the
/// number stays.
#[derive(Clone, Copy, PartialEq, Eq, Debug)]
pub enum ProgramFault {
    /// The line is no operation, no comment and not blank, or has a byte above 0x7f.
    Syntax { line: u32 },
    /// There is a line of an operation behind the last that a program may have.
    TooLong,
    /// An access that isn't 1, 2, 4 or 8 bytes wide, a value that doesn't fit the width, or a fetch from an
    /// address that isn't a multiple of 4.
    Width { line: u32 },
    NoMemory,
}

/// The first fault of a schedule's text, or want of memory. Items count from 1.
#[derive(Clone, Copy, PartialEq, Eq, Debug)]
pub enum ScheduleFault {
    /// The item is no decimal number from 0 to 15, or the board lacks the CPU.
    Item { number: u32 },
    /// There is an item behind the last that a schedule may have.
    TooLong,
    NoMemory,
}

impl From<NoMemory> for ProgramFault {
    ghost from_gives = { λ _ fault. fault ≡ NoMemoryForProgram };

    fn from(_: NoMemory) -> ProgramFault {
        ProgramFault::NoMemory
    }
}

impl From<NoMemory> for ScheduleFault {
    ghost from_gives = { λ _ fault. fault ≡ NoMemoryForSchedule };

    fn from(_: NoMemory) -> ScheduleFault {
        ScheduleFault::NoMemory
    }
}

impl fmt::Display for ProgramFault {
    ghost use Rattle.std.specs.Prelude.{Some};
    ghost use Rattle.jh_script.specs.FaultText.{program_fault_text};

    ghost output = { λ fault. Some (program_fault_text fault) };

    fn fmt<W: fmt::Write>(&self, f: &mut fmt::Formatter<W>) -> fmt::Result {
        match self {
            ProgramFault::Syntax { line } => write!(f, "line {line}: syntax"),
            ProgramFault::TooLong => f.write_str("program too long"),
            ProgramFault::Width { line } => write!(f, "line {line}: width"),
            ProgramFault::NoMemory => f.write_str("want of memory"),
        }
    }
}

impl fmt::Display for ScheduleFault {
    ghost use Rattle.std.specs.Prelude.{Some};
    ghost use Rattle.jh_script.specs.FaultText.{schedule_fault_text};

    ghost output = { λ fault. Some (schedule_fault_text fault) };

    fn fmt<W: fmt::Write>(&self, f: &mut fmt::Formatter<W>) -> fmt::Result {
        match self {
            ScheduleFault::Item { number } => write!(f, "item {number}"),
            ScheduleFault::TooLong => f.write_str("schedule too long"),
            ScheduleFault::NoMemory => f.write_str("want of memory"),
        }
    }
}
