//! What the words ask for, worked out before anything is written.
ghost use Rattle.std.specs.Prelude.{map, string_bytes, Some};
ghost use Rattle.jh_cli.specs.Order.{AsksFor};
ghost use Rattle.jh_cli.specs.Words.{command_of, request_by, HasFewCells, IsSerial};
ghost use Rattle.jh_cli.specs.Outcome.{Outcome};
ghost use Rattle.jh_cli.specs.Reading.{IsCountedFault};
ghost use Rattle.jh_cli.specs.Private.Endings.{OnEnding};

use crate::audit::audit;
use crate::check::check;
use crate::command::{Command, command_of};
use crate::ending::{CallFault, Ending};
use crate::lines::usage_line;
use crate::map::map;
use crate::pack::pack;
use crate::pins::pins;
use crate::plan::plan;
use crate::play::play;
use crate::status::Status;
use crate::tables::tables;
use jh_outside::Files;
use std::alloc::Global;

/// Does what the command asks for, which isn't `run` or `soak`.
fn carry_out<F: Files>(
    alloc: Global,
    command: Command<'_>,
    files: &mut F,
) -> Result<Ending, CallFault>
    requires few { HasFewCells command }
    requires serial { IsSerial (Some (request_by command)) }
    ensures ends { OnEnding result (Outcome (F.contents files.old) (Some (request_by command.entry))) }
    ensures counted { OnEnding result (IsCountedFault (F.faults files.old) (F.faults files.new) (F.failed files.new)) }
    ensures asked { OnEnding result (AsksFor F.Files files.old files.new (F.contents files.old) (Some (request_by command.entry))) }
{
    match command {
        Command::Check { system, cells } => check(alloc, files, system, cells),
        Command::Pack { spec } => pack(alloc, files, spec),
        Command::Play { board, schedule } => play(alloc, files, board, schedule),
        Command::Map { board, schedule } => map(alloc, files, board, schedule),
        Command::Audit { board, journal } => audit(alloc, files, board, journal),
        Command::Plan { system, demands } => plan(alloc, files, system, demands),
        Command::Pins { board, schedule } => pins(alloc, files, board, schedule),
        Command::Tables { board, schedule } => tables(alloc, files, board, schedule),
        // these two have been told apart already
        Command::Run { .. } | Command::Soak { .. } => unreachable!(),
    }
}

/// What the words ask for, whose command isn't `run` or `soak`.
pub fn reply_to<F: Files>(
    alloc: Global,
    words: &[String],
    files: &mut F,
) -> Result<Ending, CallFault>
    requires { IsSerial (command_of (map string_bytes words.now)) }
    ensures outcome { OnEnding result (Outcome (F.contents files.old) (command_of (map string_bytes words.now))) }
    ensures counted { OnEnding result (IsCountedFault (F.faults files.old) (F.faults files.new) (F.failed files.new)) }
    ensures asked { OnEnding result (AsksFor F.Files files.old files.new (F.contents files.old) (command_of (map string_bytes words.now))) }
{
    match command_of(words) {
        Some(command) => carry_out(alloc, command, files),
        None => Ok(Ending {
            status: Status::Usage,
            text: usage_line(alloc)?,
        }),
    }
}
