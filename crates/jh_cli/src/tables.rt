//! The tables of a board's cells after a schedule.
ghost use Rattle.std.specs.Prelude.{All, IsTrue, IfOk};
ghost use Rattle.jh_history.specs.Admitted.{IsAdmitted};
ghost use Rattle.jh_history.specs.Lives.{is_on_board};
ghost use Rattle.jh_cli.specs.Order.{AsksFile, AsksWithSchedule};
ghost use Rattle.jh_cli.specs.Play.{schedule_file};
ghost use Rattle.jh_cli.specs.Tables.{AreTablesTold, TablesBy, Tables};
ghost use Rattle.jh_cli.specs.Reading.{IsCountedFault};
ghost use Rattle.jh_cli.specs.Private.Endings.{reply_of, OnEnding};

use crate::boards::open;
use crate::ending::{CallFault, Ending};
use crate::schedule::schedule;
use crate::status::Status;
use jh_num::NoMemory;
use jh_outside::Files;
use jh_run::tables as tables_of_board;
use jh_script::Image;
use jh_text::MAX_ENTRIES;
use std::alloc::Global;

/// Makes the items of the schedule, and tells the leaves of the tables of the cells that live then; or that the limit stopped
/// an item.
fn tables_image(alloc: Global, image: Image, cpus: &[u8]) -> Result<Ending, NoMemory>
    requires admitted { IsAdmitted image }
    requires cpus { All (λ cpu. IsTrue (is_on_board image cpu)) cpus.now }
    ensures { IfOk result (λ ending. AreTablesTold image cpus.now (reply_of ending)) }
{
    match tables_of_board(alloc, image, cpus, MAX_ENTRIES as u32)? {
        Some(text) => Ok(Ending {
            status: Status::Good,
            text: text.into_vec(),
        }),
        None => Ok(Ending {
            status: Status::Full,
            text: Vec::new(alloc),
        }),
    }
}

/// Reads the schedule, and tells the tables after it.
fn tables_by<F: Files>(
    alloc: Global,
    files: &mut F,
    image: Image,
    name: &str,
) -> Result<Ending, CallFault>
    requires admitted { IsAdmitted image }
    ensures ends { OnEnding result (TablesBy (F.contents files.old) name.now image) }
    ensures counted { OnEnding result (IsCountedFault (F.faults files.old) (F.faults files.new) (F.failed files.new)) }
    ensures asked { OnEnding result (AsksFile F.Files files.old files.new (F.contents files.old) name.now (schedule_file image)) }
{
    let cpus = schedule(alloc, files, name, &image)?;
    Ok(tables_image(alloc, image, cpus.as_slice())?)
}

/// Reads the board, and tells the tables after the schedule.
pub fn tables<F: Files>(
    alloc: Global,
    files: &mut F,
    board: &str,
    name: &str,
) -> Result<Ending, CallFault>
    ensures ends { OnEnding result (Tables (F.contents files.old) board.now name.now) }
    ensures counted { OnEnding result (IsCountedFault (F.faults files.old) (F.faults files.new) (F.failed files.new)) }
    ensures asked { OnEnding result (AsksWithSchedule F.Files files.old files.new (F.contents files.old) board.now name.now) }
{
    let image = open(alloc, files, board)?;
    tables_by(alloc, files, image, name)
}
