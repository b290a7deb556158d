//! The maps of a board's cells after a schedule.
ghost use Rattle.std.specs.Prelude.{All, IsTrue, IfOk, ◌∷◌, []};
ghost use Rattle.jh_history.specs.Admitted.{IsAdmitted};
ghost use Rattle.jh_history.specs.Lives.{is_on_board};
ghost use Rattle.jh_cli.specs.Order.{AsksFile, AsksWithSchedule};
ghost use Rattle.jh_cli.specs.Play.{schedule_file};
ghost use Rattle.jh_cli.specs.Map.{IsMapped, MapsBy, Maps};
ghost use Rattle.jh_cli.specs.Reading.{IsCountedFault};
ghost use Rattle.jh_cli.specs.Private.Endings.{reply_of, OnEnding};

use crate::boards::open;
use crate::ending::{CallFault, Ending};
use crate::schedule::schedule;
use crate::status::Status;
use jh_num::NoMemory;
use jh_outside::Files;
use jh_run::map as map_board;
use jh_script::Image;
use jh_text::MAX_ENTRIES;
use std::alloc::Global;

/// Makes the items of the schedule, and tells the maps of the cells that live then, or that the limit stopped an item.
fn map_image(alloc: Global, image: Image, cpus: &[u8]) -> Result<Ending, NoMemory>
    requires admitted { IsAdmitted image }
    requires cpus { All (λ cpu. IsTrue (is_on_board image cpu)) cpus.now }
    ensures { IfOk result (λ ending. IsMapped image cpus.now (reply_of ending)) }
{
    match map_board(alloc, image, cpus, MAX_ENTRIES as u32)? {
        Some(text) => Ok(Ending {
            status: Status::Good,
            text: text.into_vec(),
        }),
        None => Ok(Ending {
            status: Status::Full,
            text: Vec::new(alloc),
        }),
    }
}

/// Reads the schedule, and tells the maps after it.
fn map_by<F: Files>(
    alloc: Global,
    files: &mut F,
    image: Image,
    name: &str,
) -> Result<Ending, CallFault>
    requires admitted { IsAdmitted image }
    ensures ends { OnEnding result (MapsBy (F.contents files.old) name.now image) }
    ensures counted { OnEnding result (IsCountedFault (F.faults files.old) (F.faults files.new) (F.failed files.new)) }
    ensures asked { OnEnding result (AsksFile F.Files files.old files.new (F.contents files.old) name.now (schedule_file image)) }
{
    let cpus = schedule(alloc, files, name, &image)?;
    Ok(map_image(alloc, image, cpus.as_slice())?)
}

/// Reads the board, and tells the maps after the schedule.
pub fn map<F: Files>(
    alloc: Global,
    files: &mut F,
    board: &str,
    name: &str,
) -> Result<Ending, CallFault>
    ensures ends { OnEnding result (Maps (F.contents files.old) board.now name.now) }
    ensures counted { OnEnding result (IsCountedFault (F.faults files.old) (F.faults files.new) (F.failed files.new)) }
    ensures asked { OnEnding result (AsksWithSchedule F.Files files.old files.new (F.contents files.old) board.now name.now) }
{
    let image = open(alloc, files, board)?;
    map_by(alloc, files, image, name)
}
