//! The pins that a board's cells hold after a schedule.
ghost use Rattle.std.specs.Prelude.{All, IsTrue, IfOk};
ghost use Rattle.jh_history.specs.Admitted.{IsAdmitted};
ghost use Rattle.jh_history.specs.Lives.{is_on_board};
ghost use Rattle.jh_cli.specs.Order.{AsksFile, AsksWithSchedule};
ghost use Rattle.jh_cli.specs.Play.{schedule_file};
ghost use Rattle.jh_cli.specs.Pins.{ArePinsTold, PinsBy, Pins};
ghost use Rattle.jh_cli.specs.Reading.{IsCountedFault};
ghost use Rattle.jh_cli.specs.Private.Endings.{reply_of, OnEnding};

use crate::boards::open;
use crate::ending::{CallFault, Ending};
use crate::schedule::schedule;
use crate::status::Status;
use jh_num::NoMemory;
use jh_outside::Files;
use jh_pins::pins as pins_of_board;
use jh_script::Image;
use jh_text::MAX_ENTRIES;
use std::alloc::Global;

/// Makes the items of the schedule, and tells what pins the cells hold that live then, and which clash; or that the limit
/// stopped an item.
fn pins_image(alloc: Global, image: Image, cpus: &[u8]) -> Result<Ending, NoMemory>
    requires admitted { IsAdmitted image }
    requires cpus { All (λ cpu. IsTrue (is_on_board image cpu)) cpus.now }
    ensures { IfOk result (λ ending. ArePinsTold image cpus.now (reply_of ending)) }
{
    match pins_of_board(alloc, image, cpus, MAX_ENTRIES as u32)? {
        Some(text) => Ok(Ending {
            status: Status::Good,
            text: text.into_vec(),
        }),
        None => Ok(Ending {
            status: Status::Full,
            text: Vec::new(alloc),
        }),
    }
}

/// Reads the schedule, and tells the pins after it.
fn pins_by<F: Files>(
    alloc: Global,
    files: &mut F,
    image: Image,
    name: &str,
) -> Result<Ending, CallFault>
    requires admitted { IsAdmitted image }
    ensures ends { OnEnding result (PinsBy (F.contents files.old) name.now image) }
    ensures counted { OnEnding result (IsCountedFault (F.faults files.old) (F.faults files.new) (F.failed files.new)) }
    ensures asked { OnEnding result (AsksFile F.Files files.old files.new (F.contents files.old) name.now (schedule_file image)) }
{
    let cpus = schedule(alloc, files, name, &image)?;
    Ok(pins_image(alloc, image, cpus.as_slice())?)
}

/// Reads the board, and tells the pins after the schedule.
pub fn pins<F: Files>(
    alloc: Global,
    files: &mut F,
    board: &str,
    name: &str,
) -> Result<Ending, CallFault>
    ensures ends { OnEnding result (Pins (F.contents files.old) board.now name.now) }
    ensures counted { OnEnding result (IsCountedFault (F.faults files.old) (F.faults files.new) (F.failed files.new)) }
    ensures asked { OnEnding result (AsksWithSchedule F.Files files.old files.new (F.contents files.old) board.now name.now) }
{
    let image = open(alloc, files, board)?;
    pins_by(alloc, files, image, name)
}
