//! Playing a board by a schedule.
ghost use Rattle.std.specs.Prelude.{◌≡◌, All, IsTrue, IfOk, ◌∷◌, []};
ghost use Rattle.jh_history.specs.Admitted.{IsAdmitted};
ghost use Rattle.jh_history.specs.Lives.{is_on_board};
ghost use Rattle.jh_run.specs.Ends.{is_full};
ghost use Rattle.jh_cli.specs.Order.{AsksFile, AsksWithSchedule};
ghost use Rattle.jh_cli.specs.Play.{schedule_file, IsPlayed, played_status, PlaysBy, Plays};
ghost use Rattle.jh_cli.specs.Reading.{IsCountedFault};
ghost use Rattle.jh_cli.specs.Private.Endings.{reply_of, OnEnding};

use crate::boards::open;
use crate::ending::{CallFault, Ending};
use crate::schedule::schedule;
use crate::status::Status;
use jh_num::NoMemory;
use jh_outside::Files;
use jh_run::{Ended, play as play_board};
use jh_script::Image;
use jh_text::{MAX_ENTRIES, print_journal};
use std::alloc::Global;

/// The status of a play, a run or a soak, by how it ended.
pub fn status_of(ended: Ended) -> Status
    ensures { result ≡ played_status (is_full ended) }
{
    match ended {
        Ended::Unstopped => Status::Good,
        Ended::Full => Status::Full,
    }
}

/// Plays the image, and tells its journal.
fn play_image(alloc: Global, image: Image, cpus: &[u8]) -> Result<Ending, NoMemory>
    requires admitted { IsAdmitted image }
    requires cpus { All (λ cpu. IsTrue (is_on_board image cpu)) cpus.now }
    ensures { IfOk result (λ ending. IsPlayed image cpus.now (reply_of ending)) }
{
    let (board, ended) = play_board(alloc, image, cpus, MAX_ENTRIES as u32)?;
    let text = print_journal(alloc, board.journal())?;
    Ok(Ending {
        status: status_of(ended),
        text,
    })
}

/// Reads the schedule, and plays the image by it.
fn play_by<F: Files>(
    alloc: Global,
    files: &mut F,
    image: Image,
    name: &str,
) -> Result<Ending, CallFault>
    requires admitted { IsAdmitted image }
    ensures ends { OnEnding result (PlaysBy (F.contents files.old) name.now image) }
    ensures counted { OnEnding result (IsCountedFault (F.faults files.old) (F.faults files.new) (F.failed files.new)) }
    ensures asked { OnEnding result (AsksFile F.Files files.old files.new (F.contents files.old) name.now (schedule_file image)) }
{
    let cpus = schedule(alloc, files, name, &image)?;
    Ok(play_image(alloc, image, cpus.as_slice())?)
}

/// Reads the board, and plays it by the schedule.
pub fn play<F: Files>(
    alloc: Global,
    files: &mut F,
    board: &str,
    name: &str,
) -> Result<Ending, CallFault>
    ensures ends { OnEnding result (Plays (F.contents files.old) board.now name.now) }
    ensures counted { OnEnding result (IsCountedFault (F.faults files.old) (F.faults files.new) (F.failed files.new)) }
    ensures asked { OnEnding result (AsksWithSchedule F.Files files.old files.new (F.contents files.old) board.now name.now) }
{
    let image = open(alloc, files, board)?;
    play_by(alloc, files, image, name)
}
