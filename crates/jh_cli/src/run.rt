//! Running a board, with a worker for each of its CPUs.
ghost use Rattle.std.specs.Prelude.{IfOk, []};
ghost use Rattle.jh_history.specs.Admitted.{IsAdmitted};
ghost use Rattle.jh_cli.specs.Order.{AsksBoardAlone};
ghost use Rattle.jh_cli.specs.Run.{IsToldRun, Runs};
ghost use Rattle.jh_cli.specs.Reading.{IsCountedFault};
ghost use Rattle.jh_cli.specs.Private.Endings.{reply_of, OnEnding};

use crate::boards::open;
use crate::ending::{CallFault, Ending};
use crate::play::status_of;
use jh_num::NoMemory;
use jh_outside::{Files, Gate};
use jh_run::run as run_board;
use jh_script::Image;
use jh_text::{MAX_ENTRIES, print_journal};
use std::alloc::Global;
use std::sync::Wait;
use std::thread::Threads;

/// Runs the image, and tells its journal.
fn run_image<R: Threads + Wait + Sync, G: Gate + Sync>(
    rt: &R,
    alloc: Global,
    image: Image,
    gate: &G,
) -> Result<Ending, NoMemory>
    requires { IsAdmitted image }
    ensures { IfOk result (λ ending. IsToldRun image (reply_of ending)) }
{
    let (board, ended) = run_board(rt, alloc, image, gate, MAX_ENTRIES as u32)?;
    let text = print_journal(alloc, board.journal())?;
    Ok(Ending {
        status: status_of(ended),
        text,
    })
}

/// Reads the board, and runs it. It waits for the workers, and may wait for ever.
pub fn run<R: Threads + Wait + Sync, F: Files, G: Gate + Sync>(
    rt: &R,
    alloc: Global,
    files: &mut F,
    board: &str,
    gate: &G,
) -> Result<Ending, CallFault>
    ensures ends { OnEnding result (Runs (F.contents files.old) board.now) }
    ensures counted { OnEnding result (IsCountedFault (F.faults files.old) (F.faults files.new) (F.failed files.new)) }
    ensures asked { OnEnding result (AsksBoardAlone F.Files files.old files.new (F.contents files.old) board.now) }
{
    let image = open(alloc, files, board)?;
    Ok(run_image(rt, alloc, image, gate)?)
}
