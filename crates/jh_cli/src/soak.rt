//! Running the board of so many rounds.
ghost use Rattle.std.specs.Prelude.{◌≡◌, ◌≤◌, ◌&&◌, nat_le, Some, None, if◌then◌else◌, IfOk};
ghost use Rattle.jh_cli.specs.Soak.{ParsesRounds, summary_line, IsSoaked, Soaks};
ghost use Rattle.jh_cli.specs.Private.Endings.{reply_of, OnEnding};

use crate::ending::{CallFault, Ending};
use crate::lines::rounds_line;
use crate::play::status_of;
use crate::status::Status;
use jh_num::NoMemory;
use jh_outside::Gate;
use jh_run::{MAX_ROUNDS, Summary, run, soak_image, summary_of};
use jh_text::MAX_ENTRIES;
use std::alloc::Global;
use std::sync::Wait;
use std::thread::Threads;

/// The number of rounds that the word tells, if it does: 1 to [`MAX_ROUNDS`] in decimal, without a sign or a leading
/// zero.
fn read_rounds(alloc: Global, word: &str) -> Result<Option<u32>, NoMemory>
    ensures { IfOk result (ParsesRounds word.now) }
{
    let Ok(rounds) = word.parse::<u32>() else {
        return Ok(None);
    };
    let written = format!(in alloc; "{rounds}")?;
    let canonical = written.as_str() == word;
    Ok(rounds_if(canonical, rounds))
}

/// The rounds, if they are as the word has them and there may be so many.
fn rounds_if(canonical: bool, rounds: u32) -> Option<u32>
    ensures { result ≡ (if canonical && (nat_le 1 rounds && nat_le rounds 400) then Some rounds else None) }
{
    if canonical && 1 <= rounds && rounds <= MAX_ROUNDS {
        Some(rounds)
    } else {
        None
    }
}

/// The line that tells what a journal comes to.
fn summary_line(alloc: Global, summary: &Summary) -> Result<Vec<u8>, NoMemory>
    ensures { IfOk result (λ text. text.items ≡ summary_line summary.now) }
{
    let Summary {
        entries,
        reads,
        writes,
        stops,
        sum,
    } = *summary;
    let text = format!(in alloc;
        "entries {entries} reads {reads} writes {writes} stops {stops} sum {sum}\n"
    )?;
    Ok(text.into_bytes())
}

/// Runs the board of so many rounds, and tells what its journal comes to.
fn run_rounds<R: Threads + Wait + Sync, G: Gate + Sync>(
    rt: &R,
    alloc: Global,
    rounds: u32,
    gate: &G,
) -> Result<Ending, NoMemory>
    requires least { 1 ≤ rounds }
    requires most { rounds ≤ 400 }
    ensures { IfOk result (λ ending. IsSoaked rounds (reply_of ending)) }
{
    let image = soak_image(alloc, rounds)?;
    let (board, ended) = run(rt, alloc, image, gate, MAX_ENTRIES as u32)?;
    let summary = summary_of(board.journal());
    Ok(Ending {
        status: status_of(ended),
        text: summary_line(alloc, &summary)?,
    })
}

/// Runs the board of as many rounds as the word tells. It waits for the workers, and may wait for ever.
pub fn soak<R: Threads + Wait + Sync, G: Gate + Sync>(
    rt: &R,
    alloc: Global,
    word: &str,
    gate: &G,
) -> Result<Ending, CallFault>
    ensures { OnEnding result (Soaks word.now) }
{
    match read_rounds(alloc, word)? {
        Some(rounds) => Ok(run_rounds(rt, alloc, rounds, gate)?),
        None => Ok(Ending {
            status: Status::Refused,
            text: rounds_line(alloc)?,
        }),
    }
}
