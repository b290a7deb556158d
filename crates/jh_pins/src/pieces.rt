//! What runs of pins have in common, and what they leave of one another. Lists of runs are in order of chip and number.
ghost use Rattle.std.specs.Prelude.{◌≡◌, ◌++◌, Bool, IfOk, OnOk, MatchBool};
ghost use Rattle.std.specs.List.{slice_get};
ghost use Rattle.jh_pins.specs.declared.pin.Pin.{Pin as ThePin};
ghost use Rattle.jh_pins.specs.Runs.{pin_of, StandsBefore, AreRuns};
ghost use Rattle.jh_pins.specs.Private.Pieces.{is_common, is_without, pieces, EndsBy, IsPast, IsUpTo, IsReached, IsPieceOf, IsBetween, IsMeeting};

use crate::pin::PinRun;
use jh_num::NoMemory;
use std::alloc::Global;

/// Puts the run at the end, if there is one.
fn push_piece(runs: &mut Vec<PinRun>, piece: Option<PinRun>) -> Result<(), NoMemory>
    ensures { OnOk result (runs.new.items ≡ runs.old.items ++ pieces piece) }
{
    if let Some(run) = piece {
        runs.push(run)?;
    }
    Ok(())
}

/// The run at the index, if there is one.
fn run_at(runs: &[PinRun], index: usize) -> Option<PinRun>
    ensures { result ≡ slice_get runs.now index }
{
    runs.get(index).copied()
}

/// Whether the one run ends no later than the other.
fn ends_by(one: PinRun, other: PinRun) -> bool
    ensures { MatchBool result (EndsBy one other) (EndsBy other one) }
{
    one.chip < other.chip || one.chip == other.chip && one.last <= other.last
}

/// Whether there is a run, and it begins no later than the other ends.
fn is_reached(run: Option<PinRun>, other: PinRun) -> bool
    ensures { MatchBool result (IsReached run other) (IsUpTo run (pin_of other.chip other.last)) }
{
    match run {
        Some(run) => run.chip < other.chip || run.chip == other.chip && run.first <= other.last,
        None => false,
    }
}

/// What the two runs have in common.
fn meeting(one: PinRun, other: PinRun) -> Option<PinRun>
    ensures { IsMeeting one other result }
{
    if one.chip != other.chip {
        return None;
    }
    let chip = one.chip;
    let first = one.first.max(other.first);
    let last = one.last.min(other.last);
    if first <= last {
        Some(PinRun { chip, first, last })
    } else {
        None
    }
}

/// What of the run is behind the other, if there is one.
fn behind(run: PinRun, past: Option<PinRun>) -> Option<PinRun>
    ensures { IsBetween run past None result }
{
    let Some(other) = past else {
        return Some(run);
    };
    if other.chip < run.chip || other.chip == run.chip && other.last < run.first {
        return Some(run);
    }
    if other.chip == run.chip && other.last < run.last {
        let first = other.last + 1;
        return Some(PinRun { first, ..run });
    }
    None
}

/// What of the run is before the other, if there is one.
fn before(run: PinRun, next: Option<PinRun>) -> Option<PinRun>
    ensures { IsBetween run None next result }
{
    let Some(other) = next else {
        return Some(run);
    };
    if run.chip < other.chip || run.chip == other.chip && run.last < other.first {
        return Some(run);
    }
    if run.chip == other.chip && run.first < other.first {
        let last = other.first - 1;
        return Some(PinRun { last, ..run });
    }
    None
}

/// What of the run is behind the one other and before the other.
fn between(run: PinRun, past: Option<PinRun>, next: Option<PinRun>) -> Option<PinRun>
    ensures { IsBetween run past next result }
{
    match behind(run, past) {
        Some(rest) => before(rest, next),
        None => None,
    }
}

/// The runs of the pins that both have.
pub fn common(alloc: Global, runs: &[PinRun], others: &[PinRun]) -> Result<Vec<PinRun>, NoMemory>
    ensures { IfOk result (λ met. (has other : ThePin → Bool) → AreRuns has runs.now → AreRuns other others.now → AreRuns (is_common has other) met.items) }
{
    let mut met = Vec::new(alloc);
    let mut i = 0;
    let mut j = 0;
    // the label names the loop for the proof
    'both_left: while i < runs.len() && j < others.len() {
        let run = runs[i];
        let other = others[j];
        push_piece(&mut met, meeting(run, other))?;
        if ends_by(run, other) {
            i += 1;
        } else {
            j += 1;
        }
    }
    Ok(met)
}

/// The runs of the pins that the first have and the others haven't.
pub fn without(alloc: Global, runs: &[PinRun], others: &[PinRun]) -> Result<Vec<PinRun>, NoMemory>
    ensures { IfOk result (λ left. (has other : ThePin → Bool) → AreRuns has runs.now → AreRuns other others.now → AreRuns (is_without has other) left.items) }
{
    let mut left = Vec::with_capacity(alloc, runs.len())?;
    let mut past = None;
    let mut i = 0;
    let mut j = 0;
    // the label names the loop for the proof
    'some_left: while i < runs.len() {
        let run = runs[i];
        let next = run_at(others, j);
        push_piece(&mut left, between(run, past, next))?;
        if is_reached(next, run) {
            past = next;
            j += 1;
        } else {
            i += 1;
        }
    }
    Ok(left)
}
