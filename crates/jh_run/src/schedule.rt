//! Schedules on one board.
ghost use Rattle.std.specs.Prelude.{◌≡◌, ◌+◌, ◌↔◌, [], ◌∷◌, ◌++◌, All, IsTrue, IfOk, OnErr};
ghost use Rattle.jh_history.specs.declared.form.Form.TheVariants.{Two};
ghost use Rattle.jh_history.specs.Due.{IsLegal, IsQuiet};
ghost use Rattle.jh_history.specs.Items.{rounds, cpus_of};
ghost use Rattle.jh_history.specs.Lives.{is_on_board};
ghost use Rattle.jh_history.specs.Admitted.{IsAdmitted};
ghost use Rattle.jh_run.specs.Plays.{Follows, IsPlayedBoard, IsFullAtItem, IsFullAtCpu};
ghost use Rattle.jh_run.specs.Private.Ran.{Ran};

use crate::ended::{Ended, how_ended};
use jh_board::{Board, TurnFault};
use jh_cellcfg::MAX_CPUS;
use jh_history::is_on_board;
use jh_laws::{items_run_until_one_is_cut_short, played_journals_are_quiet_or_full};
use jh_num::NoMemory;
use jh_script::Image;
use std::alloc::Global;

/// The board's CPUs in rising order.
#[tactic(auto, using(crate::proofs::RunLemmas::filter_below_more, crate::proofs::RunLemmas::filter_below_skip), unfolding(jh_history::specs::Items::cpus_of))]
pub fn cpus_of(alloc: Global, image: &Image) -> Result<Vec<u8>, NoMemory>
    ensures cpus { IfOk result (λ cpus. cpus.items ≡ cpus_of image.now) }
    ensures present { IfOk result (λ cpus. All (λ cpu. IsTrue (is_on_board image.now cpu)) cpus.items) }
{
    let mut cpus = Vec::new(alloc);
    for cpu in 0..MAX_CPUS as u8 {
        if is_on_board(image, cpu) {
            cpus.push(cpu)?;
        }
    }
    Ok(cpus)
}

/// A board of the image, with an empty journal of form Two.
pub fn opened(alloc: Global, image: Image, limit: u32) -> Result<Board, NoMemory>
    requires admitted { IsAdmitted image }
    ensures { IfOk result (λ board. board ≡ record { image = image; limit = limit; form = Two; entries = [] }) }
{
    match Board::open(alloc, image, limit) {
        Ok(board) => Ok(board),
        Err(_) => Err(NoMemory),
    }
}

/// One item of the CPU; tells whether the limit stopped it.
fn item(board: &mut Board, cpu: u8) -> Result<bool, NoMemory>
    requires { IsTrue (is_on_board board.old.image cpu) }
    ensures ok { IfOk result (λ full. Ran board.old (cpu ∷ []) full board.new) }
    ensures err { OnErr result (board.new ≡ board.old) }
{
    match board.make_due(cpu) {
        Ok(_) => Ok(false),
        Err(TurnFault::Full) => Ok(true),
        Err(TurnFault::NoMemory) => Err(NoMemory),
    }
}

/// The items of the CPUs, one after another; tells whether the limit stopped them.
fn follow_on(board: &mut Board, cpus: &[u8]) -> Result<bool, NoMemory>
    requires { All (λ cpu. IsTrue (is_on_board board.old.image cpu)) cpus.now }
    ensures ok { IfOk result (λ full. Ran board.old cpus.now full board.new) }
{
    for cpu in cpus {
        if item(board, *cpu)? {
            return Ok(true);
        }
    }
    Ok(false)
}

/// Rounds of the CPUs, one more than the limit, or until nothing is due; tells whether the limit
/// stopped them.
fn finish(board: &mut Board, cpus: &[u8], limit: u32) -> Result<bool, NoMemory>
    requires present { All (λ cpu. IsTrue (is_on_board board.old.image cpu)) cpus.now }
    ensures ok { IfOk result (λ full. Ran board.old (rounds (limit + 1) cpus.now) full board.new) }
{
    // for the proof: n is the number of rounds so far
    for n in 0..u64::from(limit) + 1 {
        if board.is_quiet() {
            return Ok(false);
        }
        if follow_on(board, cpus)? {
            return Ok(true);
        }
    }
    Ok(false)
}

/// The items of the schedule, and then the rounds; tells whether the limit stopped them.
fn play_on(board: &mut Board, schedule: &[u8], cpus: &[u8], limit: u32) -> Result<bool, NoMemory>
    requires schedule { All (λ cpu. IsTrue (is_on_board board.old.image cpu)) schedule.now }
    requires present { All (λ cpu. IsTrue (is_on_board board.old.image cpu)) cpus.now }
    ensures ok { IfOk result (λ full. Ran board.old (schedule.now ++ rounds (limit + 1) cpus.now) full board.new) }
{
    if follow_on(board, schedule)? {
        return Ok(true);
    }
    // for the proof: it speaks of the answer by this name
    let full = finish(board, cpus, limit)?;
    Ok(full)
}

/// Makes the items of the schedule alone, on a board of the image with a journal of form Two.
pub fn follow(
    alloc: Global,
    image: Image,
    schedule: &[u8],
    limit: u32,
) -> Result<(Board, Ended), NoMemory>
    requires admitted { IsAdmitted image }
    requires schedule { All (λ cpu. IsTrue (is_on_board image cpu)) schedule.now }
    ensures followed { IfOk result (λ r. Follows image limit schedule.now r.0 r.1) }
    ensures legal { IfOk result (λ r. IsLegal image Two r.0.entries) }
    ensures full { IfOk result (λ r. (r.1 ≡ Ended.Full) ↔ IsFullAtItem image limit schedule.now r.0.entries) }
{
    items_run_until_one_is_cut_short();
    let mut board = opened(alloc, image, limit)?;
    let full = follow_on(&mut board, schedule)?;
    // for the proof: the entries are legal, and no more than the limit
    let _ = board.journal();
    Ok((board, how_ended(full)))
}

/// Plays the schedule on a board of the image with a journal of form Two, and then rounds of all CPUs, until nothing is
/// due or the limit stops it.
pub fn play(
    alloc: Global,
    image: Image,
    schedule: &[u8],
    limit: u32,
) -> Result<(Board, Ended), NoMemory>
    requires admitted { IsAdmitted image }
    requires schedule { All (λ cpu. IsTrue (is_on_board image cpu)) schedule.now }
    ensures played { IfOk result (λ r. IsPlayedBoard image limit schedule.now r.0 r.1) }
    ensures legal { IfOk result (λ r. IsLegal image Two r.0.entries) }
    ensures quiet { IfOk result (λ r. (r.1 ≡ Ended.Unstopped) ↔ IsQuiet image Two r.0.entries) }
    ensures full { IfOk result (λ r. (r.1 ≡ Ended.Full) ↔ IsFullAtCpu image limit r.0.entries) }
{
    items_run_until_one_is_cut_short();
    played_journals_are_quiet_or_full();
    let cpus = cpus_of(alloc, &image)?;
    let mut board = opened(alloc, image, limit)?;
    let full = play_on(&mut board, schedule, cpus.as_slice(), limit)?;
    // for the proof: the entries are legal, and no more than the limit
    let _ = board.journal();
    Ok((board, how_ended(full)))
}
