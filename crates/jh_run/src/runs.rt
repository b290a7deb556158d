//! A run of a board, from its opening to its last entry.
ghost use Rattle.std.specs.Prelude.{◌≡◌, ◌≢◌, ◌<◌, ◌↔◌, length, All, AllPairs, IsTrue, IfOk};
ghost use Rattle.jh_history.specs.declared.form.Form.TheVariants.{Two};
ghost use Rattle.jh_history.specs.Admitted.{IsAdmitted};
ghost use Rattle.jh_history.specs.Due.{IsLegal, IsQuiet};
ghost use Rattle.jh_history.specs.Items.{cpus_of};
ghost use Rattle.jh_history.specs.Lives.{is_on_board};
ghost use Rattle.jh_turn.specs.Ports.{AreAllPorts, opened_value};
ghost use Rattle.jh_run.specs.Drives.{SomeShows};
ghost use Rattle.jh_run.specs.Ends.{IsFullAndBusy};
ghost use Rattle.jh_run.specs.Plays.{IsBoardOf};
ghost use Rattle.jh_run.specs.Private.Driving.{last_fault};
ghost use Rattle.jh_run.specs.Running.{origin_of};

use crate::ended::Ended;
use crate::running::Running;
use crate::schedule::{cpus_of, opened};
use crate::workers::{Driven, drive_all};
use jh_board::{Board, TurnFault};
use jh_check::{nothing_is_found_in_what_is_clean, sound_bitmaps_name_few_cpus};
use jh_laws::{nothing_extends_a_quiet_journal, rounds_are_of_the_boards_cpus};
use jh_num::NoMemory;
use jh_outside::Gate;
use jh_script::Image;
use jh_turn::{Port, Shared};
use std::alloc::Global;
use std::sync::Wait;
use std::thread::Threads;

/// The callers of a board's lock: its CPUs in rising order.
fn callers_of_board(alloc: Global, image: &Image) -> Result<Vec<u8>, NoMemory>
    requires { IsAdmitted image.now }
    ensures callers { IfOk result (λ callers. callers.items ≡ cpus_of image.now) }
    ensures some { IfOk result (λ callers. 0 < length callers.items) }
    ensures differ { IfOk result (λ callers. AllPairs (λ a b. a ≢ b) callers.items) }
    ensures served { IfOk result (λ callers. All (λ cpu. IsTrue (is_on_board image.now cpu)) callers.items) }
{
    rounds_are_of_the_boards_cpus();
    nothing_is_found_in_what_is_clean(&image.system, &[]);
    sound_bitmaps_name_few_cpus(image.system.root.cpu_set.as_slice());
    // for the proof: it speaks of the answer by this name
    let callers = cpus_of(alloc, image)?;
    Ok(callers)
}

/// The image's board behind a lock, with a port for each of its CPUs.
fn open_run(
    alloc: Global,
    image: Image,
    limit: u32,
) -> Result<(Shared<Running>, Vec<Port<Running>>), NoMemory>
    requires admitted { IsAdmitted image }
    ensures origin { IfOk result (λ r. origin_of (opened_value r.0) ≡ record { image = image; limit = limit; form = Two }) }
    ensures ports { IfOk result (λ r. AreAllPorts r.0 r.1.items) }
    ensures some { IfOk result (λ r. 0 < length r.1.items) }
{
    let callers = callers_of_board(alloc, &image)?;
    let board = opened(alloc, image, limit)?;
    let running = Running {
        board,
        refused: None,
    };
    match Shared::open(alloc, running, callers.as_slice()) {
        Ok(opened) => Ok(opened),
        Err(_) => Err(NoMemory),
    }
}

/// How a run ended in which a turn was refused for this, if one was.
fn ended_by(refused: Option<TurnFault>) -> Result<Ended, NoMemory>
    ensures { IfOk result (λ ended. refused ≡ last_fault ended) }
{
    match refused {
        None => Ok(Ended::Unstopped),
        Some(TurnFault::Full) => Ok(Ended::Full),
        Some(TurnFault::NoMemory) => Err(NoMemory),
    }
}

/// The board once all ports are back, and how the run ended. What one port has seen when the workers stopped
/// tells it, and nothing came behind that.
fn end_run(shared: Shared<Running>, driven: Driven) -> Result<(Board, Ended), NoMemory>
    requires ports { AreAllPorts shared driven.ports.items }
    requires shows { SomeShows (origin_of (opened_value shared)) driven.refused driven.ports.items }
    ensures board { IfOk result (λ r. IsBoardOf (origin_of (opened_value shared)).image (origin_of (opened_value shared)).form (origin_of (opened_value shared)).limit r.0) }
    ensures legal { IfOk result (λ r. IsLegal (origin_of (opened_value shared)).image (origin_of (opened_value shared)).form r.0.entries) }
    ensures quiet { IfOk result (λ r. (r.1 ≡ Ended.Unstopped) ↔ IsQuiet (origin_of (opened_value shared)).image (origin_of (opened_value shared)).form r.0.entries) }
    ensures full { IfOk result (λ r. (r.1 ≡ Ended.Full) ↔ IsFullAndBusy (origin_of (opened_value shared)).image (origin_of (opened_value shared)).form (origin_of (opened_value shared)).limit r.0.entries) }
{
    nothing_extends_a_quiet_journal();
    let Driven { ports, refused } = driven;
    let Running { board, refused: _ } = shared.close(ports);
    // for the proof: the entries are legal, and no more than the limit
    let _ = board.journal();
    let ended = ended_by(refused)?;
    Ok((board, ended))
}

/// A worker for each CPU of the image's board, until nothing is due to any CPU or the journal is full: the calling
/// thread is one, and each other has a thread of its own. A port whose thread can't be started is driven in the calling
/// thread's own list. Each worker passes the gate before each of its turns. It waits for the workers, and may wait for
/// ever.
pub fn run<R: Threads + Wait + Sync, G: Gate + Sync>(
    rt: &R,
    alloc: Global,
    image: Image,
    gate: &G,
    limit: u32,
) -> Result<(Board, Ended), NoMemory>
    requires admitted { IsAdmitted image }
    ensures board { IfOk result (λ r. IsBoardOf image Two limit r.0) }
    ensures legal { IfOk result (λ r. IsLegal image Two r.0.entries) }
    ensures quiet { IfOk result (λ r. (r.1 ≡ Ended.Unstopped) ↔ IsQuiet image Two r.0.entries) }
    ensures full { IfOk result (λ r. (r.1 ≡ Ended.Full) ↔ IsFullAndBusy image Two limit r.0.entries) }
{
    let (shared, ports) = open_run(alloc, image, limit)?;
    let driven = drive_all(rt, alloc, &shared, ports, gate)?;
    end_run(shared, driven)
}
