//! What an entry does to the management call that is open.
ghost use Rattle.std.specs.Prelude.{◌≡◌, ℕ, List, Option, false};
ghost use Rattle.jh_call.specs.declared.call.Call.TheVariants.{Create};
ghost use Rattle.jh_cellcfg.specs.declared.config.CellConfig.{CellConfig as TheConfig};
ghost use Rattle.jh_cellcfg.specs.declared.live.Live.{Live as TheLive};
ghost use Rattle.jh_shape.specs.Lives.{configs_of};
ghost use Rattle.jh_history.specs.Commits.{created, created_at, created_by};
ghost use Rattle.jh_history.specs.Calls.{is_recipient_by, first_recipient, listed_behind, telling, after_decide, after_settle, after_commit, after_note, after_noted, counted, phase_after, call_by, is_of_call, waits_for};

use crate::boxed::BoxedCell;
use crate::call::{OpenCall, Phase};
use crate::entry::{Act, Entry, Settled};
use crate::phases::is_named;
use jh_call::{Call, decode};
use jh_cellcfg::CellConfig;
use jh_num::error::EPERM;

/// The call after an entry, and the configuration of the cell that the entry creates.
#[derive(Drop)]
pub struct Called {
    pub call: Option<OpenCall>,
    pub created: Option<BoxedCell>,
}

/// The phase after an entry, and the configuration of the cell that the entry creates.
#[derive(Drop)]
struct Next {
    phase: Phase,
    created: Option<BoxedCell>,
}

/// Whether the cell is told that another, `about`, was created or destroyed.
fn is_recipient(about: u64, cell: &CellConfig) -> bool
    ensures { result ≡ is_recipient_by about cell.now }
{
    u64::from(cell.id) != about && !cell.is_passive()
}

/// The id of the first of the cells that is told that the cell `about` was created or destroyed.
fn first_recipient(about: u64, cells: &[CellConfig]) -> Option<u32>
    ensures { (lives : List TheLive) → configs_of lives ≡ cells.now → result ≡ first_recipient about lives }
{
    for cell in cells {
        if is_recipient(about, cell) {
            return Some(cell.id);
        }
    }
    None
}

/// The id of the first cell that is told, of those behind the cell with the id `id`.
fn next_recipient(about: u64, cells: &[CellConfig], id: u32) -> Option<u32>
    ensures { (lives : List TheLive) → configs_of lives ≡ cells.now → result ≡ first_recipient about (listed_behind id lives) }
{
    let mut is_behind = false;
    for cell in cells {
        if is_behind && is_recipient(about, cell) {
            return Some(cell.id);
        }
        is_behind = is_behind || cell.id == id;
    }
    None
}

/// The cell is told next, or, where there is none, the call ends with the answer.
fn telling(about: u64, answer: i64, told: Option<u32>) -> Phase
    ensures { result ≡ telling about answer told }
{
    match told {
        Some(id) => Phase::ToNote { id, about, answer },
        None => Phase::ToFinish { answer },
    }
}

/// The phase after a Decide that goes on.
fn after_go_ahead(call: &Call, coming: Option<BoxedCell>) -> Phase
    ensures { result ≡ after_decide call.now coming None }
{
    match *call {
        Call::Create { .. } => match coming {
            Some(config) => Phase::ToCreate { config },
            None => Phase::ToDecide,
        },
        _ => Phase::ToSettle { waited: 0 },
    }
}

/// The phase after a Decide.
fn after_decide(call: &Call, coming: Option<BoxedCell>, refused: Option<i64>) -> Phase
    ensures { result ≡ after_decide call.now coming refused }
{
    match refused {
        Some(answer) => Phase::ToFinish { answer },
        None => after_go_ahead(call, coming),
    }
}

/// The phase after a Settle: the Commit is next, or the end with EPERM where the cell denied.
fn after_settle(how: Settled) -> Phase
    ensures { result ≡ after_settle how }
{
    match how {
        Settled::Agreed | Settled::Timeout => Phase::ToCommit,
        Settled::Denied => Phase::ToFinish { answer: EPERM },
    }
}

/// What the Commit of a create comes to.
fn after_create(phase: Phase, cells: &[CellConfig]) -> Next
    ensures phase { (at : ℕ) (lives : List TheLive) → configs_of lives ≡ cells.now → result.phase ≡ after_commit (Create at) phase lives }
    ensures created { (at : ℕ) → result.created ≡ created (Create at) phase }
{
    match phase {
        Phase::ToCreate { config } => {
            let id = config.get().id;
            let about = u64::from(id);
            let told = first_recipient(about, cells);
            Next {
                phase: telling(about, i64::from(id), told),
                created: Some(config),
            }
        }
        _ => only(Phase::ToFinish { answer: 0 }),
    }
}

/// What a Commit comes to.
fn after_commit(call: &Call, phase: Phase, cells: &[CellConfig]) -> Next
    ensures phase { (lives : List TheLive) → configs_of lives ≡ cells.now → result.phase ≡ after_commit call.now phase lives }
    ensures created { result.created ≡ created call.now phase }
{
    match *call {
        Call::Create { .. } => after_create(phase, cells),
        Call::Destroy { id } => only(telling(id, 0, first_recipient(id, cells))),
        _ => only(Phase::ToFinish { answer: 0 }),
    }
}

/// The phase after a Note: the cell that was told is waited for, and none of its entries is counted yet.
fn after_note(phase: Phase) -> Phase
    ensures { result ≡ after_note phase }
{
    match phase {
        Phase::ToNote { id, about, answer } => Phase::ToNoted {
            id,
            about,
            answer,
            waited: 0,
        },
        phase => phase,
    }
}

/// The phase after a Noted: the next cell is told, or, where there is none, the call ends with its answer.
fn after_noted(phase: Phase, cells: &[CellConfig]) -> Phase
    ensures { (lives : List TheLive) → configs_of lives ≡ cells.now → result ≡ after_noted phase lives }
{
    match phase {
        Phase::ToNoted {
            id,
            about,
            answer,
            ..
        } => telling(about, answer, next_recipient(about, cells, id)),
        phase => phase,
    }
}

/// Whether the phase waits for an answer of the cell: to the request to shut down, or to the note of a change.
fn waits_for(phase: &Phase, call: &Call, cell: u32) -> bool
    ensures { result ≡ waits_for cell call.now phase.now }
{
    match phase {
        Phase::ToSettle { .. } => is_named(call, u64::from(cell)),
        Phase::ToNoted { id, .. } => cell == *id,
        _ => false,
    }
}

/// Counts an entry of the cell that is none of the call's own, where the phase waits for that cell.
fn count(phase: &mut Phase, call: &Call, cell: u32)
    ensures { phase.new ≡ counted cell call.now phase.old }
{
    if waits_for(phase, call, cell) {
        match phase {
            Phase::ToSettle { waited } => *waited = waited.saturating_add(1),
            Phase::ToNoted { waited, .. } => *waited = waited.saturating_add(1),
            _ => {}
        }
    }
}

/// The phase after an entry of the cell that is none of the call's own.
fn counted(cell: u32, call: &Call, phase: Phase) -> Phase
    ensures { result ≡ counted cell call.now phase }
{
    let mut phase = phase;
    count(&mut phase, call, cell);
    phase
}

/// The phase after an entry that creates no cell.
fn only(phase: Phase) -> Next
    ensures phase { result.phase ≡ phase }
    ensures created { result.created ≡ None }
{
    Next {
        phase,
        created: None,
    }
}

/// What the phase of the call comes to.
fn phase_after(
    cells: &[CellConfig],
    coming: Option<BoxedCell>,
    call: &Call,
    phase: Phase,
    entry: &Entry,
) -> Next
    ensures phase { (lives : List TheLive) → configs_of lives ≡ cells.now → result.phase ≡ phase_after lives coming entry.now.cell call.now phase entry.now.act }
    ensures created { result.created ≡ created_at call.now phase entry.now.act }
{
    match entry.act {
        Act::Decide { refused } => only(after_decide(call, coming, refused)),
        Act::Settle { how } => only(after_settle(how)),
        Act::Commit => after_commit(call, phase, cells),
        Act::Note { .. } => only(after_note(phase)),
        Act::Noted { .. } => only(after_noted(phase, cells)),
        _ => only(counted(entry.cell, call, phase)),
    }
}

/// The open call after an entry of it, or of another CPU.
fn after_entry(
    cells: &[CellConfig],
    coming: Option<BoxedCell>,
    begun: OpenCall,
    entry: &Entry,
) -> Called
    ensures phase { (lives : List TheLive) → configs_of lives ≡ cells.now
        → result.call ≡ Some (record { caller = begun.caller; call = begun.call; phase = phase_after lives coming entry.now.cell begun.call begun.phase entry.now.act }) }
    ensures created { result.created ≡ created_at begun.call begun.phase entry.now.act }
{
    let OpenCall {
        caller,
        call,
        phase,
    } = begun;
    let next = phase_after(cells, coming, &call, phase, entry);
    Called {
        call: Some(OpenCall {
            caller,
            call,
            phase: next.phase,
        }),
        created: next.created,
    }
}

/// Whether the act opens a call, takes the open one a phase further, or closes it.
pub fn is_of_call(act: &Act) -> bool
    ensures { result ≡ is_of_call act.now }
{
    match act {
        Act::Begin { .. }
        | Act::Decide { .. }
        | Act::Settle { .. }
        | Act::Commit
        | Act::Note { .. }
        | Act::Noted { .. }
        | Act::Finish { .. } => true,
        Act::Read { .. }
        | Act::Write { .. }
        | Act::Fetch { .. }
        | Act::Await { .. }
        | Act::Irq { .. }
        | Act::Hvc { .. }
        | Act::Stop => false,
    }
}

/// Makes of the open call what it is after an entry that is none of the call's own: where a phase waits for the
/// entry's cell, the entry is counted.
pub fn count_entry(call: &mut Option<OpenCall>, entry: &Entry)
    requires { is_of_call entry.now.act ≡ false }
    ensures { (lives : List TheLive) (coming : Option TheConfig) → call.new ≡ call_by lives coming call.old entry.now entry.now.act }
{
    if let Some(begun) = call {
        count(&mut begun.phase, &begun.call, entry.cell);
    }
}

/// The open call after the entry. `cells` are the configurations of the cells that live besides root before
/// it, `coming` is the configuration that the call reads, where the entry is the Decide of a create. It
/// takes no memory.
pub fn call_after(
    cells: &[CellConfig],
    coming: Option<BoxedCell>,
    call: Option<OpenCall>,
    entry: &Entry,
) -> Called
    ensures call { (lives : List TheLive) → configs_of lives ≡ cells.now → result.call ≡ call_by lives coming call entry.now entry.now.act }
    ensures created { result.created ≡ created_by call entry.now.act }
{
    match entry.act {
        Act::Begin { code, a, b } => Called {
            call: Some(OpenCall {
                caller: entry.cpu,
                call: decode(code, a, b),
                phase: Phase::ToDecide,
            }),
            created: None,
        },
        Act::Finish { .. } => Called {
            call: None,
            created: None,
        },
        _ => match call {
            Some(begun) => after_entry(cells, coming, begun, entry),
            None => Called {
                call: None,
                created: None,
            },
        },
    }
}
