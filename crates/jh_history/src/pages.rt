//! What an entry writes into a communication page, for the hypervisor.
ghost use Rattle.std.specs.Prelude.{◌≡◌, ℕ, ◌&&◌, List, option_map, option_and_then, option_copied};
ghost use Rattle.jh_call.specs.declared.call.Call.TheVariants.{Create};
ghost use Rattle.jh_history.specs.declared.call.OpenCall.{OpenCall as TheOpenCall};
ghost use Rattle.jh_history.specs.declared.comm.PageChange.TheVariants.{State, Fresh};
ghost use Rattle.jh_history.specs.Commits.{created};
ghost use Rattle.jh_cpu.specs.declared.cpu.Cpu.{Cpu as TheCpu};
ghost use Rattle.jh_cellcfg.specs.declared.config.CellConfig.{CellConfig as TheConfig};
ghost use Rattle.jh_cellcfg.specs.declared.live.Live.{Live as TheLive};
ghost use Rattle.jh_num.specs.Below.{any_below};
ghost use Rattle.jh_history.specs.Facts.{Facts};
ghost use Rattle.jh_history.specs.Lives.{is_on_board, live_in};
ghost use Rattle.jh_history.specs.Cpus.{cpu_after, ListsCpus};
ghost use Rattle.jh_shape.specs.Lives.{configs_of};
ghost use Rattle.jh_history.specs.Pages.{on_page, named_cell, is_unfailed_of, failing, unless_good, asking, committing, page_write_by};

use crate::call::{OpenCall, Phase};
use crate::cells::is_on_board;
use crate::comm::{PageChange, PageWrite};
use crate::entry::{Act, Entry, Heard, Settled};
use crate::phases::named_id;
use jh_call::Call;
use jh_cellcfg::{CellConfig, MAX_CPUS};
use jh_comm::{
    MESSAGE_RECONFIG_COMPLETED, MESSAGE_SHUTDOWN_REQUEST, STATE_FAILED, STATE_RUNNING,
    STATE_SHUT_DOWN,
};
use jh_cpu::{Cpu, Mode};
use jh_script::Image;

/// A write into the page of the cell.
fn on_page(change: PageChange, cell: &CellConfig) -> PageWrite
    ensures { result ≡ on_page change cell.now }
{
    PageWrite {
        cell: cell.id,
        change,
    }
}

/// The configuration of the cell with the id among these; `None` where no cell has it.
pub(crate) fn live_in(cells: &[CellConfig], id: u64) -> Option<&CellConfig>
    ensures { (lives : List TheLive) → configs_of lives ≡ cells.now → option_copied result ≡ live_in lives id }
{
    for cell in cells {
        if u64::from(cell.id) == id {
            return Some(cell);
        }
    }
    None
}

/// The live cell that the call names.
fn named_cell<'a>(cells: &'a [CellConfig], call: &Call) -> Option<&'a CellConfig>
    ensures { (lives : List TheLive) → configs_of lives ≡ cells.now → option_copied result ≡ named_cell lives call.now }
{
    live_in(cells, named_id(call)?)
}

/// Whether the CPU is the cell's, and hasn't failed.
fn is_unfailed_of(cell: u32, cpu: Cpu) -> bool
    ensures { result ≡ is_unfailed_of cell cpu }
{
    cpu.owner == cell
        && match cpu.mode {
            Mode::Running | Mode::Parked => true,
            Mode::Failed => false,
        }
}

/// Whether one of the CPUs is the cell's, and hasn't failed.
fn is_any_unfailed(image: &Image, cell: u32, cpus: &[Cpu; MAX_CPUS]) -> bool
    ensures { (state : ℕ → TheCpu) → ListsCpus cpus.now state → result ≡ any_below (λ i. is_on_board image.now i && is_unfailed_of cell (state i)) 16 }
{
    for i in 0..MAX_CPUS as u8 {
        if is_on_board(image, i) && is_unfailed_of(cell, cpus[usize::from(i)]) {
            return true;
        }
    }
    false
}

/// A violation after which all CPUs of a cell besides root have failed puts it into the state FAILED.
fn failing(image: &Image, cpus: &[Cpu; MAX_CPUS], entry: &Entry) -> Option<PageWrite>
    ensures { (f : Facts) → ListsCpus cpus.now (cpu_after image.now f entry.now) → result ≡ failing image.now f entry.now }
{
    if entry.cell == image.system.root.id || is_any_unfailed(image, entry.cell, cpus) {
        return None;
    }
    Some(PageWrite {
        cell: entry.cell,
        change: PageChange::State(STATE_FAILED),
    })
}

/// What an access writes into a page: where it is a violation, what that writes; nothing where it is good.
fn unless_good(
    good: bool,
    image: &Image,
    cpus: &[Cpu; MAX_CPUS],
    entry: &Entry,
) -> Option<PageWrite>
    ensures { (f : Facts) → ListsCpus cpus.now (cpu_after image.now f entry.now) → result ≡ unless_good good (failing image.now f entry.now) }
{
    if good {
        return None;
    }
    failing(image, cpus, entry)
}

/// At a Decide that goes on, the cell is asked to shut down, unless it is passive.
fn asking(cells: &[CellConfig], call: &Call) -> Option<PageWrite>
    ensures { (lives : List TheLive) → configs_of lives ≡ cells.now → result ≡ asking lives call.now }
{
    let cell = named_cell(cells, call)?;
    if cell.is_passive() {
        return None;
    }
    Some(on_page(PageChange::Message(MESSAGE_SHUTDOWN_REQUEST), cell))
}

/// The change of the page, where there is a cell.
fn on_page_of(change: PageChange, cell: Option<&CellConfig>) -> Option<PageWrite>
    ensures { result ≡ option_map (on_page change) (option_copied cell.entry) }
{
    cell.map(|cell| on_page(change, cell))
}

/// A fresh page of the cell.
fn fresh_of(state: u32, window: u64, cell: Option<&CellConfig>) -> Option<PageWrite>
    ensures { result ≡ option_map (λ (c : TheConfig). on_page (Fresh state c.console window) c) (option_copied cell.entry) }
{
    let cell = cell?;
    let console = cell.console;
    let change = PageChange::Fresh {
        state,
        console,
        window,
    };
    Some(on_page(change, cell))
}

/// The configuration of the cell that the phase creates.
pub(crate) fn coming_in(phase: &Phase) -> Option<&CellConfig>
    ensures { (at : ℕ) → option_copied result ≡ created (Create at) phase.now }
{
    match phase {
        Phase::ToCreate { config } => Some(config.get()),
        _ => None,
    }
}

/// By the Commit of a create and of a start the page is fresh, by that of a set loadable its state is
/// SHUT_DOWN.
fn committing(window: u64, cells: &[CellConfig], begun: &OpenCall) -> Option<PageWrite>
    ensures { (lives : List TheLive) → configs_of lives ≡ cells.now → result ≡ committing window lives begun.now.call begun.now.phase }
{
    match begun.call {
        Call::Create { .. } => fresh_of(STATE_SHUT_DOWN, window, coming_in(&begun.phase)),
        Call::Start { id } => fresh_of(STATE_RUNNING, window, live_in(cells, id)),
        Call::Loadable { id } => {
            on_page_of(PageChange::State(STATE_SHUT_DOWN), live_in(cells, id))
        }
        _ => None,
    }
}

/// What a Decide that goes on writes.
fn at_decide(cells: &[CellConfig], call: Option<&OpenCall>) -> Option<PageWrite>
    ensures { (lives : List TheLive) → configs_of lives ≡ cells.now → result ≡ option_and_then (λ (o : TheOpenCall). asking lives o.call) (option_copied call.entry) }
{
    asking(cells, &call?.call)
}

/// What a Settle writes at which the cell's time is over.
fn at_timeout(cells: &[CellConfig], call: Option<&OpenCall>) -> Option<PageWrite>
    ensures { (lives : List TheLive) → configs_of lives ≡ cells.now
        → result ≡ option_and_then (λ (o : TheOpenCall). option_map (on_page (State STATE_FAILED)) (named_cell lives o.call)) (option_copied call.entry) }
{
    let cell = named_cell(cells, &call?.call);
    on_page_of(PageChange::State(STATE_FAILED), cell)
}

/// What a Commit writes.
fn at_commit(window: u64, cells: &[CellConfig], call: Option<&OpenCall>) -> Option<PageWrite>
    ensures { (lives : List TheLive) → configs_of lives ≡ cells.now → result ≡ option_and_then (λ (o : TheOpenCall). committing window lives o.call o.phase) (option_copied call.entry) }
{
    committing(window, cells, call?)
}

/// What the entry writes into a page, and into which. `cells` are the configurations of the cells that live
/// besides root and `call` is the call that is open, both before the entry; `cpus` are the CPUs after it.
pub fn page_write(
    image: &Image,
    cells: &[CellConfig],
    call: Option<&OpenCall>,
    cpus: &[Cpu; MAX_CPUS],
    entry: &Entry,
) -> Option<PageWrite>
    ensures { (f : Facts) → configs_of f.cells ≡ cells.now → f.call ≡ option_copied call.entry → ListsCpus cpus.now (cpu_after image.now f entry.now)
        → result ≡ page_write_by image.now f entry.now entry.now.act }
{
    match entry.act {
        Act::Read { got, .. } | Act::Fetch { got, .. } => {
            unless_good(got.is_some(), image, cpus, entry)
        }
        Act::Write { ok, .. } | Act::Await { ok, .. } => unless_good(ok, image, cpus, entry),
        Act::Note { id } => Some(PageWrite {
            cell: id,
            change: PageChange::Message(MESSAGE_RECONFIG_COMPLETED),
        }),
        Act::Noted {
            id,
            how: Heard::Timeout,
        } => Some(PageWrite {
            cell: id,
            change: PageChange::State(STATE_FAILED),
        }),
        Act::Decide { refused: None } => at_decide(cells, call),
        Act::Settle {
            how: Settled::Timeout,
        } => at_timeout(cells, call),
        Act::Commit => at_commit(image.system.platform.pci_mmconfig_base, cells, call),
        _ => None,
    }
}
