//! What a Commit does to the tables of all cells.
ghost use Rattle.std.specs.Prelude.{◌≡◌, ℕ, ◌+◌, ◌≤◌, Option, Some, None, IfSome, length, option_copied};
ghost use Rattle.jh_cellcfg.specs.declared.config.CellConfig.{CellConfig as TheConfig};
ghost use Rattle.jh_history.specs.declared.place.Place.{Place as ThePlace};
ghost use Rattle.jh_history.specs.Pages.{with_page_write};
ghost use Rattle.jh_shape.specs.Claims.{Claims, claims_of};
ghost use Rattle.jh_edit.specs.declared.stage.Seat.{Seat};
ghost use Rattle.jh_edit.specs.Forest.{IsForest};
ghost use Rattle.jh_board.specs.Pages.{byte_of, HoldsPlace, LiesAlike};
ghost use Rattle.jh_board.specs.Seats.{ids_of, AreCellSeats};
ghost use Rattle.jh_board.specs.Private.Editing.{claims_edited, claims_of_cell, coming_claims, create_of_tables, destroy_of, ids_edited, plan_of, planned_by, HasComeIf, LastsBy, MayEdit, MayWritePage, StaysIf};

use crate::cells::LiveCells;
use crate::memory::Memory;
use jh_call::Call;
use jh_cellcfg::CellConfig;
use jh_edit::{Planned, a_write_outside_tables_keeps_the_forest};
use jh_history::{Act, OpenCall, PageWrite, Phase};
use jh_shape::{Target, cell_pages, tables_are_few};

/// The cell comes, with all tables that it wants.
fn create_of(config: &CellConfig) -> Planned
    ensures { result ≡ create_of_tables config.now }
{
    tables_are_few();
    // one of its pages is its communication page
    let tables = cell_pages(config) - 1;
    Planned::Create {
        id: config.id,
        tables: tables as u32,
    }
}

/// The cell goes, if there is one.
fn destroy_of(config: Option<&CellConfig>) -> Planned
    ensures { result ≡ destroy_of (option_copied config.entry) }
{
    match config {
        Some(config) => Planned::Destroy { id: config.id },
        None => Planned::Unchanged,
    }
}

/// What the Commit of the call does to the tables of cells, where these live before it.
fn plan_of(cells: &LiveCells, call: &OpenCall) -> Planned
    ensures { result ≡ plan_of cells.now.lives call.now.call call.now.phase }
{
    match (&call.call, &call.phase) {
        (Call::Create { .. }, Phase::ToCreate { config }) => create_of(config.get()),
        (Call::Destroy { id }, _) => destroy_of(cells.live(*id)),
        _ => Planned::Unchanged,
    }
}

/// What the act does to the tables of cells, by the call that is open, if one is: a Commit alone edits them.
pub fn planned_by(cells: &LiveCells, call: Option<&OpenCall>, act: &Act) -> Option<Planned>
    ensures { result ≡ planned_by cells.now.lives (option_copied call.entry) act.now }
{
    match (act, call) {
        (Act::Commit, Some(begun)) => Some(plan_of(cells, begun)),
        _ => None,
    }
}

/// What the tables of the cell are made from, but for its communication page; where there is no cell, nothing.
fn target_of<'a>(cell: Option<&'a CellConfig>) -> Target<'a>
    ensures claims { claims_of result ≡ claims_of_cell (option_copied cell.entry) }
    ensures few { length result.cells.now ≤ 15 }
{
    match cell {
        Some(config) => Target::of_lone_cell(config.memory_regions.as_slice()),
        None => Target::of_lone_cell(&[]),
    }
}

/// What the tables of the cell that comes are made from, where these cells live after the call.
fn coming_target<'a>(cells: &'a LiveCells, planned: Planned) -> Target<'a>
    ensures claims { claims_of result ≡ coming_claims cells.now.lives planned }
    ensures few { length result.cells.now ≤ 15 }
{
    match planned {
        Planned::Create { id, .. } => target_of(cells.live(u64::from(id))),
        Planned::Unchanged | Planned::Destroy { .. } => target_of(None),
    }
}

/// Edits the tables of all cells as it is planned, if anything is, to what is wanted where root and these cells live. It takes
/// no memory.
fn make_tables(memory: &mut Memory, cells: &LiveCells, root: &CellConfig, planned: Option<Planned>)
    requires { IfSome planned (MayEdit root.now.memory_regions cells.now.lives memory.old) }
    ensures bytes { (q : ThePlace) → StaysIf planned q → byte_of memory.new q ≡ byte_of memory.old q }
    ensures held { (q : ThePlace) → StaysIf planned q → HoldsPlace memory.old q → HoldsPlace memory.new q }
    ensures forest { (claims : Seat → Claims) → IsForest claims memory.old → IsForest (claims_edited root.now.memory_regions cells.now.lives planned claims) memory.new }
    ensures still { memory.old.editing ≡ None → memory.new.editing ≡ None }
    ensures ids { ids_of memory.new ≡ ids_edited planned (ids_of memory.old) }
    ensures comms { (id : ℕ) → AreCellSeats id memory.old → AreCellSeats id memory.new }
    ensures come { HasComeIf planned memory.new }
    ensures kept { planned ≡ None → memory.new ≡ memory.old }
    ensures lies { LiesAlike memory.old memory.new }
{
    if let Some(planned) = planned {
        let root = cells.root_target(root);
        memory.edit(&root, &coming_target(cells, planned), planned);
    }
}

/// Makes what the entry does to the tables of all cells, and then writes into a communication page what the hypervisor writes.
/// It takes no memory.
pub fn make_pages(
    memory: &mut Memory,
    cells: &LiveCells,
    root: &CellConfig,
    planned: Option<Planned>,
    write: Option<PageWrite>,
)
    requires plan { IfSome planned (MayEdit root.now.memory_regions cells.now.lives memory.old) }
    requires page { MayWritePage planned memory.old write }
    ensures bytes { (q : ThePlace) → LastsBy planned q → byte_of memory.new q ≡ with_page_write write (byte_of memory.old) q }
    ensures held { (q : ThePlace) → StaysIf planned q → HoldsPlace memory.old q → HoldsPlace memory.new q }
    ensures forest { (claims : Seat → Claims) → IsForest claims memory.old → IsForest (claims_edited root.now.memory_regions cells.now.lives planned claims) memory.new }
    ensures still { memory.old.editing ≡ None → memory.new.editing ≡ None }
    ensures ids { ids_of memory.new ≡ ids_edited planned (ids_of memory.old) }
    ensures comms { (id : ℕ) → AreCellSeats id memory.old → AreCellSeats id memory.new }
    ensures lies { LiesAlike memory.old memory.new }
{
    a_write_outside_tables_keeps_the_forest();
    make_tables(memory, cells, root, planned);
    if let Some(write) = &write {
        memory.change_page(write);
    }
}
