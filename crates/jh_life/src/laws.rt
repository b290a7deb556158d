//! What holds of the live cells, whatever befalls them: each law is the contract of a function that does nothing.
ghost use Rattle.std.specs.Prelude.{◌≡◌, ◌%◌, ◌<◌, ◌↔◌, ◌⊎◌, true, ℕ, ℤ, Bool, List, [], remove, slice_get, fold, map, Contains, Some, None};
ghost use Rattle.std.specs.List.{find};
ghost use Rattle.jh_num.specs.declared.address.TheConstants.{ADDRESS_END, PAGE_SIZE};
ghost use Rattle.jh_num.specs.declared.error.TheConstants.{EBUSY, EEXIST, EINVAL, ENOMEM, EPERM};
ghost use Rattle.jh_cellcfg.specs.declared.config.SystemConfig.{SystemConfig};
ghost use Rattle.jh_cellcfg.specs.declared.live.Live.{Live};
ghost use Rattle.jh_cellcfg.specs.Lives.{has_id};
ghost use Rattle.jh_life.specs.CellsView.{CellsView};
ghost use Rattle.jh_check.specs.Clean.{IsClean};
ghost use Rattle.jh_shape.specs.Lives.{configs_of, marked};
ghost use Rattle.jh_shape.specs.Pages.{cell_claims, live_root_claims};
ghost use Rattle.jh_shape.specs.SoundClaims.{AreSoundClaims};
ghost use Rattle.jh_life.specs.Changes.{CellChange, IsMarkedAt, without, after, live_after, lasting, AreNew};
ghost use Rattle.jh_life.specs.Causes.{Create, IsLetIn, verdict_on, Cause, Known, TakenCpu, BrokenRule, Overlap, FewPages, number_for, SpeaksAgainst, IsFirst};

use crate::cells::{Cells, live_cells_differ};
use jh_cellcfg::CellConfig;
use jh_check::nothing_is_refused_that_is_accepted;

/// The cell that is dropped by its index in the list is the one with its id, and the others stay with their marks.
pub fn a_cell_is_dropped_by_its_id(cells: &Cells)
    ensures { (i : ℕ) (cell : Live) → slice_get cells.now.lives i ≡ Some cell → remove cells.now.lives i ≡ without cell.config.id cells.now.lives }
{
    live_cells_differ(cells);
}

/// The cell whose mark is put by its index in the list is the one with its id, and the others stay with theirs.
pub fn a_cell_is_marked_by_its_id(cells: &Cells)
    ensures { (i : ℕ) (cell : Live) (on : Bool) (new : List Live) → slice_get cells.now.lives i ≡ Some cell → IsMarkedAt i on cells.now.lives new → new ≡ map (marked cell.config.id on) cells.now.lives }
{
    live_cells_differ(cells);
}

/// The cells are listed in order of creation: those that were created and not dropped since, and no other.
pub fn cells_are_listed_in_order_of_creation()
    ensures { (changes : List CellChange) → configs_of (fold after [] changes) ≡ lasting changes }
{}

/// Where no cell is created whose id lives, which cell with an id lives, and whether it is loadable, goes by the
/// changes of that id alone: it lives since it was last created, and is loadable as it was last set since.
pub fn a_cell_is_as_it_was_last_set()
    ensures { (id : ℕ) (changes : List CellChange) → AreNew [] changes → find (has_id id) (fold after [] changes) ≡ fold (live_after id) None changes }
{}

/// Which cells are loadable, and how much room there is, changes no verdict.
pub fn a_verdict_goes_by_the_listed_cells()
    ensures { (one other : CellsView) (create : Create) → one.system ≡ other.system → configs_of one.lives ≡ configs_of other.lives → verdict_on one create ≡ verdict_on other create }
{}

/// A new cell isn't refused exactly where no live cell is locked, neither root nor a live cell has its name or id, each
/// CPU that it names may be given away, the check finds nothing that names it, and the pages of all cells with it are
/// there.
pub fn a_cell_is_let_in_where_nothing_holds(cells: &Cells, new: &CellConfig)
    ensures { (create : Create) → create.new ≡ new.now → (verdict_on cells.now create ≡ None) ↔ IsLetIn cells.now create }
{
    nothing_is_refused_that_is_accepted(cells.system(), cells.list(), new);
}

/// A create is refused with a number exactly where that tells the first cause which speaks against it.
pub fn a_refusal_tells_its_first_cause()
    ensures { (seen : CellsView) (create : Create) (number : ℤ) → (verdict_on seen create ≡ Some number) ↔ ((cause : Cause) × IsFirst seen create cause × (number ≡ number_for cause)) }
{}

/// Where each number is told, and none: EPERM where a live cell allows no create; else EEXIST where root or a live cell
/// has the new one's name or id; else EBUSY where it names the caller's CPU or one that isn't root's; else EINVAL where
/// it breaks a rule otherwise than by places that it and another cell would have; else EBUSY where it breaks one by
/// such places; else ENOMEM where the pages are too few; and nothing where none of this holds.
pub fn each_number_has_its_causes()
    ensures locked { (seen : CellsView) (create : Create) → (verdict_on seen create ≡ Some EPERM) ↔ (create.locked ≡ true) }
    ensures known { (seen : CellsView) (create : Create) → (verdict_on seen create ≡ Some EEXIST) ↔ IsFirst seen create Known }
    ensures busy { (seen : CellsView) (create : Create) → (verdict_on seen create ≡ Some EBUSY) ↔ (IsFirst seen create TakenCpu ⊎ IsFirst seen create Overlap) }
    ensures invalid { (seen : CellsView) (create : Create) → (verdict_on seen create ≡ Some EINVAL) ↔ IsFirst seen create BrokenRule }
    ensures pages { (seen : CellsView) (create : Create) → (verdict_on seen create ≡ Some ENOMEM) ↔ IsFirst seen create FewPages }
    ensures none { (seen : CellsView) (create : Create) → (verdict_on seen create ≡ None) ↔ ((cause : Cause) → SpeaksAgainst seen create cause → ⊥) }
{}

/// Live cells in which nothing is found may be asked what their tables are to be: what root's are made from is sound, and
/// so is what those of each other cell are, wherever its communication page begins among the pages.
pub fn live_claims_are_sound()
    ensures root { (system : SystemConfig) (lives : List Live) → IsClean system (configs_of lives) → AreSoundClaims (live_root_claims system.root.memory_regions lives) }
    ensures cells { (system : SystemConfig) (lives : List Live) (live : Live) (comm : ℕ) → IsClean system (configs_of lives) → Contains lives live → comm % PAGE_SIZE ≡ 0 → comm < ADDRESS_END
        → AreSoundClaims (record (cell_claims live.config) { comm = comm }) }
{}
