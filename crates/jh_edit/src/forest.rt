//! What holds of the tables of all cells. Each function does nothing; its contract is the law.
ghost use Rattle.std.specs.Prelude.{◌≡◌, ℕ, None, Some, sum_by};
ghost use Rattle.jh_frames.specs.Memory.{FramesView};
ghost use Rattle.jh_shape.specs.Claims.{Claims};
ghost use Rattle.jh_edit.specs.declared.stage.Editing.{Editing as AnyEditing};
ghost use Rattle.jh_edit.specs.declared.stage.Seat.{Seat as AnySeat};
ghost use Rattle.jh_edit.specs.declared.stage.Stage2.{Stage2 as AnyStage};
ghost use Rattle.jh_edit.specs.Ends.{seat_pages};
ghost use Rattle.jh_edit.specs.Forest.{uses, with_frames, HasSeat, IsEdit, IsForest, WritesNoTable};
ghost use Rattle.jh_edit.specs.declared.stage.Tree.{Tree as AnyTree};
ghost use Rattle.jh_edit.specs.Tables.{AreTables};
ghost use Rattle.jh_pool.specs.Pages.{page_addresses, used_of};

use jh_pool::{Pool, pages_taken_once_are_counted};
use jh_shape::tables_are_counted_from_the_top;
use jh_walk::reached_pages_are_counted;

/// Where a write changes no byte of the hypervisor's memory but in communication pages, the tables of all cells are kept,
/// and so is the edit that is under way.
pub fn a_write_outside_tables_keeps_the_forest()
    ensures forest { (claims : AnySeat → Claims) (stage : AnyStage) (after : FramesView) → IsForest claims stage → WritesNoTable stage after → IsForest claims (with_frames stage after) }
    ensures edit { (claims : AnySeat → Claims) (rootward coming : Claims) (stage : AnyStage) (editing : AnyEditing) (after : FramesView) → stage.editing ≡ Some editing → IsForest claims stage
        → IsEdit rootward coming stage editing → WritesNoTable stage after → IsEdit rootward coming (with_frames stage after) editing }
{}

/// From the first table of each cell on, each page is reached once, begins at a page and is the hypervisor's.
pub fn each_cell_has_tables_of_its_own()
    ensures { (claims : AnySeat → Claims) (stage : AnyStage) (seat : AnySeat) (tree : AnyTree) → IsForest claims stage → HasSeat stage seat → seat.tree ≡ Some tree → AreTables stage.frames tree.table }
{}

/// As many pages are taken as have a use, be it as a table, as a communication page or ahead of an edit.
pub fn forests_take_their_pages(pool: &Pool)
    ensures { (claims : AnySeat → Claims) (stage : AnyStage) → stage.pool ≡ pool.now → IsForest claims stage → sum_by (uses stage) (page_addresses pool.now) ≡ used_of pool.now }
{
    pages_taken_once_are_counted(pool);
}

/// Where no edit is under way, the pages that are taken are the tables that each cell wants, and a communication page for
/// each but root.
pub fn cells_take_their_pages(pool: &Pool)
    ensures { (claims : AnySeat → Claims) (stage : AnyStage) → stage.pool ≡ pool.now → IsForest claims stage → stage.editing ≡ None → used_of pool.now ≡ sum_by (seat_pages claims) stage.seats.items }
{
    forests_take_their_pages(pool);
    reached_pages_are_counted();
    tables_are_counted_from_the_top();
}
