//! How the edit of a call begins and ends. Each function does nothing; its contract is the law.
ghost use Rattle.std.specs.Prelude.{◌≡◌, ℕ, ◌+◌, ◌<◌, ◌≤◌, Some, None, true, sum_by};
ghost use Rattle.jh_shape.specs.Claims.{Claims};
ghost use Rattle.jh_shape.specs.Pages.{tables_of};
ghost use Rattle.jh_shape.specs.Shapes.{want_of};
ghost use Rattle.jh_walk.specs.Walks.{levels};
ghost use Rattle.jh_edit.specs.declared.stage.CellPart.{CellPart as AnyPart};
ghost use Rattle.jh_edit.specs.declared.stage.Editing.{Editing as AnyEditing};
ghost use Rattle.jh_edit.specs.declared.stage.Seat.{Seat as AnySeat};
ghost use Rattle.jh_edit.specs.declared.stage.Stage2.{Stage2 as AnyStage};
ghost use Rattle.jh_edit.specs.declared.stage.Tree.{Tree as AnyTree};
ghost use Rattle.jh_edit.specs.Ends.{claims_after, seat_pages, IsClosed, IsJustPlanned};
ghost use Rattle.jh_edit.specs.Forest.{is_root, left_of, HasSeat, IsEdit, IsForest};
ghost use Rattle.jh_edit.specs.OneTurn.{with_editing};
ghost use Rattle.jh_edit.specs.Tables.{words};
ghost use Rattle.jh_pool.specs.Pages.{used_of};
ghost use Rattle.jh_edit.specs.Trees.{lack_of, WantsItsTables};
ghost use Rattle.jh_edit.specs.Turns.{turns_of};

use crate::forest::cells_take_their_pages;
use crate::laws::{
    a_finished_edit_stands, claims_want_pages_at_the_end, standing_tables_lack_the_difference,
    where_nothing_is_left_tables_stand,
};
use jh_pool::Pool;
use jh_shape::tables_are_counted_from_the_top;

/// An edit that was just planned may be put beside the tables of all cells: they are kept, and it is under way.
pub fn a_planned_edit_keeps_the_forest()
    ensures forest { (claims : AnySeat → Claims) (editing : AnyEditing) (stage : AnyStage) → stage.editing ≡ None → IsForest claims stage → IsJustPlanned editing → IsForest claims (with_editing stage editing) }
    ensures edit { (rootward coming : Claims) (editing : AnyEditing) (stage : AnyStage) → IsEdit rootward coming stage editing → IsEdit rootward coming (with_editing stage editing) editing }
{}

/// Where the pool has as many pages as the cells have after a call, with those of a cell that comes, it has those that the
/// edit of the call takes; and where root wants no table more than before, its part takes none, so the pool has enough.
pub fn planned_edits_have_pages(pool: &Pool)
    ensures create { (claims : AnySeat → Claims) (rootward coming : Claims) (stage : AnyStage) (root : AnySeat) (tree : AnyTree) → stage.pool ≡ pool.now → stage.editing ≡ None → IsForest claims stage
        → HasSeat stage root → is_root root ≡ true → root.tree ≡ Some tree → WantsItsTables (want_of (claims root)) (want_of rootward)
        → sum_by (seat_pages (claims_after rootward coming AnyPart.Unchanged claims)) stage.seats.items + (tables_of coming + 1) ≤ stage.pool.size
        → lack_of (want_of rootward) (words stage.frames) levels tree.table 0 + ((tables_of coming + 1) + used_of stage.pool) ≤ stage.pool.size }
    ensures others { (claims : AnySeat → Claims) (rootward : Claims) (stage : AnyStage) (root : AnySeat) (tree : AnyTree) → stage.editing ≡ None → IsForest claims stage
        → HasSeat stage root → root.tree ≡ Some tree → WantsItsTables (want_of rootward) (want_of (claims root)) → lack_of (want_of rootward) (words stage.frames) levels tree.table 0 ≡ 0 }
    ensures enough { (claims : AnySeat → Claims) (rootward : Claims) (stage : AnyStage) (root : AnySeat) (tree : AnyTree) → stage.editing ≡ None → IsForest claims stage
        → HasSeat stage root → root.tree ≡ Some tree → WantsItsTables (want_of rootward) (want_of (claims root)) → lack_of (want_of rootward) (words stage.frames) levels tree.table 0 + used_of stage.pool ≤ stage.pool.size }
{
    cells_take_their_pages(pool);
    standing_tables_lack_the_difference();
    tables_are_counted_from_the_top();
}

/// Where no turn of an edit is left, the tables of all cells stand for the claims after the call, once it is closed; and so
/// they do at once where none is left of what was planned.
pub fn where_no_edit_is_left_the_forest_stands()
    ensures closed { (claims : AnySeat → Claims) (rootward coming : Claims) (editing : AnyEditing) (stage stage' : AnyStage) → stage.editing ≡ Some editing → IsForest claims stage → IsEdit rootward coming stage editing → left_of editing ≡ 0
        → IsClosed editing stage stage' → IsForest (claims_after rootward coming editing.cell claims) stage' }
    ensures unplanned { (claims : AnySeat → Claims) (rootward coming : Claims) (editing : AnyEditing) (stage : AnyStage) → stage.editing ≡ None → IsForest claims stage → IsEdit rootward coming stage editing → left_of editing ≡ 0
        → editing.cell ≡ AnyPart.Unchanged → IsForest (claims_after rootward coming editing.cell claims) stage }
{
    a_finished_edit_stands();
    claims_want_pages_at_the_end();
}

/// The tables of all cells ask of the claims only what those want of the cells that have a seat.
pub fn forests_ask_for_wants_alone()
    ensures { (claims claims' : AnySeat → Claims) (stage : AnyStage) → ((seat : AnySeat) (level start : ℕ) → HasSeat stage seat → want_of (claims' seat) level start ≡ want_of (claims seat) level start)
        → IsForest claims stage → IsForest claims' stage }
{}

/// Where a call changes no want of root, no turn of root's part is planned.
pub fn unchanged_wants_plan_nothing()
    ensures { (claims : AnySeat → Claims) (rootward : Claims) (stage : AnyStage) (root : AnySeat) (tree : AnyTree) → stage.editing ≡ None → IsForest claims stage → HasSeat stage root → root.tree ≡ Some tree
        → ((level start : ℕ) → want_of rootward level start ≡ want_of (claims root) level start) → turns_of (want_of rootward) (words stage.frames) levels tree.table 0 ≡ 0 }
{
    where_nothing_is_left_tables_stand();
}
