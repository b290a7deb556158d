//! The edit of the tables of all cells that a call makes, whole.
ghost use Rattle.std.specs.Prelude.{◌≡◌, ◌≤◌, length, None};
ghost use Rattle.jh_shape.specs.Claims.{Claims, claims_of};
ghost use Rattle.jh_edit.specs.declared.stage.Seat.{Seat};
ghost use Rattle.jh_edit.specs.Forest.{IsForest};
ghost use Rattle.jh_edit.specs.Planned.{MayPlan};
ghost use Rattle.jh_edit.specs.Keeping.{sitters, KeepsCells};
ghost use Rattle.jh_board.specs.Private.Editing.{claims_planned, AreSeatedAfter, IsEditing};

use jh_edit::{
    Planned, Stage2, a_closed_edit_keeps_the_cells, a_planned_edit_keeps_the_forest, left_of,
    turns_keep_the_cells, where_no_edit_is_left_the_forest_stands,
};
use jh_shape::Target;

/// Makes all turns that are left of the edit of the call, which is under way.
fn make_turns(stage: &mut Stage2, root: &Target, cell: &Target, _planned: Planned, left: u64)
    requires root { length root.now.cells.now ≤ 15 }
    requires cell { length cell.now.cells.now ≤ 15 }
    requires under { IsEditing (claims_of root.now) (claims_of cell.now) _planned left stage.old stage.old }
    ensures forest { (claims : Seat → Claims) → IsForest claims stage.old → IsForest claims stage.new }
    ensures over { IsEditing (claims_of root.now) (claims_of cell.now) _planned 0 stage.old stage.new }
{
    turns_keep_the_cells();
    let mut left = left;
    while 0 < left {
        left = stage.edit_turn(root, cell);
    }
}

/// Edits the tables of all cells to what root and the cell that comes want after the call: all turns of the edit, and its
/// end. It takes no memory.
pub fn edit_tables(stage: &mut Stage2, root: &Target, cell: &Target, planned: Planned)
    requires root { length root.now.cells.now ≤ 15 }
    requires cell { length cell.now.cells.now ≤ 15 }
    requires may { MayPlan (claims_of root.now) (claims_of cell.now) stage.old planned }
    ensures forest { (claims : Seat → Claims) → IsForest claims stage.old → IsForest (claims_planned (claims_of root.now) (claims_of cell.now) planned claims) stage.new }
    ensures still { stage.new.editing ≡ None }
    ensures cells { KeepsCells stage.old stage.new }
    ensures seats { AreSeatedAfter planned (sitters stage.old) (sitters stage.new) }
{
    a_planned_edit_keeps_the_forest();
    where_no_edit_is_left_the_forest_stands();
    a_closed_edit_keeps_the_cells();
    let editing = stage.plan(root, planned);
    let left = left_of(&editing);
    stage.editing = Some(editing);
    make_turns(stage, root, cell, planned, left);
    stage.close();
}
