//! What the turns of an edit do to the tables of all cells. Each function does nothing; its contract is the law.
ghost use Rattle.std.specs.Prelude.{◌≡◌, ℕ, ◌+◌, ◌<◌, ◌≤◌, Some};
ghost use Rattle.jh_shape.specs.Claims.{Claims};
ghost use Rattle.jh_shape.specs.Wanted.{Wants};
ghost use Rattle.jh_edit.specs.declared.stage.Editing.{Editing as AnyEditing};
ghost use Rattle.jh_edit.specs.declared.stage.Seat.{Seat as AnySeat};
ghost use Rattle.jh_edit.specs.declared.stage.Stage2.{Stage2 as AnyStage};
ghost use Rattle.jh_edit.specs.Forest.{left_of, IsEdit, IsForest};
ghost use Rattle.jh_edit.specs.Plans.{EditView};
ghost use Rattle.jh_edit.specs.Stages.{IsBuildTurn, IsFreshTurn, IsRemoveTurn, IsRootTurn};

use crate::laws::walked_tells_grants;
use jh_shape::{a_wanted_leaf_may_be_written, tables_are_counted_from_the_top};

/// A turn of root's tables keeps the tables of all cells and the edit, with one turn less left.
pub fn turns_of_root_keep_the_forest()
    ensures forest { (claims : AnySeat → Claims) (rootward coming : Claims) (editing editing' : AnyEditing) (stage stage' : AnyStage) → stage.editing ≡ Some editing → IsForest claims stage → IsEdit rootward coming stage editing
        → IsRootTurn rootward editing editing' stage stage' → IsForest claims stage' }
    ensures edit { (claims : AnySeat → Claims) (rootward coming : Claims) (editing editing' : AnyEditing) (stage stage' : AnyStage) → stage.editing ≡ Some editing → IsForest claims stage → IsEdit rootward coming stage editing
        → IsRootTurn rootward editing editing' stage stage' → IsEdit rootward coming stage' editing' }
    ensures left { (rootward : Claims) (editing editing' : AnyEditing) (stage stage' : AnyStage) → IsRootTurn rootward editing editing' stage stage' → left_of editing' + 1 ≡ left_of editing }
{
    walked_tells_grants();
}

/// So does a turn of the tables of the cell that comes.
pub fn turns_of_a_coming_cell_keep_the_forest()
    ensures forest { (claims : AnySeat → Claims) (rootward coming : Claims) (id : ℕ) (edit edit' : EditView) (editing editing' : AnyEditing) (stage stage' : AnyStage) → stage.editing ≡ Some editing → IsForest claims stage → IsEdit rootward coming stage editing
        → IsBuildTurn coming id edit edit' editing editing' stage stage' → IsForest claims stage' }
    ensures edit { (claims : AnySeat → Claims) (rootward coming : Claims) (id : ℕ) (edit edit' : EditView) (editing editing' : AnyEditing) (stage stage' : AnyStage) → stage.editing ≡ Some editing → IsForest claims stage → IsEdit rootward coming stage editing
        → IsBuildTurn coming id edit edit' editing editing' stage stage' → IsEdit rootward coming stage' editing' }
    ensures left { (coming : Claims) (id : ℕ) (edit edit' : EditView) (editing editing' : AnyEditing) (stage stage' : AnyStage) → IsBuildTurn coming id edit edit' editing editing' stage stage' → left_of editing' + 1 ≡ left_of editing }
{
    walked_tells_grants();
}

/// And one of the removal of the tables of the cell that goes.
pub fn turns_of_a_removal_keep_the_forest()
    ensures forest { (claims : AnySeat → Claims) (rootward coming : Claims) (want : Wants) (id : ℕ) (edit edit' : EditView) (editing editing' : AnyEditing) (stage stage' : AnyStage) → stage.editing ≡ Some editing → IsForest claims stage
        → IsEdit rootward coming stage editing → IsRemoveTurn want id edit edit' editing editing' stage stage' → IsForest claims stage' }
    ensures edit { (claims : AnySeat → Claims) (rootward coming : Claims) (want : Wants) (id : ℕ) (edit edit' : EditView) (editing editing' : AnyEditing) (stage stage' : AnyStage) → stage.editing ≡ Some editing → IsForest claims stage
        → IsEdit rootward coming stage editing → IsRemoveTurn want id edit edit' editing editing' stage stage' → IsEdit rootward coming stage' editing' }
    ensures left { (want : Wants) (id : ℕ) (edit edit' : EditView) (editing editing' : AnyEditing) (stage stage' : AnyStage) → IsRemoveTurn want id edit edit' editing editing' stage stage' → left_of editing' + 1 ≡ left_of editing }
{}

/// The turn in which a cell gets its first pages keeps the tables of all cells and the edit, and leaves two turns less.
pub fn a_fresh_cell_keeps_the_forest()
    ensures forest { (claims : AnySeat → Claims) (rootward coming : Claims) (id bound : ℕ) (edit' : EditView) (editing editing' : AnyEditing) (stage stage' : AnyStage) → stage.editing ≡ Some editing → IsForest claims stage → IsEdit rootward coming stage editing
        → IsFreshTurn coming id bound edit' editing editing' stage stage' → IsForest claims stage' }
    ensures edit { (claims : AnySeat → Claims) (rootward coming : Claims) (id bound : ℕ) (edit' : EditView) (editing editing' : AnyEditing) (stage stage' : AnyStage) → stage.editing ≡ Some editing → IsForest claims stage → IsEdit rootward coming stage editing
        → IsFreshTurn coming id bound edit' editing editing' stage stage' → IsEdit rootward coming stage' editing' }
    ensures left { (claims : AnySeat → Claims) (rootward coming : Claims) (id bound : ℕ) (edit' : EditView) (editing editing' : AnyEditing) (stage stage' : AnyStage) → stage.editing ≡ Some editing → IsForest claims stage → IsEdit rootward coming stage editing
        → IsFreshTurn coming id bound edit' editing editing' stage stage' → left_of editing' + 2 ≡ left_of editing }
{
    a_wanted_leaf_may_be_written();
    tables_are_counted_from_the_top();
}
