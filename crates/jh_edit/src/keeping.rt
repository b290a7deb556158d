//! What the edit of a call keeps of all cells. Each function does nothing; its contract is the law.
ghost use Rattle.std.specs.Prelude.{◌≡◌, ◌⊎◌, Some};
ghost use Rattle.jh_shape.specs.Claims.{Claims};
ghost use Rattle.jh_edit.specs.declared.stage.Editing.{Editing as AnyEditing};
ghost use Rattle.jh_edit.specs.declared.stage.Seat.{Seat as AnySeat};
ghost use Rattle.jh_edit.specs.declared.stage.Stage2.{Stage2 as AnyStage};
ghost use Rattle.jh_edit.specs.Ends.{IsClosed};
ghost use Rattle.jh_edit.specs.Forest.{IsEdit, IsForest};
ghost use Rattle.jh_edit.specs.Keeping.{sitters, sitters_left, KeepsCells, SeatsOneMore};
ghost use Rattle.jh_edit.specs.OneTurn.{IsOneTurn};

use crate::laws::walked_tells_grants;

/// A turn keeps all guests' bytes, the bytes of all communication pages, and each cell's seat; only a cell that had no page
/// yet gets one.
pub fn turns_keep_the_cells()
    ensures cells { (claims : AnySeat → Claims) (rootward coming : Claims) (editing editing' : AnyEditing) (stage stage' : AnyStage) → stage.editing ≡ Some editing → IsForest claims stage → IsEdit rootward coming stage editing
        → IsOneTurn rootward coming editing editing' stage stage' → KeepsCells stage stage' }
    ensures seats { (claims : AnySeat → Claims) (rootward coming : Claims) (editing editing' : AnyEditing) (stage stage' : AnyStage) → stage.editing ≡ Some editing → IsForest claims stage → IsEdit rootward coming stage editing
        → IsOneTurn rootward coming editing editing' stage stage' → (sitters stage' ≡ sitters stage) ⊎ SeatsOneMore editing stage stage' }
{
    walked_tells_grants();
}

/// Once the edit is closed, bytes are the same, and all cells have their seat but one that went.
pub fn a_closed_edit_keeps_the_cells()
    ensures cells { (editing : AnyEditing) (stage stage' : AnyStage) → IsClosed editing stage stage' → KeepsCells stage stage' }
    ensures seats { (editing : AnyEditing) (stage stage' : AnyStage) → IsClosed editing stage stage' → sitters stage' ≡ sitters_left editing.cell (sitters stage) }
{}
