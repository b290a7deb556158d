//! What the map of a cell tells of its grants. The function does nothing; its contract is the law.
ghost use Rattle.std.specs.Prelude.{◌≡◌, ℕ};
ghost use Rattle.jh_history.specs.declared.access.Access.{Access as TheAccess};
ghost use Rattle.jh_history.specs.Grants.{granted};
ghost use Rattle.jh_history.specs.History.{facts};
ghost use Rattle.jh_board.specs.Maps.{AdmittedMap, grant_of_map};

use jh_history::legal_journals_are_sound;
use jh_map::maps_tell_each_address;

/// After a legal journal of an admitted image the map of a cell tells of each address, and of each right, exactly what
/// the cell is granted there.
pub fn maps_tell_what_is_granted()
    ensures { (m : AdmittedMap) (access : TheAccess) (at : ℕ) → grant_of_map m.id m.runs access at ≡ granted m.image (facts m.image m.form m.entries) m.id access at }
{
    legal_journals_are_sound();
    maps_tell_each_address();
}
