//! What holds of every tree of tables, over any words. Each function does nothing; its contract is the law.
ghost use Rattle.std.specs.Prelude.{◌≡◌, ℕ, ◌+◌, ◌-◌, ◌*◌, ◌%◌, ◌<◌, ◌≤◌, Bool, IfSome, Some, None, true, false};
ghost use Rattle.jh_num.specs.declared.address.TheConstants.{ADDRESS_END};
ghost use Rattle.jh_num.specs.declared.level.TheConstants.{LAST_LEVEL};
ghost use Rattle.jh_num.specs.declared.rights.Rights.{Rights as AnyRights};
ghost use Rattle.jh_desc.specs.declared.descriptor.Hit.{Hit as AnyHit};
ghost use Rattle.jh_walk.specs.Pages.{HaveSameTables, pages_reached};
ghost use Rattle.jh_walk.specs.Walks.{levels, walk_of};
ghost use Rattle.jh_shape.specs.Claims.{Claims};
ghost use Rattle.jh_shape.specs.Grants.{IsGranted};
ghost use Rattle.jh_shape.specs.Shapes.{want_of};
ghost use Rattle.jh_shape.specs.SoundClaims.{AreSoundClaims};
ghost use Rattle.jh_shape.specs.Wanted.{Wants, slot_start, tables_under};
ghost use Rattle.jh_edit.specs.Trees.{Stands, WantsItsTables, WantsPagesAtTheEnd, lack_of, walked};
ghost use Rattle.jh_edit.specs.Tables.{WantsTablesBelowTables};
ghost use Rattle.jh_edit.specs.declared.edit.Ahead.{Ahead};
ghost use Rattle.jh_edit.specs.Plans.{EditView, HasSameWords, IsMadeTable, IsTakenOut, Plans};
ghost use Rattle.jh_edit.specs.Turns.{has_lacking_leaf, has_wrong_leaf, turns_of, EmptiesTable, FillsTable, HasNoTableTooMany, KeepsTurnsBelow, LinksTable, PrunesTable};

use jh_shape::{
    a_table_stands_where_no_leaf_serves, tables_stand_below_tables, what_is_wanted_tells_grants,
};
use jh_walk::walks_read_their_pages;

/// What is made from claims wants no table in place of a page.
pub fn claims_want_pages_at_the_end()
    ensures { (claims : Claims) → WantsPagesAtTheEnd (want_of claims) }
{
    a_table_stands_where_no_leaf_serves();
}

/// What is made from claims wants tables below tables alone.
pub fn claims_want_tables_below_tables()
    ensures { (claims : Claims) → WantsTablesBelowTables (want_of claims) }
{
    tables_stand_below_tables();
}

/// Where no turn is left, the tables stand as they are wanted; and where they stand, no turn is left.
pub fn where_nothing_is_left_tables_stand()
    ensures stand { (want : Wants) (word : ℕ → ℕ) (n table start : ℕ) → WantsPagesAtTheEnd want → start % 4096 ≡ 0
        → turns_of want word (n + 1) table start ≡ 0 → Stands want word (n + 1) table start }
    ensures left { (want : Wants) (word : ℕ → ℕ) (n table start : ℕ) → Stands want word n table start → turns_of want word n table start ≡ 0 }
{}

/// Where an edit to a target has no turn left, it has no page ahead, and the tables stand as they are wanted.
pub fn a_finished_edit_stands()
    ensures ahead { (edit : EditView) (want : Wants) (word : ℕ → ℕ) → edit.removing ≡ false → Plans edit want word → edit.left ≡ 0 → edit.ahead ≡ None }
    ensures stands { (edit : EditView) (want : Wants) (word : ℕ → ℕ) → WantsPagesAtTheEnd want → edit.removing ≡ false → Plans edit want word → edit.left ≡ 0 → Stands want word levels edit.table 0 }
{
    where_nothing_is_left_tables_stand();
}

/// Where tables stand as they are wanted, a walk gives each address what the wants alone give it.
pub fn standing_tables_walk_as_wanted()
    ensures { (want : Wants) (word : ℕ → ℕ) (n table start at : ℕ) → Stands want word n table start → walk_of word n table at ≡ walked want n start at }
{}

/// Tables that stand as they are wanted lack of other wants just the tables that those want more, where these want all
/// that the first want; and none where it is the other way round.
pub fn standing_tables_lack_the_difference()
    ensures more { (want other : Wants) (word : ℕ → ℕ) (n table start : ℕ) → WantsItsTables want other → Stands want word n table start
        → lack_of other word n table start + tables_under want n start ≡ tables_under other n start }
    ensures fewer { (want other : Wants) (word : ℕ → ℕ) (n table start : ℕ) → WantsItsTables other want → Stands want word n table start
        → lack_of other word n table start ≡ 0 }
{}

/// An edit takes at most two turns for each page that its tables reach, and two for each table that is wanted.
pub fn an_edit_is_bounded()
    ensures { (want : Wants) (word : ℕ → ℕ) (n table start : ℕ) → turns_of want word n table start ≤ 2 * pages_reached word n table + 2 * tables_under want n start }
{}

/// What the wants of sound claims give an address is what is granted there: its place, its rights and its kind of memory;
/// where they give nothing, nothing is granted.
pub fn walked_tells_grants()
    ensures found { (claims : Claims) (at : ℕ) (hit : AnyHit) → AreSoundClaims claims → at < ADDRESS_END → walked (want_of claims) levels 0 at ≡ Some hit
        → IsGranted claims at hit.out hit.rights hit.device }
    ensures nothing { (claims : Claims) (at place : ℕ) (rights : AnyRights) (device : Bool) → AreSoundClaims claims → at < ADDRESS_END → walked (want_of claims) levels 0 at ≡ None
        → IsGranted claims at place rights device → ⊥ }
{
    what_is_wanted_tells_grants();
}

/// A table that is made has no turn left but two for each table that is wanted below it.
pub fn made_tables_lack_tables_alone()
    ensures { (want : Wants) (word : ℕ → ℕ) (n table start : ℕ) → IsMadeTable want word n table start
        → turns_of want word (n + 1) table start + 2 ≡ 2 * tables_under want (n + 1) start }
{}

/// A table that has wrong leaves takes a turn less once it is emptied of them, where nothing changes below it.
pub fn an_emptied_table_takes_a_turn_less()
    ensures { (want : Wants) (word word' : ℕ → ℕ) (n table start : ℕ) → EmptiesTable want word word' n table start → KeepsTurnsBelow want word word' n table start
        → has_wrong_leaf want word n table start ≡ true
        → turns_of want word' (n + 1) table start + 1 ≡ turns_of want word (n + 1) table start }
{}

/// A table that lacks leaves takes a turn less once they are filled in, where it has no wrong leaf and no table too many,
/// and nothing changes below it.
pub fn a_filled_table_takes_a_turn_less()
    ensures { (want : Wants) (word word' : ℕ → ℕ) (n table start : ℕ) → FillsTable want word word' n table start → KeepsTurnsBelow want word word' n table start
        → has_wrong_leaf want word n table start ≡ false → HasNoTableTooMany want word n table start → has_lacking_leaf want word n table start ≡ true
        → turns_of want word' (n + 1) table start + 1 ≡ turns_of want word (n + 1) table start }
{}

/// A table takes two turns less once the table that lacked in a slot of it is linked, which has no turn left but those of the
/// tables below it that lack, and where nothing changes below the other slots.
pub fn a_linked_table_takes_two_turns_less()
    ensures { (want : Wants) (word word' : ℕ → ℕ) (n table start slot next : ℕ) → LinksTable want word word' n table start slot next → KeepsTurnsBelow want word word' n table start
        → turns_of want word' n next (slot_start (LAST_LEVEL - n) start slot) + 2 ≡ 2 * tables_under want n (slot_start (LAST_LEVEL - n) start slot)
        → turns_of want word' (n + 1) table start + 2 ≡ turns_of want word (n + 1) table start }
{}

/// A table takes a turn less once a page that isn't wanted, and has no tables of its own, is taken away from a slot of it,
/// where nothing changes below the other slots.
pub fn a_pruned_table_takes_a_turn_less()
    ensures { (want : Wants) (word word' : ℕ → ℕ) (n table start slot next : ℕ) → PrunesTable want word word' n table start slot next → KeepsTurnsBelow want word word' n table start
        → pages_reached word n next ≡ 1 → turns_of want word' (n + 1) table start + 1 ≡ turns_of want word (n + 1) table start }
{}

/// The plan of an edit stays while the words of the tables that are reached stay, and those of the page that is ahead.
pub fn plans_stay()
    ensures { (edit : EditView) (want : Wants) (word word' : ℕ → ℕ) → HaveSameTables word word' levels edit.table → IfSome edit.ahead (λ (ahead : Ahead). HasSameWords word word' ahead.page)
        → Plans edit want word → Plans edit want word' }
{
    walks_read_their_pages();
}

/// Where a table that names no other is taken out of the one that names it, a removal has one turn less left.
pub fn a_table_taken_out_is_one_turn_less()
    ensures { (word word' : ℕ → ℕ) (n table slot next : ℕ) → IsTakenOut word word' n table slot next → pages_reached word' (n + 1) table + 1 ≡ pages_reached word (n + 1) table }
{
    walks_read_their_pages();
}
