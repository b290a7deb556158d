//! What holds of looks. Each function does nothing; its contract is the law.
ghost use Rattle.std.specs.Prelude.{◌≡◌, ℕ, ◌+◌, ◌*◌, ◌<◌, ◌≤◌, ◌⊎◌, ◌↔◌, false, not, [], All, List, Contains, filter, length, IsSome, IsTrue, ◌++◌, map, None, Some};
ghost use Rattle.jh_num.specs.declared.address.TheConstants.{ADDRESS_END};
ghost use Rattle.jh_walk.specs.Walks.{levels};
ghost use Rattle.jh_cache.specs.declared.translation.Translation.{Translation as AnyTranslation};
ghost use Rattle.jh_cache.specs.Translations.{filled, is_for, looked, newest, IsHeld};
ghost use Rattle.jh_reach.specs.declared.access.Access.{Access as AnyAccess};
ghost use Rattle.jh_reach.specs.Places.{Sight, AreTrueTranslations, LacksPlace, hit_at, places_given};
ghost use Rattle.jh_reach.specs.Looks.{is_cached, looks_at, looks_of, pages_in, reads_of};
ghost use Rattle.jh_reach.specs.Fills.{filled_with, is_to_fill, translation_of, without_looks, IsOfAccess};

use jh_cache::{a_fill_adds_one_alone, fills_keep_the_newest, what_is_filled_is_found};
use jh_walk::{a_page_is_given_whole, a_walk_reads_few};

/// An access isn't given its places exactly where it ends past the addresses, or one of its bytes has none.
pub fn what_is_not_given_has_its_cause()
    ensures { (s : Sight) (access : AnyAccess) → places_given s access ≡ None ↔ ((ADDRESS_END < access.at + access.width) ⊎ LacksPlace s access) }
{}

/// An access to pages that the CPU has cached reads no descriptor, and any other page costs one a level at most.
pub fn a_look_reads_few()
    ensures { (s : Sight) (access : AnyAccess) → length (reads_of s access) ≤ levels * length (filter (λ page. not (is_cached s page)) (pages_in access)) }
{
    a_walk_reads_few();
}

/// Behind a fill the CPU has of each page of an access that was given its places what a walk finds.
pub fn what_was_looked_at_is_cached()
    ensures { (s : Sight) (access : AnyAccess) (page : ℕ) → AreTrueTranslations s → IsSome (places_given s access) → Contains (pages_in access) page
        → looked (filled_with s.base.tag (looks_of s access) s.cached) s.base.tag page ≡ hit_at s page }
{
    a_page_is_given_whole();
    what_is_filled_is_found();
    a_fill_of_two_keeps_both();
}

/// A fill adds translations of the access's pages, which are what walks find there, and no other.
pub fn a_fill_adds_what_walks_find()
    ensures { (s : Sight) (access : AnyAccess) (t : AnyTranslation) → Contains (filled_with s.base.tag (looks_of s access) s.cached) t → Contains s.cached t ⊎ IsOfAccess s access t }
{
    a_fill_adds_one_alone();
}

/// Where a page was missed, a fill leaves the newest 64: those that were there, without those of the pages that were
/// looked at, and then these, in order.
pub fn a_fill_leaves_the_newest()
    ensures { (s : Sight) (access : AnyAccess) → IsHeld s.cached → IsTrue (is_to_fill (looks_of s access)) → filled_with s.base.tag (looks_of s access) s.cached ≡ newest 64 (without_looks s.base.tag (looks_at s access) s.cached ++ map (translation_of s.base.tag) (looks_at s access)) }
{
    fills_keep_the_newest();
}

/// Of two translations that are filled one after another, of different pages or tags, both are found, also where the
/// list was full and the second takes the place of an older one.
pub fn a_fill_of_two_keeps_both()
    ensures first { (t u : AnyTranslation) (list : List AnyTranslation) → is_for u.tag u.page t ≡ false → looked (filled u (filled t list)) t.tag t.page ≡ Some t.hit }
    ensures second { (t u : AnyTranslation) (list : List AnyTranslation) → looked (filled u (filled t list)) u.tag u.page ≡ Some u.hit }
{
    what_is_filled_is_found();
}
