//! What holds of every list of translations. Each function does nothing; its contract is the law.
ghost use Rattle.std.specs.Prelude.{◌≡◌, ◌≢◌, ℕ, ◌<◌, ◌≤◌, ◌⊎◌, ◌↔◌, false, List, ◌∷◌, ◌++◌, [], length, Some, None, Contains, IsTrue, slice_get};
ghost use Rattle.jh_cache.specs.declared.translation.Translation.{Translation as AnyTranslation};
ghost use Rattle.jh_cache.specs.Translations.{filled, flushed, is_for, looked, newest, without, IsHeld};

/// What was filled is found, and so is all else that was there where fewer than 64 were held.
pub fn what_is_filled_is_found()
    ensures found { (t : AnyTranslation) (list : List AnyTranslation) → looked (filled t list) t.tag t.page ≡ Some t.hit }
    ensures others { (t : AnyTranslation) (list : List AnyTranslation) (tag page : ℕ) → length list < 64 → is_for tag page t ≡ false → looked (filled t list) tag page ≡ looked list tag page }
{}

/// A new translation takes the oldest one's place alone, and only where 64 are held; one that replaces
/// another of its tag and page takes no further place.
pub fn a_fill_drops_the_oldest_alone()
    ensures full { (t oldest : AnyTranslation) (list : List AnyTranslation) → length list ≡ 63 → looked (oldest ∷ list) t.tag t.page ≡ None → filled t (oldest ∷ list) ≡ list ++ t ∷ [] }
    ensures room { (t : AnyTranslation) (list : List AnyTranslation) → length list < 64 → looked list t.tag t.page ≡ None → filled t list ≡ list ++ t ∷ [] }
    ensures again { (t : AnyTranslation) (list : List AnyTranslation) → length list ≤ 64 → looked list t.tag t.page ≢ None → filled t list ≡ without (is_for t.tag t.page) list ++ t ∷ [] }
{}

/// After a flush no page has a translation of the tag, and those of other tags are as they were.
pub fn a_flush_leaves_no_translation()
    ensures gone { (list : List AnyTranslation) (tag page : ℕ) → looked (flushed tag list) tag page ≡ None }
    ensures others { (list : List AnyTranslation) (tag other page : ℕ) → other ≢ tag → looked (flushed tag list) other page ≡ looked list other page }
{}

/// A fill adds its translation, and no other.
pub fn a_fill_adds_one_alone()
    ensures { (t x : AnyTranslation) (list : List AnyTranslation) → Contains (filled t list) x → (x ≡ t) ⊎ Contains list x }
{}

/// What a fill doesn't keep is of its own tag and page, or the oldest of 64 of which none is of its tag and page.
pub fn a_fill_keeps_all_but_the_oldest()
    ensures { (t x : AnyTranslation) (list : List AnyTranslation) → length list ≤ 64 → Contains list x → Contains (filled t list) x ⊎ (IsTrue (is_for t.tag t.page x) ⊎ ((slice_get list 0 ≡ Some x) × (length list ≡ 64) × (looked list t.tag t.page ≡ None))) }
{}

/// A fill leaves the newest 64 of what isn't of its tag and page, its own the last; and so do two of different pages
/// or tags, where the list has no page with its tag twice.
pub fn fills_keep_the_newest()
    ensures one { (t : AnyTranslation) (list : List AnyTranslation) → filled t list ≡ newest 64 (without (is_for t.tag t.page) list ++ t ∷ []) }
    ensures two { (t u : AnyTranslation) (list : List AnyTranslation) → IsHeld list → is_for u.tag u.page t ≡ false → filled u (filled t list) ≡ newest 64 (without (is_for u.tag u.page) (without (is_for t.tag t.page) list) ++ t ∷ u ∷ []) }
{}

/// A flush drops the translations of its tag, and no other.
pub fn a_flush_drops_its_tag_alone()
    ensures { (list : List AnyTranslation) (tag : ℕ) (x : AnyTranslation) → Contains (flushed tag list) x ↔ ((x.tag ≢ tag) × Contains list x) }
{}

/// A list that can be held is one after a fill, and after a flush.
pub fn fills_and_flushes_leave_what_can_be_held()
    ensures filled { (t : AnyTranslation) (list : List AnyTranslation) → IsHeld list → IsHeld (filled t list) }
    ensures flushed { (list : List AnyTranslation) (tag : ℕ) → IsHeld list → IsHeld (flushed tag list) }
{}
