//! What holds of every walk, over any words. Each function does nothing; its contract is the law.
ghost use Rattle.std.specs.Prelude.{◌≡◌, ◌≢◌, ℕ, ◌+◌, ◌-◌, ◌/◌, ◌%◌, ◌<◌, ◌≤◌, ◌↔◌, Option, List, AllPairs, Contains, length, option_map, sum_by, Some};
ghost use Rattle.jh_num.specs.declared.address.TheConstants.{ADDRESS_END};
ghost use Rattle.jh_desc.specs.declared.descriptor.Hit.{Hit as AnyHit};
ghost use Rattle.jh_walk.specs.Walks.{levels, probes_of, walk_of};
ghost use Rattle.jh_walk.specs.Paths.{behind, shifted, EndsAtLeaf};
ghost use Rattle.jh_walk.specs.Counts.{Step, StateWeight, IsReachedAs, count_from};
ghost use Rattle.jh_walk.specs.Pages.{Grows, HaveSameTables, HaveSameWeights, IsReached, TableChange, WasReachedOnce, counted_after, counted_before, pages_reached, times, times_before};

/// A walk gives something exactly where table descriptors, level by level from its first table on, lead to a
/// leaf.
pub fn a_walk_ends_at_a_leaf()
    ensures found { (word : ℕ → ℕ) (n table at : ℕ) (hit : AnyHit) → EndsAtLeaf word n table at hit → walk_of word n table at ≡ Some hit }
    ensures only { (word : ℕ → ℕ) (n table at : ℕ) (hit : AnyHit) → walk_of word n table at ≡ Some hit → EndsAtLeaf word n table at hit }
{}

/// What an address is given, each other address of the slot is given at its own offset.
pub fn a_hit_covers_its_slot()
    ensures { (word : ℕ → ℕ) (table at other : ℕ) (hit : AnyHit) → walk_of word levels table at ≡ Some hit
        → other / hit.span ≡ at / hit.span → walk_of word levels table other ≡ Some (shifted at other hit) }
{}

/// All addresses of a page are given places that follow one another, or none is given anything.
pub fn a_page_is_given_whole()
    ensures { (word : ℕ → ℕ) (table page k : ℕ) → page % 4096 ≡ 0 → k < 4096 → walk_of word levels table (page + k) ≡ option_map (behind k) (walk_of word levels table page) }
{}

/// What a walk gives lies below the end of places, and so does the whole slot.
pub fn a_hit_lies_below_the_end()
    ensures place { (word : ℕ → ℕ) (table at : ℕ) (hit : AnyHit) → walk_of word levels table at ≡ Some hit → hit.out < ADDRESS_END }
    ensures slot { (word : ℕ → ℕ) (table at : ℕ) (hit : AnyHit) → walk_of word levels table at ≡ Some hit → hit.out - at % hit.span + hit.span ≤ ADDRESS_END }
{}

/// An address and the place that it is given lie at the same offset in their pages.
pub fn a_hit_keeps_the_offset()
    ensures { (word : ℕ → ℕ) (table at : ℕ) (hit : AnyHit) → walk_of word levels table at ≡ Some hit → hit.out % 4096 ≡ at % 4096 }
{}

/// A walk reads a descriptor a level at most.
pub fn a_walk_reads_few()
    ensures { (word : ℕ → ℕ) (n table at : ℕ) → length (probes_of word n table at) ≤ n }
{}

/// A walk, its reads and how often each page is reached depend on the words of the pages that are reached alone. So
/// does what is counted, where these pages weigh the same.
pub fn walks_read_their_pages()
    ensures walk { (word word' : ℕ → ℕ) (n table at : ℕ) → HaveSameTables word word' n table → walk_of word' n table at ≡ walk_of word n table at }
    ensures probes { (word word' : ℕ → ℕ) (n table at : ℕ) → HaveSameTables word word' n table → probes_of word' n table at ≡ probes_of word n table at }
    ensures pages { (word word' : ℕ → ℕ) (n table q : ℕ) → HaveSameTables word word' n table → times word' n table q ≡ times word n table q }
    ensures counts { (step : Step) (weight : StateWeight) (word word' : ℕ → ℕ) (n : ℕ) (state : Option ℕ) (table : ℕ) → HaveSameTables word word' n table → HaveSameWeights weight word word' n table → count_from step weight word' n state table ≡ count_from step weight word n state table }
{}

/// A page counts exactly where it is reached: a way of table descriptors leads to it. The state in which it is
/// reached is told by any step from one state to the next.
pub fn a_page_that_counts_is_reached()
    ensures reached { (word : ℕ → ℕ) (n table page : ℕ) → 0 < times word n table page ↔ ((left : ℕ) × IsReached word n table left page) }
    ensures state { (step : Step) (word : ℕ → ℕ) (n : ℕ) (state : Option ℕ) (table page : ℕ) → 0 < times word n table page ↔ ((left : ℕ) × ((there : Option ℕ) × IsReachedAs step word n state table left there page)) }
{}

/// Pages that are listed once each, all that are reached among them, are reached as often as is counted in all.
pub fn reached_pages_are_counted()
    ensures { (word : ℕ → ℕ) (n table : ℕ) (pages : List ℕ) → AllPairs (λ (one other : ℕ). one ≢ other) pages → ((page : ℕ) → 0 < times word n table page → Contains pages page) → sum_by (times word n table) pages ≡ pages_reached word n table }
{}

/// A change within one page alone changes nothing of what is counted from a table that doesn't reach the page.
/// Where it takes 1 off what is counted from the page, it takes 1 off what is counted from a table that reaches the
/// page once; and so it is with any number that it adds or takes off.
pub fn changes_are_lifted()
    ensures elsewhere { (c : TableChange) → times_before c ≡ 0 → counted_after c c.left c.state c.table ≡ counted_before c c.left c.state c.table }
    ensures falls { (c : TableChange) (left : ℕ) (there : Option ℕ) → WasReachedOnce c left there → counted_after c left there c.page + 1 ≡ counted_before c left there c.page → counted_after c c.left c.state c.table + 1 ≡ counted_before c c.left c.state c.table }
    ensures moves { (c : TableChange) (left : ℕ) (there : Option ℕ) (less more : ℕ) → WasReachedOnce c left there → counted_after c left there c.page + less ≡ counted_before c left there c.page + more → counted_after c c.left c.state c.table + less ≡ counted_before c c.left c.state c.table + more }
{}

/// Where the words that read valid stay, in all tables that are reached, what a walk found it still finds,
/// and pages are reached no less often.
pub fn walks_grow()
    ensures walk { (word word' : ℕ → ℕ) (n table at : ℕ) (hit : AnyHit) → Grows word word' n table → walk_of word n table at ≡ Some hit → walk_of word' n table at ≡ Some hit }
    ensures pages { (word word' : ℕ → ℕ) (n table q : ℕ) → Grows word word' n table → times word n table q ≤ times word' n table q }
{}
