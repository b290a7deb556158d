//! One turn's work on the tables.
ghost use Rattle.std.specs.Prelude.{◌≡◌, ℕ, ◌+◌, ◌-◌, ◌*◌, ◌<◌, ◌≤◌, None, Some, false, length, map, true};
ghost use Rattle.jh_num.specs.declared.address.TheConstants.{ADDRESS_END};
ghost use Rattle.jh_frames.specs.Memory.{AreOwnBytes};
ghost use Rattle.jh_pool.specs.Pages.{used_of, IsTakenPage, PoolView};
ghost use Rattle.jh_cache.specs.Translations.{flushed};
ghost use Rattle.jh_shape.specs.Claims.{claims_of};
ghost use Rattle.jh_shape.specs.Shapes.{want_of};
ghost use Rattle.jh_shape.specs.SoundClaims.{AreSoundClaims};
ghost use Rattle.jh_shape.specs.Wanted.{Wants};
ghost use Rattle.jh_walk.specs.Pages.{pages_reached, times};
ghost use Rattle.jh_walk.specs.Walks.{levels};
ghost use Rattle.jh_edit.specs.Trees.{lack_of};
ghost use Rattle.jh_edit.specs.Tables.{words, AreTables, IsPoolOf};
ghost use Rattle.jh_edit.specs.Moves.{IsCleared, Move as AnyMove};
ghost use Rattle.jh_edit.specs.Private.Slots.{IsTablePlace};
ghost use Rattle.jh_edit.specs.Private.Finding.{IsLink, IsToEmpty, IsToFill, IsToMake, IsTodo};
ghost use Rattle.jh_edit.specs.Private.Steps.{link_of, root_of, AnyCache, IsDeed, IsGivenBack, IsPageChanged};

use crate::counting::LEVELS;
use crate::edit::Ahead;
use crate::finding::{Link, Node, Todo, last_link};
use crate::writing::{Writing, write_table};
use jh_cache::Cache;
use jh_desc::what_is_written_is_read;
use jh_frames::Frames;
use jh_num::{LAST_LEVEL, slot_size};
use jh_pool::Pool;
use jh_shape::{Target, a_wanted_leaf_may_be_written};

/// Takes the link away, and gives its page back.
pub(crate) fn prune(link: Link, f: &mut Frames, p: &mut Pool, c: &mut Cache, tag: u8)
    requires own { AreOwnBytes f.old.own link.parent 4096 }
    requires link { IsLink (words f.old) link }
    requires last { pages_reached (words f.old) link.below link.page ≡ 1 }
    requires taken { IsTakenPage p.old link.page }
    ensures cleared { IsCleared (words f.old) (words f.new) (link_of link) }
    ensures memory { IsPageChanged link.parent f.old f.new }
    ensures pool { IsGivenBack link.page p.old p.new }
    ensures cache { c.new ≡ map (flushed tag) c.old }
{
    f.set_word(link.parent + 8 * link.slot, 0);
    p.give(link.page);
    c.flush(tag);
}

/// One turn of a removal: the next link goes, or where there is none the first table.
pub(crate) fn take_away(table: u64, f: &mut Frames, p: &mut Pool, c: &mut Cache, tag: u8)
    requires place { IsTablePlace table }
    requires tables { AreTables f.old table }
    requires taken { (page : ℕ) → 0 < times (words f.old) levels table page → IsTakenPage p.old page }
    ensures { (want : Wants) → (move : AnyMove) × IsDeed tag want table true None None f.old f.new p.old p.new c.old c.new move }
{
    match last_link(f, LEVELS - 1, table) {
        Some(link) => prune(link, f, p, c, tag),
        None => {
            p.give(table);
            c.flush(tag);
        }
    }
}

/// Empties the table of the leaves that aren't wanted so.
pub(crate) fn empty(table: u64, node: Node, t: &Target, f: &mut Frames, c: &mut Cache, tag: u8)
    requires cells { length t.now.cells.now ≤ 15 }
    requires sound { AreSoundClaims (claims_of t.now) }
    requires tables { AreTables f.old table }
    requires node { IsToEmpty (want_of (claims_of t.now)) (words f.old) (root_of table) node }
    ensures { (p : PoolView) → (move : AnyMove) × IsDeed tag (want_of (claims_of t.now)) table false None None f.old f.new p p c.old c.new move }
{
    write_table(t, f, Writing::Empty, node.below + 1, node.page, node.start);
    c.flush(tag);
}

/// Fills in the leaves that the table lacks.
pub(crate) fn fill(table: u64, node: Node, t: &Target, f: &mut Frames)
    requires cells { length t.now.cells.now ≤ 15 }
    requires sound { AreSoundClaims (claims_of t.now) }
    requires tables { AreTables f.old table }
    requires node { IsToFill (want_of (claims_of t.now)) (words f.old) (root_of table) node }
    ensures { (tag : ℕ) (p : PoolView) (c : AnyCache) → (move : AnyMove) × IsDeed tag (want_of (claims_of t.now)) table false None None f.old f.new p p c c move }
{
    a_wanted_leaf_may_be_written();
    what_is_written_is_read();
    write_table(t, f, Writing::Fill, node.below + 1, node.page, node.start);
}

/// Takes a page and makes it a table for the slot of the table, with nothing in it but the leaves that are wanted. The table
/// isn't linked yet.
pub(crate) fn make(
    table: u64,
    node: Node,
    slot: u64,
    t: &Target,
    f: &mut Frames,
    p: &mut Pool,
) -> Option<Ahead>
    requires cells { length t.now.cells.now ≤ 15 }
    requires sound { AreSoundClaims (claims_of t.now) }
    requires end { f.old.own.base + length f.old.own.bytes ≤ ADDRESS_END }
    requires gap { IsToMake (want_of (claims_of t.now)) (words f.old) (root_of table) node slot }
    requires taken { (page : ℕ) → 0 < times (words f.old) levels table page → IsTakenPage p.old page }
    requires pool { IsPoolOf p.old f.old }
    requires room { used_of p.old < p.old.size }
    ensures { (tag : ℕ) (c : AnyCache) → (move : AnyMove) × IsDeed tag (want_of (claims_of t.now)) table false None result f.old f.new p.old p.new c c move }
{
    a_wanted_leaf_may_be_written();
    what_is_written_is_read();
    let page = p.take()?;
    let start = node.start + slot * slot_size(LAST_LEVEL - node.below);
    write_table(t, f, Writing::Make, node.below, page, start);
    Some(Ahead {
        at: node.page + 8 * slot,
        page,
    })
}

/// Does what is to be done, and tells the page that is ahead after it.
pub(crate) fn mend(
    todo: Todo,
    table: u64,
    t: &Target,
    f: &mut Frames,
    p: &mut Pool,
    c: &mut Cache,
    tag: u8,
) -> Option<Ahead>
    requires cells { length t.now.cells.now ≤ 15 }
    requires sound { AreSoundClaims (claims_of t.now) }
    requires tables { AreTables f.old table }
    requires end { f.old.own.base + length f.old.own.bytes ≤ ADDRESS_END }
    requires todo { IsTodo (want_of (claims_of t.now)) (words f.old) (root_of table) todo }
    requires taken { (page : ℕ) → 0 < times (words f.old) levels table page → IsTakenPage p.old page }
    requires pool { IsPoolOf p.old f.old }
    requires room { lack_of (want_of (claims_of t.now)) (words f.old) levels table 0 + used_of p.old ≤ p.old.size }
    ensures { (move : AnyMove) × IsDeed tag (want_of (claims_of t.now)) table false None result f.old f.new p.old p.new c.old c.new move }
{
    match todo {
        Todo::Prune { link, .. } => {
            prune(link, f, p, c, tag);
            None
        }
        Todo::Empty(node) => {
            empty(table, node, t, f, c, tag);
            None
        }
        Todo::Fill(node) => {
            fill(table, node, t, f);
            None
        }
        Todo::Make { node, slot } => make(table, node, slot, t, f, p),
    }
}
