//! What is to be done next in a tree of tables.
ghost use Rattle.std.specs.Prelude.{◌≡◌, ℕ, ◌+◌, ◌-◌, ◌*◌, ◌<◌, ◌≤◌, false, length, IsNone, IfSome};
ghost use Rattle.jh_num.specs.declared.level.TheConstants.{LAST_LEVEL};
ghost use Rattle.jh_desc.specs.declared.descriptor.Descriptor.TheVariants.{Table as NamedTable};
ghost use Rattle.jh_desc.specs.Descriptors.{read_of};
ghost use Rattle.jh_frames.specs.Memory.{byte_at, word_in};
ghost use Rattle.jh_shape.specs.declared.want.Want.TheVariants.{Table as WantTable};
ghost use Rattle.jh_shape.specs.Claims.{claims_of};
ghost use Rattle.jh_shape.specs.Laws.{is_to_table};
ghost use Rattle.jh_shape.specs.Shapes.{want_of};
ghost use Rattle.jh_shape.specs.SoundClaims.{AreSoundClaims};
ghost use Rattle.jh_shape.specs.Wanted.{Wants};
ghost use Rattle.jh_walk.specs.Walks.{levels};
ghost use Rattle.jh_edit.specs.Private.Slots.{want_at, IsTablePlace};
ghost use Rattle.jh_edit.specs.Private.Finding.{begin_in, cursor_of, read_in, want_in, AreWantsOf, HasNoLink, IsBegun, IsDeepest, IsDone, IsFound, IsFoundIn, IsLink, IsLinkOf, IsNode, IsOwnTodo, IsTidy, IsToTakeAway, NodeStands, SlotStands};

use crate::counting::{SLOTS, any_lacking, any_wrong, descriptor};
use crate::laws::claims_want_pages_at_the_end;
use jh_desc::Descriptor;
use jh_frames::Frames;
use jh_num::{LAST_LEVEL, slot_size};
use jh_shape::{Target, Want};

/// A table that stays, by its page, the address where it begins, and the levels below it.
#[derive(Clone, Copy, PartialEq, Eq, Debug)]
pub(crate) struct Node {
    pub(crate) page: u64,
    pub(crate) start: u64,
    pub(crate) below: u8,
}

/// A slot of a table that names a table page, and the levels below the slot's table.
#[derive(Clone, Copy, PartialEq, Eq, Debug)]
pub(crate) struct Link {
    pub(crate) parent: u64,
    pub(crate) slot: u64,
    pub(crate) below: u8,
    pub(crate) page: u64,
}

/// What is to be done next.
#[derive(Clone, Copy, PartialEq, Eq, Debug)]
pub(crate) enum Todo {
    /// Take away the link to a table page without tables of its own, below a table that begins at the address.
    Prune { link: Link, start: u64 },
    /// Empty the table of leaves that aren't wanted so.
    Empty(Node),
    /// Fill in the leaves that the table lacks.
    Fill(Node),
    /// Make a table for the slot of the table.
    Make { node: Node, slot: u64 },
}

/// The first link of the table page with so many levels below it, if it has one.
fn first_link(f: &Frames, below: u8, page: u64) -> Option<Link>
    requires below { below < levels }
    requires page { IsTablePlace page }
    ensures none { IsNone result → HasNoLink (word_in (byte_at f.now)) below page }
    ensures link { IfSome result (IsLinkOf (word_in (byte_at f.now)) below page) }
{
    for slot in 0..SLOTS {
        if let Descriptor::Table { next } = descriptor(f, LAST_LEVEL - below, page, slot) {
            return Some(Link {
                parent: page,
                slot: slot as u64,
                below,
                page: next,
            });
        }
    }
    None
}

/// From a link on, the first one below to a table page without links of its own.
pub(crate) fn deepest(f: &Frames, link: Link) -> Link
    requires below { link.below < levels }
    requires link { IsLink (word_in (byte_at f.now)) link }
    ensures deep { IsDeepest (word_in (byte_at f.now)) link result }
    ensures below { result.below < levels }
{
    match first_link(f, link.below - 1, link.page) {
        Some(below) => deepest(f, below),
        None => link,
    }
}

/// The next link to go in a removal: the deepest from the first one of the first table on, which has so many levels below
/// it.
pub(crate) fn last_link(f: &Frames, below: u8, page: u64) -> Option<Link>
    requires below { below < levels }
    requires page { IsTablePlace page }
    ensures none { IsNone result → HasNoLink (word_in (byte_at f.now)) below page }
    ensures link { IfSome result (IsToTakeAway (word_in (byte_at f.now)) below page) }
{
    match first_link(f, below, page) {
        Some(link) => Some(deepest(f, link)),
        None => None,
    }
}

/// The page that the slot of the table names, where no table is wanted.
fn unwanted_page(f: &Frames, node: Node, slot: usize, want: Want) -> Option<u64>
    requires node { IsNode node }
    requires slot { slot < 512 }
    ensures none { IsNone result → is_to_table want ≡ false → (next : ℕ) → read_in (word_in (byte_at f.now)) node slot ≡ NamedTable next → ⊥ }
    ensures unwanted { IfSome result (λ next. is_to_table want ≡ false) }
    ensures named { IfSome result (λ next. read_in (word_in (byte_at f.now)) node slot ≡ NamedTable next) }
    ensures below { IfSome result (λ next. 0 < node.below) }
    ensures place { IfSome result (λ next. IsTablePlace next) }
{
    let descriptor = descriptor(f, LAST_LEVEL - node.below, node.page, slot);
    match want {
        Want::Table => None,
        _ => match descriptor {
            Descriptor::Table { next } => Some(next),
            _ => None,
        },
    }
}

/// The first link of the table that isn't wanted.
fn unwanted_link(f: &Frames, node: Node, wants: &[Want; 512]) -> Option<Link>
    requires node { IsNode node }
    ensures none { IsNone result → (slot next : ℕ) → slot < 512 → is_to_table (want_at wants.now slot) ≡ false → read_in (word_in (byte_at f.now)) node slot ≡ NamedTable next → ⊥ }
    ensures link { IfSome result (IsLinkOf (word_in (byte_at f.now)) node.below node.page) }
    ensures unwanted { IfSome result (λ (link : Link). is_to_table (want_at wants.now link.slot) ≡ false) }
{
    for slot in 0..SLOTS {
        if let Some(page) = unwanted_page(f, node, slot, wants[slot]) {
            return Some(Link {
                parent: node.page,
                slot: slot as u64,
                below: node.below,
                page,
            });
        }
    }
    None
}

/// What the table itself wants next: its first unwanted link away, its wrong leaves, or its lacking ones.
fn own_todo(f: &Frames, node: Node, wants: &[Want; 512]) -> Option<Todo>
    requires node { IsNode node }
    ensures tidy { (want : Wants) → AreWantsOf want node wants.now → IsNone result → IsTidy want (word_in (byte_at f.now)) node }
    ensures own { (want : Wants) → AreWantsOf want node wants.now → IfSome result (IsOwnTodo want (word_in (byte_at f.now)) node) }
{
    if let Some(link) = unwanted_link(f, node, wants) {
        return Some(Todo::Prune {
            link: deepest(f, link),
            start: node.start,
        });
    }
    if any_wrong(f, LAST_LEVEL - node.below, node.page, wants) {
        return Some(Todo::Empty(node));
    }
    if any_lacking(f, LAST_LEVEL - node.below, node.page, wants) {
        return Some(Todo::Fill(node));
    }
    None
}

/// What the table that stands in a slot wants next, where one is wanted.
#[cycle(find)]
fn below_todo(
    t: &Target,
    f: &Frames,
    cursor: u64,
    node: Node,
    slot: usize,
    next: u64,
) -> Option<Todo>
    requires cells { length t.now.cells.now ≤ 15 }
    requires sound { AreSoundClaims (claims_of t.now) }
    requires node { IsNode node }
    requires slot { slot < 512 }
    requires below { 0 < node.below }
    requires place { IsTablePlace next }
    requires named { read_in (word_in (byte_at f.now)) node slot ≡ NamedTable next }
    requires wants { want_in (want_of (claims_of t.now)) node slot ≡ WantTable }
    requires done { IsDone (want_of (claims_of t.now)) (word_in (byte_at f.now)) cursor node }
    ensures stands { IsNone result → SlotStands (want_of (claims_of t.now)) (word_in (byte_at f.now)) node slot }
    ensures found { IfSome result (IsFoundIn (want_of (claims_of t.now)) (word_in (byte_at f.now)) node slot) }
{
    let start = node.start + slot as u64 * slot_size(LAST_LEVEL - node.below);
    let below = Node {
        page: next,
        start,
        below: node.below - 1,
    };
    find(t, f, cursor, below)
}

/// What a slot wants next that is wanted as a table: that table, or what is wanted below it.
#[cycle(find)]
fn table_todo(t: &Target, f: &Frames, cursor: u64, node: Node, slot: usize) -> Option<Todo>
    requires cells { length t.now.cells.now ≤ 15 }
    requires sound { AreSoundClaims (claims_of t.now) }
    requires node { IsNode node }
    requires slot { slot < 512 }
    requires wants { want_in (want_of (claims_of t.now)) node slot ≡ WantTable }
    requires tidy { IsTidy (want_of (claims_of t.now)) (word_in (byte_at f.now)) node }
    requires done { IsDone (want_of (claims_of t.now)) (word_in (byte_at f.now)) cursor node }
    ensures stands { IsNone result → SlotStands (want_of (claims_of t.now)) (word_in (byte_at f.now)) node slot }
    ensures found { IfSome result (IsFoundIn (want_of (claims_of t.now)) (word_in (byte_at f.now)) node slot) }
{
    claims_want_pages_at_the_end();
    match descriptor(f, LAST_LEVEL - node.below, node.page, slot) {
        Descriptor::Table { next } => below_todo(t, f, cursor, node, slot, next),
        _ => Some(Todo::Make {
            node,
            slot: slot as u64,
        }),
    }
}

/// What a slot wants next that begins below the cursor, where nothing is left below it.
#[cycle(find)]
fn begun_todo(t: &Target, f: &Frames, cursor: u64, node: Node, slot: usize) -> Option<Todo>
    requires cells { length t.now.cells.now ≤ 15 }
    requires sound { AreSoundClaims (claims_of t.now) }
    requires node { IsNode node }
    requires slot { slot < 512 }
    requires begun { begin_in node slot < cursor }
    requires done { IsDone (want_of (claims_of t.now)) (word_in (byte_at f.now)) cursor node }
    ensures stands { IsNone result → SlotStands (want_of (claims_of t.now)) (word_in (byte_at f.now)) node slot }
    ensures found { IfSome result (IsFoundIn (want_of (claims_of t.now)) (word_in (byte_at f.now)) node slot) }
{
    match descriptor(f, LAST_LEVEL - node.below, node.page, slot) {
        Descriptor::Table { next } => below_todo(t, f, cursor, node, slot, next),
        _ => None,
    }
}

/// What a slot wants next, where that is wanted of it: nothing but what a table does.
#[cycle(find)]
fn slot_todo(
    t: &Target,
    f: &Frames,
    cursor: u64,
    node: Node,
    slot: usize,
    want: Want,
) -> Option<Todo>
    requires cells { length t.now.cells.now ≤ 15 }
    requires sound { AreSoundClaims (claims_of t.now) }
    requires node { IsNode node }
    requires slot { slot < 512 }
    requires wants { want_in (want_of (claims_of t.now)) node slot ≡ want }
    requires tidy { IsTidy (want_of (claims_of t.now)) (word_in (byte_at f.now)) node }
    requires done { IsDone (want_of (claims_of t.now)) (word_in (byte_at f.now)) cursor node }
    ensures stands { IsNone result → SlotStands (want_of (claims_of t.now)) (word_in (byte_at f.now)) node slot }
    ensures found { IfSome result (IsFoundIn (want_of (claims_of t.now)) (word_in (byte_at f.now)) node slot) }
{
    match want {
        Want::Table => table_todo(t, f, cursor, node, slot),
        _ => None,
    }
}

/// What the tables below want next, from that slot of the table on.
#[cycle(find)]
fn tables_todo(
    t: &Target,
    f: &Frames,
    cursor: u64,
    node: Node,
    wants: &[Want; 512],
    first: usize,
) -> Option<Todo>
    requires cells { length t.now.cells.now ≤ 15 }
    requires sound { AreSoundClaims (claims_of t.now) }
    requires node { IsNode node }
    requires wants { AreWantsOf (want_of (claims_of t.now)) node wants.now }
    requires tidy { IsTidy (want_of (claims_of t.now)) (word_in (byte_at f.now)) node }
    requires done { IsDone (want_of (claims_of t.now)) (word_in (byte_at f.now)) cursor node }
    requires first { first ≤ 512 }
    requires before { (slot : ℕ) → slot < first → SlotStands (want_of (claims_of t.now)) (word_in (byte_at f.now)) node slot }
    ensures stands { IsNone result → NodeStands (want_of (claims_of t.now)) (word_in (byte_at f.now)) node }
    ensures found { IfSome result (IsFound (want_of (claims_of t.now)) (word_in (byte_at f.now)) node) }
{
    for slot in first..SLOTS {
        if let Some(todo) = slot_todo(t, f, cursor, node, slot, wants[slot]) {
            return Some(todo);
        }
    }
    None
}

/// What the tables from the slot on that holds the cursor want next, of a table that begins below it: the slots before are
/// done.
#[cycle(find)]
fn rest_todo(t: &Target, f: &Frames, cursor: u64, node: Node) -> Option<Todo>
    requires cells { length t.now.cells.now ≤ 15 }
    requires sound { AreSoundClaims (claims_of t.now) }
    requires node { IsNode node }
    requires begun { node.start < cursor }
    requires done { IsDone (want_of (claims_of t.now)) (word_in (byte_at f.now)) cursor node }
    ensures stands { IsNone result → NodeStands (want_of (claims_of t.now)) (word_in (byte_at f.now)) node }
    ensures found { IfSome result (IsFound (want_of (claims_of t.now)) (word_in (byte_at f.now)) node) }
{
    claims_want_pages_at_the_end();
    let slot = (cursor - 1 - node.start) / slot_size(LAST_LEVEL - node.below);
    if slot >= SLOTS as u64 {
        return None;
    }
    let held = slot as usize;
    if let Some(todo) = begun_todo(t, f, cursor, node, held) {
        return Some(todo);
    }
    if held + 1 == SLOTS {
        return None;
    }
    let mut wants = [Want::Nothing; SLOTS];
    t.wants(LAST_LEVEL - node.below, node.start, &mut wants);
    tables_todo(t, f, cursor, node, &wants, held + 1)
}

/// What is to be done next from a table on that stays, of which nothing is left below the cursor: a table before those
/// below it, and these in order. `None` where the tables stand.
#[cycle(find)]
pub(crate) fn find(t: &Target, f: &Frames, cursor: u64, node: Node) -> Option<Todo>
    requires cells { length t.now.cells.now ≤ 15 }
    requires sound { AreSoundClaims (claims_of t.now) }
    requires node { IsNode node }
    requires done { IsDone (want_of (claims_of t.now)) (word_in (byte_at f.now)) cursor node }
    ensures stands { IsNone result → NodeStands (want_of (claims_of t.now)) (word_in (byte_at f.now)) node }
    ensures found { IfSome result (IsFound (want_of (claims_of t.now)) (word_in (byte_at f.now)) node) }
{
    if node.start < cursor {
        return rest_todo(t, f, cursor, node);
    }
    let mut wants = [Want::Nothing; SLOTS];
    t.wants(LAST_LEVEL - node.below, node.start, &mut wants);
    if let Some(todo) = own_todo(f, node, &wants) {
        return Some(todo);
    }
    tables_todo(t, f, cursor, node, &wants, 0)
}

/// The address where that begins which is to be done.
pub(crate) fn begin_of(todo: Todo) -> u64
    requires { IsBegun todo }
    ensures { result ≡ cursor_of todo }
{
    match todo {
        Todo::Prune { start, .. } => start,
        Todo::Empty(node) | Todo::Fill(node) => node.start,
        Todo::Make { node, slot } => node.start + slot * slot_size(LAST_LEVEL - node.below),
    }
}
