//! Tables, pages and turns, counted from a table on.
ghost use Rattle.std.specs.Prelude.{◌≡◌, ℕ, ◌+◌, ◌-◌, ◌*◌, ◌%◌, ◌<◌, ◌≤◌, length};
ghost use Rattle.jh_num.specs.declared.address.TheConstants.{ADDRESS_END};
ghost use Rattle.jh_num.specs.declared.level.TheConstants.{LAST_LEVEL};
ghost use Rattle.jh_num.specs.Below.{any_below, sum_below};
ghost use Rattle.jh_num.specs.Levels.{slot_size};
ghost use Rattle.jh_desc.specs.Descriptors.{read_of};
ghost use Rattle.jh_frames.specs.Memory.{byte_at, word_in};
ghost use Rattle.jh_shape.specs.Claims.{claims_of};
ghost use Rattle.jh_shape.specs.Shapes.{want_of};
ghost use Rattle.jh_shape.specs.SoundClaims.{AreSoundClaims};
ghost use Rattle.jh_shape.specs.Wanted.{if_table, slot_start, tables_under};
ghost use Rattle.jh_walk.specs.Counts.{by_next};
ghost use Rattle.jh_walk.specs.Pages.{pages_reached};
ghost use Rattle.jh_walk.specs.Walks.{levels};
ghost use Rattle.jh_edit.specs.Turns.{is_wanted_leaf, is_wrong_leaf, lacks_leaf, turn_if, turns_of};
ghost use Rattle.jh_edit.specs.Private.Slots.{lacks_at, slot_turns, wrong_at, IsTableStart, IsTablePlace, LeadsToTable};

use jh_desc::{Descriptor, addresses_of_tables_are_aligned, read};
use jh_frames::Frames;
use jh_num::{FIRST_LEVEL, LAST_LEVEL, slot_size};
use jh_shape::{Target, Want};

/// How many levels tables have.
pub(crate) const LEVELS: u8 = LAST_LEVEL + 1 - FIRST_LEVEL;

/// How many slots a table has.
pub(crate) const SLOTS: usize = 512;

/// What the slot's descriptor says, of the table of the level.
pub(crate) fn descriptor(f: &Frames, level: u8, table: u64, slot: usize) -> Descriptor
    requires last { level ≤ LAST_LEVEL }
    requires table { IsTablePlace table }
    requires slot { slot < 512 }
    ensures value { result ≡ read_of (word_in (byte_at f.now) (table + 8 * slot)) level }
    ensures table { LeadsToTable level result }
{
    addresses_of_tables_are_aligned();
    read(f.word(table + 8 * slot as u64), level)
}

/// How many pages the table reaches, itself among them.
#[cycle(pages)]
pub(crate) fn pages_from(f: &Frames, left: u8, table: u64) -> u32
    requires left { left ≤ levels }
    requires table { IsTablePlace table }
    ensures value { result ≡ pages_reached (word_in (byte_at f.now)) left table }
    ensures few { result ≤ 1 + 512 * 262657 }
{
    if left == 0 {
        return 0;
    }
    let level = LAST_LEVEL + 1 - left;
    let mut pages = 1;
    for slot in 0..SLOTS {
        pages += pages_at(f, left - 1, descriptor(f, level, table, slot));
    }
    pages
}

/// How many pages the descriptor reaches, with so many levels below it.
#[cycle(pages)]
fn pages_at(f: &Frames, left: u8, descriptor: Descriptor) -> u32
    requires left { left < levels }
    requires table { LeadsToTable (LAST_LEVEL - left) descriptor }
    ensures value { result ≡ by_next (pages_reached (word_in (byte_at f.now)) left) descriptor }
    ensures few { result ≤ 262657 }
{
    match descriptor {
        Descriptor::Table { next } => pages_from(f, left, next),
        _ => 0,
    }
}

/// How many tables are wanted from a table on that begins at the address, itself among them.
#[cycle(tables)]
pub(crate) fn tables_from(t: &Target, left: u8, start: u64) -> u32
    requires cells { length t.now.cells.now ≤ 15 }
    requires sound { AreSoundClaims (claims_of t.now) }
    requires left { left ≤ levels }
    requires start { IsTableStart left start }
    ensures value { result ≡ tables_under (want_of (claims_of t.now)) left start }
    ensures few { result ≤ 1 + 512 * 262657 }
{
    if left == 0 {
        return 0;
    }
    // slots of pages lead to no table, so what is wanted of them isn't asked
    if left == 1 {
        return 1;
    }
    let level = LAST_LEVEL + 1 - left;
    let mut wants = [Want::Nothing; SLOTS];
    t.wants(level, start, &mut wants);
    let size = slot_size(level);
    let mut tables = 1;
    for slot in 0..SLOTS {
        tables += tables_at(t, left - 1, start + slot as u64 * size, wants[slot]);
    }
    tables
}

/// How many tables are wanted from a slot on, where that is wanted of it.
#[cycle(tables)]
fn tables_at(t: &Target, left: u8, start: u64, want: Want) -> u32
    requires cells { length t.now.cells.now ≤ 15 }
    requires sound { AreSoundClaims (claims_of t.now) }
    requires left { left < levels }
    requires start { IsTableStart left start }
    ensures value { result ≡ if_table (tables_under (want_of (claims_of t.now)) left start) want }
    ensures few { result ≤ 262657 }
{
    match want {
        Want::Table => tables_from(t, left, start),
        _ => 0,
    }
}

/// Whether the descriptor is just the leaf that is wanted.
fn is_wanted_leaf(want: Want, descriptor: Descriptor) -> bool
    ensures { result ≡ is_wanted_leaf want descriptor }
{
    match (want, descriptor) {
        (
            Want::Leaf {
                out,
                rights,
                device,
            },
            Descriptor::Leaf {
                out: place,
                rights: allowed,
                device: kind,
            },
        ) => place == out && allowed == rights && kind == device,
        _ => false,
    }
}

/// Whether the descriptor is a leaf that isn't wanted so.
pub(crate) fn is_wrong_leaf(want: Want, descriptor: Descriptor) -> bool
    ensures { result ≡ is_wrong_leaf want descriptor }
{
    match descriptor {
        Descriptor::Leaf { .. } => !is_wanted_leaf(want, descriptor),
        _ => false,
    }
}

/// Whether a leaf is wanted, and the descriptor isn't just that one.
pub(crate) fn lacks_leaf(want: Want, descriptor: Descriptor) -> bool
    ensures { result ≡ lacks_leaf want descriptor }
{
    match want {
        Want::Leaf { .. } => !is_wanted_leaf(want, descriptor),
        _ => false,
    }
}

/// Whether a slot of the table has a leaf that isn't wanted so.
pub(crate) fn any_wrong(f: &Frames, level: u8, table: u64, wants: &[Want; 512]) -> bool
    requires last { level ≤ LAST_LEVEL }
    requires table { IsTablePlace table }
    ensures { result ≡ any_below (wrong_at wants.now (word_in (byte_at f.now)) level table) 512 }
{
    for slot in 0..SLOTS {
        if is_wrong_leaf(wants[slot], descriptor(f, level, table, slot)) {
            return true;
        }
    }
    false
}

/// Whether a slot of the table lacks the leaf that is wanted there.
pub(crate) fn any_lacking(f: &Frames, level: u8, table: u64, wants: &[Want; 512]) -> bool
    requires last { level ≤ LAST_LEVEL }
    requires table { IsTablePlace table }
    ensures { result ≡ any_below (lacks_at wants.now (word_in (byte_at f.now)) level table) 512 }
{
    for slot in 0..SLOTS {
        if lacks_leaf(wants[slot], descriptor(f, level, table, slot)) {
            return true;
        }
    }
    false
}

/// One turn where the test holds, else none.
fn turn_if(test: bool) -> u32
    ensures value { result ≡ turn_if test }
    ensures few { result ≤ 1 }
{
    if test { 1 } else { 0 }
}

/// How many turns are left from a table on that stays and begins at the address.
#[cycle(turns)]
pub(crate) fn turns_from(t: &Target, f: &Frames, left: u8, table: u64, start: u64) -> u32
    requires cells { length t.now.cells.now ≤ 15 }
    requires sound { AreSoundClaims (claims_of t.now) }
    requires left { left ≤ levels }
    requires table { IsTablePlace table }
    requires start { IsTableStart left start }
    ensures value { result ≡ turns_of (want_of (claims_of t.now)) (word_in (byte_at f.now)) left table start }
    ensures few { result ≤ 4 + 4 * 512 * 262657 }
{
    if left == 0 {
        return 0;
    }
    let level = LAST_LEVEL + 1 - left;
    let mut wants = [Want::Nothing; SLOTS];
    t.wants(level, start, &mut wants);
    let wrong = any_wrong(f, level, table, &wants);
    let lacking = any_lacking(f, level, table, &wants);
    let size = slot_size(level);
    let mut turns = turn_if(wrong) + turn_if(lacking);
    for slot in 0..SLOTS {
        let descriptor = descriptor(f, level, table, slot);
        turns += turns_at(
            t,
            f,
            left - 1,
            start + slot as u64 * size,
            wants[slot],
            descriptor,
        );
    }
    turns
}

/// How many turns are left in a slot of a table that stays, with so many levels below it, where that is wanted and that
/// stands there, but for those of the leaves of the table.
#[cycle(turns)]
fn turns_at(t: &Target, f: &Frames, left: u8, start: u64, want: Want, descriptor: Descriptor) -> u32
    requires cells { length t.now.cells.now ≤ 15 }
    requires sound { AreSoundClaims (claims_of t.now) }
    requires left { left < levels }
    requires table { LeadsToTable (LAST_LEVEL - left) descriptor }
    requires start { IsTableStart left start }
    ensures value { result ≡ slot_turns (want_of (claims_of t.now)) (word_in (byte_at f.now)) left start want descriptor }
    ensures few { result ≤ 4 * 262657 }
{
    match want {
        Want::Table => match descriptor {
            Descriptor::Table { next } => turns_from(t, f, left, next, start),
            _ => 2 * tables_from(t, left, start),
        },
        _ => pages_at(f, left, descriptor),
    }
}
