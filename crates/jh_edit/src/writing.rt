//! One table page written.
ghost use Rattle.std.specs.Prelude.{◌≡◌, ℕ, ◌+◌, ◌-◌, ◌*◌, ◌%◌, ◌<◌, ◌≤◌, length};
ghost use Rattle.jh_num.specs.declared.address.TheConstants.{ADDRESS_END};
ghost use Rattle.jh_num.specs.declared.level.TheConstants.{LAST_LEVEL};
ghost use Rattle.jh_desc.specs.Descriptors.{IsWritable};
ghost use Rattle.jh_frames.specs.Memory.{byte_at, word_in, AreOwnBytes};
ghost use Rattle.jh_shape.specs.Claims.{claims_of};
ghost use Rattle.jh_shape.specs.Shapes.{want_of};
ghost use Rattle.jh_shape.specs.SoundClaims.{AreSoundClaims};
ghost use Rattle.jh_shape.specs.Wanted.{slot_start};
ghost use Rattle.jh_walk.specs.Walks.{levels};
ghost use Rattle.jh_edit.specs.Private.Slots.{want_at, IsTableStart};
ghost use Rattle.jh_edit.specs.Private.Written.{made_of, word_after};

use crate::counting::{SLOTS, is_wrong_leaf, lacks_leaf};
use jh_desc::{Descriptor, read, word};
use jh_frames::Frames;
use jh_num::LAST_LEVEL;
use jh_shape::{Target, Want, a_wanted_leaf_may_be_written};

/// How a table is written.
#[derive(Clone, Copy, PartialEq, Eq, Debug)]
pub(crate) enum Writing {
    /// Leaves that aren't wanted so become invalid.
    Empty,
    /// Leaves that lack are written.
    Fill,
    /// All words are written: the leaves that are wanted, and invalid ones for all else.
    Make,
}

/// The descriptor of a page that is made, where that is wanted.
fn made(want: Want) -> Descriptor
    ensures { result ≡ made_of want }
{
    match want {
        Want::Leaf {
            out,
            rights,
            device,
        } => Descriptor::Leaf {
            out,
            rights,
            device,
        },
        _ => Descriptor::Invalid,
    }
}

/// The word of a slot after it is written, where that is wanted of it and that stood there.
fn word_after(how: Writing, level: u8, want: Want, old: u64) -> u64
    requires last { level ≤ LAST_LEVEL }
    requires writable { IsWritable (made_of want) level }
    ensures { result ≡ word_after how level want old }
{
    match how {
        Writing::Empty => {
            if is_wrong_leaf(want, read(old, level)) {
                0
            } else {
                old
            }
        }
        Writing::Fill => {
            if lacks_leaf(want, read(old, level)) {
                word(made(want), level)
            } else {
                old
            }
        }
        Writing::Make => word(made(want), level),
    }
}

/// Writes the word at the place, where it changes.
fn put(f: &mut Frames, at: u64, new: u64)
    requires own { AreOwnBytes f.old.own at 8 }
    requires place { at + 8 ≤ ADDRESS_END }
    ensures base { f.new.own.base ≡ f.old.own.base }
    ensures size { length f.new.own.bytes ≡ length f.old.own.bytes }
    ensures guest { f.new.guest ≡ f.old.guest }
    ensures at { word_in (byte_at f.new) at ≡ new }
    ensures below { (q : ℕ) → q < at → byte_at f.new q ≡ byte_at f.old q }
    ensures above { (q : ℕ) → at + 8 ≤ q → byte_at f.new q ≡ byte_at f.old q }
    ensures words_below { (q : ℕ) → q + 8 ≤ at → word_in (byte_at f.new) q ≡ word_in (byte_at f.old) q }
    ensures words_above { (q : ℕ) → at + 8 ≤ q → word_in (byte_at f.new) q ≡ word_in (byte_at f.old) q }
{
    if f.word(at) == new {
        return;
    }
    f.set_word(at, new);
}

/// Writes the words of the page, each by what is wanted of its slot.
fn write_each(f: &mut Frames, how: Writing, level: u8, page: u64, wants: &[Want; 512])
    requires last { level ≤ LAST_LEVEL }
    requires own { AreOwnBytes f.old.own page 4096 }
    requires place { page + 4096 ≤ ADDRESS_END }
    requires writable { (slot : ℕ) → slot < 512 → IsWritable (made_of (want_at wants.now slot)) level }
    ensures base { f.new.own.base ≡ f.old.own.base }
    ensures size { length f.new.own.bytes ≡ length f.old.own.bytes }
    ensures guest { f.new.guest ≡ f.old.guest }
    ensures words { (slot : ℕ) → slot < 512 → word_in (byte_at f.new) (page + 8 * slot) ≡ word_after how level (want_at wants.now slot) (word_in (byte_at f.old) (page + 8 * slot)) }
    ensures below { (q : ℕ) → q < page → byte_at f.new q ≡ byte_at f.old q }
    ensures above { (q : ℕ) → page + 4096 ≤ q → byte_at f.new q ≡ byte_at f.old q }
{
    for slot in 0..SLOTS {
        let at = page + 8 * slot as u64;
        put(f, at, word_after(how, level, wants[slot], f.word(at)));
    }
}

/// Writes the page of a table with so many levels left, which begins at the address, by what is wanted of its slots.
pub(crate) fn write_table(t: &Target, f: &mut Frames, how: Writing, left: u8, page: u64, start: u64)
    requires cells { length t.now.cells.now ≤ 15 }
    requires sound { AreSoundClaims (claims_of t.now) }
    requires some { 0 < left }
    requires left { left ≤ levels }
    requires start { IsTableStart left start }
    requires own { AreOwnBytes f.old.own page 4096 }
    requires place { page + 4096 ≤ ADDRESS_END }
    ensures base { f.new.own.base ≡ f.old.own.base }
    ensures size { length f.new.own.bytes ≡ length f.old.own.bytes }
    ensures guest { f.new.guest ≡ f.old.guest }
    ensures words { (slot : ℕ) → slot < 512 → word_in (byte_at f.new) (page + 8 * slot) ≡ word_after how (LAST_LEVEL + 1 - left) (want_of (claims_of t.now) (LAST_LEVEL + 1 - left) (slot_start (LAST_LEVEL + 1 - left) start slot)) (word_in (byte_at f.old) (page + 8 * slot)) }
    ensures below { (q : ℕ) → q < page → byte_at f.new q ≡ byte_at f.old q }
    ensures above { (q : ℕ) → page + 4096 ≤ q → byte_at f.new q ≡ byte_at f.old q }
{
    a_wanted_leaf_may_be_written();
    let level = LAST_LEVEL + 1 - left;
    let mut wants = [Want::Nothing; SLOTS];
    t.wants(level, start, &mut wants);
    write_each(f, how, level, page, &wants);
}
