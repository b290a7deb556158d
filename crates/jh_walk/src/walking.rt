//! The walk.
ghost use Rattle.std.specs.Prelude.{◌≡◌, ◌+◌, ◌-◌, ◌*◌, ◌%◌, ◌<◌, ◌≤◌};
ghost use Rattle.jh_num.specs.declared.address.TheConstants.{ADDRESS_END};
ghost use Rattle.jh_desc.specs.Descriptors.{read_of};
ghost use Rattle.jh_num.specs.Levels.{slot_size};
ghost use Rattle.jh_frames.specs.Memory.{byte_at, word_in};
ghost use Rattle.jh_walk.specs.Private.Onwards.{found_on, onward_of, reads_on, IsTablePlace, LeadsToPlace};
ghost use Rattle.jh_walk.specs.Walks.{all_counted, counted, levels, probes_of, descriptor_at, walk_of};

use jh_desc::{Descriptor, Hit, index, offset, read};
use jh_frames::Frames;
use jh_num::{ADDRESS_END, FIRST_LEVEL, LAST_LEVEL, Probe, Steps, slot_size};

/// How many levels tables have.
const LEVELS: u8 = LAST_LEVEL + 1 - FIRST_LEVEL;

/// Where a descriptor leads an address.
enum Onward {
    /// To nothing: it is invalid, or the table's place isn't one of memory.
    Nowhere,
    /// To its place, by a leaf.
    Found(Hit),
    /// To the table of the next level, at that place.
    Below(u64),
}

/// The word of the address's descriptor in its table of the level, told to `steps`.
fn descriptor_word(f: &Frames, level: u8, table: u64, ipa: u64, steps: &mut Steps) -> u64
    requires level { level ≤ LAST_LEVEL }
    requires table { IsTablePlace table }
    ensures word { result ≡ word_in (byte_at f.now) (descriptor_at level table ipa) }
    ensures steps { steps.new ≡ counted steps.old (record { at = descriptor_at level table ipa; word = word_in (byte_at f.now) (descriptor_at level table ipa) }) }
{
    let at = table + 8 * index(level, ipa);
    let word = f.word(at);
    steps.probe(Probe { at, word });
    word
}

/// Where the descriptor that the word says at the level leads the address.
fn lead(word: u64, level: u8, ipa: u64) -> Onward
    requires first { FIRST_LEVEL ≤ level }
    requires last { level ≤ LAST_LEVEL }
    ensures value { result ≡ onward_of level ipa (read_of word level) }
    ensures table { LeadsToPlace result }
{
    match read(word, level) {
        Descriptor::Invalid => Onward::Nowhere,
        Descriptor::Leaf {
            out,
            rights,
            device,
        } => Onward::Found(Hit {
            out: out + offset(level, ipa),
            rights,
            device,
            span: slot_size(level),
        }),
        Descriptor::Table { next } => {
            if next < ADDRESS_END {
                Onward::Below(next)
            } else {
                Onward::Nowhere
            }
        }
    }
}

/// The first step of the walk of the levels that are left.
fn step(f: &Frames, left: u8, table: u64, ipa: u64, steps: &mut Steps) -> Onward
    requires some { 0 < left }
    requires left { left ≤ levels }
    requires table { IsTablePlace table }
    ensures value { found_on (λ next. walk_of (word_in (byte_at f.now)) (left - 1) next ipa) result ≡ walk_of (word_in (byte_at f.now)) left table ipa }
    ensures probes { all_counted steps.new (reads_on (λ next. probes_of (word_in (byte_at f.now)) (left - 1) next ipa) result) ≡ all_counted steps.old (probes_of (word_in (byte_at f.now)) left table ipa) }
    ensures table { LeadsToPlace result }
{
    let level = LAST_LEVEL + 1 - left;
    let word = descriptor_word(f, level, table, ipa, steps);
    lead(word, level, ipa)
}

/// The walk of the levels that are left.
#[tactic(auto, using(crate::proofs::WalkLemmas::walk_none, crate::proofs::WalkLemmas::probes_none))]
fn walk_from(f: &Frames, left: u8, table: u64, ipa: u64, steps: &mut Steps) -> Option<Hit>
    requires left { left ≤ levels }
    requires table { IsTablePlace table }
    ensures value { result ≡ walk_of (word_in (byte_at f.now)) left table ipa }
    ensures probes { steps.new ≡ all_counted steps.old (probes_of (word_in (byte_at f.now)) left table ipa) }
{
    if left == 0 {
        return None;
    }
    match step(f, left, table, ipa, steps) {
        Onward::Nowhere => None,
        Onward::Found(hit) => Some(hit),
        Onward::Below(next) => walk_from(f, left - 1, next, ipa, steps),
    }
}

/// What the tables give an intermediate physical address, from the first table on: the place of the very
/// address, what may be done there, the kind of memory and the size of the slot. `None` where a descriptor
/// on the way is invalid or names a table at `ADDRESS_END` or past it. Bits of the address above those of
/// the levels aren't looked at. Each descriptor that is read goes to `steps`, in order.
pub fn walk(f: &Frames, table: u64, ipa: u64, steps: &mut Steps) -> Option<Hit>
    requires aligned { table % 4096 ≡ 0 }
    requires place { table < ADDRESS_END }
    ensures value { result ≡ walk_of (word_in (byte_at f.now)) levels table ipa }
    ensures probes { steps.new ≡ all_counted steps.old (probes_of (word_in (byte_at f.now)) levels table ipa) }
{
    walk_from(f, LEVELS, table, ipa, steps)
}
