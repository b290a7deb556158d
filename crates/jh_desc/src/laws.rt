//! What holds of every descriptor and every word. Each function does nothing; its contract is the law.
ghost use Rattle.std.specs.Prelude.{◌≡◌, ℕ, Bool, ◌+◌, ◌*◌, ◌%◌, ◌^◌, ◌<◌, ◌≤◌};
ghost use Rattle.jh_desc.specs.declared.descriptor.Descriptor.{Descriptor as AnyDescriptor};
ghost use Rattle.jh_desc.specs.declared.descriptor.Descriptor.TheVariants.{Table as TableOf, Leaf as LeafOf};
ghost use Rattle.jh_num.specs.declared.rights.Rights.{Rights as TheRights};
ghost use Rattle.jh_num.specs.Levels.{slot_size};
ghost use Rattle.jh_desc.specs.Descriptors.{read_of, word_of, IsWritable};

use jh_num::LAST_LEVEL;

/// What is written as a word is read from it again, and each such word has 64 bits.
pub fn what_is_written_is_read()
    ensures read { (d : AnyDescriptor) (level : ℕ) → level ≤ LAST_LEVEL → IsWritable d level → read_of (word_of d level) level ≡ d }
    ensures fits { (d : AnyDescriptor) (level : ℕ) → level ≤ LAST_LEVEL → IsWritable d level → word_of d level < 2 ^ 64 }
{}

/// A table descriptor, whatever word says it, leads to the start of a page.
pub fn addresses_of_tables_are_aligned()
    ensures { (word level next : ℕ) → read_of word level ≡ TableOf next → next % 4096 ≡ 0 }
{}

/// Bits 55 and up say nothing.
pub fn other_bits_say_nothing()
    ensures { (word high level : ℕ) → read_of (word + 2 ^ 55 * high) level ≡ read_of word level }
{}

/// The last level names no table.
pub fn a_table_is_named_above_the_last_level()
    ensures { (word next : ℕ) → read_of word LAST_LEVEL ≡ TableOf next → ⊥ }
{}

/// Whatever word says it, a table or a leaf begins below 2^48, and a leaf at a multiple of the size of its level's
/// slots.
pub fn places_are_whole_slots_below_2_to_the_48()
    ensures table { (word level next : ℕ) → read_of word level ≡ TableOf next → next < 2 ^ 48 }
    ensures leaf { (word level out : ℕ) (rights : TheRights) (device : Bool) → read_of word level ≡ LeafOf out rights device → out < 2 ^ 48 }
    ensures aligned { (word level out : ℕ) (rights : TheRights) (device : Bool) → read_of word level ≡ LeafOf out rights device → out % slot_size level ≡ 0 }
{}

/// What a level can say in a word, it can be given in a word: tables above the last level, leaves below level 0.
pub fn what_is_read_is_writable()
    ensures { (word level : ℕ) → level ≤ LAST_LEVEL → IsWritable (read_of word level) level }
{}
