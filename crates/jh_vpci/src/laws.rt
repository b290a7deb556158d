//! What holds of configuration space whatever a guest writes. Each function does nothing; its contract is
//! the law.
ghost use Rattle.std.specs.Prelude.{◌≡◌, ◌≢◌, ℕ, ◌+◌, ◌-◌, ◌*◌, ◌%◌, ◌<◌, ◌⊎◌};
ghost use Rattle.std.specs.Int.{bit_at};
ghost use Rattle.jh_vpci.specs.Words.{word_of, word_offset, read_of};
ghost use Rattle.jh_vpci.specs.Writes.{written, writable_bits, IsPut};

use crate::config::ConfigSpace;

/// A write gives the bits of its bytes that can be written the value's, and leaves all others as they
/// were: those of its word and those of every other word.
pub fn a_write_reaches_its_writable_bits(
    _space: &ConfigSpace,
    _at: u16,
    _width: u8,
    _value: u32,
    _bit: u8,
)
    requires width { (_width ≡ 1) ⊎ (_width ≡ 2) ⊎ (_width ≡ 4) }
    requires aligned { _at % _width ≡ 0 }
    requires bit { _bit < 32 }
    ensures put { IsPut _space.now _at _width _bit
        → bit_at (word_of (written _space.now _at _width _value) (word_offset _at)) _bit ≡ bit_at _value (_bit - 8 * (_at % 4)) }
    ensures kept { ¬ IsPut _space.now _at _width _bit
        → bit_at (word_of (written _space.now _at _width _value) (word_offset _at)) _bit ≡ bit_at (word_of _space.now (word_offset _at)) _bit }
    ensures others { (offset : ℕ) → offset ≢ word_offset _at
        → word_of (written _space.now _at _width _value) offset ≡ word_of _space.now offset }
{
    // for the proof: the invariant, and that the vectors are less than 256
    let _vectors = _space.spec.vectors;
}

/// A read of the bytes just written gives the value where its bits can be written, and elsewhere what it
/// gave before.
pub fn a_read_gives_what_was_written(
    _space: &ConfigSpace,
    _at: u16,
    _width: u8,
    _value: u32,
    _bit: u8,
)
    requires width { (_width ≡ 1) ⊎ (_width ≡ 2) ⊎ (_width ≡ 4) }
    requires aligned { _at % _width ≡ 0 }
    requires bit { _bit < 8 * _width }
    ensures put { bit_at (writable_bits _space.now (word_offset _at)) (8 * (_at % 4) + _bit) ≡ 1
        → bit_at (read_of (written _space.now _at _width _value) _at _width) _bit ≡ bit_at _value _bit }
    ensures kept { bit_at (writable_bits _space.now (word_offset _at)) (8 * (_at % 4) + _bit) ≢ 1
        → bit_at (read_of (written _space.now _at _width _value) _at _width) _bit ≡ bit_at (read_of _space.now _at _width) _bit }
{
    // for the proof: the invariant, and that the vectors are less than 256
    let _vectors = _space.spec.vectors;
}
