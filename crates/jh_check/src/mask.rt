//! Sets of CPUs, and other marks, as bits.
ghost use Rattle.std.specs.Prelude.{◌≡◌, ◌≢◌, ◌≤◌, ◌<◌, ◌||◌, ◌&&◌, ◌==◌, ℕ, false, not, length, slice_index_or};
ghost use Rattle.jh_num.specs.Bits.{has_bit};

/// The mask, with the bit of that number set too where `on`.
pub fn with_bit(mask: u16, index: usize, on: bool) -> u16
    requires { index < 16 }
    ensures here { has_bit result index ≡ (has_bit mask index || on) }
    ensures others { (k : ℕ) → k ≢ index → has_bit result k ≡ has_bit mask k }
{
    if on {
        return mask | 1 << index;
    }
    mask
}

/// The mask without the bit of that number.
pub fn without_bit(mask: u16, index: usize) -> u16
    ensures { (k : ℕ) → has_bit result k ≡ (has_bit mask k && not (k == index)) }
{
    if index < 16 {
        mask & !(1 << index)
    } else {
        mask
    }
}

/// The marks as a mask, the first as its lowest bit; at most 16 of them.
pub fn mask_of(marks: &[bool]) -> u16
    requires { length marks.now ≤ 16 }
    ensures { (i : ℕ) → has_bit result i ≡ slice_index_or marks.now i false }
{
    let mut mask = 0;
    for i in 0..marks.len() {
        mask = with_bit(mask, i, marks[i]);
    }
    mask
}
