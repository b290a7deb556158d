//! Numbers that the bytes at an access's places spell.
ghost use Rattle.std.specs.Prelude.{◌≡◌, ℕ, ◌+◌, ◌-◌, ◌<◌, ◌≤◌, ◌^◌, ◌++◌, List, map, length};
ghost use Rattle.jh_num.specs.Memory.{spelled};
ghost use Rattle.jh_history.specs.Places.{places_of_row, IsRow};

use crate::place::{Place, Places, Row};

/// Tells the bytes at places.
pub trait Bytes {
    ghost use Rattle.std.specs.Prelude.{ℕ};
    ghost use Rattle.jh_history.specs.declared.place.Place.{Place as ThePlace};

    /// The byte at the place.
    ghost byte_of: { Self → ThePlace → ℕ };

    /// The byte at the place.
    fn byte(&self, place: Place) -> u8
        ensures { result ≡ byte_of self.now place };
}

/// The number of the bytes of the row below those that `above` is the number of.
fn value_of_row<B: Bytes>(bytes: &B, row: Row, above: u64) -> u64
    requires row { IsRow row }
    requires small { row.count ≤ 8 }
    requires fits { above < 256 ^ (8 - row.count) }
    ensures spells { (rest : List ℕ) → above ≡ spelled rest → result ≡ spelled (map (B.byte_of bytes.now) (places_of_row row) ++ rest) }
    ensures fits { (n : ℕ) → above < 256 ^ n → n + row.count ≤ 8 → result < 256 ^ (n + row.count) }
{
    let mut value = above;
    for k in (0..row.count).rev() {
        value = value * 256 + u64::from(bytes.byte(row.first.further(k)));
    }
    value
}

/// The number that the bytes at the places spell, the lowest first.
pub fn value_of<B: Bytes>(bytes: &B, places: &Places) -> u64
    ensures value { result ≡ spelled (map (B.byte_of bytes.now) places.now) }
    ensures fits { result < 256 ^ length places.now }
{
    let (low, high) = places.rows();
    let above = value_of_row(bytes, high, 0);
    value_of_row(bytes, low, above)
}
