//! The numbers of items.
ghost use Rattle.std.specs.Prelude.{◌≡◌};
ghost use Rattle.jh_num.specs.Numbers.{item_number};

/// The number of the item with this index: of 32 bits, and `u32::MAX` for all items from that index on.
pub fn item_number(index: usize) -> u32
    ensures { result ≡ item_number index }
{
    u32::try_from(index).unwrap_or(u32::MAX)
}
