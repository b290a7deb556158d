//! The bits of a mask.
ghost use Rattle.std.specs.Prelude.{◌≡◌, ◌<◌};
ghost use Rattle.jh_num.specs.Bits.{has_bit};

/// Whether the bit of that number is set.
pub fn has_bit(mask: u32, index: usize) -> bool
    requires { index < 32 }
    ensures { result ≡ has_bit mask index }
{
    mask >> index & 1 == 1
}
