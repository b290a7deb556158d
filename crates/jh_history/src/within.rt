//! Whether bytes end within the addresses.
ghost use Rattle.std.specs.Prelude.{◌+◌, ◌≤◌, ◌↔◌, IsTrue};
ghost use Rattle.jh_num.specs.declared.address.TheConstants.{ADDRESS_END};

use jh_num::ADDRESS_END;

/// Whether so many bytes from the start on end within the addresses.
pub(crate) fn ends_within(start: u64, size: u64) -> bool
    ensures { IsTrue result ↔ (start + size ≤ ADDRESS_END) }
{
    start <= ADDRESS_END && size <= ADDRESS_END - start
}
