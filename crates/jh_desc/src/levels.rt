//! The slots of tables.
ghost use Rattle.std.specs.Prelude.{◌≡◌, ◌<◌, ◌≤◌, ◌%◌};
ghost use Rattle.jh_desc.specs.Levels.{index_of};
ghost use Rattle.jh_num.specs.Levels.{slot_size};

use jh_num::{LAST_LEVEL, slot_of};

/// How far the address lies behind the start of its slot.
pub fn offset(level: u8, at: u64) -> u64
    requires { level ≤ LAST_LEVEL }
    ensures value { result ≡ at % slot_size level }
    ensures within { result < slot_size level }
{
    match level {
        0 => at % (1 << 39),
        1 => at % (1 << 30),
        2 => at % (1 << 21),
        _ => at % (1 << 12),
    }
}

/// The number of the address's slot in its table.
pub fn index(level: u8, at: u64) -> u64
    requires { level ≤ LAST_LEVEL }
    ensures value { result ≡ index_of level at }
    ensures within { result < 512 }
{
    slot_of(level, at) % 512
}
