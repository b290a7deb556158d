//! What an access looked at.
ghost use Rattle.std.specs.Prelude.{◌≡◌, [], false};

use jh_desc::Hit;
use jh_num::Steps;
use std::marker::Model;

/// A page of addresses that was looked at and may be accessed: its first address, what the tables give that one, and
/// whether the CPU had a translation of it.
#[derive(Clone, Copy, PartialEq, Eq, Debug)]
pub struct Look {
    pub page: u64,
    pub hit: Hit,
    pub cached: bool,
}

/// What an access looked at: two pages at most, and eight descriptors at most.
#[derive(Drop)]
pub struct Looks {
    pub(crate) first: Option<Look>,
    pub(crate) second: Option<Look>,
    pub(crate) whole: bool,
    pub(crate) read: Steps,
}

impl Model for Looks {
    ghost use Rattle.std.specs.Prelude.{◌≡◌, ◌++◌, length, option_to_list};
    ghost use Rattle.jh_reach.specs.Looks.{LooksView};

    ghost Value = { LooksView };

    ghost view = { λ l. record { looked = option_to_list l.first ++ option_to_list l.second; whole = l.whole; read = l.read.probes } };

    ghost invariant = { λ l. l.read.count ≡ length l.read.probes };
}

impl Looks {
    /// Nothing was looked at.
    pub fn new() -> Self
        ensures looked { result.looked ≡ [] }
        ensures whole { result.whole ≡ false }
        ensures read { result.read ≡ [] }
    {
        Looks {
            first: None,
            second: None,
            whole: false,
            read: Steps::new(),
        }
    }
}
