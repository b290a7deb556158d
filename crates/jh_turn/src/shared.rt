//! The lock and its ports.
ghost use Rattle.std.specs.Prelude.{◌≡◌, ◌<◌, false, length};
ghost use Rattle.jh_turn.specs.Hands.{caller_of, seen_of};

use crate::rule::{LockRule, Opening, View};
use crate::turner::Turner;
use atomic_table::{Seat, Table};
use std::alloc::Global;

mod closing;
mod opening;
mod turns;

/// What word 0 has where no caller holds the turn.
const FREE: u64 = 256;

/// Word 0 has the number of the caller that holds the turn.
const HOLDER: usize = 0;

/// Word 1 has the number of entries.
const LENGTH: usize = 1;

/// The slot has the value, or nothing while it is out.
const VALUE: usize = 0;

/// A value that callers in several threads take turns on.
///
/// Contracts know of it the value that was opened and the callers that ports were made for, which stay.
pub struct Shared<T: Turner> {
    table: Table<Option<Box<T>>, View<T, T::Entry>, Opening<T>, LockRule, Global>,
    ghost sized: { (table.shared.table_id.words ≡ 2) × (table.shared.table_id.slots ≡ 1) },
    ghost some_caller: { 0 < length table.shared.key.callers.items },
}

/// The one port of a caller.
///
/// Contracts know of it which object it belongs to, its caller, and the history that it has seen.
pub struct Port<T: Turner> {
    seat: Seat<Option<Box<T>>, View<T, T::Entry>>,
    caller: u8,
    seen: u64,
    ghost one_hand: { length seat.me.0.hands ≡ 1 },
    ghost called: { caller ≡ caller_of seat.me.0.hands },
    ghost counted: { seen ≡ length (seen_of seat.me.0.hands) },
    ghost waits: { seat.me.0.holding ≡ false },
    ghost empty: { length seat.me.1 ≡ 0 },
}

impl<T: Turner> Port<T> {
    ghost use Rattle.jh_turn.specs.Ports.{port_caller, seen_by};

    /// The caller whose port it is.
    pub fn caller(&self) -> u8
        ensures { result ≡ port_caller self.now }
    {
        self.caller
    }

    /// The number of entries that this port has seen, the opened ones among them.
    pub fn seen(&self) -> u64
        ensures { result ≡ length (seen_by self.now) }
    {
        self.seen
    }
}

/// A port that is dropped takes its caller's number with it, and then the value cannot be closed any more.
impl<T: Turner> Drop for Port<T> {
    fn drop(self) {
        let Self {
            seat: _,
            caller: _,
            seen: _,
        } = self;
    }
}

impl<T: Turner + Drop> Drop for Shared<T> {
    fn drop(self) {
        let Self { table: _ } = self;
    }
}
