//! A turn, from the claim to the release.
ghost use Rattle.std.specs.Prelude.{◌≡◌, ◌∷◌, [], length, None};
ghost use mathlib.Core.List.{IsPrefix};
ghost use Rattle.jh_turn.specs.Histories.{IsTurn};

use super::{FREE, HOLDER, LENGTH, Port, Shared, VALUE};
use crate::rule::{Claim, Note, Release, View};
use crate::turner::Turner;
use atomic_table::Seat;
use std::sync::Wait;
use std::thread;

impl<T: Turner> Shared<T> {
    ghost use Rattle.jh_turn.specs.Ports.{opened_value, port_caller, seen_by, turn_at, IsPortOf};
    ghost use Rattle.jh_turn.specs.Private.Rule.{HasClaimed, HasSlotWith};
    ghost use Rattle.jh_turn.specs.Private.Stages.{IsSameSeat, IsWaiting, IsAtWork, HasDone, MayReturn};

    /// A turn of the port's caller. It waits while another caller has the turn, and may wait for ever.
    pub fn turn<R: Wait>(&self, rt: &R, port: &mut Port<T>) -> T::Answer
        requires { IsPortOf self.now port.old }
        ensures port { IsPortOf self.now port.new × (port_caller port.new ≡ port_caller port.old) }
        ensures seen { IsPrefix (seen_by port.old) (seen_by port.new) }
        ensures turn { IsTurn T.whose (T.answers (T.origin (opened_value self.now))) (turn_at port.old result port.new) }
    {
        let caller = port.caller;
        self.claim(rt, &mut port.seat, caller);
        let mut value = self.take(&mut port.seat);
        let answer = value.turn(caller);
        let entries = value.length();
        self.put_back(&mut port.seat, caller, value, entries);
        port.seen = entries;
        answer
    }

    /// Takes the turn. A claim that fails is tried again.
    fn claim<R: Wait>(&self, rt: &R, seat: &mut Seat<Option<Box<T>>, View<T, T::Entry>>, caller: u8)
        requires own { seat.old.table_id ≡ self.now.table.shared.table_id }
        requires waits { IsWaiting caller seat.old.me }
        ensures same { IsSameSeat seat.old seat.new }
        ensures claimed { HasClaimed T.whose T.origin T.serves T.history caller seat.old.me seat.new.me }
    {
        for _ in rt.forever() {
            let found = self
                .table
                .shared
                .compare_exchange::<Claim>(seat, HOLDER, FREE, caller as u64);
            if found == FREE {
                return;
            }
            thread::yield_now();
        }
        // the tries have no end of their own
        unreachable!()
    }

    /// Takes the value out of the slot.
    fn take(&self, seat: &mut Seat<Option<Box<T>>, View<T, T::Entry>>) -> Box<T>
        requires own { seat.old.table_id ≡ self.now.table.shared.table_id }
        requires there { (value : _) × HasSlotWith seat.old.me value }
        ensures same { IsSameSeat seat.old seat.new }
        ensures value { HasSlotWith seat.old.me result }
        ensures taken { seat.new.me ≡ (seat.old.me.0, (0, None) ∷ []) }
    {
        match self.table.shared.exchange(seat, VALUE, None) {
            Some(value) => value,
            // whoever has the turn finds the value
            None => unreachable!(),
        }
    }

    /// Gives the value back, notes the length of its history, and gives the turn up. `caller` is for the contract alone.
    fn put_back(
        &self,
        seat: &mut Seat<Option<Box<T>>, View<T, T::Entry>>,
        caller: u8,
        value: Box<T>,
        entries: u64,
    )
        requires own { seat.old.table_id ≡ self.now.table.shared.table_id }
        requires work { IsAtWork caller seat.old.me }
        requires grown { MayReturn T.whose T.origin T.history caller seat.old.me.0 value.value }
        requires counted { entries ≡ length (T.history value.value) }
        ensures same { IsSameSeat seat.old seat.new }
        ensures done { HasDone caller (T.history value.value) seat.old.me seat.new.me }
    {
        match self.table.shared.exchange(seat, VALUE, Some(value)) {
            None => {}
            // the slot is empty while the seat is at work
            Some(_) => unreachable!(),
        }
        self.table.shared.store::<Note>(seat, LENGTH, entries);
        self.table.shared.store::<Release>(seat, HOLDER, FREE);
    }
}
