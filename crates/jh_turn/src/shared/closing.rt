//! Closing a value, with all its ports.
ghost use Rattle.std.specs.Prelude.{◌≡◌, ℕ, ◌<◌, ◌∷◌, false, [], length, All, Contains, Some};
ghost use mathlib.Core.List.{IsPrefix};
ghost use Rattle.jh_turn.specs.Histories.{entries_of};

use super::{Port, Shared, VALUE};
use crate::rule::{Together, View};
use crate::turner::Turner;
use atomic_table::Seat;

impl<T: Turner> Shared<T> {
    ghost use Rattle.jh_turn.specs.Ports.{opened_value, all_callers, port_caller, seen_by, IsPortOf, AreAllPorts};
    ghost use Rattle.jh_turn.specs.Private.Closing.{HasCaller, HasHands, IsLast};

    /// Gives the value back. It takes all ports of this object, in any order.
    pub fn close(self, ports: Vec<Port<T>>) -> T
        requires { AreAllPorts self ports.items }
        ensures origin { T.origin result ≡ T.origin (opened_value self) }
        ensures begins { IsPrefix (T.history (opened_value self)) (T.history result) }
        ensures seen { All (λ p. IsPrefix (seen_by p) (T.history result)) ports.items }
        // Of each caller the history has the entries that its port has seen; of whoever is no caller, those of the
        // opened history.
        ensures own { All (λ p. entries_of T.whose (port_caller p) (T.history result) ≡ entries_of T.whose (port_caller p) (seen_by p)) ports.items }
        ensures no_others { (who : ℕ) → ¬ (Contains (all_callers self) who) → entries_of T.whose who (T.history result) ≡ entries_of T.whose who (T.history (opened_value self)) }
    {
        let seat = self.gather(ports);
        self.last_value(seat)
    }

    /// One seat with the hands of all ports.
    fn gather(&self, mut ports: Vec<Port<T>>) -> Seat<Option<Box<T>>, View<T, T::Entry>>
        requires own { All (IsPortOf self.now) ports.items }
        requires some { 0 < length ports.items }
        ensures own { result.table_id ≡ self.now.table.shared.table_id }
        ensures waits { result.me.0.holding ≡ false }
        ensures hands { HasHands result.me.0.hands ports.items }
    {
        let Some(last) = ports.pop() else {
            // there is a port
            unreachable!()
        };
        let mut all = last.into_seat();
        while let Some(port) = ports.pop() {
            let seat = port.into_seat();
            self.table.shared.join_seat::<Together>(&mut all, seat);
        }
        all
    }

    /// The value, once one seat has all callers' hands.
    fn last_value(self, seat: Seat<Option<Box<T>>, View<T, T::Entry>>) -> T
        requires own { seat.table_id ≡ self.table.shared.table_id }
        requires waits { seat.me.0.holding ≡ false }
        requires all { All (HasCaller seat.me.0.hands) (all_callers self) }
        ensures { IsLast T.whose T.origin T.history (opened_value self) (all_callers self) seat.me.0.hands result }
    {
        let Shared { table } = self;
        let mut closed = table.close_with(seat);
        let slot = closed.take(VALUE);
        closed.free();
        let Some(value) = slot else {
            // no caller holds the turn, so the value is at home
            unreachable!()
        };
        Box::into_inner(value)
    }
}

impl<T: Turner> Port<T> {
    ghost use Rattle.jh_turn.specs.Private.Rule.{hand};
    ghost use Rattle.jh_turn.specs.Private.Stages.{IsSameSeat};
    ghost use Rattle.jh_turn.specs.Ports.{port_caller, seen_by};

    /// The seat of the port, with its caller's one hand.
    fn into_seat(self) -> Seat<Option<Box<T>>, View<T, T::Entry>>
        ensures same { IsSameSeat self.seat result }
        ensures hand { result.me.0.hands ≡ hand (port_caller self) (seen_by self) ∷ [] }
        ensures waits { (result.me.0.holding ≡ false) × (result.me.1 ≡ []) }
    {
        let Self {
            seat,
            caller: _,
            seen: _,
        } = self;
        seat
    }
}
