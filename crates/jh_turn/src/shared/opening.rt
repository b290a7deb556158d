//! Opening a value, with a port for each caller.
ghost use Rattle.std.specs.Prelude.{◌≡◌, ◌≢◌, ◌<◌, ◌∷◌, [], length, Some, IfOk, IfErr, All, AllPairs, map, Box, drop, slice_index, vec_capacity};
ghost use Rattle.std.specs.Global.{Global};

use super::{FREE, Port, Shared};
use crate::rule::{FirstCaller, Opening, View};
use crate::turner::Turner;
use atomic_table::{Refused, Seat, Table};
use std::alloc::{AllocFailed, Global};
use std::snapshot::Snapshot;

/// The value in a box, as the one slot.
fn boxed<T>(alloc: Global, value: T) -> Result<Vec<Option<Box<T>>>, T>
    ensures ok { IfOk result (λ slots. (b : Box T Global) × (slots.items ≡ Some b ∷ []) × (b.value ≡ value)) }
    ensures err { IfErr result (λ v. v ≡ value) }
{
    let Ok(mut slots) = Vec::with_capacity(alloc, 1) else {
        return Err(value);
    };
    match Box::new(alloc, value) {
        Ok(boxed) => {
            slots.push_reserved(Some(boxed));
            Ok(slots)
        }
        Err(failed) => {
            slots.destroy_empty();
            let AllocFailed { value } = failed;
            Err(value)
        }
    }
}

/// The value out of the slot again.
fn unboxed<T>(mut slots: Vec<Option<Box<T>>>) -> T
    requires { (b : Box T Global) × (slots.items ≡ Some b ∷ []) }
    ensures { (b : Box T Global) → slots.items ≡ Some b ∷ [] → result ≡ b.value }
{
    let Some(slot) = slots.pop() else {
        // there is one slot
        unreachable!()
    };
    slots.destroy_empty();
    let Some(value) = slot else {
        // the value is in it
        unreachable!()
    };
    Box::into_inner(value)
}

impl<T: Turner> Shared<T> {
    ghost use Rattle.jh_turn.specs.Ports.{opened_value, port_caller, seen_by, AreAllPorts};
    ghost use Rattle.jh_turn.specs.Opened.{IsOpenedAs};
    ghost use Rattle.jh_turn.specs.Private.Dealing.{HasToGive, IsNewPort};

    /// Opens a value for these callers, with a port for each, in their order. It hands the value back for want of memory alone.
    pub fn open(alloc: Global, value: T, callers: &[u8]) -> Result<(Shared<T>, Vec<Port<T>>), T>
        requires some { 0 < length callers.now }
        requires differ { AllPairs (λ a b. a ≢ b) callers.now }
        requires served { All (λ who. T.serves (T.origin value) who) callers.now }
        ensures opened { IfOk result (λ r. IsOpenedAs value callers.now r.0) }
        ensures all { IfOk result (λ r. AreAllPorts r.0 r.1.items) }
        ensures callers { IfOk result (λ r. map port_caller r.1.items ≡ callers.now) }
        ensures seen { IfOk result (λ r. All (λ p. seen_by p ≡ T.history value) r.1.items) }
        ensures err { IfErr result (λ v. v ≡ value) }
    {
        let Ok(ports) = Vec::with_capacity(alloc, callers.len()) else {
            return Err(value);
        };
        let entries = value.length();
        let (shared, seat) = Shared::first_seat(alloc, value, callers, entries)?;
        let ports = shared.deal(seat, callers, entries, ports);
        Ok((shared, ports))
    }

    /// The table, with the seat that has every caller's hand.
    fn first_seat(
        alloc: Global,
        value: T,
        callers: &[u8],
        entries: u64,
    ) -> Result<(Shared<T>, Seat<Option<Box<T>>, View<T, T::Entry>>), T>
        requires some { 0 < length callers.now }
        requires served { All (λ who. T.serves (T.origin value) who) callers.now }
        requires counted { entries ≡ length (T.history value) }
        ensures opened { IfOk result (λ r. IsOpenedAs value callers.now r.0) }
        ensures seat { IfOk result (λ r. HasToGive (T.history value) callers.now r.0 r.1) }
        ensures err { IfErr result (λ v. v ≡ value) }
    {
        let Ok(callers) = Vec::from_slice(alloc, callers) else {
            return Err(value);
        };
        let opening = Opening {
            value: Snapshot::of(&value),
            callers,
        };
        let slots = boxed(alloc, value)?;
        match Table::new(alloc, &[FREE, entries], slots, &opening) {
            Ok((table, seat)) => Ok((Shared { table }, seat)),
            Err(Refused { slots }) => Err(unboxed(slots)),
        }
    }

    /// A port for each caller, in their order.
    fn deal(
        &self,
        mut seat: Seat<Option<Box<T>>, View<T, T::Entry>>,
        callers: &[u8],
        entries: u64,
        mut ports: Vec<Port<T>>,
    ) -> Vec<Port<T>>
        requires differ { AllPairs (λ a b. a ≢ b) callers.now }
        requires counted { entries ≡ length (T.history (opened_value self.now)) }
        requires seat { HasToGive (T.history (opened_value self.now)) callers.now self.now seat }
        requires none { ports.items ≡ [] }
        requires room { vec_capacity ports ≡ length callers.now }
        ensures ports { All (IsNewPort (T.history (opened_value self.now)) self.now) result.items }
        ensures callers { map port_caller result.items ≡ callers.now }
    {
        for i in 0..callers.len() {
            ports.push_reserved(self.next_port(&mut seat, &callers[i..], entries));
        }
        ports
    }

    /// The port of the first caller that is left.
    fn next_port(
        &self,
        seat: &mut Seat<Option<Box<T>>, View<T, T::Entry>>,
        left: &[u8],
        entries: u64,
    ) -> Port<T>
        requires some { 0 < length left.now }
        requires differ { AllPairs (λ a b. a ≢ b) left.now }
        requires counted { entries ≡ length (T.history (opened_value self.now)) }
        requires seat { HasToGive (T.history (opened_value self.now)) left.now self.now seat.old }
        ensures port { IsNewPort (T.history (opened_value self.now)) self.now result }
        ensures caller { port_caller result ≡ slice_index left.now 0 }
        ensures seat { HasToGive (T.history (opened_value self.now)) (drop 1 left.now) self.now seat.new }
    {
        let seat = self.table.shared.split_seat::<FirstCaller>(seat);
        Port {
            seat,
            caller: left[0],
            seen: entries,
        }
    }
}
