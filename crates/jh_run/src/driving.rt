//! Turns at several ports, round by round.
ghost use Rattle.std.specs.Prelude.{◌≡◌, ◌<◌, All, IfSome, length, None, Some};
ghost use Rattle.std.specs.ControlFlow.{break_value};
ghost use Rattle.jh_turn.specs.Ports.{IsPortOf, opened_value};
ghost use Rattle.jh_turn.specs.PortSets.{IsSameSet};
ghost use Rattle.jh_run.specs.Drives.{Shows, SomeShows, TookTurns, AllTookTurns};
ghost use Rattle.jh_run.specs.Private.Driving.{end_after};
ghost use Rattle.jh_run.specs.Running.{origin_of};

use crate::running::Running;
use jh_board::{Turn, TurnFault};
use jh_outside::Gate;
use jh_turn::{Port, Shared};
use std::ops::ControlFlow;
use std::sync::Wait;
use std::thread;

/// Whether a turn follows the one that answers this; where none does, for what this one was refused, if it was.
fn end_after(answer: Result<Turn, TurnFault>) -> ControlFlow<Option<TurnFault>>
    ensures { result ≡ end_after answer }
{
    match answer {
        Ok(Turn::Made(_) | Turn::Edited { .. } | Turn::NotNow { .. }) => ControlFlow::Continue(()),
        Ok(Turn::Done) => ControlFlow::Break(None),
        Err(fault) => ControlFlow::Break(Some(fault)),
    }
}

/// Whether the turn made an entry.
fn has_made(answer: &Result<Turn, TurnFault>) -> bool {
    matches!(answer, Ok(Turn::Made(_)))
}

/// A turn of the port behind the gate; whether one follows it, and else for what it was refused, if it was. `round` is
/// the number of turns of this port before in this call of `drive`; `idle` becomes false where the turn makes an entry.
fn drive_port<R: Wait, G: Gate>(
    rt: &R,
    shared: &Shared<Running>,
    port: &mut Port<Running>,
    gate: &G,
    round: u64,
    idle: &mut bool,
) -> ControlFlow<Option<TurnFault>>
    requires { IsPortOf shared.now port.old }
    ensures port { IsPortOf shared.now port.new }
    ensures turns { TookTurns (origin_of (opened_value shared.now)) port.old port.new }
    ensures shows { IfSome (break_value result) (λ refused. Shows (origin_of (opened_value shared.now)) refused port.new) }
{
    gate.pass(port.caller(), round);
    let answer = shared.turn(rt, port);
    *idle &= !has_made(&answer);
    end_after(answer)
}

/// A turn of each port in their order, until none follows one; then it breaks off, and tells for what that one was refused, if
/// it was. Where none made an entry, other threads go first.
fn drive_round<R: Wait, G: Gate>(
    rt: &R,
    shared: &Shared<Running>,
    ports: &mut [Port<Running>],
    gate: &G,
    round: u64,
) -> ControlFlow<Option<TurnFault>>
    requires { All (IsPortOf shared.now) ports.old }
    ensures same { IsSameSet shared.now ports.old ports.new }
    ensures turns { AllTookTurns (origin_of (opened_value shared.now)) ports.old ports.new }
    ensures shows { IfSome (break_value result) (λ refused. SomeShows (origin_of (opened_value shared.now)) refused ports.new) }
{
    let mut idle = true;
    for i in 0..ports.len() {
        drive_port(rt, shared, &mut ports[i], gate, round, &mut idle)?;
    }
    if idle {
        thread::yield_now();
    }
    ControlFlow::Continue(())
}

/// Takes turns at the ports, round by round, until nothing is due to any CPU (`None`), or a turn is
/// refused. Before each turn the gate is passed, with the number of turns of that port before in this
/// call. It waits while other callers have the turn, and may wait for ever.
pub fn drive<R: Wait, G: Gate>(
    rt: &R,
    shared: &Shared<Running>,
    ports: &mut [Port<Running>],
    gate: &G,
) -> Option<TurnFault>
    requires some { 0 < length ports.old }
    requires own { All (IsPortOf shared.now) ports.old }
    ensures same { IsSameSet shared.now ports.old ports.new }
    ensures turns { AllTookTurns (origin_of (opened_value shared.now)) ports.old ports.new }
    ensures shows { SomeShows (origin_of (opened_value shared.now)) result ports.new }
{
    let mut round: u64 = 0;
    for _ in rt.forever() {
        if let ControlFlow::Break(refused) = drive_round(rt, shared, ports, gate, round) {
            return refused;
        }
        round = round.saturating_add(1);
    }
    // the rounds have no end of their own
    unreachable!()
}
