//! Writing what is told.
ghost use Rattle.std.specs.Prelude.{◌≡◌, ◌≢◌, Err};
ghost use Rattle.jh_outside.specs.Count.{Rose};
ghost use Rattle.jh_cli.specs.Outcome.{Sent};
ghost use Rattle.jh_cli.specs.Private.Endings.{reply_of, OnEnding};

use crate::ending::{CallFault, Ending};
use crate::status::Status;
use jh_outside::{Sink, write_all};

/// Writes the text, and answers the status, or that the sink failed. It takes no memory.
fn send<K: Sink>(out: &mut K, ending: &Ending) -> Status
    ensures sent { Sent (K.written out.old) (K.written out.new) (reply_of ending.now) result }
    ensures fault { result ≡ Status.WriteFault → ending.now.status ≢ Status.WriteFault → Rose (K.faults out.old) (K.faults out.new) }
{
    match write_all(out, ending.text.as_slice()) {
        Ok(()) => ending.status,
        Err(_) => Status::WriteFault,
    }
}

/// Writes what a command told, or where it ended; for want of memory nothing.
pub fn finish<K: Sink>(out: &mut K, ending: Result<Ending, CallFault>) -> Status
    ensures sent { OnEnding ending (λ reply. Sent (K.written out.old) (K.written out.new) reply result) }
    ensures fault { OnEnding ending (λ reply. result ≡ Status.WriteFault → reply.status ≢ Status.WriteFault → Rose (K.faults out.old) (K.faults out.new)) }
    ensures memory { ending ≡ Err CallFault.NoMemory → (result ≡ Status.NoMemory) × (K.written out.new ≡ K.written out.old) }
{
    match ending {
        Ok(ending) | Err(CallFault::Ended(ending)) => send(out, &ending),
        Err(CallFault::NoMemory) => Status::NoMemory,
    }
}
