//! How a call ends, and where it ends at a file.
ghost use Rattle.std.specs.Prelude.{◌≡◌, ◌≤◌, ◌<◌, length, OnOk, IfOk, IfErr, IfSome, ◌∷◌, []};
ghost use Rattle.jh_outside.specs.Reads.{HandsOut};
ghost use Rattle.jh_outside.specs.Trail.{AsksAll};
ghost use Rattle.jh_cli.specs.Order.{AsksTo};
ghost use Rattle.jh_cli.specs.Lines.{fault_line, refusal_line};
ghost use Rattle.jh_cli.specs.Reading.{EndsAt, RefusesOversizeAt, IsCountedFault};
ghost use Rattle.jh_cli.specs.Private.Endings.{OnEnded};

use crate::lines::{fault_line, refusal_line};
use crate::status::Status;
use jh_num::{NoMemory, Seq};
use jh_outside::{FileFault, Files};
use std::alloc::Global;
use std::fmt::Display;

/// How a call ends: its status, and the text that is written before it.
#[derive(Drop)]
pub struct Ending {
    pub status: Status,
    pub text: Vec<u8>,
}

/// Why a step went no further: the call ends there, or memory is wanted.
#[derive(Drop)]
pub enum CallFault {
    Ended(Ending),
    NoMemory,
}

impl From<NoMemory> for CallFault {
    ghost use Rattle.std.specs.Prelude.{◌≡◌};
    ghost use Rattle.jh_cli.specs.declared.ending.CallFault.TheVariants.{NoMemory as stop_for_memory};

    ghost from_gives = { λ _ s. s ≡ stop_for_memory };

    fn from(_e: NoMemory) -> CallFault {
        CallFault::NoMemory
    }
}

/// The call ends since the file of this name could not be read.
pub fn faulted(alloc: Global, name: &[u8]) -> CallFault
    ensures { OnEnded result (λ reply. reply ≡ record { status = Status.ReadFault; text = fault_line name.now }) }
{
    match fault_line(alloc, name) {
        Ok(text) => CallFault::Ended(Ending {
            status: Status::ReadFault,
            text,
        }),
        Err(NoMemory) => CallFault::NoMemory,
    }
}

/// The call ends since the file of this name is refused for what the words say.
pub fn refused(alloc: Global, name: &[u8], words: &[u8]) -> CallFault
    ensures { OnEnded result (λ reply. reply ≡ record { status = Status.Refused; text = refusal_line name.now words.now }) }
{
    match refusal_line(alloc, name, words) {
        Ok(text) => CallFault::Ended(Ending {
            status: Status::Refused,
            text,
        }),
        Err(NoMemory) => CallFault::NoMemory,
    }
}

/// The call ends since the file of this name is refused for what the fault displays.
pub fn refused_for<E: Display>(alloc: Global, name: &str, fault: &E) -> CallFault
    ensures { IfSome (E.output fault.now) (λ words. OnEnded result (λ reply. reply ≡ record { status = Status.Refused; text = refusal_line name.now words })) }
{
    match fault.to_string(alloc) {
        Ok(words) => refused(alloc, name.as_bytes(), words.as_bytes()),
        Err(_) => CallFault::NoMemory,
    }
}

/// What the file of this name hands out, which is less than `most` bytes.
pub fn read_below<F: Files>(
    alloc: Global,
    files: &mut F,
    name: &str,
    most: usize,
) -> Result<Seq<u8>, CallFault>
    ensures ok { IfOk result (λ bytes. HandsOut (F.contents files.old name.now) most bytes) }
    ensures within { IfOk result (λ bytes. length bytes < most) }
    ensures err { IfErr result (λ stop. OnEnded stop (EndsAt most (F.contents files.old) name.now (RefusesOversizeAt most))) }
    ensures counted { IfErr result (λ stop. OnEnded stop (IsCountedFault (F.faults files.old) (F.faults files.new) (F.failed files.new))) }
    ensures never_falls { F.faults files.old ≤ F.faults files.new }
    ensures kept { F.contents files.new ≡ F.contents files.old }
    ensures asked { OnOk result (AsksAll F.Files (name.now ∷ []) files.old files.new) }
    ensures asked_until { IfErr result (λ stop. OnEnded stop (AsksTo F.Files files.old files.new [] name.now)) }
{
    let bytes = match files.read(name, most) {
        Ok(bytes) => bytes,
        Err(FileFault::Fault) => return Err(faulted(alloc, name.as_bytes())),
        Err(FileFault::NoMemory) => return Err(CallFault::NoMemory),
    };
    if bytes.len() >= most {
        return Err(refused(alloc, name.as_bytes(), b"oversize"));
    }
    Ok(bytes)
}
