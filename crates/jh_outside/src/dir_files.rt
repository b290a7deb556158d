//! Files of the system.
ghost use Rattle.std.specs.Prelude.{◌≡◌, ◌≤◌, ◌↔◌, [], None, length, take, IfOk, IfSome};
ghost use Rattle.std.specs.IoError.{error_kind};
ghost use Rattle.jh_outside.specs.Count.{Rose};
ghost use Rattle.jh_outside.specs.Reads.{HandsOut, OnFault, failed_after};
ghost use Rattle.jh_outside.specs.FailedReads.{AsksSystem};
ghost use Rattle.jh_outside.specs.Ask.{ask_of};

use crate::files::{FileFault, Files};
use jh_num::Seq;
use std::alloc::Global;
use std::io::{Error, ErrorKind, Read};
use std::marker::Model;
use std::{fs, rt};

/// The most bytes that one read asks the system for.
const PIECE: usize = 4096;

/// The files of the system, opened by the names as given: relative ones from the current directory.
/// What they hold isn't told.
#[derive(Drop)]
pub struct DirFiles<'a, R> {
    system: &'a R,
    alloc: Global,
    faults: u64,
    failed: String,
}

impl<'a, R> Model for DirFiles<'a, R> {
    ghost use Rattle.std.specs.Prelude.{string_bytes};
    ghost use Rattle.jh_outside.specs.FailedReads.{FailedReads};

    ghost Value = { FailedReads };

    ghost view = { λ s. record { faults = s.faults; failed = string_bytes s.failed } };
}

impl<'a, R: rt::Files> DirFiles<'a, R> {
    /// The files of the system, of which no read has failed yet.
    pub fn new(alloc: Global, system: &'a R) -> DirFiles<'a, R>
        ensures { result ≡ record { faults = 0; failed = [] } }
    {
        DirFiles {
            system,
            alloc,
            faults: 0,
            failed: String::new(alloc),
        }
    }

    /// A read that keeps the name where it answers `Fault`, and counts nothing yet.
    fn read_naming(&mut self, name: &str, most: usize) -> Result<Seq<u8>, FileFault>
        ensures within { IfOk result (λ bytes. length bytes ≤ most) }
        ensures faults { self.new.faults ≡ self.old.faults }
        ensures failed { self.new.failed ≡ failed_after self.old.failed name.now result }
    {
        // A fault is answered only where its name is kept, so the memory for that comes first.
        let failed = String::from_str(self.alloc, name)?;
        let outcome = read_file(self.alloc, self.system, name, most);
        if let Err(FileFault::Fault) = outcome {
            self.failed = failed;
        }
        Ok(Seq::from_vec(outcome?))
    }
}

impl<'a, R: rt::Files> Files for DirFiles<'a, R> {
    ghost contents = { λ _ _. None };

    ghost failed = { λ s. s.failed };

    ghost faults = { λ s. s.faults };

    ghost asks = { AsksSystem };

    /// Each `Err` is counted, want of memory too.
    fn read(&mut self, name: &str, most: usize) -> Result<Seq<u8>, FileFault>
        ensures within { IfOk result (λ bytes. length bytes ≤ most) }
        ensures handed { IfOk result (λ bytes. HandsOut None most bytes) }
        ensures counted { OnFault result (Rose self.old.faults self.new.faults) }
        ensures never_falls { self.old.faults ≤ self.new.faults }
        ensures named { self.new.failed ≡ failed_after self.old.failed name.now result }
        // exactly what it leaves
        ensures asked { AsksSystem self.old (ask_of name.now result) self.new }
    {
        let outcome = self.read_naming(name, most);
        if outcome.is_err() {
            self.faults = self.faults.saturating_add(1);
        }
        outcome
    }

    fn failed(&self) -> &str {
        self.failed.as_str()
    }

    fn faults(&self) -> u64 {
        self.faults
    }
}

/// The first `most` bytes of the file.
fn read_file<R: rt::Files>(
    alloc: Global,
    system: &R,
    name: &str,
    most: usize,
) -> Result<Vec<u8>, FileFault>
    ensures { IfOk result (λ bytes. length bytes.items ≤ most) }
{
    let mut file = fs::open(system, name).map_err(fault_of)?;
    read_front(alloc, &mut file, most)
}

/// The first `most` bytes that the reader has left, and all of them where it has fewer. An interrupted read
/// is tried again, and no other.
pub(crate) fn read_front<T: Read>(
    alloc: Global,
    file: &mut T,
    most: usize,
) -> Result<Vec<u8>, FileFault>
    ensures within { IfOk result (λ bytes. length bytes.items ≤ most) }
    ensures front { IfOk result (λ bytes. IfSome (T.remaining file.old) (λ held. bytes.items ≡ take most held)) }
{
    let mut buffer = [0u8; PIECE];
    let mut bytes = Vec::new(alloc);
    // bounded, so that it ends: a reader that still isn't done after so many calls is a fault
    for _ in 0..u64::MAX {
        let room = (most - bytes.len()).min(PIECE);
        if room == 0 {
            return Ok(bytes);
        }
        match file.read(&mut buffer[..room]) {
            Ok(0) => return Ok(bytes),
            Ok(count) => bytes.extend_from_slice(&buffer[..count])?,
            Err(e) if e.kind() == ErrorKind::Interrupted => {}
            Err(e) => return Err(fault_of(e)),
        }
    }
    Err(FileFault::Fault)
}

/// The system's own want of memory is want of memory, and all else is a fault.
fn fault_of(e: Error) -> FileFault
    ensures { (result ≡ FileFault.NoMemory) ↔ (error_kind e ≡ ErrorKind.OutOfMemory) }
{
    if e.kind() == ErrorKind::OutOfMemory {
        FileFault::NoMemory
    } else {
        FileFault::Fault
    }
}
