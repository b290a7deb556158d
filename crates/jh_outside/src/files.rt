//! Files that are read from their start.
ghost use Rattle.std.specs.Prelude.{◌≡◌, ℕ, ◌≤◌, List, Option, length, IfOk};
ghost use Rattle.jh_outside.specs.Count.{Rose};
ghost use Rattle.jh_outside.specs.Reads.{HandsOut, OnFault, failed_after};
ghost use Rattle.jh_outside.specs.Ask.{Ask, ask_of};
ghost use Rattle.jh_outside.specs.declared.files.FileFault.TheVariants.{NoMemory as no_memory};

use jh_num::{NoMemory, Seq};
use std::alloc::{AllocError, AllocFailed};

/// Why a read hands out nothing.
#[derive(Clone, Copy, PartialEq, Eq, Debug)]
pub enum FileFault {
    /// The name is missing or can't be read. It was counted.
    Fault,
    NoMemory,
}

impl From<NoMemory> for FileFault {
    ghost from_gives = { λ _ e. e ≡ no_memory };

    fn from(_e: NoMemory) -> FileFault {
        FileFault::NoMemory
    }
}

impl From<AllocError> for FileFault {
    ghost from_gives = { λ _ e. e ≡ no_memory };

    fn from(_e: AllocError) -> FileFault {
        FileFault::NoMemory
    }
}

impl<T: Drop> From<AllocFailed<T>> for FileFault {
    ghost from_gives = { λ _ e. e ≡ no_memory };

    fn from(_e: AllocFailed<T>) -> FileFault {
        FileFault::NoMemory
    }
}

/// Files by name. Reading changes none of them.
pub trait Files {
    // What is told of each name: nothing, that it is missing, or the bytes that it holds.
    ghost contents: { Self → List ℕ → Option (Option (List ℕ)) };

    // The name of the last read that answered `Fault`, and empty before the first.
    ghost failed: { Self → List ℕ };

    // How many reads answered `Fault`, up to 2^64 - 1; an implementation may count want of memory too.
    ghost faults: { Self → ℕ };

    // What a read does to the files, by the name that is asked and what is answered.
    ghost asks: { Self → Ask → Self → Type 0 };

    /// Hands out the first `most` bytes that the name holds, and all of them where it holds fewer.
    fn read(&mut self, name: &str, most: usize) -> Result<Seq<u8>, FileFault>
        ensures within { IfOk result (λ bytes. length bytes ≤ most) }
        ensures handed { IfOk result (λ bytes. HandsOut (contents self.old name.now) most bytes) }
        ensures counted { OnFault result (Rose (faults self.old) (faults self.new)) }
        ensures never_falls { faults self.old ≤ faults self.new }
        ensures named { failed self.new ≡ failed_after (failed self.old) name.now result }
        ensures kept { contents self.new ≡ contents self.old }
        ensures asked { asks self.old (ask_of name.now result) self.new };

    /// The name of the last read that answered `Fault`. It is empty before the first, and no other
    /// answer changes it.
    fn failed(&self) -> &str
        ensures { result.now ≡ failed self.now };

    /// How many reads failed: each that answered `Fault`, and want of memory where an implementation counts it. The
    /// count never falls, and stands still at `u64::MAX`.
    fn faults(&self) -> u64
        ensures { result ≡ faults self.now };
}
