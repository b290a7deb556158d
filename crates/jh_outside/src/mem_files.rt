//! Files in memory.
ghost use Rattle.std.specs.Prelude.{◌≡◌, ◌≤◌, None, Some, [], length, take, option_copied, IfOk, OnOk, OnErr};
ghost use Rattle.std.specs.Option.{option_map};
ghost use Rattle.std.specs.FinMap as map;
ghost use Rattle.std.specs.FinSet as set;
ghost use Rattle.jh_outside.specs.Count.{Rose};
ghost use Rattle.jh_outside.specs.Reads.{HandsOut, OnFault, failed_after};
ghost use Rattle.jh_outside.specs.Shelf.{told_by, next_read_finds, AsksShelf};
ghost use Rattle.jh_outside.specs.Ask.{ask_of};

use crate::files::{FileFault, Files};
use indexmap::{IndexMap, IndexSet};
use jh_num::{NoMemory, Seq};
use std::alloc::Global;
use std::marker::Model;

/// Files in memory, of which reads can be told to fail. Reads are numbered from 0; the number stands
/// still at `u64::MAX`.
#[derive(Drop)]
pub struct MemFiles {
    files: IndexMap<String, Seq<u8>>,
    failing: IndexSet<u64>,
    reads: u64,
    faults: u64,
    failed: String,
    alloc: Global,
}

impl Model for MemFiles {
    ghost use Rattle.std.specs.Prelude.{string_bytes, map as list_map};
    ghost use Rattle.std.specs.FinMap.{from_entries};
    ghost use Rattle.std.specs.FinSet.{from_list};
    ghost use Rattle.jh_outside.specs.Shelf.{Shelf, shelf_code};

    ghost Value = { Shelf };

    ghost coded = { shelf_code };

    ghost view = { λ s. record {
      files = from_entries (list_map (λ e. (string_bytes e.0, e.1)) s.files.entries);
      failing = from_list s.failing.keys;
      reads = s.reads;
      faults = s.faults;
      failed = string_bytes s.failed;
    } };
}

impl MemFiles {
    /// No files yet. It takes no memory.
    pub fn new(alloc: Global) -> MemFiles
        ensures { result ≡ record { files = map.empty; failing = set.empty; reads = 0; faults = 0; failed = [] } }
    {
        MemFiles {
            files: IndexMap::new(alloc),
            failing: IndexSet::new(alloc),
            reads: 0,
            faults: 0,
            failed: String::new(alloc),
            alloc,
        }
    }

    /// Puts the bytes under the name. They replace what stood there.
    pub fn add(&mut self, name: &str, bytes: &[u8]) -> Result<(), NoMemory>
        ensures ok { OnOk result (self.new ≡ record self.old { files = map.insert self.old.files name.now bytes.now }) }
        ensures err { OnErr result (self.new ≡ self.old) }
    {
        let name = String::from_str(self.alloc, name)?;
        let bytes = Vec::from_slice(self.alloc, bytes)?;
        self.files.insert(name, Seq::from_vec(bytes))?;
        Ok(())
    }

    /// Lets the read with this number fail. Other reads of a name that was added don't.
    pub fn fail(&mut self, call: u64) -> Result<(), NoMemory>
        ensures ok { OnOk result (self.new ≡ record self.old { failing = set.insert self.old.failing call }) }
        ensures err { OnErr result (self.new ≡ self.old) }
    {
        self.failing.insert(call)?;
        Ok(())
    }

    /// What the next read finds, if it is of this name.
    fn found(&self, name: &str) -> Option<&Seq<u8>>
        ensures { option_copied result ≡ next_read_finds self.now name.now }
    {
        if self.failing.contains(&self.reads) {
            return None;
        }
        self.files.get(name)
    }
}

impl Files for MemFiles {
    ghost contents = { told_by };

    ghost failed = { λ s. s.failed };

    ghost faults = { λ s. s.faults };

    ghost asks = { AsksShelf };

    fn read(&mut self, name: &str, most: usize) -> Result<Seq<u8>, FileFault>
        ensures within { IfOk result (λ bytes. length bytes ≤ most) }
        ensures handed { IfOk result (λ bytes. HandsOut (told_by self.old name.now) most bytes) }
        ensures counted { OnFault result (Rose self.old.faults self.new.faults) }
        ensures never_falls { self.old.faults ≤ self.new.faults }
        ensures named { self.new.failed ≡ failed_after self.old.failed name.now result }
        ensures kept { told_by self.new ≡ told_by self.old }
        // exactly when it fails, and what it leaves
        ensures fails { OnFault result (next_read_finds self.old name.now ≡ None) }
        ensures finds { IfOk result (λ bytes. option_map (take most) (next_read_finds self.old name.now) ≡ Some bytes) }
        ensures asked { AsksShelf self.old (ask_of name.now result) self.new }
    {
        match self.found(name) {
            Some(held) => {
                let bytes = front(self.alloc, held.as_slice(), most);
                self.reads = self.reads.saturating_add(1);
                Ok(bytes?)
            }
            None => {
                self.reads = self.reads.saturating_add(1);
                self.failed = String::from_str(self.alloc, name)?;
                self.faults = self.faults.saturating_add(1);
                Err(FileFault::Fault)
            }
        }
    }

    fn failed(&self) -> &str {
        self.failed.as_str()
    }

    fn faults(&self) -> u64 {
        self.faults
    }
}

/// A copy of the first `most` of the bytes.
fn front(alloc: Global, bytes: &[u8], most: usize) -> Result<Seq<u8>, NoMemory>
    ensures { IfOk result (λ copy. copy ≡ take most bytes.now) }
{
    let count = bytes.len().min(most);
    Ok(Seq::from_vec(Vec::from_slice(alloc, &bytes[..count])?))
}
