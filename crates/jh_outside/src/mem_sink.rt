//! A sink in memory.
ghost use Rattle.std.specs.Prelude.{◌≡◌, ◌-◌, ◌++◌, [], ◌<◌, ◌≤◌, ◌↔◌, Some, length, take, min, IfOk, OnErr, IsErr};
ghost use Rattle.jh_outside.specs.Count.{Rose};
ghost use Rattle.jh_num.specs.Numbers.{counted_up};
ghost use Rattle.jh_outside.specs.Writes.{Appended};

use crate::sink::{Sink, SinkFault};
use jh_num::NoMemory;
use std::alloc::Global;
use std::marker::Model;

/// A sink that keeps what is appended, up to the room that it was made with.
#[derive(Drop)]
pub struct MemSink {
    bytes: Vec<u8>,
    free: usize,
    faults: u64,
}

impl Model for MemSink {
    ghost use Rattle.std.specs.Prelude.{◌+◌, ◌≤◌, length, vec_capacity};
    ghost use Rattle.jh_outside.specs.Buffer.{Buffer};

    ghost Value = { Buffer };

    ghost view = { λ s. record { bytes = s.bytes.items; free = s.free; faults = s.faults } };

    ghost invariant = { λ s. length s.bytes.items + s.free ≤ vec_capacity s.bytes };
}

impl MemSink {
    /// An empty sink for `room` bytes. It takes all its memory here.
    pub fn new(alloc: Global, room: usize) -> Result<MemSink, NoMemory>
        ensures { IfOk result (λ s. s ≡ record { bytes = []; free = room; faults = 0 }) }
    {
        let bytes = Vec::with_capacity(alloc, room)?;
        Ok(MemSink {
            bytes,
            free: room,
            faults: 0,
        })
    }

    /// What was appended.
    pub fn bytes(&self) -> &[u8]
        ensures { result.now ≡ self.now.bytes }
    {
        self.bytes.as_slice()
    }
}

impl Sink for MemSink {
    ghost written = { λ s. Some s.bytes };

    ghost faults = { λ s. s.faults };

    /// Appends as much as fits. Where nothing is free, a piece that isn't empty is a fault.
    fn write(&mut self, piece: &[u8]) -> Result<usize, SinkFault>
        ensures within { IfOk result (λ count. count ≤ length piece.now) }
        ensures some { IfOk result (λ count. 0 < length piece.now → 0 < count) }
        ensures appended { IfOk result (λ count. Appended (Some self.old.bytes) (Some self.new.bytes) (take count piece.now)) }
        ensures nothing { OnErr result (Some self.new.bytes ≡ Some self.old.bytes) }
        ensures counted { OnErr result (Rose self.old.faults self.new.faults) }
        ensures never_falls { self.old.faults ≤ self.new.faults }
        // exactly what it answers, and what it leaves
        ensures fits { IfOk result (λ count. count ≡ min (length piece.now) self.old.free) }
        ensures full { IsErr result ↔ ((self.old.free ≡ 0) × (0 < length piece.now)) }
        ensures after { IfOk result (λ count. self.new ≡ record self.old { bytes = self.old.bytes ++ take count piece.now; free = self.old.free - count }) }
        ensures after_fault { OnErr result (self.new ≡ record self.old { faults = counted_up self.old.faults }) }
    {
        if self.free == 0 && !piece.is_empty() {
            self.faults = self.faults.saturating_add(1);
            return Err(SinkFault);
        }
        let count = piece.len().min(self.free);
        // `new` took room for all that is free, so this never wants memory
        self.bytes.extend_from_slice(&piece[..count]).unwrap();
        self.free -= count;
        Ok(count)
    }

    fn faults(&self) -> u64 {
        self.faults
    }
}
