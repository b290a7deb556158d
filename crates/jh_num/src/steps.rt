//! Descriptor reads, counted, and the last of them.
ghost use Rattle.std.specs.Prelude.{◌≡◌, [], ◌∷◌, ◌++◌};
ghost use Rattle.jh_num.specs.Counted.{last_eight};
ghost use Rattle.jh_num.specs.Numbers.{counted_up};

use std::marker::Model;

/// One descriptor read: the address of the descriptor and the word that stood there.
#[derive(Clone, Copy, PartialEq, Eq, Debug)]
pub struct Probe {
    pub at: u64,
    pub word: u64,
}

/// How many reads are kept.
const KEPT: usize = 8;

/// How many descriptors were read, and the last eight of them.
#[derive(Drop)]
pub struct Steps {
    count: u64,
    last: [Probe; 8],
    len: usize,
}

impl Model for Steps {
    ghost use Rattle.std.specs.Prelude.{◌≡◌, ◌≤◌, length, take};
    ghost use Rattle.jh_num.specs.Counted.{Counted};

    ghost Value = { Counted };

    ghost view = { λ s. record { count = s.count; probes = take s.len s.last } };

    ghost invariant = { λ s. (s.len ≤ 8) × (length s.last ≡ 8) };
}

impl Steps {
    /// Counted reads before the first one: the count is 0, and no read is kept.
    pub fn new() -> Self
        ensures count { result.count ≡ 0 }
        ensures probes { result.probes ≡ [] }
    {
        Steps {
            count: 0,
            last: [Probe { at: 0, word: 0 }; 8],
            len: 0,
        }
    }

    /// Counts one more read, as far as a `u64` goes, and keeps it as the newest of the last eight.
    pub fn probe(&mut self, p: Probe)
        ensures count { self.new.count ≡ counted_up self.old.count }
        ensures probes { self.new.probes ≡ last_eight (self.old.probes ++ p ∷ []) }
    {
        self.count = self.count.saturating_add(1);
        if self.len < KEPT {
            self.last[self.len] = p;
            self.len += 1;
        } else {
            self.last.rotate_left(1);
            self.last[KEPT - 1] = p;
        }
    }

    /// How many descriptors were read; at 2^64 - 1 the count stands still.
    pub fn count(&self) -> u64
        ensures { result ≡ self.now.count }
    {
        self.count
    }

    /// The last reads, at most eight, the newest last.
    pub fn probes(&self) -> &[Probe]
        ensures { result.now ≡ self.now.probes }
    {
        &self.last[..self.len]
    }
}
