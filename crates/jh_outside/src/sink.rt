//! A sink that bytes are appended to.
ghost use Rattle.std.specs.Prelude.{◌≡◌, ℕ, ◌<◌, ◌≤◌, List, Option, length, take, IfOk, OnErr};
ghost use Rattle.jh_outside.specs.Count.{Rose};
ghost use Rattle.jh_outside.specs.Writes.{Appended};

/// The sink took nothing. It was counted.
#[derive(Clone, Copy, PartialEq, Eq, Debug)]
pub struct SinkFault;

/// Where bytes go, one after another.
pub trait Sink {
    // All that was appended, where the sink tells it.
    ghost written: { Self → Option (List ℕ) };

    // How many writes failed, up to 2^64 - 1.
    ghost faults: { Self → ℕ };

    /// Appends a front of the piece, and answers its length. It takes no memory.
    fn write(&mut self, piece: &[u8]) -> Result<usize, SinkFault>
        ensures within { IfOk result (λ count. count ≤ length piece.now) }
        ensures some { IfOk result (λ count. 0 < length piece.now → 0 < count) }
        ensures appended { IfOk result (λ count. Appended (written self.old) (written self.new) (take count piece.now)) }
        ensures nothing { OnErr result (written self.new ≡ written self.old) }
        ensures counted { OnErr result (Rose (faults self.old) (faults self.new)) }
        ensures never_falls { faults self.old ≤ faults self.new };

    /// How many writes failed. The count never falls, and stands still at `u64::MAX`.
    fn faults(&self) -> u64
        ensures { result ≡ faults self.now };
}
