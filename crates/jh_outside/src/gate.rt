//! A gate before each turn of a worker.

/// What a worker passes before each turn that it takes, outside any lock.
pub trait Gate {
    /// Returns when the worker may take its turn for the CPU. `turn` is the number of turns that were
    /// taken for that CPU before, from 0. The answer tells nothing.
    fn pass(&self, cpu: u8, turn: u64);
}

/// The gate that each worker passes at once.
#[derive(Clone, Copy, Debug)]
pub struct NoGate;

impl Gate for NoGate {
    fn pass(&self, _cpu: u8, _turn: u64) {}
}
