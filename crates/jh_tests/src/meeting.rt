//! A gate at which two workers wait for one another, so that no run on one thread has both of them meet.

use jh_outside::Gate;
use std::sync::atomic::{AtomicU64, Ordering};
use std::thread;

/// Whoever takes the turns of CPU 0 waits before the first until a worker comes to the other CPU's second turn, and
/// that one waits before it until CPU 0's second comes.
#[derive(Drop)]
pub struct Meeting {
    other: u8,
    zero_came: AtomicU64,
    other_came: AtomicU64,
    met: AtomicU64,
}

impl Meeting {
    /// The gate of CPU 0 and the other one.
    pub fn with(other: u8) -> Meeting {
        Meeting {
            other,
            zero_came: AtomicU64::new(0),
            other_came: AtomicU64::new(0),
            met: AtomicU64::new(0),
        }
    }

    /// How many workers saw the other one come.
    pub fn met(&self) -> u64 {
        self.met.load(Ordering::SeqCst)
    }

    /// Looks until the other worker has come to its second turn, and counts that. After 100,000,000 looks it goes on all the same.
    fn await_second(&self, came: &AtomicU64) {
        for _ in 0..100_000_000u64 {
            if came.load(Ordering::SeqCst) > 0 {
                self.met.fetch_add(1, Ordering::SeqCst);
                return;
            }
            thread::yield_now();
        }
    }
}

impl Gate for Meeting {
    fn pass(&self, cpu: u8, turn: u64) {
        if cpu == 0 && turn == 0 {
            self.await_second(&self.other_came);
        }
        if cpu == self.other && turn == 1 {
            self.other_came.store(1, Ordering::SeqCst);
            self.await_second(&self.zero_came);
        }
        if cpu == 0 && turn == 1 {
            self.zero_came.store(1, Ordering::SeqCst);
        }
    }
}
