//! The gate of the tests: each other type of gate would be one more copy of a run in the compiled tests.

use parallel_streams::StreamError;
use std::hint;
use std::sync::atomic::{AtomicU64, Ordering};
use stealing_pool::Gate;

/// The most turns for which a worker is held.
const TURNS: u64 = 10_000_000;

/// Counts the leaves that were entered, each by its number too. It holds leaf 0 until so many were, itself among them, and so many others have ended.
#[derive(Drop)]
pub struct Watch {
    wanted_entered: u64,
    wanted_ended: u64,
    entered: AtomicU64,
    by_number: AtomicU64,
    others_ended: AtomicU64,
    first_ended: AtomicU64,
    /// How often a test was asked meanwhile.
    pub asked: AtomicU64,
    missed: AtomicU64,
}

impl Watch {
    /// A gate that holds leaf 0 until so many leaves were entered, itself among them, and so many others have ended.
    pub fn until(wanted_entered: u64, wanted_ended: u64) -> Watch {
        Watch {
            wanted_entered,
            wanted_ended,
            entered: AtomicU64::new(0),
            by_number: AtomicU64::new(0),
            others_ended: AtomicU64::new(0),
            first_ended: AtomicU64::new(0),
            asked: AtomicU64::new(0),
            missed: AtomicU64::new(0),
        }
    }

    /// How many leaves were entered.
    pub fn entered(&self) -> u64 {
        self.entered.load(Ordering::SeqCst)
    }

    /// The sum of `once` of the leaves that were entered.
    pub fn by_number(&self) -> u64 {
        self.by_number.load(Ordering::SeqCst)
    }

    /// Turns until the number is as great as is wanted, or counts that it never was.
    fn wait_for(&self, number: &AtomicU64, wanted: u64) {
        for _ in 0..TURNS {
            if number.load(Ordering::SeqCst) >= wanted {
                return;
            }
            hint::spin_loop();
        }
        self.missed.fetch_add(1, Ordering::SeqCst);
    }

    /// Turns until leaf 0 has ended.
    pub fn wait_for_first(&self) {
        self.wait_for(&self.first_ended, 1);
    }

    /// Whether nobody waited in vain. Where one did, no second thread came: its start wanted memory.
    pub fn all_came(&self) -> Result<(), StreamError> {
        if self.missed.load(Ordering::SeqCst) == 0 {
            Ok(())
        } else {
            Err(StreamError::NoMemory)
        }
    }
}

/// One time a leaf, in a number that has four bits for each of the first 16 leaves.
pub fn once(leaf: usize) -> u64 {
    1 << (4 * (leaf % 16))
}

impl Gate for Watch {
    fn before_leaf(&self, _worker: u32, leaf: usize) {
        self.entered.fetch_add(1, Ordering::SeqCst);
        self.by_number.fetch_add(once(leaf), Ordering::SeqCst);
        if leaf == 0 {
            self.wait_for(&self.entered, self.wanted_entered);
            self.wait_for(&self.others_ended, self.wanted_ended);
        }
    }

    fn after_leaf(&self, _worker: u32, leaf: usize) {
        let ended = if leaf == 0 {
            &self.first_ended
        } else {
            &self.others_ended
        };
        ended.fetch_add(1, Ordering::SeqCst);
    }
}
