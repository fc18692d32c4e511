//! Gates that hold a worker until another has come so far.

use super::TURNS;
use std::hint;
use std::sync::atomic::{AtomicU64, Ordering};
use stealing_pool::Gate;

/// Turns until the number is as great as is wanted, and says whether it came to be.
pub fn wait_for(number: &AtomicU64, wanted: u64) -> bool {
    for _ in 0..TURNS {
        if number.load(Ordering::SeqCst) >= wanted {
            return true;
        }
        hint::spin_loop();
    }
    false
}

/// Holds the first worker at its first leaf until another worker has entered a leaf.
#[derive(Drop)]
pub struct Meeting {
    pub entered: AtomicU64,
    pub missed: AtomicU64,
}

impl Meeting {
    pub fn new() -> Meeting {
        Meeting {
            entered: AtomicU64::new(0),
            missed: AtomicU64::new(0),
        }
    }
}

impl Gate for Meeting {
    fn before_leaf(&self, worker: u32, _leaf: usize) {
        // A bit for each worker that has entered a leaf.
        let earlier = self.entered.fetch_or(1 << (worker % 64), Ordering::SeqCst);
        if earlier != 0 {
            return;
        }
        for _ in 0..TURNS {
            if self.entered.load(Ordering::SeqCst) != 1 << (worker % 64) {
                return;
            }
            hint::spin_loop();
        }
        self.missed.fetch_add(1, Ordering::SeqCst);
    }

    fn after_leaf(&self, _worker: u32, _leaf: usize) {}
}

/// Holds leaf 0 until so many other leaves have begun, and so many have ended, and tells that leaf 0 has ended.
#[derive(Drop)]
pub struct HoldsFirst {
    wanted_begun: u64,
    wanted_ended: u64,
    begun: AtomicU64,
    ended: AtomicU64,
    pub first_ended: AtomicU64,
    // how often `Watched` was asked meanwhile
    pub asked: AtomicU64,
    pub missed: AtomicU64,
}

impl HoldsFirst {
    pub fn until(wanted_begun: u64, wanted_ended: u64) -> HoldsFirst {
        HoldsFirst {
            wanted_begun,
            wanted_ended,
            begun: AtomicU64::new(0),
            ended: AtomicU64::new(0),
            first_ended: AtomicU64::new(0),
            asked: AtomicU64::new(0),
            missed: AtomicU64::new(0),
        }
    }

    /// How many leaves right of leaf 0 have begun.
    pub fn others_begun(&self) -> u64 {
        self.begun.load(Ordering::SeqCst)
    }

    /// Whether each leaf right of leaf 0 that has begun has ended.
    pub fn all_ended(&self) -> bool {
        self.ended.load(Ordering::SeqCst) == self.begun.load(Ordering::SeqCst)
    }
}

impl Gate for HoldsFirst {
    fn before_leaf(&self, _worker: u32, leaf: usize) {
        if leaf > 0 {
            self.begun.fetch_add(1, Ordering::SeqCst);
        } else if !wait_for(&self.begun, self.wanted_begun)
            || !wait_for(&self.ended, self.wanted_ended)
        {
            self.missed.fetch_add(1, Ordering::SeqCst);
        }
    }

    fn after_leaf(&self, _worker: u32, leaf: usize) {
        if leaf > 0 {
            self.ended.fetch_add(1, Ordering::SeqCst);
        } else {
            self.first_ended.fetch_add(1, Ordering::SeqCst);
        }
    }
}

/// Counts the leaves that run, and the items that are met while none does.
#[derive(Drop)]
pub struct Between {
    running: AtomicU64,
    strays: AtomicU64,
}

impl Between {
    pub fn new() -> Between {
        Between {
            running: AtomicU64::new(0),
            strays: AtomicU64::new(0),
        }
    }

    /// An item is met.
    pub fn meet(&self) {
        if self.running.load(Ordering::SeqCst) == 0 {
            self.strays.fetch_add(1, Ordering::SeqCst);
        }
    }

    /// Whether no item was met while no leaf ran, and none runs now.
    pub fn met_all(&self) -> bool {
        self.strays.load(Ordering::SeqCst) == 0 && self.running.load(Ordering::SeqCst) == 0
    }
}

impl Gate for Between {
    fn before_leaf(&self, _worker: u32, _leaf: usize) {
        self.running.fetch_add(1, Ordering::SeqCst);
    }

    fn after_leaf(&self, _worker: u32, _leaf: usize) {
        self.running.fetch_sub(1, Ordering::SeqCst);
    }
}
