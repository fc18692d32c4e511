// The rule of a board, told plainly: who was given which leaf, which counts are known, where the cut is.
ghost use Rattle.std.specs.Prelude.{◌≡◌, ◌<◌, ◌≤◌, length};

use barriers::Need;
use std::alloc::{AllocError, Global};

// What a board is made for.
#[derive(Drop)]
pub(super) struct Setting {
    pub(super) leaves: usize,
    pub(super) full: Vec<u64>,
    pub(super) need: Need,
    pub(super) seats: usize,
    ghost leaves_few: { (0 < leaves) × (leaves ≤ 65536) },
    ghost seats_few: { (0 < seats) × (seats ≤ 64) },
    ghost counted: { length full.items ≡ leaves },
}

#[derive(Drop)]
pub(super) struct Plain {
    given: Vec<bool>,
    counts: Vec<Option<u64>>,
    cut: Option<usize>,
}

impl Plain {
    pub(super) fn new(alloc: Global, leaves: usize) -> Result<Plain, AllocError> {
        Ok(Plain {
            given: vec![in alloc; false; leaves]?,
            counts: vec![in alloc; None; leaves]?,
            cut: None,
        })
    }

    // The first leaf of the share that isn't given.
    fn left_in(&self, setting: &Setting, share: usize) -> Option<usize>
        requires { share < setting.now.seats }
    {
        let seats = setting.seats;
        let leaves = setting.leaves;
        let start = share * leaves / seats;
        let end = (share + 1) * leaves / seats;
        for leaf in start..end {
            if self.given.get(leaf) == Some(&false) {
                return Some(leaf);
            }
        }
        None
    }

    // A seat gets what is left of its own share, then of the next ones round the ring.
    pub(super) fn draw(&mut self, setting: &Setting, seat: usize) -> Option<usize> {
        let seats = setting.seats;
        for step in 0..seats {
            let share = seat.wrapping_add(step) % seats;
            if let Some(leaf) = self.left_in(setting, share) {
                if let Some(given) = self.given.get_mut(leaf) {
                    *given = true;
                }
                return Some(leaf);
            }
        }
        None
    }

    pub(super) fn publish(&mut self, leaf: usize, count: u64) {
        if let Some(place) = self.counts.get_mut(leaf) {
            *place = Some(count);
        }
    }

    // Cuts at the first leaf up to this one where the counts so far reach the need.
    pub(super) fn settle(&mut self, setting: &Setting, leaf: usize) {
        let Need::Reach(need) = setting.need else {
            return;
        };
        let mut sum: u64 = 0;
        for (at, count) in self.counts.iter().enumerate() {
            sum = sum.saturating_add(count.unwrap_or(0));
            if at <= leaf && sum >= need {
                self.cut = Some(self.cut.map_or(at, |cut| cut.min(at)));
                return;
            }
        }
    }

    pub(super) fn is_cut(&self, leaf: usize) -> bool {
        matches!(self.cut, Some(cut) if cut < leaf)
    }

    pub(super) fn cut(&self) -> Option<usize> {
        self.cut
    }

    pub(super) fn count(&self, leaf: usize) -> Option<u64> {
        self.counts.get(leaf).copied().flatten()
    }
}
