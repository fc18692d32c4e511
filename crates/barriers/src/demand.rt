//! How much of a list is enough.
ghost use Rattle.std.specs.Prelude.{◌≡◌, ◌<◌, ◌≤◌, ◌-◌, ◌^◌, ℕ, length, take, map, count_by, Bool, Option, Some, None, ⊤};
ghost use Rattle.barriers.specs.Needs.{need_of, every_item, no_item, IsBelow, CountsNone, StaysEnough};
ghost use Rattle.barriers.specs.NeedLaws.{StaysEnough-always};

use spliterator::Value;
use stages::Test;

/// How many counting items are needed.
#[derive(Clone, Copy, Debug, PartialEq, Eq)]
pub enum Need {
    /// Nothing is ever enough.
    Never,
    /// So many counting items are enough.
    Reach(u64),
}

/// Says which items count, and how many of them are needed.
pub trait Demand<T: Value> {
    // the condition of stored tests
    ghost ready: { Self → Type 0 } = { λ _. ⊤ };

    ghost needed: { Self → Option ℕ };

    ghost counted: { Self → T.Content → Bool };

    /// How many counting items are needed: less than 2^63. With `Need::Never` no item counts.
    fn need(&self) -> Need
        requires { ready self.now }
        ensures is { need_of result ≡ needed self.now }
        ensures fits { IsBelow (needed self.now) (2 ^ 63) }
        ensures never { CountsNone (needed self.now) (counted self.now) };

    /// Whether the item counts.
    fn counts(&self, x: &T) -> bool
        requires { ready self.now }
        ensures { result ≡ counted self.now (T.content x.now) };

    /// How many items of a block are taken until `wanted` of them count, and how many of these count: all items, where fewer count. No item
    /// is taken behind the last that is wanted, and none is asked for twice.
    fn front(&self, items: &[T], wanted: u64) -> (usize, u64)
        requires { ready self.now }
        ensures within { result.0 ≤ length items.now }
        ensures counting { result.1 ≡ count_by (counted self.now) (map T.content (take result.0 items.now)) }
        ensures most { result.1 ≤ wanted }
        ensures whole { result.1 < wanted → result.0 ≡ length items.now }
        ensures shortest { let before_last = map T.content (take (result.0 - 1) items.now) in
            0 < result.0 → count_by (counted self.now) before_last < wanted }
    {
        let mut counting = 0;
        for (taken, item) in items.iter().enumerate() {
            if counting >= wanted {
                return (taken, counting);
            }
            if self.counts(item) {
                counting += 1;
            }
        }
        (items.len(), counting)
    }

    // what is enough stays enough, whatever stands before it and behind it
    ghost stays_enough: { (d : Self) → StaysEnough (needed d) (counted d) } = { λ d. StaysEnough-always (needed d) (counted d) };
}

/// Nothing is ever enough.
#[derive(Clone, Copy, Debug)]
pub struct Whole;

impl<T: Value> Demand<T> for Whole {
    ghost needed = { λ _. None };

    ghost counted = { λ _. no_item };

    fn need(&self) -> Need {
        Need::Never
    }

    fn counts(&self, _x: &T) -> bool {
        false
    }
}

/// Every item counts.
#[derive(Clone, Copy, Debug)]
pub struct Total {
    pub needed: u64,
    ghost fits: { needed < 2 ^ 63 },
}

impl Total {
    /// So many items are enough: less than 2^63.
    pub fn new(needed: u64) -> Total
        requires { needed < 2 ^ 63 }
        ensures { result.needed ≡ needed }
    {
        Total { needed }
    }
}

impl<T: Value> Demand<T> for Total {
    ghost needed = { λ d. Some d.needed };

    ghost counted = { λ _. every_item };

    fn need(&self) -> Need {
        Need::Reach(self.needed)
    }

    fn counts(&self, _x: &T) -> bool {
        true
    }
}

/// One item that meets the test is enough.
#[derive(Drop)]
pub struct FirstHit<P> {
    pub test: P,
}

impl<P> FirstHit<P> {
    pub fn new(test: P) -> FirstHit<P>
        ensures { result.test ≡ test }
    {
        FirstHit { test }
    }
}

impl<T: Value, P: Test<T>> Demand<T> for FirstHit<P> {
    ghost ready = { λ d. P.ready d.test };

    ghost needed = { λ _. Some 1 };

    ghost counted = { λ d. P.holds d.test };

    fn need(&self) -> Need {
        Need::Reach(1)
    }

    fn counts(&self, x: &T) -> bool {
        self.test.holds(x)
    }
}
