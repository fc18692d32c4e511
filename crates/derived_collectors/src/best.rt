//! Which of two keys is the better one.
ghost use Rattle.std.specs.Prelude.{◌≡◌};
ghost use Rattle.derived_collectors.specs.FirstBest.{is_better};

use spliterator::SortedValue;
use std::cmp::Ordering;

/// Whether the least key is the best or the greatest.
#[derive(Clone, Copy, Drop)]
pub enum Best {
    Least,
    Greatest,
}

impl Best {
    /// Whether the first key is strictly better than the second: `Best::Least.is_better(&2, &5)`, `Best::Greatest.is_better(&5, &2)`.
    pub fn is_better<J: SortedValue>(self, key: &J, other: &J) -> bool
        ensures { result ≡ is_better self J.order (J.content key.now) (J.content other.now) }
    {
        match self {
            Best::Least => key.cmp(other) == Ordering::Less,
            Best::Greatest => other.cmp(key) == Ordering::Less,
        }
    }
}
