//! Collectors that some item decides.
ghost use Rattle.std.specs.Prelude.{◌≡◌, ◌≤◌, ◌++◌, List, Bool, true, All, fold, count_by};
ghost use Rattle.derived_collectors.specs.Tried.{has_failed};
ghost use Rattle.derived_collectors.specs.Decided.{decided-tried};

use crate::Trying;
use collectors::Collector;
use spliterator::Value;
use stages::Test;

/// A collector whose result is known once an item that decides has come, whatever follows it.
pub trait Deciding: Collector {
    // the items that decide
    ghost decisive: { Self → Self.Item.Content → Bool };

    /// Whether the item decides.
    fn is_decisive(&self, x: &Self::Item) -> bool
        requires { Self.ready self.now }
        ensures { result ≡ decisive self.now (Self.Item.content x.now) };

    /// Whether what the container stands for decides, whatever follows. It may answer no for any reason.
    fn is_decided(&self, acc: &Self::Acc) -> bool
        requires { Self.ready self.now }
        ensures { result ≡ true → (l more : List Self.Item.Content) → All Self.Item.is_value l
            → Self.content self.now acc.now ≡ fold (Self.add self.now) (Self.empty self.now) l
            → (out : Self.Out) → Self.gives self.now l out → Self.gives self.now (l ++ more) out };

    ghost decided: { (c : Self) (front more : List Self.Item.Content) (r : Self.Out) → 1 ≤ count_by (decisive c) front
        → Self.Collector.gives c front r → Self.Collector.gives c (front ++ more) r };
}

impl<D: Collector, E: Value + Clone + Drop> Deciding for Trying<D, E>
where
    D::Item: Drop,
{
    ghost decisive = { λ _. has_failed };

    ghost decided = { λ c. decided-tried (D.gives c.downstream) E.content };

    fn is_decisive(&self, x: &Result<D::Item, E>) -> bool {
        x.is_err()
    }

    fn is_decided(&self, acc: &Result<D::Acc, E>) -> bool {
        acc.is_err()
    }
}

/// The test that an item decides.
#[derive(Drop)]
pub struct Decides<'a, C> {
    pub collector: &'a C,
}

impl<C: Deciding> Test<C::Item> for Decides<'_, C> {
    ghost ready = { λ t. C.ready t.collector.now };

    ghost holds = { λ t. C.decisive t.collector.now };

    fn holds(&self, x: &C::Item) -> bool {
        self.collector.is_decisive(x)
    }
}
