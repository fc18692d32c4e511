//! What a collector is.
ghost use Rattle.std.specs.Prelude.{◌≡◌, List, All, IfOk, OnOk, fold, map, true, ⊤};
ghost use Rattle.collectors.specs.Laws.{CollectorLaws, CountsAlone};

use spliterator::{NoMemory, Value};

/// The most entries of a light container.
pub(crate) const LIGHT_ENTRIES: usize = 64;

/// A mutable reduction: containers that take items in, are combined from left to right, and are finished to a result.
///
/// Contracts see a container by its content, a plain value. The content of a container that the collector made is the left fold of
/// `add` from `empty` over the contents of its items.
///
/// After a refusal the container is only to be dropped. Java's `Collector`, without its characteristics.
pub trait Collector {
    type Item: Value;

    type Acc: Drop;

    type Out: Drop;

    // The collectors whose functions may be called. By default all.
    ghost ready: { Self → Type 0 } = { λ _. ⊤ };

    // What a contract sees of a container.
    ghost Content: { Type 0 };

    ghost content: { Self → Self.Acc → Content };

    // The content of a new container, of one that takes an item in, and of two that are combined.
    ghost empty: { Self → Content };

    ghost add: { Self → Content → Self.Item.Content → Content };

    ghost merge: { Self → Content → Content → Content };

    // The results on a list of items.
    ghost gives: { Self → List Self.Item.Content → Self.Out → Type 0 };

    /// A new container.
    fn supply(&self) -> Result<Self::Acc, NoMemory>
        requires { ready self.now }
        ensures { IfOk result (λ acc. content self.now acc ≡ empty self.now) };

    /// A new container, for about so many items. No result depends on their number.
    fn supply_for(&self, _number: u64) -> Result<Self::Acc, NoMemory>
        requires { ready self.now }
        ensures { IfOk result (λ acc. content self.now acc ≡ empty self.now) }
    {
        self.supply()
    }

    /// Takes an item into a container.
    fn accumulate(&self, acc: &mut Self::Acc, x: &Self::Item) -> Result<(), NoMemory>
        requires { ready self.now }
        ensures { OnOk result (content self.now acc.new ≡ add self.now (content self.now acc.old) (Self.Item.content x.now)) };

    /// Takes a block of items into a container, in order.
    fn accumulate_all(&self, acc: &mut Self::Acc, items: &[Self::Item]) -> Result<(), NoMemory>
        requires { ready self.now }
        ensures { OnOk result (content self.now acc.new ≡ fold (add self.now) (content self.now acc.old) (map Self.Item.content items.now)) }
    {
        for item in items {
            self.accumulate(acc, item)?;
        }
        Ok(())
    }

    /// Takes an item into a container, which may keep it as it is.
    fn accumulate_owned(&self, acc: &mut Self::Acc, x: Self::Item) -> Result<(), NoMemory>
    where
        Self::Item: Drop,
        requires { ready self.now }
        ensures { OnOk result (content self.now acc.new ≡ add self.now (content self.now acc.old) (Self.Item.content x)) }
    {
        self.accumulate(acc, &x)
    }

    /// Takes a block of items into a container, in order, which may keep them as they are. What the list holds afterwards is of no use.
    fn accumulate_all_owned(
        &self,
        acc: &mut Self::Acc,
        items: &mut Vec<Self::Item>,
    ) -> Result<(), NoMemory>
    where
        Self::Item: Drop,
        requires { ready self.now }
        ensures { OnOk result (content self.now acc.new ≡ fold (add self.now) (content self.now acc.old) (map Self.Item.content items.old.items)) }
    {
        self.accumulate_all(acc, items.as_slice())
    }

    /// Takes the container of what follows into the container of what comes first.
    fn combine(&self, left: &mut Self::Acc, right: Self::Acc) -> Result<(), NoMemory>
        requires { ready self.now }
        ensures { OnOk result (content self.now left.new ≡ merge self.now (content self.now left.old) (content self.now right)) };

    /// The result.
    fn finish(&self, acc: Self::Acc) -> Result<Self::Out, NoMemory>
        requires { ready self.now }
        ensures { (l : List Self.Item.Content) → All Self.Item.is_value l
            → content self.now acc ≡ fold (add self.now) (empty self.now) l → IfOk result (gives self.now l) };

    /// Whether a combination takes the container in about as fast as some items, and sooner than a thread starts. No result depends on it.
    fn is_light(&self, _acc: &Self::Acc) -> bool {
        false
    }

    /// Whether a container hangs on the number of its items alone, whatever they are.
    fn counts_alone(&self) -> bool
        requires { ready self.now }
        ensures { result ≡ true → CountsAlone (add self.now) }
    {
        false
    }

    /// Whether a container keeps a list that is handed over as it stands, with no look at its items. No result depends on it.
    fn keeps_lists(&self) -> bool {
        false
    }

    ghost laws: { (c : Self) → CollectorLaws Self.Item.is_value (empty c) (add c) (merge c) };
}
