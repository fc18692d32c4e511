//! Sources of which a front, or what follows it, is had at once.
ghost use Rattle.std.specs.Prelude.{◌≡◌, drop, length, take};

use spliterator::Spliterator;

/// A source whose items are counted, and of which any front, and what follows it, is a source of the same kind, in constant time.
pub trait Placed: Spliterator {
    /// The number of items.
    fn count(&self) -> u64
        ensures { result ≡ length (Self.Spliterator.items self.now) };

    /// At most the first `most` items.
    ///
    /// ```text
    /// RangeSplit::range(1, 9)?.first(3)    // 1, 2, 3
    /// ```
    // java.util.stream.Stream, limit
    fn first(self, most: u64) -> Self
        ensures { Self.Spliterator.items result ≡ take most (Self.Spliterator.items self) };

    /// The items after the first `number`.
    ///
    /// ```text
    /// RangeSplit::range(1, 9)?.after_first(3)    // 4, 5, 6, 7, 8
    /// ```
    // java.util.stream.Stream, skip
    fn after_first(self, number: u64) -> Self
        ensures { Self.Spliterator.items result ≡ drop number (Self.Spliterator.items self) };
}

/// At most the first `most` of some items.
pub fn front_of<T>(items: &[T], most: u64) -> &[T]
    ensures { result.now ≡ take most items.now }
{
    let number = most.min(items.len() as u64);
    items.split_at(number as usize).0
}

/// The items after the first `number`.
pub fn rest_of<T>(items: &[T], number: u64) -> &[T]
    ensures { result.now ≡ drop number items.now }
{
    let number = number.min(items.len() as u64);
    items.split_at(number as usize).1
}
