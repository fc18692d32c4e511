//! What a stream tells of its items before any of them is read.
ghost use Rattle.std.specs.Prelude.{◌≡◌, Some, None, if◌then◌else◌};
ghost use Rattle.spliterator.specs.Characteristics.{tells};
ghost use Rattle.stages.specs.Flags.{IsSound, flags_of, after, is_distinct, is_sorted, is_sized, is_short_circuit};

use spliterator::Spliterator;
use spliterator::characteristics::{DISTINCT, SIZED, SORTED};

/// An intermediate operation, as far as the flags of a stream go by it.
#[derive(Clone, Copy, Debug, PartialEq, Eq)]
pub enum Operation {
    Map,
    Filter,
    FlatMap,
    Distinct,
    Limit,
    Skip,
    TakeWhile,
    DropWhile,
}

/// What a stream tells of its items: that no two are equal, that they ascend, that their number is known; and whether a
/// part of them may be left unread.
#[derive(Clone, Copy, Debug, PartialEq, Eq)]
pub struct StreamFlags {
    distinct: bool,
    sorted: bool,
    sized: bool,
    short_circuit: bool,
}

impl StreamFlags {
    /// The flags of a source with these characteristics.
    pub fn of(characteristics: u32) -> StreamFlags
        ensures { result ≡ flags_of characteristics }
    {
        StreamFlags {
            distinct: characteristics & DISTINCT == DISTINCT,
            sorted: characteristics & SORTED == SORTED,
            sized: characteristics & SIZED == SIZED,
            short_circuit: false,
        }
    }

    /// The flags of a source, which are sound with its exact size.
    pub fn of_source<S: Spliterator>(source: &S) -> StreamFlags
        ensures of { result ≡ flags_of (S.told source.now) }
        ensures sound { IsSound S.Item.order result (if tells (S.told source.now) SIZED then Some (S.estimate source.now) else None) (S.items source.now) }
    {
        StreamFlags::of(source.characteristics())
    }

    /// The flags of the stream that the operation makes of one with these flags.
    pub fn after(self, operation: Operation) -> StreamFlags
        ensures { result ≡ after self operation }
    {
        let mut flags = self;
        match operation {
            Operation::Map => {
                flags.distinct = false;
                flags.sorted = false;
            }
            Operation::Filter | Operation::DropWhile => flags.sized = false,
            Operation::FlatMap => {
                flags.distinct = false;
                flags.sorted = false;
                flags.sized = false;
            }
            Operation::Distinct => {
                flags.distinct = true;
                flags.sized = false;
            }
            Operation::Limit => flags.short_circuit = true,
            Operation::Skip => {}
            Operation::TakeWhile => {
                flags.sized = false;
                flags.short_circuit = true;
            }
        }
        flags
    }

    /// Whether no two items are equal.
    pub fn is_distinct(self) -> bool
        ensures { result ≡ is_distinct self }
    {
        self.distinct
    }

    /// Whether the items ascend.
    pub fn is_sorted(self) -> bool
        ensures { result ≡ is_sorted self }
    {
        self.sorted
    }

    /// Whether the number of items is known.
    pub fn is_sized(self) -> bool
        ensures { result ≡ is_sized self }
    {
        self.sized
    }

    /// Whether a part of the items may be left unread.
    pub fn is_short_circuit(self) -> bool
        ensures { result ≡ is_short_circuit self }
    {
        self.short_circuit
    }
}
