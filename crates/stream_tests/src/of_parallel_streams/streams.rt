//! Streams of numbers, by a bound. A check takes some twenty seconds for each call over the type of a source, and one or two where the type is a bound's:
//! so the tests are generic over this one, and `run_test` alone names the sources.

use parallel_streams::{Source, Stream, of};
use sources::{RangeSplit, SliceSplit};
use std::process::Abort;

/// Where numbers come from.
pub trait Streams {
    type Range: Stream<Item = i64> + Drop + Sync;

    type Slice: Stream<Item = i64> + Drop + Sync;

    /// The numbers of a range.
    fn range(&self, range: RangeSplit) -> Self::Range
        ensures { Self.Range.ready result };

    /// The numbers of a slice.
    fn slice(&self, numbers: &'static [i64]) -> Self::Slice
        ensures { Self.Slice.ready result };
}

/// The streams of the sources themselves.
pub struct Sources;

impl Streams for Sources {
    type Range = Source<RangeSplit>;

    type Slice = Source<SliceSplit<'static, i64>>;

    fn range(&self, range: RangeSplit) -> Source<RangeSplit> {
        of(range)
    }

    fn slice(&self, numbers: &'static [i64]) -> Source<SliceSplit<'static, i64>> {
        of(SliceSplit::new(numbers))
    }
}

/// The numbers from one up to another.
pub fn numbers<S: Streams>(rt: &impl Abort, streams: &S, start: i64, end: i64) -> S::Range
    ensures { S.Range.ready result }
{
    streams.range(RangeSplit::range(start, end).expect(rt, "a range"))
}
