//! The numbers of ranges.

ghost use Rattle.std.specs.Prelude.{◌≡◌, ◌+ℤ◌, pos, IsTrue, length};
ghost use Rattle.sources.specs.Integers.{integers_between};
ghost use Rattle.spliterator.specs.Characteristics.{tells};
ghost use Rattle.spliterator.specs.declared.characteristics.TheConstants.{SIZED};
ghost use Rattle.pipeline_value.specs.Typed.{source_numbers};

use pipeline_language::{ClosedRange, NumberSource, OpenRange};
use sources::RangeSplit;
use spliterator::Spliterator;

/// The numbers of `range A B`.
pub(crate) fn open_numbers(range: OpenRange) -> RangeSplit
    ensures { ⟦<RangeSplit as Spliterator>⟧.items result ≡ integers_between range.start range.end }
{
    RangeSplit::range(range.start, range.end).unwrap()
}

/// The numbers of `closed A B`.
pub(crate) fn closed_numbers(range: ClosedRange) -> RangeSplit
    ensures { ⟦<RangeSplit as Spliterator>⟧.items result ≡ integers_between range.start (range.last +ℤ pos 1) }
{
    RangeSplit::closed(range.start, range.last).unwrap()
}

/// How many numbers a source has. A range has up to 2^62.
///
/// ```text
/// range 3 10       // 7
/// closed 3 10      // 8
/// numbers 5 1 5    // 3
/// ```
pub fn source_size(source: &NumberSource) -> u64
    ensures { result ≡ length (source_numbers source.now) }
{
    match source {
        NumberSource::Range(range) => left_of(&open_numbers(*range)),
        NumberSource::Closed(range) => left_of(&closed_numbers(*range)),
        NumberSource::Numbers(numbers) => numbers.len() as u64,
    }
}

/// How many items are left of a source that tells `SIZED`.
fn left_of<S: Spliterator>(source: &S) -> u64
    requires { IsTrue (tells (S.told source.now) SIZED) }
    ensures { result ≡ length (S.items source.now) }
{
    source.estimate_size()
}
