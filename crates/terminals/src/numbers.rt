//! Terminal operations of streams of numbers.
ghost use Rattle.std.specs.Prelude.{◌≡◌, IfOk};
ghost use Rattle.stages.specs.Wrapping.{wrapped};
ghost use Rattle.collectors.specs.Sums.{int_sum};
ghost use Rattle.derived_collectors.specs.Summaries.{IsSummary};

use collectors::SummingLong;
use derived_collectors::{Summarizing, Summary};
use parallel_streams::{Engine, Stream};
use spliterator::NoMemory;
use std::thread::Threads;
use std::time::Clock;
use stealing_pool::Gate;
use stream_functions::Itself;

/// Terminal operations of a stream of numbers.
///
/// ```text
/// of(SliceSplit::new(&[5, 2, 8])).sum(&engine)?    // 15
/// ```
// java.util.stream.LongStream
pub trait Numbers: Stream<Item = i64> {
    /// The sum of the numbers, as an i64 that wraps.
    ///
    /// ```text
    /// of(SliceSplit::new(&[5, 2, 8])).sum(&engine)?    // 15
    /// ```
    // java.util.stream.LongStream, sum
    final fn sum(
        &self,
        engine: &Engine<'_, impl Threads + Clock + Sync, impl Gate + Sync>,
    ) -> Result<i64, NoMemory>
        requires { Self.ready self.now }
        ensures { IfOk result (λ sum. sum ≡ wrapped (int_sum (Self.value self.now))) }
    {
        self.collect_on(engine, &SummingLong::new(Itself))
    }

    /// Count, sum, least and greatest of the numbers.
    ///
    /// ```text
    /// let told = of(SliceSplit::new(&[5, 2, 8])).summary(&engine)?;
    /// // count 3, sum 15, least Some(2), greatest Some(8); told.average() is Some(5)
    /// ```
    // java.util.stream.LongStream, summaryStatistics
    final fn summary(
        &self,
        engine: &Engine<'_, impl Threads + Clock + Sync, impl Gate + Sync>,
    ) -> Result<Summary, NoMemory>
        requires { Self.ready self.now }
        ensures { IfOk result (IsSummary (Self.value self.now)) }
    {
        self.collect_on(engine, &Summarizing::new(Itself))
    }
}

impl<S: Stream<Item = i64>> Numbers for S {}
