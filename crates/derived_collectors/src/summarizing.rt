//! Count, sum, least and greatest in one pass.
ghost use Rattle.std.specs.Prelude.{◌≡◌, ◌++◌, IfOk, IfSome, Some, fold, length, map};
ghost use Rattle.std.specs.Cmp.Lexicographic.{options_total};
ghost use Rattle.std.specs.Int.{int_min, int_max};
ghost use Rattle.std.specs.Option.{option_eq, option_cmp};
ghost use Rattle.std.specs.Ordering.{int_eq, int_cmp};
ghost use Rattle.spliterator.specs.Options.{option_eq-decides, option_cmp-ties};
ghost use Rattle.spliterator.specs.Pairs.{both, by_first, both-decides, by_first-total, by_first-ties};
ghost use Rattle.spliterator.specs.Values.{IsI64, int_eq-decides, int_cmp-total, int_cmp-ties};
ghost use Rattle.stages.specs.Wrapping.{wrapped_sum};
ghost use Rattle.collectors.specs.Reductions.{reduce_add, reduce_merge};
ghost use Rattle.derived_collectors.specs.Facts.{Facts, no_facts, add_facts, merge_facts, facts_laws};
ghost use Rattle.derived_collectors.specs.Summaries.{told, told_of, average_of, IsSummary};

use collectors::Collector;
use spliterator::{NoMemory, OrderedValue, Value};
use stages::Mapping;
use std::marker::PhantomData;

// The sum, as an i64.
fn wrapping_sum(a: i64, b: i64) -> i64
    ensures { result ≡ wrapped_sum a b }
{
    a.wrapping_add(b)
}

// The least of what there was, and a number.
fn least_with(before: Option<i64>, number: i64) -> i64
    ensures { Some result ≡ reduce_add int_min before number }
{
    match before {
        Some(least) => least.min(number),
        None => number,
    }
}

// The greatest of what there was, and a number.
fn greatest_with(before: Option<i64>, number: i64) -> i64
    ensures { Some result ≡ reduce_add int_max before number }
{
    match before {
        Some(greatest) => greatest.max(number),
        None => number,
    }
}

// The least of two lists, by the least of each.
fn least_of_both(before: Option<i64>, later: Option<i64>) -> Option<i64>
    ensures { result ≡ reduce_merge int_min before later }
{
    match later {
        Some(number) => Some(least_with(before, number)),
        None => before,
    }
}

// The greatest of two lists, by the greatest of each.
fn greatest_of_both(before: Option<i64>, later: Option<i64>) -> Option<i64>
    ensures { result ≡ reduce_merge int_max before later }
{
    match later {
        Some(number) => Some(greatest_with(before, number)),
        None => before,
    }
}

/// What is told of numbers in one pass. Java's `LongSummaryStatistics`.
#[derive(Clone, Copy, Debug, PartialEq, Eq, Drop)]
pub struct Summary {
    /// How many there are, as an i64 that wraps.
    pub count: i64,
    /// Their sum, as an i64 that wraps.
    pub sum: i64,
    /// The least, or none where there are no numbers.
    pub least: Option<i64>,
    /// The greatest, or none where there are no numbers.
    pub greatest: Option<i64>,
}

impl Summary {
    /// The sum divided by the count, rounded down: none where the count isn't above 0. `getAverage` of Java's `LongSummaryStatistics` answers
    /// a floating-point number.
    pub fn average(&self) -> Option<i64>
        ensures quotient { result ≡ average_of self.now.sum self.now.count }
    {
        if self.count > 0 {
            Some(self.sum.div_euclid(self.count))
        } else {
            None
        }
    }
}

impl Value for Summary {
    type Content = ((i64, i64), (Option<i64>, Option<i64>));

    ghost content = { λ s. ((s.count, s.sum), (s.least, s.greatest)) };

    ghost same = { both (both int_eq int_eq) (both (option_eq int_eq) (option_eq int_eq)) };

    ghost is_value = { λ c. IsI64 c.0.0 × IsI64 c.0.1 × IfSome c.1.0 IsI64 × IfSome c.1.1 IsI64 };

    ghost same_decides = { both-decides (both int_eq int_eq) (both (option_eq int_eq) (option_eq int_eq))
        (both-decides int_eq int_eq int_eq-decides int_eq-decides)
        (both-decides (option_eq int_eq) (option_eq int_eq) (option_eq-decides int_eq int_eq-decides) (option_eq-decides int_eq int_eq-decides)) };

    fn is_value(&self) -> bool {
        let numbers = self.count.is_value() && self.sum.is_value();
        numbers && self.least.is_value() && self.greatest.is_value()
    }
}

impl OrderedValue for Summary {
    ghost order = { by_first (by_first int_cmp int_cmp) (by_first (option_cmp int_cmp) (option_cmp int_cmp)) };

    ghost order_total = { by_first-total (by_first-total int_cmp-total int_cmp-total) (by_first-total (options_total int_cmp-total) (options_total int_cmp-total)) };

    ghost order_ties = { by_first-ties (both int_eq int_eq) (both (option_eq int_eq) (option_eq int_eq))
        (by_first int_cmp int_cmp) (by_first (option_cmp int_cmp) (option_cmp int_cmp))
        (by_first-ties int_eq int_eq int_cmp int_cmp int_cmp-ties int_cmp-ties)
        (by_first-ties (option_eq int_eq) (option_eq int_eq) (option_cmp int_cmp) (option_cmp int_cmp) (option_cmp-ties int_eq int_cmp int_cmp-ties) (option_cmp-ties int_eq int_cmp int_cmp-ties)) };
}

/// What is told of one number or more.
#[derive(Clone, Copy, Drop)]
struct Told {
    count: i64,
    sum: i64,
    least: i64,
    greatest: i64,
}

impl Told {
    /// What is told when a further number has come.
    fn with(self, number: i64) -> Told
        ensures { told_of result ≡ add_facts (λ n. n) (told_of self) number }
    {
        Told {
            count: wrapping_sum(self.count, 1),
            sum: wrapping_sum(self.sum, number),
            least: self.least.min(number),
            greatest: self.greatest.max(number),
        }
    }

    fn summary(self) -> Summary
        ensures { told result ≡ told_of self }
    {
        Summary {
            count: self.count,
            sum: self.sum,
            least: Some(self.least),
            greatest: Some(self.greatest),
        }
    }
}

impl Summary {
    /// What is told of no numbers.
    fn of_none() -> Summary
        ensures { told result ≡ no_facts }
    {
        Summary {
            count: 0,
            sum: 0,
            least: None,
            greatest: None,
        }
    }

    /// What is told when a further number has come.
    fn with(&self, number: i64) -> Told
        ensures { told_of result ≡ add_facts (λ n. n) (told self.now) number }
    {
        Told {
            count: wrapping_sum(self.count, 1),
            sum: wrapping_sum(self.sum, number),
            least: least_with(self.least, number),
            greatest: greatest_with(self.greatest, number),
        }
    }

    /// What is told of these numbers and of those that follow.
    fn and(&self, later: &Summary) -> Summary
        ensures { told result ≡ merge_facts (told self.now) (told later.now) }
    {
        Summary {
            count: wrapping_sum(self.count, later.count),
            sum: wrapping_sum(self.sum, later.sum),
            least: least_of_both(self.least, later.least),
            greatest: greatest_of_both(self.greatest, later.greatest),
        }
    }
}

/// Count, sum, least and greatest of the items' numbers in one pass. Java's `Collectors.summarizingLong`, and over the numbers themselves
/// `LongStream.summaryStatistics`. Where `Itself` is the mapping of a number to itself:
///
///     let summary = collect(&Summarizing::new(Itself), &[5, 2, 8])?;
///     // count 3, sum 15, least Some(2), greatest Some(8); summary.average() is Some(5)
#[derive(Drop)]
pub struct Summarizing<T, M> {
    number: M,
    items: PhantomData<T>,
}

impl<T: Value, M: Mapping<T, Out = i64>> Summarizing<T, M> {
    pub fn new(number: M) -> Summarizing<T, M>
        ensures number { result.number ≡ number }
    {
        Summarizing {
            number,
            items: PhantomData,
        }
    }

    /// What is told when the items of two lists of one length have come, one list behind the other.
    ///
    /// They are read side by side, so that no step waits for the one before it.
    fn with_halves(&self, before: Summary, front: &[T], back: &[T]) -> Result<Summary, NoMemory>
        requires ready { M.ready self.now.number }
        requires alike { length front.now ≡ length back.now }
        ensures told { IfOk result (λ s. told s ≡ fold (add_facts (M.image self.now.number)) (told before) (map T.content front.now ++ map T.content back.now)) }
    {
        let Some((first, front)) = front.split_first() else {
            return Ok(before);
        };
        let Some((middle, back)) = back.split_first() else {
            return Ok(before);
        };
        let mut early = before.with(self.number.image(first)?);
        let mut late = Summary::of_none().with(self.number.image(middle)?);
        for at in 0..front.len() {
            early = early.with(self.number.image(&front[at])?);
            late = late.with(self.number.image(&back[at])?);
        }
        Ok(early.summary().and(&late.summary()))
    }

    /// What is told when further items have come, one by one.
    fn with_last(&self, before: Summary, items: &[T]) -> Result<Summary, NoMemory>
        requires ready { M.ready self.now.number }
        ensures told { IfOk result (λ s. told s ≡ fold (add_facts (M.image self.now.number)) (told before) (map T.content items.now)) }
    {
        let mut summary = before;
        for item in items {
            summary = summary.with(self.number.image(item)?).summary();
        }
        Ok(summary)
    }
}

impl<T: Value, M: Mapping<T, Out = i64>> Collector for Summarizing<T, M> {
    type Item = T;

    type Acc = Summary;

    type Out = Summary;

    ghost ready = { λ c. M.ready c.number };

    ghost Content = { Facts };

    ghost content = { λ _. told };

    ghost empty = { λ _. no_facts };

    ghost add = { λ c. add_facts (M.image c.number) };

    ghost merge = { λ _. merge_facts };

    ghost gives = { λ c l s. IsSummary (map (M.image c.number) l) s };

    ghost laws = { λ c. facts_laws (M.image c.number) T.is_value };

    fn supply(&self) -> Result<Summary, NoMemory> {
        Ok(Summary::of_none())
    }

    fn accumulate(&self, acc: &mut Summary, x: &T) -> Result<(), NoMemory> {
        *acc = acc.with(self.number.image(x)?).summary();
        Ok(())
    }

    fn accumulate_all(&self, acc: &mut Summary, items: &[T]) -> Result<(), NoMemory> {
        let (front, rest) = items.split_at(items.len() / 2);
        let (back, last) = rest.split_at(front.len());
        let both = self.with_halves(*acc, front, back)?;
        *acc = self.with_last(both, last)?;
        Ok(())
    }

    fn combine(&self, left: &mut Summary, right: Summary) -> Result<(), NoMemory> {
        *left = left.and(&right);
        Ok(())
    }

    fn finish(&self, acc: Summary) -> Result<Summary, NoMemory> {
        Ok(acc)
    }

    fn is_light(&self, _acc: &Summary) -> bool {
        true
    }
}
