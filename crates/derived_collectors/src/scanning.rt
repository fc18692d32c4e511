//! Running totals, as a collector.
ghost use Rattle.std.specs.Prelude.{◌≡◌, [], List, map, IfOk, OnOk};
ghost use Rattle.spliterator.specs.Clones.{ClonesAlike, TestsClonesAlike};
ghost use Rattle.stages.specs.Operators.{IsAssociative, TestsAssociative, associative-tested};
ghost use Rattle.derived_collectors.specs.Scans.{last, joined_to, scan_add, scan_merge, IsScan};
ghost use Rattle.derived_collectors.specs.ScanLaws.{scan_laws};

use collectors::Collector;
use spliterator::{NoMemory, Value};
use stages::Operator;
use std::alloc::Global;
use std::marker::PhantomData;

/// The total of the items before, if there were any, and of one more.
fn total_with<T: Value + Clone, O: Operator<T>>(
    operator: &O,
    totals: &[T],
    x: &T,
) -> Result<T, NoMemory>
    requires operator { O.ready operator.now }
    requires clones { ClonesAlike T.is_clone T.content }
    ensures { let before = last (map T.content totals.now) in
        IfOk result (λ total. T.content total ≡ joined_to (O.join operator.now) before (T.content x.now)) }
{
    match totals.last() {
        Some(before) => operator.join(before, x),
        None => Ok(x.clone()?),
    }
}

/// Joins the total of the items before, if there were any, to each of the totals that follow.
fn join_to_each<T: Value + Drop, O: Operator<T>>(
    operator: &O,
    totals: &[T],
    later: &mut [T],
) -> Result<(), NoMemory>
    requires operator { O.ready operator.now }
    ensures { let before = last (map T.content totals.now) in
        OnOk result (map T.content later.new ≡ map (joined_to (O.join operator.now) before) (map T.content later.old)) }
{
    let Some(total) = totals.last() else {
        return Ok(());
    };
    for x in later.iter_mut() {
        *x = operator.join(total, x)?;
    }
    Ok(())
}

/// The running totals by an associative operator: in the place of each item, what the items up to it, and it, come to. Java's
/// `Arrays.parallelPrefix`:
///
///     let totals = collect(&Scanning::new(rt.alloc(), WrapAdd::new()), &[3, 1, 4, 1])?;    // 3, 4, 8, 9
///
/// A combination joins the last total on its left to each total on its right. A clone of an item must have its content.
#[derive(Drop)]
pub struct Scanning<T: Value + Clone, O: Operator<T>> {
    alloc: Global,
    operator: O,
    items: PhantomData<T>,
    ghost clones_alike: { TestsClonesAlike T.same T.is_clone T.content },
    ghost associative: { TestsAssociative T.same T.is_value (O.join operator) },
}

impl<T: Value + Clone, O: Operator<T>> Scanning<T, O> {
    pub fn new(alloc: Global, operator: O) -> Scanning<T, O>
        requires clones { ClonesAlike T.is_clone T.content }
        requires associative { IsAssociative T.is_value (O.join operator) }
        ensures operator { result.operator ≡ operator }
    {
        Scanning {
            alloc,
            operator,
            items: PhantomData,
        }
    }
}

impl<T: Value + Clone + Drop, O: Operator<T>> Collector for Scanning<T, O> {
    type Item = T;

    type Acc = Vec<T>;

    type Out = Vec<T>;

    ghost ready = { λ c. O.ready c.operator };

    ghost Content = { List T.Content };

    ghost content = { λ _ totals. map T.content totals.items };

    ghost empty = { λ _. [] };

    ghost add = { λ c. scan_add (O.join c.operator) };

    ghost merge = { λ c. scan_merge (O.join c.operator) };

    ghost gives = { λ c l totals. IsScan (O.join c.operator) l (map T.content totals.items) };

    ghost laws = { λ c. let associative = associative-tested T.same T.same_decides T.is_value (O.join c.operator) c.associative in
        scan_laws (O.join c.operator) T.is_value (O.joins_are_values c.operator) associative };

    fn supply(&self) -> Result<Vec<T>, NoMemory> {
        Ok(Vec::new(self.alloc))
    }

    fn accumulate(&self, acc: &mut Vec<T>, x: &T) -> Result<(), NoMemory> {
        let total = total_with(&self.operator, acc.as_slice(), x)?;
        acc.push(total)?;
        Ok(())
    }

    fn combine(&self, left: &mut Vec<T>, right: Vec<T>) -> Result<(), NoMemory> {
        let mut later = right;
        join_to_each(&self.operator, left.as_slice(), later.as_mut_slice())?;
        left.append(&mut later)?;
        Ok(())
    }

    fn finish(&self, acc: Vec<T>) -> Result<Vec<T>, NoMemory> {
        Ok(acc)
    }
}
