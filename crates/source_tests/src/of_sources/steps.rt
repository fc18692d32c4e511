//! What steps make of values.
ghost use Rattle.std.specs.Prelude.{◌≡◌, ◌+ℤ◌, negsuc};
ghost use Rattle.stages.specs.Wrapping.{wrapped-value, wrapped_sum};

use super::told::check;
use sources::{Iterated, Step};
use spliterator::{NoMemory, OrderedValue, Spliterator};
use stages::Mapping;
use std::alloc::Global;
use std::process::Abort;
use stream_functions::{Composed, Modulo, Negated, Plus, Times};

/// A sum that wraps.
fn sum(a: i64, b: i64) -> i64
    ensures { result ≡ wrapped_sum a b }
{
    a.wrapping_add(b)
}

/// Two neighbours of a row in which each number is the sum of the two before it, one place further on.
#[derive(Clone, Copy)]
struct Neighbours;

impl Mapping<(i64, i64)> for Neighbours {
    type Out = (i64, i64);

    ghost image = { λ _ p. (p.1, wrapped_sum p.0 p.1) };

    ghost images_are_values = { λ _ p value. (value.1, wrapped-value (p.0 +ℤ p.1)) };

    fn image(&self, x: &(i64, i64)) -> Result<(i64, i64), NoMemory> {
        Ok((x.1, sum(x.0, x.1)))
    }
}

impl Step<(i64, i64)> for Neighbours {
    ghost always_ready = { λ _. tt };
}

/// One less, down to zero, of which it is refused.
#[derive(Clone, Copy)]
struct DownToZero;

impl Mapping<i64> for DownToZero {
    type Out = i64;

    ghost image = { λ _ x. wrapped_sum x (negsuc 0) };

    ghost images_are_values = { λ _ x _. wrapped-value (x +ℤ negsuc 0) };

    fn image(&self, x: &i64) -> Result<i64, NoMemory> {
        if *x == 0 {
            return Err(NoMemory);
        }
        Ok(sum(*x, -1))
    }
}

impl Step<i64> for DownToZero {
    ghost always_ready = { λ _. tt };
}

/// Checks the items that a step makes: a source that tells its size, and never splits.
fn check_step<T, M>(
    rt: &impl Abort,
    alloc: Global,
    (seed, step): (T, M),
    expected: &[T],
) -> Result<(), NoMemory>
where
    T: OrderedValue + Eq + Copy,
    M: Step<T> + Mapping<T, Out = T> + Copy,
{
    let split = Iterated::new(seed, step, expected.len() as u64);
    check(rt, alloc, split, 0x4550, None, expected)
}

#[test]
fn a_step_is_taken_from_item_to_item(rt: HostRuntime) -> Result<(), NoMemory> {
    let remainder = Composed(Times(3), Modulo::by(7));
    check_step(&rt, rt.alloc(), (1, Times(2)), &[1, 2, 4, 8, 16])?;
    check_step(&rt, rt.alloc(), (i64::MAX, Plus(1)), &[i64::MAX, i64::MIN])?;
    check_step(&rt, rt.alloc(), (5, &Negated), &[5, -5, 5])?;
    check_step(&rt, rt.alloc(), (1, remainder), &[1, 3, 2, 6])?;
    check_step(&rt, rt.alloc(), (9, Plus(1)), &[])
}

#[test]
fn a_step_from_pair_to_pair(rt: HostRuntime) -> Result<(), NoMemory> {
    let pairs = [(0, 1), (1, 1), (1, 2), (2, 3), (3, 5)];
    check_step(&rt, rt.alloc(), ((0, 1), Neighbours), &pairs)
}

/// A refused step leaves the items. The first item takes none, and none is taken behind the last.
#[test]
fn a_refused_step_leaves_the_items(rt: HostRuntime) -> Result<(), NoMemory> {
    let mut down = Iterated::new(1, DownToZero, 3);
    let items = [down.try_advance()?, down.try_advance()?];
    assert!(rt; items == [Some(1), Some(0)] && down.try_advance().is_err());
    assert!(rt; down.try_advance().is_err() && down.exact_size() == Some(1));
    let mut last = Iterated::new(0, DownToZero, 1);
    let items = [last.try_advance()?, last.try_advance()?];
    assert!(rt; items == [Some(0), None]);
    Ok(())
}
