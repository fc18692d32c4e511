//! Items of a caller's own type, and clones that find no memory.
ghost use Rattle.std.specs.Prelude.{◌≡◌, ◌≢◌, pos};
ghost use Rattle.std.specs.Ordering.{int_eq, int_cmp};
ghost use Rattle.spliterator.specs.Values.{IsI64, int_eq-decides, int_cmp-total, int_cmp-ties};

use crate::reading::read;
use either::{Either, Right};
use sources::{Concat, DequeSplit, SliceSplit};
use spliterator::{EqualValue, NoMemory, OrderedValue, SortedValue, Spliterator, Value};
use std::alloc::{AllocError, Global};
use std::collections::VecDeque;
use std::process::Abort;

/// A seat of a hall. That of number 7 can't be cloned, as if each clone of it were refused memory.
#[derive(PartialEq, Eq, PartialOrd, Ord, Drop)]
struct Seat {
    number: i64,
}

impl Clone for Seat {
    ghost is_clone = { λ seat copy. copy ≡ seat };

    ghost is_infallible = { λ seat. seat.number ≢ pos 7 };

    fn clone(&self) -> Result<Seat, AllocError> {
        if self.number == 7 {
            return Err(AllocError);
        }
        Ok(Seat {
            number: self.number,
        })
    }
}

impl Value for Seat {
    type Content = i64;

    ghost content = { λ seat. seat.number };

    ghost same = { int_eq };

    ghost is_value = { IsI64 };

    ghost same_decides = { int_eq-decides };

    fn is_value(&self) -> bool {
        self.number.is_value()
    }
}

impl EqualValue for Seat {
    ghost eq_is_same = { Prim.search };
}

impl OrderedValue for Seat {
    ghost order = { int_cmp };

    ghost order_total = { int_cmp-total };

    ghost order_ties = { int_cmp-ties };
}

impl SortedValue for Seat {
    ghost cmp_is_order = { Prim.search };
}

/// Checks that the next item is refused, each time that it is asked for, and that the items stay as they are.
fn check_refused<S: Spliterator>(rt: &impl Abort, mut split: S, left: u64) {
    for _ in 0..3 {
        let is_refused = split.try_advance().is_err();
        assert!(rt; is_refused && split.exact_size() == Some(left));
    }
}

/// Checks that the first item is the seat of number 4, and that then the next item is refused.
fn check_refused_behind_four<S: Spliterator<Item = Seat>>(
    rt: &impl Abort,
    mut split: S,
    left: u64,
) -> Result<S, NoMemory> {
    let first = split.try_advance()?;
    assert!(rt; matches!(first, Some(Seat { number: 4 })));
    check_refused(rt, split, left);
    Ok(split)
}

// A slice of the seats 4, 7 and 9, read and split.
fn check_slice(rt: &impl Abort, alloc: Global, seats: &[Seat]) -> Result<(), NoMemory> {
    let mut split = check_refused_behind_four(rt, SliceSplit::new(seats), 2)?;
    let seventh = split.try_split().expect(rt, "a part");
    check_refused(rt, seventh, 1);
    check_items(rt, alloc, split, &[Seat { number: 9 }])
}

#[test]
fn a_refused_clone_leaves_the_items_of_a_slice(rt: HostRuntime) -> Result<(), NoMemory> {
    let seats = [Seat { number: 4 }, Seat { number: 7 }, Seat { number: 9 }];
    check_slice(&rt, rt.alloc(), &seats)
}

#[test]
fn a_refused_clone_leaves_the_items_of_a_deque(rt: HostRuntime) -> Result<(), NoMemory> {
    let mut queue = VecDeque::new(rt.alloc());
    queue.push_back(Seat { number: 7 })?;
    queue.push_front(Seat { number: 4 })?;
    check_deque(&rt, &queue)
}

// A deque of the seats 4 and 7.
fn check_deque(rt: &impl Abort, seats: &VecDeque<Seat>) -> Result<(), NoMemory> {
    check_refused_behind_four(rt, DequeSplit::new(seats), 1)?;
    Ok(())
}

/// Whether the next item is refused.
fn is_refused<S: Spliterator>(split: &mut S) -> bool {
    split.try_advance().is_err()
}

/// Checks two sources of which the first refuses its first item.
fn check_first<A: Spliterator, B: Spliterator<Item = A::Item>>(
    rt: &impl Abort,
    first: A,
    second: B,
    left: u64,
) {
    let mut both = Concat::new(first, second);
    check_refused(rt, both, left);
    let is_kept = is_refused(&mut both) && matches!(both, Concat::Both(_, _));
    assert!(rt; is_kept);
}

/// Checks two sources, the seat of number 4 and one that refuses its first item.
fn check_second<A: Spliterator<Item = Seat>, B: Spliterator<Item = Seat>>(
    rt: &impl Abort,
    first: A,
    second: B,
    left: u64,
) -> Result<(), NoMemory> {
    let mut both = check_refused_behind_four(rt, Concat::new(first, second), left)?;
    let is_alone = is_refused(&mut both) && matches!(both, Concat::Alone(Right(_)));
    assert!(rt; is_alone && both.exact_size() == Some(left));
    Ok(())
}

// The seats 4, 7 and 9, each alone, and 7 before 9. A side that may be either refuses as it does alone.
fn check_sides(
    rt: &impl Abort,
    four: &[Seat],
    seven: &[Seat],
    nine: &[Seat],
    seven_and_nine: &[Seat],
) -> Result<(), NoMemory> {
    let later = SliceSplit::new(seven_and_nine);
    check_first(rt, SliceSplit::new(seven), SliceSplit::new(nine), 2);
    let side: Either<SliceSplit<'_, Seat>, SliceSplit<'_, Seat>> = Right(later);
    check_refused(rt, side, 2);
    check_second(rt, SliceSplit::new(four), later, 2)
}

/// The advance that finds the first side at its end leaves the second alone, also where that one refuses.
#[test]
fn a_refused_clone_leaves_the_items_of_two_sources(rt: HostRuntime) -> Result<(), NoMemory> {
    let (four, seven) = ([Seat { number: 4 }], [Seat { number: 7 }]);
    let nine = [Seat { number: 9 }];
    let both = [Seat { number: 7 }, Seat { number: 9 }];
    check_sides(&rt, &four, &seven, &nine, &both)
}

fn words(alloc: Global) -> Result<Vec<String>, AllocError> {
    let mut words = Vec::new(alloc);
    for word in ["one", "two", "three"] {
        words.push(String::from_str(alloc, word)?)?;
    }
    Ok(words)
}

fn check_clones(rt: &impl Abort, words: &[String]) -> Result<(), NoMemory> {
    let mut split = SliceSplit::new(words);
    for word in words {
        if split.try_advance() == Err(NoMemory) {
            // one refusal alone: the same item comes at the next call
            assert!(rt; split.try_advance()?.as_ref() == Some(word));
        }
    }
    Ok(())
}

/// With any of its allocations refused, an advance gives the next text or a want of memory, and never another text.
#[test]
fn a_text_is_cloned_or_refused(rt: HostRuntime) -> Result<(), NoMemory> {
    let words = words(rt.alloc())?;
    check_clones(&rt, &words)
}

/// Checks the items that are left.
fn check_items<S: Spliterator<Item: Eq>>(
    rt: &impl Abort,
    alloc: Global,
    split: S,
    expected: &[S::Item],
) -> Result<(), NoMemory> {
    let items = read(alloc, split)?;
    assert!(rt; items.as_slice() == expected);
    Ok(())
}

#[test]
fn lists_are_items(rt: HostRuntime) -> Result<(), NoMemory> {
    let list = Vec::from_array(rt.alloc(), [1, 2])?;
    let lists = [list, Vec::new(rt.alloc())];
    check_items(&rt, rt.alloc(), SliceSplit::new(&lists), &lists)
}
