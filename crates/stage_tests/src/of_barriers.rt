//! Barriers and demands at concrete types, through their bounds.
ghost use Rattle.std.specs.Prelude.{pos, ◌+ℤ◌};
ghost use Rattle.stages.specs.Wrapping.{wrapped_sum, wrapped-value};

mod carrying;

use barriers::{
    Barrier, Demand, Distinct, DropWhile, FirstHit, Limit, Need, Skip, TakeWhile, Total, Whole,
};
use spliterator::{NoMemory, OrderedValue};
use stages::{Map, Mapping, Operation, Operator, Stage, WrapAdd};
use std::alloc::Global;
use std::process::Abort;
use stream_functions::Below;

/// A barrier's value of a slice's items.
fn value_of<T: OrderedValue + Copy + Drop, B: Barrier<T>>(
    alloc: Global,
    barrier: &B,
    items: &[T],
) -> Result<Vec<T>, NoMemory>
    requires { B.Demand.ready barrier.now }
{
    barrier.apply(Vec::from_slice(alloc, items)?)
}

/// The operation of a barrier, and the size after it where there were five items or an unknown number.
fn row_of<B: Barrier<i64>>(barrier: &B) -> (Operation, Option<u64>, Option<u64>) {
    (
        barrier.operation(),
        barrier.size_after(Some(5)),
        barrier.size_after(None),
    )
}

/// The need of a demand, and which of three numbers count.
fn demand_of<D: Demand<i64>>(demand: &D) -> (Need, [bool; 3])
    requires { D.ready demand.now }
{
    (
        demand.need(),
        [demand.counts(&1), demand.counts(&3), demand.counts(&5)],
    )
}

fn check<B: Barrier<i64>>(
    rt: &(impl Abort + Alloc<A = Global>),
    barrier: &B,
    items: &[i64],
    kept: &[i64],
) -> Result<(), NoMemory>
    requires { B.Demand.ready barrier.now }
{
    let found = value_of(rt.alloc(), barrier, items)?;
    assert!(rt; found.as_slice() == kept);
    Ok(())
}

/// How many items are kept at most, items, and those that are kept.
static LIMITS: [(u64, &[i64], &[i64]); 4] = [
    (3, &[5, 2, 7, 4, 5], &[5, 2, 7]),
    (5, &[5, 2, 7, 4, 5], &[5, 2, 7, 4, 5]),
    (9_223_372_036_854_775_807, &[5, 2], &[5, 2]),
    (0, &[0, 1, 2, 3, 4, 5, 6, 7, 8, 9], &[]),
];

/// How many items are dropped, and those of the numbers 1 to 3 that are kept.
static SKIPS: [(u64, &[i64]); 4] = [
    (0, &[1, 2, 3]),
    (2, &[3]),
    (10, &[]),
    (9_223_372_036_854_775_807, &[]),
];

#[test]
fn a_limit_keeps_the_first_items_and_a_skip_drops_them(rt: HostRuntime) -> Result<(), NoMemory> {
    for &(most, items, kept) in &LIMITS {
        assert!(rt; most <= 9_223_372_036_854_775_807);
        check(&rt, &Limit::new(most), items, kept)?;
    }
    for &(number, kept) in &SKIPS {
        assert!(rt; number <= 9_223_372_036_854_775_807);
        check(&rt, &Skip::new(number), &[1, 2, 3], kept)?;
    }
    Ok(())
}

/// Items, and those of them that differ.
static APART: [(&[i64], &[i64]); 2] = [(&[3, 1, 3, 2, 1], &[3, 1, 2]), (&[], &[])];

#[test]
fn equal_items_stand_once(rt: HostRuntime) -> Result<(), NoMemory> {
    for &(items, kept) in &APART {
        check(&rt, &Distinct::new(), items, kept)?;
    }
    let texts = value_of(rt.alloc(), &Distinct::new(), &["b", "a", "b", "", "a", ""])?;
    assert!(rt; texts.as_slice() == ["b", "a", ""].as_slice());
    Ok(())
}

/// Items, those before the first that is not below 3, and the rest.
static FRONTS: [(&[i64], &[i64], &[i64]); 3] = [
    (&[1, 2, 5, 1], &[1, 2], &[5, 1]),
    (&[1, 2, 1], &[1, 2, 1], &[]),
    (&[4, 1], &[], &[4, 1]),
];

#[test]
fn a_front_ends_at_the_first_item_that_fails(rt: HostRuntime) -> Result<(), NoMemory> {
    for &(items, front, rest) in &FRONTS {
        check(&rt, &TakeWhile::new(Below(3)), items, front).and(check(
            &rt,
            &DropWhile::new(Below(3)),
            items,
            rest,
        ))?;
    }
    Ok(())
}

/// One more.
#[derive(Drop)]
struct Next;

impl Mapping<i64> for Next {
    type Out = i64;

    ghost image = { λ _ x. wrapped_sum x (pos 1) };

    ghost images_are_values = { λ _ x _. wrapped-value (x +ℤ pos 1) };

    fn image(&self, x: &i64) -> Result<i64, NoMemory> {
        WrapAdd::new().join(x, &1)
    }
}

/// What stands between barriers is a stage over the list of the barrier before.
#[test]
fn barriers_and_stages_follow_one_another(rt: HostRuntime) -> Result<(), NoMemory> {
    let left = value_of(rt.alloc(), &Skip::new(1), &[4, 8, 15])?;
    let one = value_of(rt.alloc(), &Limit::new(1), &left)?;
    let mut items = Vec::new(rt.alloc());
    for item in one {
        Map::new(Next).push(item, &mut items)?;
    }
    assert!(rt; items.as_slice() == [9].as_slice());
    Ok(())
}

#[test]
fn barriers_tell_their_rows_and_sizes(rt: HostRuntime) {
    let rows = [
        (row_of(&Limit::new(3)), (Operation::Limit, Some(3), None)),
        (row_of(&Limit::new(5)), (Operation::Limit, Some(5), None)),
        (row_of(&Limit::new(9)), (Operation::Limit, Some(5), None)),
        (row_of(&Limit::new(0)), (Operation::Limit, Some(0), None)),
        (row_of(&Skip::new(3)), (Operation::Skip, Some(2), None)),
        (row_of(&Skip::new(9)), (Operation::Skip, Some(0), None)),
        (row_of(&Distinct::new()), (Operation::Distinct, None, None)),
        (
            row_of(&TakeWhile::new(Below(3))),
            (Operation::TakeWhile, None, None),
        ),
        (
            row_of(&DropWhile::new(Below(3))),
            (Operation::DropWhile, None, None),
        ),
    ];
    for (found, wanted) in rows {
        assert!(rt; found == wanted, "{wanted:?}");
    }
}

#[test]
fn demands_say_how_much_is_enough(rt: HostRuntime) {
    let none = [false; 3];
    let all = [true; 3];
    let below_three = Below(3);
    let rows = [
        (demand_of(&Whole), (Need::Never, none)),
        (demand_of(&Total::new(4)), (Need::Reach(4), all)),
        (demand_of(&Limit::new(4)), (Need::Reach(4), all)),
        (
            demand_of(&FirstHit::new(&below_three)),
            (Need::Reach(1), [true, false, false]),
        ),
        (
            demand_of(&TakeWhile::new(&below_three)),
            (Need::Reach(1), [false, true, true]),
        ),
        (
            demand_of(&DropWhile::new(&below_three)),
            (Need::Never, none),
        ),
        (demand_of(&Skip::new(4)), (Need::Never, none)),
        (demand_of(&Distinct::new()), (Need::Never, none)),
    ];
    for (found, wanted) in rows {
        assert!(rt; found == wanted, "{:?}", wanted.1);
    }
}

#[test]
fn a_front_ends_where_enough_items_count(rt: HostRuntime) {
    let hit = FirstHit::new(Below(3));
    let items = [5, 1, 2, 7, 0, 9];
    let rows: [((usize, u64), (usize, u64)); 8] = [
        (hit.front(&items, 0), (0, 0)),
        (hit.front(&items, 1), (2, 1)),
        (hit.front(&items, 2), (3, 2)),
        (hit.front(&items, 3), (5, 3)),
        (hit.front(&items, 4), (6, 3)),
        (hit.front(&[5, 7], 1), (2, 0)),
        (Total::new(9).front(&items, 2), (2, 2)),
        (Whole.front(&items, 1), (6, 0)),
    ];
    for (found, wanted) in rows {
        assert!(rt; found == wanted, "{wanted:?}");
    }
}
