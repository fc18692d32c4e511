//! Barriers whose list comes in parts.
ghost use Rattle.std.specs.Prelude.{IfOk, map};
ghost use Rattle.barriers.specs.Needs.{IsToldBy};

use barriers::{
    AnyBarrier, AnyState, Barrier, Behind, Demand, Distinct, DropWhile, Limit, Need, Skip,
    TakeWhile,
};
use spliterator::{NoMemory, Value};
use std::alloc::Global;
use std::hash::{BuildHasherDefault, FoldHasher};
use std::process::Abort;
use stream_functions::Below;

/// What a run keeps of a part: a front that is all of it, or has as many counting items as are needed behind the state. Then the run was cut.
fn kept_by_run<B: Barrier<i64>>(
    alloc: Global,
    barrier: &B,
    state: &B::State,
    part: &[i64],
) -> Result<(Vec<i64>, bool), NoMemory>
    requires { B.Demand.ready barrier.now }
    ensures { IfOk result (λ r. IsToldBy (B.needed_behind barrier.now state.now) (B.Demand.counted barrier.now)
        (map ⟦<i64 as Value>⟧.content r.0.items) r.1) }
{
    let demand = Behind { barrier, state };
    match demand.need() {
        Need::Never => Ok((Vec::from_slice(alloc, part)?, false)),
        Need::Reach(wanted) => {
            let (taken, counting) = demand.front(part, wanted);
            Ok((Vec::from_slice(alloc, &part[..taken])?, counting == wanted))
        }
    }
}

/// What a barrier leaves of a list that comes in parts. Where nothing matters any more, nothing is left of what comes.
fn left_of_parts<B: Barrier<i64>>(
    rt: &(impl Abort + Alloc<A = Global>),
    barrier: &B,
    parts: &[&[i64]],
) -> Result<Vec<i64>, NoMemory>
    requires ready { B.Demand.ready barrier.now }
    requires can { B.can_carry barrier.now }
{
    let alloc = rt.alloc();
    let mut state = barrier.fresh(alloc);
    let mut left = Vec::new(alloc);
    for part in parts {
        let is_over = barrier.is_over(&state);
        let (items, is_cut) = kept_by_run(alloc, barrier, &state, part)?;
        let kept = barrier.carry(&mut state, items, is_cut)?;
        assert!(rt; kept.is_empty() || !is_over);
        left.extend_from_slice(&kept)?;
    }
    Ok(left)
}

/// Cuts a list into three parts, at every two places, and compares what a barrier leaves of them. A part may be empty.
fn check_cuts<B: Barrier<i64>>(
    rt: &(impl Abort + Alloc<A = Global>),
    barrier: &B,
    items: &[i64],
    wanted: &[i64],
) -> Result<(), NoMemory>
    requires ready { B.Demand.ready barrier.now }
    requires can { B.can_carry barrier.now }
{
    for second in 0..=items.len() {
        let (front, last) = items.split_at(second);
        for first in 0..=front.len() {
            let (head, middle) = front.split_at(first);
            let left = left_of_parts(rt, barrier, &[head, middle, last])?;
            assert!(rt;
                left.as_slice() == wanted,
                "{items:?} at {first} and {second}"
            );
        }
    }
    Ok(())
}

/// Of equal items the first, each compared with those before it.
fn first_ones(alloc: Global, items: &[i64]) -> Result<Vec<i64>, NoMemory> {
    let mut kept = Vec::new(alloc);
    for item in items {
        if !kept.contains(item) {
            kept.push(*item)?;
        }
    }
    Ok(kept)
}

static LISTS: [&[i64]; 6] = [
    &[1, 2, 5, 1, 4, 2],
    &[4, 1, 1, 7, 4],
    &[1, 2, 1],
    &[5, 5],
    &[2],
    &[],
];

#[test]
fn a_limit_and_a_skip_count_across_parts(rt: HostRuntime) -> Result<(), NoMemory> {
    for &items in &LISTS {
        for number in [0, 1, 2, 3, 6, 9] {
            let taken: Vec<i64> = items.iter().copied().take(number).collect(rt.alloc())?;
            let rest: Vec<i64> = items.iter().copied().skip(number).collect(rt.alloc())?;
            check_cuts(&rt, &Limit::new(number as u64), items, &taken)?;
            check_cuts(&rt, &Skip::new(number as u64), items, &rest)?;
        }
    }
    Ok(())
}

#[test]
fn a_while_ends_in_one_part(rt: HostRuntime) -> Result<(), NoMemory> {
    for &items in &LISTS {
        let below = items.iter().copied();
        let front: Vec<i64> = below.take_while(|item| *item < 3).collect(rt.alloc())?;
        check_cuts(&rt, &TakeWhile::new(Below(3)), items, &front)?;

        let above = items.iter().copied();
        let rest: Vec<i64> = above.skip_while(|item| *item < 3).collect(rt.alloc())?;
        check_cuts(&rt, &DropWhile::new(Below(3)), items, &rest)?;
    }
    Ok(())
}

#[test]
fn an_item_of_an_earlier_part_stands_once(rt: HostRuntime) -> Result<(), NoMemory> {
    for &items in &LISTS {
        check_cuts(
            &rt,
            &Distinct::new(),
            items,
            &first_ones(rt.alloc(), items)?,
        )?;
    }
    Ok(())
}

/// Remainders of the numbers from 0 on, by a number.
fn remainders(alloc: Global, number: i64, by: i64) -> Result<Vec<i64>, NoMemory> {
    let mut items = Vec::new(alloc);
    for item in 0..number {
        items.push(item.checked_rem(by).unwrap_or(0))?;
    }
    Ok(items)
}

/// How many remainders of 5,000 numbers there are, and how many of the 5,000 are left once 0 to 9 came. Where of the first 1,024 more than 512 are new,
/// those behind them stay.
static THINNED: [(i64, usize); 5] = [(5, 0), (10, 0), (100, 180), (600, 4_566), (5_000, 4_990)];

#[test]
fn what_came_and_what_repeats_is_thinned(rt: HostRuntime) -> Result<(), NoMemory> {
    let alloc = rt.alloc();
    for &(by, left) in &THINNED {
        let distinct = Distinct::new();
        let mut came = distinct.fresh(alloc);
        assert!(rt; !Barrier::<i64>::thins(&distinct, &came));
        distinct.carry(&mut came, remainders(alloc, 10, 10)?, false)?;
        assert!(rt; Barrier::<i64>::thins(&distinct, &came));
        let mut items = remainders(alloc, 5_000, by)?;
        distinct.thin(&came, &mut items)?;
        assert!(rt; items.len() == left, "{by}: {}", items.len());
        let new = distinct.carry(&mut came, items, false)?;
        let wanted: Vec<i64> = (10..by).collect(alloc)?;
        assert!(rt; new == wanted, "{by}");
    }
    Ok(())
}

fn texts(alloc: Global, words: &[&str]) -> Result<Vec<String>, NoMemory> {
    let mut texts = Vec::new(alloc);
    for word in words {
        texts.push(String::from_str(alloc, word)?)?;
    }
    Ok(texts)
}

#[test]
fn an_owned_text_of_an_earlier_part_stands_once(rt: HostRuntime) -> Result<(), NoMemory> {
    let alloc = rt.alloc();
    let distinct = Distinct::new();
    let mut came = distinct.fresh(alloc);
    let first = distinct.carry(&mut came, texts(alloc, &["b", "a", "b"])?, false)?;
    let second = distinct.carry(&mut came, texts(alloc, &["a", "c", "", "b"])?, false)?;
    assert!(rt; first == texts(alloc, &["b", "a"])?);
    assert!(rt; second == texts(alloc, &["c", ""])?);
    Ok(())
}

/// Asserts what is needed behind a part, whether nothing that is still to come matters, and whether all of it passes.
fn check_behind<B: Barrier<i64>>(
    rt: &(impl Abort + Alloc<A = Global>),
    barrier: &B,
    part: &[i64],
    wanted: (Need, bool, bool),
) -> Result<(), NoMemory>
    requires ready { B.Demand.ready barrier.now }
    requires can { B.can_carry barrier.now }
{
    let mut state = barrier.fresh(rt.alloc());
    let (items, is_cut) = kept_by_run(rt.alloc(), barrier, &state, part)?;
    barrier.carry(&mut state, items, is_cut)?;
    assert!(rt; barrier.need_behind(&state) == wanted.0, "{wanted:?}");
    assert!(rt; (barrier.is_over(&state), barrier.lets_pass(&state)) == (wanted.1, wanted.2));
    Ok(())
}

#[test]
fn a_limit_tells_how_many_are_still_needed(rt: HostRuntime) -> Result<(), NoMemory> {
    let three = Limit::new(3);
    check_behind(&rt, &three, &[7], (Need::Reach(2), false, false))?;
    check_behind(&rt, &three, &[7, 8, 9, 7], (Need::Reach(0), true, false))?;
    check_behind(&rt, &Limit::new(0), &[], (Need::Reach(0), true, false))
}

#[test]
fn a_while_tells_whether_it_goes_on(rt: HostRuntime) -> Result<(), NoMemory> {
    let taking = TakeWhile::new(Below(3));
    check_behind(&rt, &taking, &[1], (Need::Reach(1), false, false))?;
    check_behind(&rt, &taking, &[1, 5, 1], (Need::Reach(0), true, false))?;
    let dropping = DropWhile::new(Below(3));
    check_behind(&rt, &dropping, &[1], (Need::Never, false, false))?;
    check_behind(&rt, &dropping, &[1, 5, 1], (Need::Never, false, true))
}

#[test]
fn a_skip_passes_once_it_has_skipped(rt: HostRuntime) -> Result<(), NoMemory> {
    check_behind(&rt, &Skip::new(2), &[7], (Need::Never, false, false))?;
    check_behind(&rt, &Skip::new(1), &[7], (Need::Never, false, true))?;
    check_behind(&rt, &Distinct::new(), &[1], (Need::Never, false, false))
}

type AnyOfNumbers = AnyBarrier<Below, BuildHasherDefault<FoldHasher>>;

#[test]
fn a_barrier_chosen_at_run_time_goes_across_parts(rt: HostRuntime) -> Result<(), NoMemory> {
    let hashes = BuildHasherDefault::new();
    let rows: [(AnyOfNumbers, &[i64]); 5] = [
        (
            AnyBarrier::Distinct(Distinct::with_hasher(hashes)),
            &[1, 2, 5, 4],
        ),
        (AnyBarrier::Limit(Limit::new(4)), &[1, 2, 5, 1]),
        (AnyBarrier::Skip(Skip::new(4)), &[4, 2]),
        (AnyBarrier::TakeWhile(TakeWhile::new(Below(3))), &[1, 2]),
        (
            AnyBarrier::DropWhile(DropWhile::new(Below(3))),
            &[5, 1, 4, 2],
        ),
    ];
    for (barrier, wanted) in &rows {
        check_cuts(&rt, barrier, &[1, 2, 5, 1, 4, 2], wanted)?;
    }
    Ok(())
}

#[test]
fn a_barrier_with_the_state_of_another_is_over(rt: HostRuntime) -> Result<(), NoMemory> {
    let alloc = rt.alloc();
    let limit: AnyOfNumbers = AnyBarrier::Limit(Limit::new(3));
    let mut state = AnyState::Skip(Skip::new(1));
    assert!(rt; limit.need_behind(&state) == Need::Reach(0));
    assert!(rt; limit.is_over(&state));
    let left = limit.carry(&mut state, Vec::from_slice(alloc, &[7, 8])?, false)?;
    assert!(rt; left.is_empty());
    assert!(rt; limit.need_behind(&state) == Need::Reach(0));
    Ok(())
}

#[test]
fn a_barrier_chosen_at_run_time_lets_pass_as_the_one_it_is(
    rt: HostRuntime,
) -> Result<(), NoMemory> {
    let skip: AnyOfNumbers = AnyBarrier::Skip(Skip::new(2));
    let dropping: AnyOfNumbers = AnyBarrier::DropWhile(DropWhile::new(Below(3)));
    let rows = [
        (&skip, AnyState::Skip(Skip::new(1)), false),
        (&skip, AnyState::Skip(Skip::new(0)), true),
        (&skip, AnyState::DropWhile(false), false),
        (&dropping, AnyState::DropWhile(true), false),
        (&dropping, AnyState::DropWhile(false), true),
    ];
    for (barrier, state, wanted) in &rows {
        assert!(rt; barrier.lets_pass(state) == *wanted);
    }
    Ok(())
}
