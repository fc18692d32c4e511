//! What the rules make of plans over 0 to 99: how many stages are left, and the sum that is known before anything runs.

ghost use Rattle.std.specs.Prelude.{◌<◌, ◌^◌};

use pipeline_language::{
    Barrier, ItemCount, NumberChange, NumberFunction, NumberStage, NumberTest, Part,
};
use pipeline_plan::{NumberRange, Numbers, Plan, known_sum, optimised};
use sources::RangeSplit;
use std::process::Abort;
use std::test::Fail;

fn sevenths() -> NumberStage {
    NumberStage::Filter(NumberTest::Divisible(7))
}

fn thirds() -> NumberStage {
    NumberStage::Map(NumberFunction::Mod(3))
}

fn distinct() -> NumberStage {
    NumberStage::Barrier(Barrier::Distinct)
}

fn repeat(copies: u64) -> NumberStage {
    NumberStage::FlatMap(copies)
}

fn limit(number: u64) -> NumberStage
    requires { number < 2 ^ 63 }
{
    NumberStage::Barrier(Barrier::Counted(Part::Front, ItemCount { number }))
}

fn skip(number: u64) -> NumberStage
    requires { number < 2 ^ 63 }
{
    NumberStage::Barrier(Barrier::Counted(Part::Rest, ItemCount { number }))
}

/// How many stages are left, and the sum that is known.
fn left<R: Abort>(rt: &R, stages: Vec<NumberStage>) -> (usize, Option<i64>) {
    let Ok(range) = RangeSplit::range(0, 100) else {
        panic!(rt; "too long")
    };
    let source = NumberRange::Range(range);
    let mut plan: Plan<NumberRange, Numbers> = Plan { source, stages };
    optimised(&mut plan);
    (plan.stages.len(), known_sum(&plan))
}

#[test]
fn a_range_absorbs(rt: HostRuntime) -> Result<(), Fail> {
    let negate = NumberStage::Map(NumberFunction::Change(NumberChange::Negate));
    let stages = vec![in rt.alloc(); negate, skip(1), limit(3)]?;
    assert!(rt; left(&rt, stages) == (0, Some(-6)));
    let less = NumberStage::Filter(NumberTest::Less(4));
    let stages = vec![in rt.alloc(); less, thirds(), skip(1)]?;
    assert!(rt; left(&rt, stages) == (1, None));
    Ok(())
}

#[test]
fn nothing_is_read_before_no_copies(rt: HostRuntime) -> Result<(), Fail> {
    let stages = vec![in rt.alloc(); sevenths(), distinct(), repeat(0), thirds()]?;
    assert!(rt; left(&rt, stages) == (1, None));
    Ok(())
}

#[test]
fn a_distinct_of_numbers_that_differ_is_dropped(rt: HostRuntime) -> Result<(), Fail> {
    let stages = vec![in rt.alloc(); sevenths(), distinct(), limit(3), distinct()]?;
    assert!(rt; left(&rt, stages) == (2, None));
    let stages = vec![in rt.alloc(); thirds(), distinct()]?;
    assert_eq!(rt; left(&rt, stages).0, 2);
    Ok(())
}

#[test]
fn copies_sink_behind_what_looks_at_items(rt: HostRuntime) -> Result<(), Fail> {
    let stages = vec![in rt.alloc(); repeat(4), sevenths(), limit(12), skip(4)]?;
    let Ok(range) = RangeSplit::range(0, 100) else {
        panic!(rt; "too long")
    };
    let source = NumberRange::Range(range);
    let mut plan: Plan<NumberRange, Numbers> = Plan { source, stages };
    optimised(&mut plan);
    assert_eq!(rt; plan.stages.len(), 4);
    assert!(rt; matches!(plan.stages.first(), Some(NumberStage::Filter(_))));
    assert!(rt; matches!(plan.stages.last(), Some(NumberStage::FlatMap(4))));
    Ok(())
}

#[test]
fn copies_before_a_distinct_are_dropped(rt: HostRuntime) -> Result<(), Fail> {
    let stages = vec![in rt.alloc(); sevenths(), repeat(4), thirds(), distinct()]?;
    assert_eq!(rt; left(&rt, stages).0, 3);
    Ok(())
}

#[test]
fn sections_of_some_copies_stay(rt: HostRuntime) -> Result<(), Fail> {
    let stages = vec![in rt.alloc(); repeat(4), limit(10), limit(9), skip(3)]?;
    assert_eq!(rt; left(&rt, stages).0, 3);
    Ok(())
}
