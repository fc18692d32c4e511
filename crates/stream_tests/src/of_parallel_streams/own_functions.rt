//! A caller's own closures, each beside what it computes, in the place of the library's functions.
ghost use Rattle.std.specs.Prelude.{pos, ◌+ℤ◌, int_lt};
ghost use Rattle.stages.specs.Wrapping.{wrapped_sum, wrapped-value};

use super::answers::{check, check_list, listed};
use super::streams::{Streams, numbers};
use super::{Case, Suite, run_test};
use parallel_streams::{Run, Stream, StreamError};
use spliterator::NoMemory;
use stages::{
    FromFn, MappingDefinition, Operator, OperatorDefinition, OperatorFn, TestDefinition, TestFn,
    WrapAdd,
};
use std::alloc::Global;
use std::process::Abort;
use std::thread::Threads;
use std::time::Clock;
use stealing_pool::NoGate;

// Ten more than a number.
struct TenMore;

impl MappingDefinition<i64, i64> for TenMore {
    ghost image = { λ x. wrapped_sum x (pos 10) };

    ghost images_are_values = { λ x _. wrapped-value (x +ℤ pos 10) };
}

// The numbers below 13.
struct BelowThirteen;

impl TestDefinition<i64> for BelowThirteen {
    ghost holds = { λ x. int_lt x (pos 13) };
}

// The sum of two numbers.
struct Sum;

impl OperatorDefinition<i64> for Sum {
    ghost join = { wrapped_sum };

    ghost joins_are_values = { λ x y _ _. wrapped-value (x +ℤ y) };
}

fn ten_more<R: Threads + Clock + Alloc<A = Global> + Sync, X: Stream<Item = i64> + Drop + Sync>(
    rt: &R,
    run: &Run<'_, NoGate>,
    numbers: X,
) -> Result<Vec<i64>, StreamError>
    requires { X.ready numbers }
{
    let ten_more: FromFn<i64, _, TenMore> = FromFn::new(|x: &i64| -> Result<i64, NoMemory> {
        WrapAdd::new().join(x, &10)
    });
    listed(rt, run, &numbers.map(ten_more))
}

fn are_below_thirteen<
    R: Threads + Clock + Alloc<A = Global> + Sync,
    X: Stream<Item = i64> + Drop + Sync,
>(rt: &R, run: &Run<'_, NoGate>, numbers: X) -> Result<bool, StreamError>
    requires { X.ready numbers }
{
    let below_thirteen: TestFn<_, BelowThirteen> = TestFn::new(|x: &i64| *x < 13);
    numbers.all_match(rt, rt.alloc(), run, &below_thirteen)
}

fn total<R: Threads + Clock + Alloc<A = Global> + Sync, X: Stream<Item = i64> + Drop + Sync>(
    rt: &R,
    run: &Run<'_, NoGate>,
    numbers: X,
) -> Result<Option<i64>, StreamError>
    requires { X.ready numbers }
{
    let sum: OperatorFn<_, Sum> = OperatorFn::new(|a: &i64, b: &i64| -> Result<i64, NoMemory> {
        WrapAdd::new().join(a, b)
    });
    numbers.reduce_optional(rt, rt.alloc(), run, &sum)
}

/// Rows of one setting.
pub fn rows<R: Threads + Clock + Abort + Alloc<A = Global> + Sync, S: Streams>(
    rt: &R,
    run: &Run<'_, NoGate>,
    streams: &S,
) -> Result<(), StreamError> {
    let total = total(rt, run, numbers(rt, streams, 1, 6));
    let items = ten_more(rt, run, numbers(rt, streams, 1, 6));
    let are_below = are_below_thirteen(rt, run, numbers(rt, streams, 12, 14));
    check_list(rt, items, &[11, 12, 13, 14, 15])
        .and(check(rt, are_below, false))
        .and(check(rt, total, Some(15)))
}

#[test]
fn functions_of_the_callers_own(rt: HostRuntime) -> Result<(), StreamError> {
    run_test(&rt, Case::AtEachSetting(Suite::OwnFunctions))
}
