//! A caller's own stage.
ghost use Rattle.std.specs.Prelude.{pos, [], ◌∷◌, None};
ghost use Rattle.stages.specs.declared.flags.Operation.TheVariants.{FlatMap as flat_map_row};
ghost use Rattle.stages.specs.FlagLaws.{KeepsSound-flat_map};
ghost use Rattle.stages.specs.Wrapping.{wrapped_sum};
ghost use Rattle.std.specs.Ordering.{int_cmp};

use super::answers::{check_items, check_list, listed};
use super::rows::first_apart;
use super::streams::{Streams, numbers};
use super::{Case, Suite, run_test};
use parallel_streams::{Run, Stream, StreamError};
use spliterator::NoMemory;
use stages::{Operation, Operator, Sink, Stage, WrapAdd};
use std::alloc::Global;
use std::process::Abort;
use std::thread::Threads;
use std::time::Clock;
use stealing_pool::NoGate;

/// Each number, and then the next one.
#[derive(Drop)]
struct WithNext;

impl Stage for WithNext {
    type In = i64;

    type Out = i64;

    ghost expand = { λ _ x. x ∷ wrapped_sum x (pos 1) ∷ [] };

    ghost operation = { λ _. flat_map_row };

    ghost size_after = { λ _ _. None };

    ghost flag_law = { λ _. KeepsSound-flat_map int_cmp int_cmp (λ x. x ∷ wrapped_sum x (pos 1) ∷ []) };

    fn feed<K: Sink<i64>>(&self, x: i64, sink: &mut K) -> Result<(), NoMemory> {
        let next = WrapAdd::new().join(&x, &1)?;
        sink.take(x)?;
        sink.take(next)
    }

    fn operation(&self) -> Operation {
        Operation::FlatMap
    }

    fn size_after(&self, _size: Option<u64>) -> Option<u64> {
        None
    }
}

// The numbers 0 to 2, each before the next one.
fn check_numbers<
    R: Threads + Clock + Abort + Alloc<A = Global> + Sync,
    X: Stream<Item = i64> + Drop + Sync,
>(rt: &R, run: &Run<'_, NoGate>, numbers: X) -> Result<(), StreamError>
    requires { X.ready numbers }
{
    let listed = listed(rt, run, &numbers);
    let apart = first_apart(rt, run, numbers, 9);
    check_list(rt, listed, &[0, 1, 1, 2, 2, 3]).and(check_items(rt, apart, &[0, 1, 2, 3]))
}

fn check_pairs<
    R: Threads + Clock + Abort + Alloc<A = Global> + Sync,
    X: Stream<Item = i64> + Drop + Sync,
>(rt: &R, run: &Run<'_, NoGate>, numbers: X) -> Result<(), StreamError>
    requires { X.ready numbers }
{
    check_numbers(rt, run, numbers.then(WithNext))
}

/// Rows of one setting.
pub fn rows<R: Threads + Clock + Abort + Alloc<A = Global> + Sync, S: Streams>(
    rt: &R,
    run: &Run<'_, NoGate>,
    streams: &S,
) -> Result<(), StreamError> {
    check_pairs(rt, run, numbers(rt, streams, 0, 3))
}

#[test]
fn a_stage_of_the_callers_own(rt: HostRuntime) -> Result<(), StreamError> {
    run_test(&rt, Case::AtEachSetting(Suite::OwnStage))
}
