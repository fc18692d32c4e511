//! Settings that are refused before anything runs.

use super::answers::{check, counted, first_of, same};
use super::gates::Watch;
use super::streams::{Streams, numbers};
use super::{Case, run_test};
use parallel_streams::{MapError, Run, Stream, StreamError};
use std::alloc::Global;
use std::process::Abort;
use std::test::Fail;
use std::thread::Threads;
use std::time::Clock;

/// Workers, targets, and what refuses them.
static UNLAWFUL: [(u32, u64, StreamError); 4] = [
    (0, 0, StreamError::BadWorkers),
    (65, 0, StreamError::BadWorkers),
    (1, 4_611_686_018_427_387_905, StreamError::BadTarget),
    (0, 4_611_686_018_427_387_905, StreamError::BadWorkers),
];

// The number of numbers, and the first.
fn both<R: Threads + Clock + Alloc<A = Global> + Sync, X: Stream<Item = i64> + Sync>(
    rt: &R,
    run: &Run<'_, Watch>,
    numbers: &X,
) -> (Result<i64, StreamError>, Result<Option<i64>, StreamError>)
    requires { X.ready numbers.now }
{
    (counted(rt, run, numbers), first_of(rt, run, numbers))
}

/// Settings that no run may have, and the greatest that it may.
pub fn check_unlawful<R: Threads + Clock + Abort + Alloc<A = Global> + Sync, S: Streams>(
    rt: &R,
    streams: &S,
) -> Result<(), StreamError> {
    let gate = Watch::until(0, 0);
    let ten = numbers(rt, streams, 0, 10);
    for &(workers, target, error) in &UNLAWFUL {
        let run = Run {
            workers,
            target,
            gate: &gate,
        };
        same(rt, both(rt, &run, &ten), (Err(error), Err(error)));
    }
    same(rt, gate.entered(), 0);
    let run = Run {
        workers: 64,
        target: 4_611_686_018_427_387_904,
        gate: &gate,
    };
    check(rt, both(rt, &run, &ten).1, Some(0))
}

#[test]
fn unlawful_settings_are_refused(rt: HostRuntime) -> Result<(), StreamError> {
    run_test(&rt, Case::UnlawfulSettings)
}

#[test]
fn errors_say_what_is_wrong(rt: HostRuntime) -> Result<(), Fail> {
    let workers = StreamError::BadWorkers;
    let target = StreamError::BadTarget;
    let told = format!(in rt.alloc(); "{}; {workers}; {target}", StreamError::NoMemory)?;
    let settings = "the number of workers is not 1 to 64; the target is above 2^62";
    assert!(rt;
        told.strip_prefix("out of memory; ") == Some(settings),
        "{told}"
    );
    let workers = MapError::<i64>::from(workers);
    let target = MapError::<i64>::from(target);
    let repeated = MapError::DuplicateKey(3i64);
    let told = format!(in rt.alloc(); "{repeated}; {workers}; {target}")?;
    assert!(rt;
        told.strip_prefix("duplicate key 3; ") == Some(settings),
        "{told}"
    );
    Ok(())
}
