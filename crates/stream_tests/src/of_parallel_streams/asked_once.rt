//! How often a caller's functions are asked.
ghost use Rattle.std.specs.Prelude.{int_lt};

use super::answers::{Reported, check, check_list, counted, listed, same};
use super::functions::Copies;
use super::rows::front;
use super::streams::{Streams, numbers};
use super::{Case, SETTINGS, at, run_test};
use parallel_streams::{Run, Stream, StreamError};
use spliterator::NoMemory;
use stages::{Mapping, Test};
use std::alloc::Global;
use std::fmt::Debug;
use std::process::Abort;
use std::sync::atomic::{AtomicU64, Ordering};
use std::thread::Threads;
use std::time::Clock;
use stealing_pool::NoGate;

/// Each number as it is. It counts how often it was asked.
#[derive(Drop)]
struct Itself<'a> {
    asked: &'a AtomicU64,
}

impl Mapping<i64> for Itself<'_> {
    type Out = i64;

    ghost image = { λ _ x. x };

    ghost images_are_values = { λ f x h. h };

    fn image(&self, x: &i64) -> Result<i64, NoMemory> {
        self.asked.fetch_add(1, Ordering::SeqCst);
        Ok(*x)
    }
}

/// The numbers below a bound. It counts how often it was asked.
#[derive(Clone, Copy)]
struct Under<'a> {
    bound: i64,
    asked: &'a AtomicU64,
}

impl Test<i64> for Under<'_> {
    ghost holds = { λ t x. int_lt x t.bound };

    fn holds(&self, x: &i64) -> bool {
        self.asked.fetch_add(1, Ordering::SeqCst);
        *x < self.bound
    }
}

/// How often a function was asked: a number that begins anew.
fn times(asked: &AtomicU64) -> u64 {
    asked.swap(0, Ordering::SeqCst)
}

// Of some numbers those that are below five.
fn below_five<R: Threads + Clock + Alloc<A = Global> + Sync, X: Stream<Item = i64> + Drop + Sync>(
    rt: &R,
    run: &Run<'_, NoGate>,
    numbers: X,
    asked: &AtomicU64,
) -> Result<Vec<i64>, StreamError>
    requires { X.ready numbers }
{
    listed(rt, run, &numbers.filter(Under { bound: 5, asked }))
}

// .. of those behind the first two.
fn behind_two<R: Threads + Clock + Alloc<A = Global> + Sync, X: Stream<Item = i64> + Drop + Sync>(
    rt: &R,
    run: &Run<'_, NoGate>,
    numbers: X,
    asked: &AtomicU64,
) -> Result<Vec<i64>, StreamError>
    requires { X.ready numbers }
{
    below_five(rt, run, numbers.skip(2), asked)
}

// The first 5,000 numbers.
fn first_of_many<
    R: Threads + Clock + Alloc<A = Global> + Sync,
    X: Stream<Item = i64> + Drop + Sync,
>(rt: &R, run: &Run<'_, NoGate>, numbers: X) -> Result<Vec<i64>, StreamError>
    requires { X.ready numbers }
{
    listed(rt, run, &numbers.limit(5_000))
}

// The first 5,000 numbers, or those below five behind the first two.
fn front_or_rest<
    R: Threads + Clock + Alloc<A = Global> + Sync,
    X: Stream<Item = i64> + Drop + Sync,
>(
    rt: &R,
    run: &Run<'_, NoGate>,
    numbers: X,
    behind: Option<&AtomicU64>,
) -> Result<Vec<i64>, StreamError>
    requires { X.ready numbers }
{
    match behind {
        Some(asked) => behind_two(rt, run, numbers, asked),
        None => first_of_many(rt, run, numbers),
    }
}

// .. of the images of numbers.
fn of_images<R: Threads + Clock + Alloc<A = Global> + Sync, X: Stream<Item = i64> + Drop + Sync>(
    rt: &R,
    run: &Run<'_, NoGate>,
    numbers: X,
    asked: &AtomicU64,
    behind: Option<&AtomicU64>,
) -> Result<Vec<i64>, StreamError>
    requires { X.ready numbers }
{
    front_or_rest(rt, run, numbers.map(Itself { asked }), behind)
}

/// The functions before a barrier and behind it.
pub fn check_functions<R: Threads + Clock + Abort + Alloc<A = Global> + Sync, S: Streams>(
    rt: &R,
    streams: &S,
) -> Result<(), StreamError> {
    let (mapped, behind) = (AtomicU64::new(0), AtomicU64::new(0));
    for &setting in &SETTINGS {
        let five = numbers(rt, streams, 0, 5);
        let three = of_images(rt, &at(setting), five, &mapped, Some(&behind));
        check_list(rt, three, &[2, 3, 4])?;
        same(rt, (times(&mapped), times(&behind)), (5, 3));

        let million = numbers(rt, streams, 0, 1_000_000);
        let front = of_images(rt, &at(setting), million, &mapped, None)?;
        let is_so = (5_000..=7_812).contains(&times(&mapped));
        same(rt, (front.len(), is_so), (5_000, true));
    }
    Ok(())
}

// Of five items, and of the three behind a barrier. A million numbers are halved eight times, until a part has at most 2^12 of them: a limit of
// 5,000 reads no more than two such segments, each of 3,906.
#[test]
fn functions_are_asked_once_an_item(rt: HostRuntime) -> Result<(), StreamError> {
    run_test(&rt, Case::FunctionsOnce)
}

// The first number behind 1,300,000.
fn first_behind<R: Threads + Clock + Alloc<A = Global> + Sync, X: Stream<Item = i64> + Drop + Sync>(
    rt: &R,
    run: &Run<'_, NoGate>,
    numbers: X,
) -> Result<Option<i64>, StreamError>
    requires { X.ready numbers }
{
    numbers.skip(1_300_000).find_first(rt, rt.alloc(), run)
}

// .. where each stands as often as it says.
fn first_copy<R: Threads + Clock + Alloc<A = Global> + Sync, X: Stream<Item = i64> + Drop + Sync>(
    rt: &R,
    run: &Run<'_, NoGate>,
    numbers: X,
    asked: &AtomicU64,
) -> Result<Option<i64>, StreamError>
    requires { X.ready numbers }
{
    let alloc = rt.alloc();
    first_behind(rt, run, numbers.flat_map(Copies { alloc, asked }))
}

/// How far a source is read where items become many.
pub fn check_segments<R: Threads + Clock + Abort + Alloc<A = Global> + Sync, S: Streams>(
    rt: &R,
    streams: &S,
) -> Result<(), StreamError> {
    let asked = AtomicU64::new(0);
    let million = numbers(rt, streams, 5_000, 1_005_000);
    let found = first_copy(rt, &at((2, 0)), million, &asked)?;
    let times = asked.load(Ordering::SeqCst);
    same(rt, (found, times), (Some(5_253), 366));
    Ok(())
}

// Of a million numbers, each as often as it says. The first segment has 244, 16 times less than where no stage makes several of one; of these more
// than a million come, so that the next has 122.
#[test]
fn segments_are_as_much_shorter_as_items_are_more(rt: HostRuntime) -> Result<(), StreamError> {
    run_test(&rt, Case::ShorterSegments)
}

/// Checks an answer about 200 numbers, and how often its test was asked: as often as is told, and where that is less than 200, more often by others
/// than one worker over one leaf, but once a number at most.
fn check_asked<T: Copy + PartialEq + Debug>(
    rt: &impl Abort,
    asked: &AtomicU64,
    (workers, target): (u32, u64),
    found: Result<T, StreamError>,
    wanted: (T, u64),
) -> Result<(), StreamError> {
    let times = asked.swap(0, Ordering::SeqCst);
    check(rt, found, wanted.0)?;
    let is_alone = workers == 1 && target == 200;
    let is_so = times == wanted.1 || (!is_alone && wanted.1 < times && times <= 200);
    same(rt, is_so, true);
    Ok(())
}

// How many numbers follow those that meet a test.
fn counted_rest<R: Threads + Clock + Alloc<A = Global> + Sync, X: Stream<Item = i64> + Drop + Sync>(
    rt: &R,
    run: &Run<'_, NoGate>,
    numbers: X,
    test: Under<'_>,
) -> Result<i64, StreamError>
    requires { X.ready numbers }
{
    counted(rt, run, &numbers.drop_while(test))
}

// Whether any and all of 200 numbers are below a bound.
fn check_matches<
    R: Threads + Clock + Abort + Alloc<A = Global> + Sync,
    X: Stream<Item = i64> + Sync,
>(
    rt: &R,
    setting: (u32, u64),
    numbers: &X,
    test: &Under<'_>,
    any: (bool, u64),
    every: (bool, u64),
) -> Result<(), StreamError>
    requires { X.ready numbers.now }
{
    let (run, alloc) = (&at(setting), rt.alloc());
    let met = numbers.any_match(rt, alloc, run, test);
    check_asked(rt, test.asked, setting, met, any)?;
    let met = numbers.all_match(rt, alloc, run, test);
    check_asked(rt, test.asked, setting, met, every)
}

/// How often a while is asked that drops.
pub fn check_dropped<R: Threads + Clock + Abort + Alloc<A = Global> + Sync, S: Streams>(
    rt: &R,
    streams: &S,
) -> Result<(), StreamError> {
    let asked = &AtomicU64::new(0);
    let test = Under {
        bound: 9_000,
        asked,
    };
    for setting in [(1, 0), (7, 0), (64, 0)] {
        let rest = counted_rest(rt, &at(setting), numbers(rt, streams, 0, 100_000), test);
        check(rt, rest, 91_000)?;
        same(rt, asked.swap(0, Ordering::SeqCst), 9_001);
    }
    Ok(())
}

// Of 100,000 numbers, in many segments: behind the first that is left no number is asked about.
#[test]
fn nothing_is_asked_behind_what_is_dropped(rt: HostRuntime) -> Result<(), StreamError> {
    run_test(&rt, Case::NothingBehindDropped)
}

/// A bound, whether any and all of the numbers from 0 up to 200 are below it, and how often a test is asked for either.
static MET: [(i64, (bool, u64), (bool, u64)); 3] = [
    (-1, (false, 200), (false, 1)),
    (1, (true, 1), (false, 2)),
    (200, (true, 1), (true, 200)),
];

/// A bound, how many of these numbers are below it, and how often a while is asked.
static TAKEN: [(i64, i64, u64); 3] = [(-1, 0, 1), (50, 50, 51), (200, 200, 200)];

// How many items there are.
fn length_of(found: Reported) -> Result<i64, StreamError> {
    Ok(found?.0.len() as i64)
}

// The matches and whiles of one setting.
fn check_setting<R: Threads + Clock + Abort + Alloc<A = Global> + Sync, S: Streams>(
    rt: &R,
    streams: &S,
    setting: (u32, u64),
    asked: &AtomicU64,
) -> Result<(), StreamError> {
    let run = &at(setting);
    for &(bound, any, every) in &MET {
        let all = numbers(rt, streams, 0, 200);
        check_matches(rt, setting, &all, &Under { bound, asked }, any, every)?;
    }
    for &(bound, taken, times) in &TAKEN {
        let test = Under { bound, asked };
        let front = front(rt, run, numbers(rt, streams, 0, 200), test);
        check_asked(rt, asked, setting, length_of(front), (taken, times))?;
        let rest = counted_rest(rt, run, numbers(rt, streams, 0, 200), test);
        check_asked(rt, asked, setting, rest, (200 - taken, times))?;
    }
    Ok(())
}

/// How often tests are asked.
pub fn check_tests<R: Threads + Clock + Abort + Alloc<A = Global> + Sync, S: Streams>(
    rt: &R,
    streams: &S,
) -> Result<(), StreamError> {
    let asked = AtomicU64::new(0);
    for setting in [(1, 200), (1, 1), (7, 1), (2, 7), (7, 0)] {
        check_setting(rt, streams, setting, &asked)?;
    }
    Ok(())
}

// Of 200 numbers, those below a bound that none, some or all of them meet: matches, and whiles.
#[test]
fn tests_are_asked_once_an_item(rt: HostRuntime) -> Result<(), StreamError> {
    run_test(&rt, Case::TestsOnce)
}
