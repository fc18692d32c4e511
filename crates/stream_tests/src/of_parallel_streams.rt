//! Streams by real threads: rows with 1, 2, 7 and 64 workers, at target 1 and at the default.

mod alone;
mod answers;
mod asked_once;
mod functions;
mod gates;
mod groups;
mod held;
mod matches;
mod own_functions;
mod own_source;
mod own_stage;
mod refusals;
mod reports;
mod rows;
mod settings;
mod sizes;
mod streams;
mod strict;
mod texts;
mod words;

use parallel_streams::{Run, StreamError};
use std::alloc::Global;
use std::process::Abort;
use std::thread::Threads;
use std::time::Clock;
use stealing_pool::NoGate;
use streams::{Sources, Streams};

/// The workers and the target of each row: at target 1 there is a leaf an item, and 0 is the default. Requests for memory are refused in turn by
/// checks/refused_tests.py, which stops at a test's first 1,000: mostly those of the first setting.
static SETTINGS: [(u32, u64); 8] = [
    (1, 1),
    (7, 1),
    (2, 1),
    (64, 1),
    (1, 0),
    (7, 0),
    (2, 0),
    (64, 0),
];

/// A run at a setting, which holds nobody.
fn at((workers, target): (u32, u64)) -> Run<'static, NoGate> {
    Run {
        workers,
        target,
        gate: &NoGate,
    }
}

/// The rows that are run at each setting: those of a module.
#[derive(Clone, Copy)]
enum Suite {
    Groups,
    Matches,
    Numbers,
    OwnFunctions,
    OwnSource,
    OwnStage,
    StrictMaps,
    Texts,
}

fn at_each_setting<R: Threads + Clock + Abort + Alloc<A = Global> + Sync, S: Streams>(
    rt: &R,
    streams: &S,
    suite: Suite,
) -> Result<(), StreamError> {
    for &setting in &SETTINGS {
        let run = &at(setting);
        let told = match suite {
            Suite::Groups => groups::rows(rt, run, streams),
            Suite::Matches => matches::rows(rt, run, streams),
            Suite::Numbers => rows::rows(rt, run, streams),
            Suite::OwnFunctions => own_functions::rows(rt, run, streams),
            Suite::OwnSource => own_source::rows(rt, run),
            Suite::OwnStage => own_stage::rows(rt, run, streams),
            Suite::StrictMaps => strict::rows(rt, run, streams),
            Suite::Texts => texts::rows(rt, run),
        };
        told?;
    }
    Ok(())
}

/// A test over streams of numbers.
#[derive(Clone, Copy)]
enum Case {
    AtEachSetting(Suite),
    CutLeaf,
    CutLeafInBlocks,
    CutLentLeaf,
    Entries,
    FilteredCounts,
    FirstOfMillion,
    FunctionsOnce,
    HeldFirstLeafOfMillion,
    HeldLeaf,
    KnownCounts,
    NothingBehindDropped,
    OneItem,
    OneWorkerReadsNothingBehind,
    RefusalRightOfFirst,
    SeenByGate,
    ShorterSegments,
    SumBySeven,
    TestsOnce,
    UnlawfulSettings,
}

fn run_over<R: Threads + Clock + Abort + Alloc<A = Global> + Sync, S: Streams>(
    rt: &R,
    streams: &S,
    case: Case,
) -> Result<(), StreamError> {
    match case {
        Case::AtEachSetting(suite) => at_each_setting(rt, streams, suite),
        Case::CutLeaf => held::check_cut_leaf(rt, streams),
        Case::CutLeafInBlocks => held::check_cut_blocks(rt, streams),
        Case::CutLentLeaf => held::check_cut_lent(rt, streams),
        Case::Entries => reports::check_entries(rt, streams),
        Case::FilteredCounts => sizes::check_filtered(rt, streams),
        Case::FirstOfMillion => rows::check_million(rt, streams),
        Case::FunctionsOnce => asked_once::check_functions(rt, streams),
        Case::HeldFirstLeafOfMillion => held::check_million(rt, streams),
        Case::HeldLeaf => held::check_place(rt, streams),
        Case::KnownCounts => sizes::check_counts(rt, streams),
        Case::NothingBehindDropped => asked_once::check_dropped(rt, streams),
        Case::OneItem => held::check_one(rt, streams),
        Case::OneWorkerReadsNothingBehind => refusals::check_firsts(rt, streams),
        Case::RefusalRightOfFirst => refusals::check_refused(rt, streams),
        Case::SeenByGate => reports::check_seen(rt, streams),
        Case::ShorterSegments => asked_once::check_segments(rt, streams),
        Case::SumBySeven => held::check_sum(rt, streams),
        Case::TestsOnce => asked_once::check_tests(rt, streams),
        Case::UnlawfulSettings => settings::check_unlawful(rt, streams),
    }
}

/// Runs a test over the streams of the sources.
fn run_test<R: Threads + Clock + Abort + Alloc<A = Global> + Sync>(
    rt: &R,
    case: Case,
) -> Result<(), StreamError> {
    run_over(rt, &Sources, case)
}
