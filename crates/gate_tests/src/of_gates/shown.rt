//! What pictures of runs look like.

ghost use Rattle.std.specs.Prelude.{◌<◌, ◌^◌};

use super::doubles::Ticks;
use super::sum_of;
use collectors::ToList;
use gates::{Picture, Timeline};
use parallel_streams::{Engine, Run, Stream, StreamError, of};
use sources::RangeSplit;
use std::alloc::Global;
use std::test::Fail;
use std::thread::Threads;
use std::time::Clock;
use stealing_pool::{NoGate, RunReport};

/// How many leaves of one item a source has, a limit to them, and the picture of one worker's two runs: for the limit, and for the list of what it left.
static PICTURES: [(i64, u64, &str); 4] = [
    (4, 9, "run 1, 4 leaves: ####\nrun 2, 4 leaves: ####\n"),
    (
        16,
        3,
        "run 1, 16 leaves: ###|.............\nrun 2, 3 leaves: ###\n",
    ),
    (
        128,
        5,
        "run 1, 128 leaves by 2: ##+|.............................................................\nrun 2, 5 leaves: #####\n",
    ),
    (0, 1, "run 1, 1 leaf: #\nrun 2, 1 leaf: #\n"),
];

// What each run tells of the list of a front.
fn report_of<R: Threads + Clock + Alloc<A = Global> + Sync, X: Stream<Item = i64> + Drop + Sync>(
    rt: &R,
    run: &Run<'_, NoGate>,
    numbers: X,
    most: u64,
) -> Result<RunReport, StreamError>
    requires ready { X.ready numbers }
    requires within { most < 2 ^ 63 }
{
    let list = ToList::new(rt.alloc());
    let front = numbers.limit(most);
    Ok(front.collect_reported(rt, rt.alloc(), run, &list)?.1)
}

#[test]
fn a_report_has_a_picture(rt: HostRuntime) -> Result<(), Fail> {
    let alloc = rt.alloc();
    let run = Run {
        workers: 1,
        target: 1,
        gate: &NoGate,
    };
    for &(items, limit, wanted) in &PICTURES {
        let numbers = of(RangeSplit::range(0, items).expect(&rt, "a range"));
        let report = report_of(&rt, &run, numbers, limit.min(9)).expect(&rt, "a list");
        let picture = format!(in alloc; "{}", Picture(&report))?;
        assert_eq!(&rt; picture.as_str(), wanted);
    }
    Ok(())
}

/// One worker's run over three leaves, of which two are kept, with a clock that goes on by a second a reading: the first leaf from 1 s to 2 s, the second
/// from 3 s to 4 s, the third, whose end isn't read, from 5 s on.
static TIMELINE: &str = "\
<svg xmlns=\"http://www.w3.org/2000/svg\" width=\"1200\" height=\"122\">
<style>text{font:12px sans-serif;fill:#333}.a{fill:#1c5a9e}.b{fill:#5fa8e6}.row{fill:#eee}.tick{stroke:#ccc}.title{font-size:16px}</style>
<rect width=\"1200\" height=\"122\" fill=\"#fff\"/>
<text x=\"80\" y=\"26\" class=\"title\">workers: 1, runs: 1, leaves: 3, of which the first 2 are shown</text>
<text x=\"80\" y=\"46\">A row a worker, with the part of the time that it was busy; a bar a leaf, in dark and light blue by turns of runs</text>
<g transform=\"translate(80,0)\"><path class=\"tick\" d=\"M0.00 64V92\"/><text x=\"0.00\" y=\"110\" text-anchor=\"middle\">0.0 s</text></g>
<g transform=\"translate(80,0)\"><path class=\"tick\" d=\"M132.50 64V92\"/><text x=\"132.50\" y=\"110\" text-anchor=\"middle\">0.5 s</text></g>
<g transform=\"translate(80,0)\"><path class=\"tick\" d=\"M265.00 64V92\"/><text x=\"265.00\" y=\"110\" text-anchor=\"middle\">1.0 s</text></g>
<g transform=\"translate(80,0)\"><path class=\"tick\" d=\"M397.50 64V92\"/><text x=\"397.50\" y=\"110\" text-anchor=\"middle\">1.5 s</text></g>
<g transform=\"translate(80,0)\"><path class=\"tick\" d=\"M530.00 64V92\"/><text x=\"530.00\" y=\"110\" text-anchor=\"middle\">2.0 s</text></g>
<g transform=\"translate(80,0)\"><path class=\"tick\" d=\"M662.50 64V92\"/><text x=\"662.50\" y=\"110\" text-anchor=\"middle\">2.5 s</text></g>
<g transform=\"translate(80,0)\"><path class=\"tick\" d=\"M795.00 64V92\"/><text x=\"795.00\" y=\"110\" text-anchor=\"middle\">3.0 s</text></g>
<g transform=\"translate(80,0)\"><path class=\"tick\" d=\"M927.50 64V92\"/><text x=\"927.50\" y=\"110\" text-anchor=\"middle\">3.5 s</text></g>
<g transform=\"translate(80,0)\"><path class=\"tick\" d=\"M1060.00 64V92\"/><text x=\"1060.00\" y=\"110\" text-anchor=\"middle\">4.0 s</text></g>
<g transform=\"translate(80,64)\"><text x=\"-8\" y=\"15\" text-anchor=\"end\">worker 0</text><rect class=\"row\" width=\"1060\" height=\"22\"/>
<rect class=\"a\" x=\"265.00\" width=\"264.40\" height=\"22\"><title>run 1, leaf 0: 1.000000 to 2.000000 s</title></rect>
<rect class=\"a\" x=\"795.00\" width=\"264.40\" height=\"22\"><title>run 1, leaf 1: 3.000000 to 4.000000 s</title></rect>
<text x=\"1068\" y=\"15\">50%</text></g>
</svg>
";

#[test]
fn a_timeline_is_drawn(rt: HostRuntime) -> Result<(), Fail> {
    let clock = Ticks::of(1_000);
    let timeline = Timeline::new(&clock, rt.alloc(), 2).expect(&rt, "a timeline");
    let run = Run {
        workers: 1,
        target: 1,
        gate: &timeline,
    };
    let engine = Engine::new(&rt, rt.alloc(), &run).expect(&rt, "an engine");
    let numbers = of(RangeSplit::range(0, 3).expect(&rt, "a range"));
    let sum = sum_of(&engine, &numbers);
    assert!(&rt; matches!(sum, Ok(3)));
    let picture = format!(in rt.alloc(); "{timeline}")?;
    assert_eq!(&rt; picture.as_str(), TIMELINE);
    Ok(())
}
