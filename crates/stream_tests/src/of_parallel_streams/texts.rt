//! Streams of texts.

use super::answers::same;
use super::words::Words;
use super::{Case, Suite, run_test};
use collectors::Joining;
use parallel_streams::{Run, Stream, StreamError, of};
use sources::LinesSplit;
use std::alloc::Global;
use std::process::Abort;
use std::thread::Threads;
use std::time::Clock;
use stealing_pool::NoGate;

/// Lines, what stands between, before and after their words, and the whole. An empty text is an item like any other.
static JOINED: [(&str, &str, &str, &str, &str); 3] = [
    ("\na\n\n", ",", "", "", ",a,"),
    ("\n\n\n", ",", "<", ">", "<,,>"),
    ("a b\nc\n", "-", "<", ">", "<a-b-c>"),
];

fn joined<R: Threads + Clock + Alloc<A = Global> + Sync>(
    rt: &R,
    run: &Run<'_, NoGate>,
    lines: &str,
    between: &str,
    before: &str,
    after: &str,
) -> Result<String, StreamError> {
    let alloc = rt.alloc();
    let words = of(LinesSplit::new(lines)).flat_map(Words { alloc });
    let text = Joining::<&str>::new(alloc, between, before, after);
    words.collect(rt, alloc, run, &text)
}

/// Rows of one setting.
pub fn rows<R: Threads + Clock + Abort + Alloc<A = Global> + Sync>(
    rt: &R,
    run: &Run<'_, NoGate>,
) -> Result<(), StreamError> {
    for &(lines, between, before, after, wanted) in &JOINED {
        let text = joined(rt, run, lines, between, before, after)?;
        same(rt, text.as_str(), wanted);
    }
    Ok(())
}

#[test]
fn texts_at_each_number_of_workers(rt: HostRuntime) -> Result<(), StreamError> {
    run_test(&rt, Case::AtEachSetting(Suite::Texts))
}
