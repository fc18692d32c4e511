//! The whole program, over the words after its name.

use super::{Calls, ROOM, Sink, Source};
use pipeline_runner::{Counted, command};
use std::alloc::{AllocError, Global};
use std::process::Abort;
use std::random::RandomSource;
use std::test::Fail;
use std::thread::Threads;
use std::time::Clock;

const HELP: &str = "Runs a pipeline file, and writes its answer

Usage: pstream [OPTIONS] <FILE>

Arguments:
  <FILE>  The pipeline file; /dev/stdin is standard input

Options:
      --workers <W>  The most workers that run the leaves, 1 to 64 [default: 4]
      --target <T>   The most items of a leaf; 0 chooses it [default: 0]
  -h, --help         Print help

FILE has a line for each of these, its words one space apart:

  VERSION   pipeline 1 | pipeline 2, which adds what stands behind 2:
  SOURCE    range N N | closed N N | numbers N .. | lines N, and N lines of text
  STAGE     none to 32 of them:
            map MAP | filter TEST | flatmap repeat N | flatmap words | distinct
            limit N | skip N | takewhile TEST | dropwhile TEST
  TERMINAL  sum | product | max | min | count | findfirst | tolist
            allmatch TEST | anymatch TEST | nonematch TEST
            joining W | joining W W W
            groupby MAP COLL | partition TEST COLL | teeing COLL COLL
            tomap MAP MAP MERGE
            2: tomapstrict MAP MAP

  MAP       add N | mul N | negate | mod N | length | self
  TEST      less N | greater N | equals N | divisible N
            empty | starts W | longer N
  MERGE     first | last | sum | max | min
  COLL      BASE
            2: mapping MAP INNER | filtering TEST INNER | groupby MAP INNER
  INNER     BASE | mapping MAP BASE | filtering TEST BASE
  BASE      count | counting | sum | max | min | first | tolist | joining W

W is any word, N a number of 64 bits with its sign: at least 1 after mod and
divisible, 0 after limit, skip and longer, 0 to 1000 after repeat, 0 to 1000000
after lines. Only texts have length, words, empty, starts, longer and joining;
only numbers have add, mul, negate, mod, less, greater, equals, divisible, sum,
product, max and min.

The multiples of 3 below 100, doubled and summed; it writes 3366:

  pipeline 1
  range 0 100
  filter divisible 3
  map mul 2
  sum

How often each word stands in a line; it writes {to=2, be=2, or=1, not=1}:

  pipeline 1
  lines 1
  to be or not to be
  flatmap words
  groupby self count

Status:

  0  the answer or this help was written
  2  a fault of the command line or of the file
  3  out of memory, or a file that can't be read or written
  4  a key of tomapstrict that comes twice
";

/// A file whose key 3 is the first that comes twice.
const REPEATS: &[u8] = b"pipeline 2\nnumbers 1 2 3 4 3 1\ntomapstrict mod 10 self\n";

/// An input with these bytes, which gives so many of them at a time.
fn input(bytes: &[u8], step: usize, fails_at: u64) -> Counted<Source<'_>> {
    Counted::new(Source {
        bytes,
        step,
        calls: Calls::failing_at(fails_at),
    })
}

const ROW: &[u8] = b"pipeline 1\nrange 1 6\nsum\n";

/// How the program ends, with an output that fails at one call: its status, what it wrote, and what it told.
fn program<R: Threads + Clock + RandomSource + Sync>(
    rt: &R,
    alloc: Global,
    words: &[&str],
    write_fails: u64,
) -> Result<(u8, String, String), AllocError> {
    let mut output = Counted::new(Sink {
        written: Vec::with_capacity(alloc, ROOM)?,
        step: 100,
        calls: Calls::failing_at(write_fails),
    });
    let mut error = Vec::with_capacity(alloc, ROOM)?;
    let opener = |name: &str| match name {
        "row" => Some(input(ROW, 100, 0)),
        "torn" => Some(input(ROW, 4, 2)),
        "bad" => Some(input(b"pipeline 3\n", 100, 0)),
        "repeats" => Some(input(REPEATS, 100, 0)),
        _ => None,
    };
    let status = command(rt, alloc, words, opener, &mut output, &mut error);
    let written = String::from_utf8_lossy(alloc, output.get_ref().written.as_slice())?;
    let told = String::from_utf8_lossy(alloc, error.as_slice())?;
    if told.as_str() == "out of memory\n" {
        return Err(AllocError);
    }
    Ok((status, written, told))
}

/// Asserts how the program ends.
fn check<R: Threads + Clock + RandomSource + Abort + Sync>(
    rt: &R,
    alloc: Global,
    words: &[&str],
    write_fails: u64,
    wanted: (u8, &str, &str),
) -> Result<(), Fail> {
    let (status, written, told) = program(rt, alloc, words, write_fails)?;
    let is_wanted = (status, written.as_str(), told.as_str()) == wanted;
    assert!(rt; is_wanted, "{words:?}: {status} {written} {told}");
    Ok(())
}

/// The words, the write that fails, and the status, what is written and what is told.
type Row<'a> = (&'a [&'a str], u64, (u8, &'a str, &'a str));

static RUNS: [Row<'_>; 13] = [
    (&["row"], 0, (0, "15\n", "")),
    (
        &["row", "--workers", "64", "--target", "1"],
        0,
        (0, "15\n", ""),
    ),
    (&["--workers=1", "row"], 0, (0, "15\n", "")),
    (
        &["row", "--target", "4611686018427387904"],
        0,
        (0, "15\n", ""),
    ),
    (&["bad"], 0, (2, "", "line 1: BAD_VERSION\n")),
    (&["repeats"], 0, (4, "", "duplicate key 3\n")),
    (&["none"], 0, (3, "", "read failed\n")),
    (&["torn"], 0, (3, "", "read failed\n")),
    (&["row"], 1, (3, "", "write failed\n")),
    (&["row"], 2, (3, "15\n", "write failed\n")),
    (&["--help"], 0, (0, HELP, "")),
    (&["-h"], 0, (0, HELP, "")),
    (&["--help"], 1, (3, "", "write failed\n")),
];

#[test]
fn ends_as_the_run_or_with_its_help(rt: HostRuntime) -> Result<(), Fail> {
    for &(words, write_fails, wanted) in &RUNS {
        check(&rt, rt.alloc(), words, write_fails, wanted)?;
    }
    Ok(())
}

/// The words, and the beginning of what is told.
static FAULTS: [(&[&str], &str); 6] = [
    (
        &[],
        "error: the following required arguments were not provided:\n  <FILE>\n\nUsage: pstream <FILE>",
    ),
    (
        &["row", "--workers", "0"],
        "error: invalid value '0' for '--workers <W>': 0 is not in 1..=64",
    ),
    (
        &["row", "--workers", "65"],
        "error: invalid value '65' for '--workers <W>': 65 is not in 1..=64",
    ),
    (
        &["row", "--target", "4611686018427387905"],
        "error: invalid value '4611686018427387905' for '--target <T>': 4611686018427387905 is not in 0..=4611686018427387904",
    ),
    (
        &["row", "--workers", "four"],
        "error: invalid value 'four' for '--workers <W>': invalid digit found in string",
    ),
    (
        &["row", "bad"],
        "error: unexpected argument 'bad' found\n\nUsage: pstream [OPTIONS] <FILE>",
    ),
];

#[test]
fn tells_a_fault_of_the_command_line(rt: HostRuntime) -> Result<(), Fail> {
    for &(words, fault) in &FAULTS {
        let told = format!(in rt.alloc(); "{fault}\n\nFor more information, try '--help'.\n")?;
        check(&rt, rt.alloc(), words, 0, (2, "", told.as_str()))?;
    }
    Ok(())
}
