//! Lines of readers that give few bytes at a time, are interrupted, or fail.
ghost use Rattle.std.specs.Prelude.{◌<◌};
ghost use Rattle.spliterator.specs.Clones.{ClonesAlike};
ghost use Rattle.reader_tests.specs.Checked.{checked, checked-value};

use crate::slow::{ThreeBytes, fails_behind, slow};
use collectors::{Counting, ToList};
use derived_collectors::{Trying, UpToError};
use line_blocks::LinesError;
use line_readers::{LineFunction, LineStream, OwnLine, ReadLines, lines_of};
use parallel_streams::{Engine, Run};
use spliterator::NoMemory;
use stages::{Nothing, Sink};
use std::alloc::Global;
use std::process::Abort;
use std::sync::Wait;
use std::thread::Threads;
use std::time::Clock;
use stealing_pool::NoGate;
use stream_functions::{Above, Composed, Length, Pieces};

/// Bytes, a block's size, and their lines, or what is at fault and where.
type Row<'a> = (&'a [u8], usize, Result<&'a [&'a str], (&'a str, u64)>);

static ROWS: [Row<'static>; 20] = [
    (b"", 4, Ok(&[])),
    (b"\n", 1, Ok(&[""])),
    (b"\n\n", 1, Ok(&["", ""])),
    (b"\n\n", 4, Ok(&["", ""])),
    (b"a", 2, Ok(&["a"])),
    (b"a", 1, Err(("long", 0))),
    (b"ab\n", 3, Ok(&["ab"])),
    (b"ab\n", 2, Err(("long", 0))),
    (b"ab\ncd\nefg", 4, Ok(&["ab", "cd", "efg"])),
    (b"ab\ncd\nefg\n", 4, Ok(&["ab", "cd", "efg"])),
    (b"ab\ncd\nefgh", 4, Err(("long", 6))),
    (b"ab\ncdef\ng", 4, Err(("long", 3))),
    (b"abcd\ne", 4, Err(("long", 0))),
    (b"a\r\n\n \nb", 4, Ok(&["a\r", "", " ", "b"])),
    (
        b"a\n\xc3\xa4\xc3\xb6\nb",
        5,
        Ok(&["a", "\u{e4}\u{f6}", "b"]),
    ),
    (b"\xffab\n", 8, Err(("bytes", 0))),
    (b"ab\nc\n\xffd\n", 4, Err(("bytes", 5))),
    (b"ab\nc\nd\xc3\ne\n", 4, Err(("bytes", 6))),
    (b"a\xc3", 8, Err(("bytes", 1))),
    (b"ab\n\xc3\n\xa4\n", 4, Err(("bytes", 3))),
];

/// What is at fault, and where.
fn told(error: &LinesError) -> (&'static str, u64) {
    match error {
        LinesError::NotUtf8(place) => ("bytes", *place),
        LinesError::LongLine(place) => ("long", *place),
        LinesError::Read(_) => ("read", 0),
        LinesError::NoMemory => ("memory", 0),
        LinesError::TooLong => ("end", 0),
    }
}

/// Whether these are the lines.
fn are(texts: &[String], lines: &[&str]) -> bool {
    texts.len() == lines.len()
        && texts
            .iter()
            .zip(lines)
            .all(|(text, line)| text.as_str() == *line)
}

/// Lines, in blocks of so many bytes.
fn in_blocks(
    alloc: Global,
    bytes: &[u8],
    size: usize,
) -> ReadLines<ThreeBytes<'_>, OwnLine, Nothing<String>>
    requires { 0 < size }
{
    let lines = lines_of(slow(bytes)).in_blocks_of(size);
    lines.map_lines(OwnLine { alloc })
}

// The texts of any lines: each call that names a stream's type costs a check as much as several over a type parameter.
fn texts_of<R: Threads + Clock + Wait + Sync, L: LineStream<Item = String>>(
    engine: &Engine<'_, R, NoGate>,
    lines: L,
) -> Result<Vec<String>, LinesError>
    requires { L.ready lines }
{
    lines.collect_on(engine, &ToList::<String>::new(engine.alloc))
}

fn leave<
    R: Threads + Clock + Wait + Abort + Alloc<A = Global> + Sync,
    L: LineStream<Item = String>,
>(engine: &Engine<'_, R, NoGate>, lines: L, wanted: &[&str]) -> Result<(), LinesError>
    requires { L.ready lines }
{
    let texts = texts_of(engine, lines)?;
    assert!(engine.rt; are(&texts, wanted));
    Ok(())
}

fn rows<R: Threads + Clock + Wait + Abort + Alloc<A = Global> + Sync>(
    engine: &Engine<'_, R, NoGate>,
) -> Result<(), LinesError> {
    let rt = engine.rt;
    for &(bytes, size, wanted) in &ROWS {
        match texts_of(engine, in_blocks(engine.alloc, bytes, size)) {
            Ok(texts) => assert!(rt; are(&texts, wanted.expect(rt, "lines"))),
            Err(LinesError::NoMemory) => return Err(LinesError::NoMemory),
            Err(error) => assert!(rt; wanted.err() == Some(told(&error))),
        }
    }
    Ok(())
}

/// What a run of so many workers uses.
fn engine_of<R: Abort + Alloc<A = Global>>(rt: &R, workers: u32) -> Engine<'_, R, NoGate> {
    Engine::new(rt, rt.alloc(), &Run::new(workers)).expect(rt, "lawful workers")
}

#[test]
fn lines_or_the_place_of_a_fault(rt: HostRuntime) -> Result<(), LinesError> {
    for workers in [1, 2, 7, 64] {
        rows(&engine_of(&rt, workers))?;
    }
    Ok(())
}

/// Two of four lines are longer than a block.
fn long_lines(
    alloc: Global,
    longest: usize,
) -> ReadLines<ThreeBytes<'static>, OwnLine, Nothing<String>> {
    let lines = lines_of(slow(b"a\nbcdefgh\ni\njklmnopq\n")).in_blocks_of(3);
    let lines = lines.with_lines_below(longest);
    lines.map_lines(OwnLine { alloc })
}

#[test]
fn lines_that_are_longer_than_a_block(rt: HostRuntime) -> Result<(), LinesError> {
    let alloc = rt.alloc();
    let engine = engine_of(&rt, 4);
    let told = texts_of(&engine, long_lines(alloc, 8));
    assert!(&rt; matches!(told, Err(LinesError::LongLine(12) | LinesError::NoMemory)));
    leave(
        &engine,
        long_lines(alloc, 9),
        &["a", "bcdefgh", "i", "jklmnopq"],
    )?;
    leave_front(&engine, long_lines(alloc, 0), 1, &["a"])
}

#[test]
fn one_text_in_blocks_of_each_size(rt: HostRuntime) -> Result<(), LinesError> {
    let engine = engine_of(&rt, 4);
    for size in 4..=12 {
        let lines = in_blocks(engine.alloc, b"abc\nd\n\nef\nghi", size);
        leave(&engine, lines, &["abc", "d", "", "ef", "ghi"])?;
    }
    Ok(())
}

// A line as it is; an empty one has failed.
#[derive(Drop)]
struct Checked {
    alloc: Global,
}

impl LineFunction for Checked {
    type Out = Result<String, String>;

    ghost image = { λ _ line. checked line };

    ghost images_are_values = { λ _ line. checked-value line };

    fn read(&self, line: &str) -> Result<Result<String, String>, NoMemory> {
        let text = String::from_str(self.alloc, line)?;
        if line.is_empty() {
            return Ok(Err(text));
        }
        Ok(Ok(text))
    }
}

/// Lines of which an empty one has failed, in blocks of four bytes.
fn checked_lines(
    alloc: Global,
    bytes: &[u8],
) -> ReadLines<ThreeBytes<'_>, Checked, Nothing<Result<String, String>>> {
    let lines = lines_of(slow(bytes)).in_blocks_of(4);
    lines.map_lines(Checked { alloc })
}

/// Whether a line has failed, where the reading may end there.
fn fails_early<R: Threads + Clock + Wait + Alloc<A = Global> + Sync>(
    engine: &Engine<'_, R, NoGate>,
    bytes: &[u8],
) -> Result<bool, LinesError> {
    let list = Trying::<_, String>::new(ToList::<String>::new(engine.alloc));
    let lines = checked_lines(engine.alloc, bytes);
    Ok(lines.collect_decided(engine, &list)?.is_err())
}

// .. and where it goes on.
fn fails_late<R: Threads + Clock + Wait + Alloc<A = Global> + Sync>(
    engine: &Engine<'_, R, NoGate>,
    bytes: &[u8],
) -> Result<bool, LinesError> {
    let list = Trying::<_, String>::new(ToList::<String>::new(engine.alloc));
    let lines = checked_lines(engine.alloc, bytes);
    Ok(lines.collect_on(engine, &list)?.is_err())
}

/// A line that decides, and behind it a byte that is no text.
const DECIDED: &[u8] = b"ab\n\nc\nd\ne\nf\ng\nh\ni\n\xff";

#[test]
fn nothing_is_told_of_what_stands_behind_a_line_that_decides(
    rt: HostRuntime,
) -> Result<(), LinesError> {
    let engine = engine_of(&rt, 4);
    assert!(&rt; fails_early(&engine, DECIDED)?);
    let whole = fails_late(&engine, DECIDED);
    assert!(&rt; matches!(whole, Err(LinesError::NotUtf8(18) | LinesError::NoMemory)));
    let early = fails_early(&engine, b"ab\nc\n\xffd\n\n");
    assert!(&rt; matches!(early, Err(LinesError::NotUtf8(5) | LinesError::NoMemory)));
    Ok(())
}

#[test]
fn the_error_of_a_reader_is_told(rt: HostRuntime) -> Result<(), LinesError> {
    let alloc = rt.alloc();
    let engine = engine_of(&rt, 4);
    let lines = lines_of(fails_behind(b"ab\nc")).in_blocks_of(4);
    let count = lines
        .map_lines(OwnLine { alloc })
        .collect_on(&engine, &Counting::<String>::new());
    assert!(&rt; matches!(count, Err(LinesError::Read(_) | LinesError::NoMemory)));
    Ok(())
}

#[test]
fn first_and_count(rt: HostRuntime) -> Result<(), LinesError> {
    let alloc = rt.alloc();
    let engine = engine_of(&rt, 4);
    let text = b"abc\nd\n\nef\nghi";
    let count = lines_of(slow(text))
        .map_lines(OwnLine { alloc })
        .count_on(&engine)?;
    assert!(&rt; count == 5);
    let lines = lines_of(slow(b"abc\nd\n\xff")).in_blocks_of(4);
    let first = lines.map_lines(OwnLine { alloc }).find_first_on(&engine)?;
    assert!(&rt; first.is_some_and(|line| line.as_str() == "abc"));
    Ok(())
}

/// Bytes, and the lines that are handed over before their end or their fault, in blocks of four bytes.
static HANDED: [(&[u8], &[&str]); 4] = [
    (b"", &[]),
    (b"a\nbc\n\nd", &["a", "bc", "", "d"]),
    (b"ab\n\xff\nc", &["ab"]),
    (b"ab\ncdef\ng", &["ab"]),
];

#[test]
fn lines_are_handed_over_up_to_a_fault(rt: HostRuntime) -> Result<(), LinesError> {
    let alloc = rt.alloc();
    for &(bytes, wanted) in &HANDED {
        let mut texts = Vec::new(alloc);
        let lines = in_blocks(alloc, bytes, 4);
        let ended = lines.for_each_ordered(&engine_of(&rt, 2), &mut texts);
        match ended {
            Err(LinesError::NoMemory) => return Err(LinesError::NoMemory),
            _ => assert!(&rt; are(&texts, wanted)),
        }
    }
    Ok(())
}

/// Bytes, the lines that are handed over before the first empty one, which has failed, and whether there is one. Nothing is told of what goes wrong behind.
static TRIED: [(&[u8], &[&str], bool); 5] = [
    (b"", &[], false),
    (b"ab\nc", &["ab", "c"], false),
    (b"\nab", &[], true),
    (b"ab\nc\n\nd\n\ne", &["ab", "c"], true),
    (b"ab\n\nc\nd\ne\nf\ng\nh\ni\n\xff", &["ab"], true),
];

/// Hands lines over, in blocks of four bytes, up to the first that has failed.
fn hand_tried<R: Threads + Clock + Wait + Alloc<A = Global> + Sync>(
    engine: &Engine<'_, R, NoGate>,
    bytes: &[u8],
    tried: &mut UpToError<'_, Vec<String>, String>,
) -> Result<(), LinesError> {
    checked_lines(engine.alloc, bytes).for_each_ordered(engine, tried)
}

/// Whether a line has failed. Once one has, nothing more is read.
fn hand_over<R: Threads + Clock + Wait + Alloc<A = Global> + Sync>(
    engine: &Engine<'_, R, NoGate>,
    bytes: &[u8],
    texts: &mut Vec<String>,
) -> Result<bool, LinesError> {
    let mut tried = UpToError::new(texts);
    hand_tried(engine, bytes, &mut tried)?;
    if tried.is_full() {
        hand_tried(engine, b"\xff", &mut tried)?;
    }
    Ok(tried.ended().is_err())
}

#[test]
fn lines_are_handed_over_up_to_one_that_has_failed(rt: HostRuntime) -> Result<(), LinesError> {
    let engine = engine_of(&rt, 2);
    for &(bytes, wanted, has_failed) in &TRIED {
        let mut texts = Vec::new(rt.alloc());
        let failed = hand_over(&engine, bytes, &mut texts)?;
        assert!(&rt; failed == has_failed && are(&texts, wanted));
    }
    Ok(())
}

/// Bytes, and whether some, each and none of their lines is longer than one byte, in blocks of four bytes. Behind what decides all three no line is read.
static MATCHED: [(&[u8], [bool; 3]); 5] = [
    (b"", [false, true, true]),
    (b"a\nb\n\nc\nd", [false, false, true]),
    (b"bb\ncc\ndd", [true, true, false]),
    (b"a\nb\nc\nd\ne\nff", [true, false, false]),
    (b"a\nbb\nc\nd\ne\nf\ng\n\xff", [true, false, false]),
];

fn matched<R: Threads + Clock + Wait + Sync, L: LineStream<Item = String> + Drop>(
    engine: &Engine<'_, R, NoGate>,
    some: L,
    each: L,
    none: L,
) -> Result<[bool; 3], LinesError>
    requires some { L.ready some }
    requires each { L.ready each }
    requires none { L.ready none }
{
    let is_long = Composed(Length, Above(1));
    Ok([
        some.any_match_on(engine, &is_long)?,
        each.all_match_on(engine, &is_long)?,
        none.none_match_on(engine, &is_long)?,
    ])
}

#[test]
fn matches_read_no_more_than_decides(rt: HostRuntime) -> Result<(), LinesError> {
    let alloc = rt.alloc();
    let engine = engine_of(&rt, 4);
    for &(bytes, wanted) in &MATCHED {
        let some = in_blocks(alloc, bytes, 4);
        let each = in_blocks(alloc, bytes, 4);
        let told = matched(&engine, some, each, in_blocks(alloc, bytes, 4))?;
        assert!(&rt; told == wanted);
    }
    Ok(())
}

/// Seven lines.
const SEVEN: &[u8] = b"a\nbb\na\nccc\n\nbb\nd\n";

/// Longer than nothing.
const SOME: Composed<Length, Above> = Composed(Length, Above(0));

// The front that is so long, what follows so many, and the front of the lines that differ, over any lines.
fn leave_front<
    R: Threads + Clock + Wait + Abort + Alloc<A = Global> + Sync,
    L: LineStream<Item = String>,
>(engine: &Engine<'_, R, NoGate>, lines: L, most: u32, wanted: &[&str]) -> Result<(), LinesError>
    requires lines { L.ready lines }
    requires lead { ClonesAlike L.Lead.is_clone L.Lead.content }
{
    leave(engine, lines.limit(u64::from(most)), wanted)
}

fn leave_behind<
    R: Threads + Clock + Wait + Abort + Alloc<A = Global> + Sync,
    L: LineStream<Item = String>,
>(engine: &Engine<'_, R, NoGate>, lines: L, number: u32, wanted: &[&str]) -> Result<(), LinesError>
    requires lines { L.ready lines }
    requires lead { ClonesAlike L.Lead.is_clone L.Lead.content }
{
    leave(engine, lines.skip(u64::from(number)), wanted)
}

fn leave_front_apart<
    R: Threads + Clock + Wait + Abort + Alloc<A = Global> + Sync,
    L: LineStream<Item = String>,
>(engine: &Engine<'_, R, NoGate>, lines: L, most: u32, wanted: &[&str]) -> Result<(), LinesError>
    requires lines { L.ready lines }
    requires lead { ClonesAlike L.Lead.is_clone L.Lead.content }
{
    leave_front(engine, lines.distinct(), most, wanted)
}

/// The seven lines, in blocks of so many bytes.
fn seven(alloc: Global, size: usize) -> ReadLines<ThreeBytes<'static>, OwnLine, Nothing<String>>
    requires { 0 < size }
{
    in_blocks(alloc, SEVEN, size)
}

fn one_skips<R: Threads + Clock + Wait + Abort + Alloc<A = Global> + Sync>(
    engine: &Engine<'_, R, NoGate>,
    size: usize,
) -> Result<(), LinesError>
    requires { 0 < size }
{
    let wanted = &["bb", "a", "ccc", "", "bb", "d"];
    leave_behind(engine, seven(engine.alloc, size), 1, wanted)
}

/// The longest fronts that are wanted, and these.
static FRONTS: [(u32, &[&str]); 2] = [(3, &["a", "bb", "a"]), (0, &[])];

fn one_limits<R: Threads + Clock + Wait + Abort + Alloc<A = Global> + Sync>(
    engine: &Engine<'_, R, NoGate>,
    size: usize,
) -> Result<(), LinesError>
    requires { 0 < size }
{
    for &(most, wanted) in &FRONTS {
        leave_front(engine, seven(engine.alloc, size), most, wanted)?;
    }
    Ok(())
}

fn differing_stay<R: Threads + Clock + Wait + Abort + Alloc<A = Global> + Sync>(
    engine: &Engine<'_, R, NoGate>,
    size: usize,
) -> Result<(), LinesError>
    requires { 0 < size }
{
    leave(
        engine,
        seven(engine.alloc, size).distinct(),
        &["a", "bb", "ccc", "", "d"],
    )
}

fn one_takes_while<R: Threads + Clock + Wait + Abort + Alloc<A = Global> + Sync>(
    engine: &Engine<'_, R, NoGate>,
    size: usize,
) -> Result<(), LinesError>
    requires { 0 < size }
{
    leave(
        engine,
        seven(engine.alloc, size).take_while(SOME),
        &["a", "bb", "a", "ccc"],
    )
}

fn one_drops_while<R: Threads + Clock + Wait + Abort + Alloc<A = Global> + Sync>(
    engine: &Engine<'_, R, NoGate>,
    size: usize,
) -> Result<(), LinesError>
    requires { 0 < size }
{
    leave(
        engine,
        seven(engine.alloc, size).drop_while(SOME),
        &["", "bb", "d"],
    )
}

fn two_leave_the_third<R: Threads + Clock + Wait + Abort + Alloc<A = Global> + Sync>(
    engine: &Engine<'_, R, NoGate>,
    size: usize,
) -> Result<(), LinesError>
    requires { 0 < size }
{
    let behind_two = seven(engine.alloc, size).filter(SOME).skip(2);
    leave_front(engine, behind_two, 1, &["a"])
}

fn three_leave_the_first_that_differ<R: Threads + Clock + Wait + Abort + Alloc<A = Global> + Sync>(
    engine: &Engine<'_, R, NoGate>,
    size: usize,
) -> Result<(), LinesError>
    requires { 0 < size }
{
    let behind_one = seven(engine.alloc, size).skip(1).filter(SOME);
    leave_front_apart(engine, behind_one, 3, &["bb", "a", "ccc"])
}

fn two_leave_the_last<R: Threads + Clock + Wait + Abort + Alloc<A = Global> + Sync>(
    engine: &Engine<'_, R, NoGate>,
    size: usize,
) -> Result<(), LinesError>
    requires { 0 < size }
{
    let rest = seven(engine.alloc, size).drop_while(SOME).filter(SOME);
    leave_behind(engine, rest, 1, &["d"])
}

#[test]
fn barriers_go_on_from_block_to_block(rt: HostRuntime) -> Result<(), LinesError> {
    for workers in [1, 4] {
        let engine = engine_of(&rt, workers);
        for size in [4, 5, 7, 64] {
            one_skips(&engine, size)?;
            one_limits(&engine, size)?;
            differing_stay(&engine, size)?;
            one_takes_while(&engine, size)?;
            one_drops_while(&engine, size)?;
            two_leave_the_third(&engine, size)?;
            three_leave_the_first_that_differ(&engine, size)?;
            two_leave_the_last(&engine, size)?;
        }
    }
    Ok(())
}

/// Four lines, and a byte that is no text.
fn spoilt(alloc: Global) -> ReadLines<ThreeBytes<'static>, OwnLine, Nothing<String>> {
    in_blocks(alloc, b"ab\nc\nd\ne\n\xff\n", 4)
}

// How many lines the front has that is so long at most.
fn count_front<R: Threads + Clock + Wait + Sync, L: LineStream>(
    engine: &Engine<'_, R, NoGate>,
    lines: L,
    most: u32,
) -> Result<i64, LinesError>
    requires lines { L.ready lines }
    requires lead { ClonesAlike L.Lead.is_clone L.Lead.content }
    requires items { ClonesAlike L.Item.is_clone L.Item.content }
{
    lines.limit(u64::from(most)).count_on(engine)
}

#[test]
fn nothing_is_told_of_what_stands_behind_a_limit(rt: HostRuntime) -> Result<(), LinesError> {
    let alloc = rt.alloc();
    let engine = engine_of(&rt, 4);
    let number = count_front(&engine, spoilt(alloc), 3)?;
    assert!(&rt; number == 3);
    let mut texts = Vec::new(alloc);
    let few = spoilt(alloc).take_while(Composed(Length, Above(1)));
    few.for_each_ordered(&engine, &mut texts)?;
    assert!(&rt; are(&texts, &["ab"]));
    let all = count_front(&engine, spoilt(alloc), 5);
    assert!(&rt; matches!(all, Err(LinesError::NotUtf8(9) | LinesError::NoMemory)));
    Ok(())
}

/// Bytes, a block's size, and the pieces of their lines between commas.
static PIECES: [(&[u8], usize, &[&str]); 9] = [
    (b"", 4, &[]),
    (b"\n", 4, &[""]),
    (b"ab,c", 8, &["ab", "c"]),
    (b"ab,c\n", 8, &["ab", "c"]),
    (b",\n", 8, &["", ""]),
    (b"a,,b\n\nc,", 5, &["a", "", "b", "", "c", ""]),
    (
        b"a,b\n,c\nd,e,f\n,",
        6,
        &["a", "b", "", "c", "d", "e", "f", "", ""],
    ),
    (b"a b;c\n", 8, &["a b;c"]),
    (b"ab,c\r\nd,e\nfg\n", 7, &["ab", "c\r", "d", "e", "fg"]),
];

#[test]
fn pieces_of_lines_in_their_order(rt: HostRuntime) -> Result<(), LinesError> {
    let alloc = rt.alloc();
    for workers in [1, 4] {
        let engine = engine_of(&rt, workers);
        for &(bytes, size, wanted) in &PIECES {
            let lines = lines_of(slow(bytes)).in_blocks_of(size);
            let pieces = lines.flat_map_lines(Pieces::new(alloc, ','));
            leave(&engine, pieces, wanted)?;
        }
    }
    Ok(())
}
