//! Pipelines of numbers that are read.

use super::first_wrong;
use file_words::ReadError;
use pipeline_language::{
    AllItems, Barrier, ItemCount, Merge, NumberBase as Base, NumberChange, NumberFunction,
    NumberOnly, NumberSource, NumberStage, NumberSummary as Summary, NumberTerminal, NumberTest,
    NumberTotal, Part, Pipeline, Quantifier,
};
use pipeline_reader::read_pipeline;
use std::alloc::{AllocError, Global};
use std::test::Fail;

/// Whether the file is a pipeline of the numbers with the stages and the terminal.
fn is_of_numbers(
    alloc: Global,
    file: &[u8],
    numbers: &[i64],
    stages: &[NumberStage],
    terminal: NumberTerminal,
) -> Result<bool, AllocError> {
    match read_pipeline(alloc, file) {
        Ok(Pipeline::Numbers(source, body)) => {
            let same_source =
                matches!(&source, NumberSource::Numbers(read) if read.as_slice() == numbers);
            Ok(same_source && body.stages.as_slice() == stages && body.terminal == terminal)
        }
        Ok(Pipeline::Texts(_, _)) | Err(ReadError::Fault(_)) => Ok(false),
        Err(ReadError::NoMemory) => Err(AllocError),
    }
}

/// The stages of a file with each function, each test and each barrier.
const STAGES: [NumberStage; 15] = [
    NumberStage::Map(NumberFunction::Change(NumberChange::Add(-3))),
    NumberStage::Map(NumberFunction::Change(NumberChange::Mul(2))),
    NumberStage::Map(NumberFunction::Change(NumberChange::Negate)),
    NumberStage::Map(NumberFunction::Mod(7)),
    NumberStage::Map(NumberFunction::Itself),
    NumberStage::Filter(NumberTest::Less(1)),
    NumberStage::Filter(NumberTest::Greater(2)),
    NumberStage::Filter(NumberTest::Equals(3)),
    NumberStage::Filter(NumberTest::Divisible(4)),
    NumberStage::FlatMap(1000),
    NumberStage::Barrier(Barrier::Distinct),
    NumberStage::Barrier(Barrier::Counted(Part::Front, ItemCount { number: 0 })),
    NumberStage::Barrier(Barrier::Counted(
        Part::Rest,
        ItemCount {
            number: 9_223_372_036_854_775_807,
        },
    )),
    NumberStage::Barrier(Barrier::While(Part::Front, NumberTest::Less(5))),
    NumberStage::Barrier(Barrier::While(Part::Rest, NumberTest::Less(6))),
];

#[test]
fn reads_stages_over_numbers(rt: HostRuntime) -> Result<(), Fail> {
    let file =
        b"pipeline 1\nnumbers 5 -2 9223372036854775807\nmap add -3\nmap mul 2\nmap negate\nmap mod 7\nmap self\n\
        filter less 1\nfilter greater 2\nfilter equals 3\nfilter divisible 4\nflatmap repeat 1000\ndistinct\nlimit 0\n\
        skip 9223372036854775807\ntakewhile less 5\ndropwhile less 6\ntomap self negate last\n";
    let terminal = NumberTerminal::ToMap(
        NumberFunction::Itself,
        (NumberFunction::Change(NumberChange::Negate), Merge::Last),
    );
    assert!(rt; is_of_numbers(rt.alloc(), file, &[5, -2, i64::MAX], &STAGES, terminal)?);
    Ok(())
}

/// Numbers at the ends of 64 bits, and words past them, with leading zeros, with signs, and empty.
static WORDS: [&str; 14] = [
    "numbers 9223372036854775808\nsum\n-> line 2: BAD_NUMBER",
    "numbers -9223372036854775809\nsum\n-> line 2: BAD_NUMBER",
    "numbers 1 18446744073709551617\nsum\n-> line 2: BAD_NUMBER",
    "numbers 00\nsum\n-> line 2: BAD_NUMBER",
    "numbers 007 1\nsum\n-> line 2: BAD_NUMBER",
    "numbers -0\nsum\n-> line 2: BAD_NUMBER",
    "numbers 1 - 2\nsum\n-> line 2: BAD_NUMBER",
    "numbers 1-2\nsum\n-> line 2: BAD_NUMBER",
    "numbers 1  2\nsum\n-> line 2: BAD_NUMBER",
    "numbers 1 \nsum\n-> line 2: BAD_NUMBER",
    "numbers \nsum\n-> line 2: BAD_NUMBER",
    "numbers\nmap add 9223372036854775808\nsum\n-> line 3: BAD_NUMBER",
    "numbers\nmap add -\nsum\n-> line 3: BAD_NUMBER",
    "numbers\nmap add -9223372036854775808\nsum\n-> read",
];

#[test]
fn reads_the_numbers_of_a_line(rt: HostRuntime) -> Result<(), Fail> {
    let sum = NumberTerminal::Own(NumberTotal::Sum);
    let none = b"pipeline 1\nnumbers\nsum\n";
    assert!(rt; is_of_numbers(rt.alloc(), none, &[], &[], sum)?);
    let ends = b"pipeline 1\nnumbers 9223372036854775807 0 -1 -9223372036854775808 1000\nsum\n";
    let wanted = [i64::MAX, 0, -1, i64::MIN, 1000];
    assert!(rt; is_of_numbers(rt.alloc(), ends, &wanted, &[], sum)?);
    assert_eq!(rt; first_wrong(rt.alloc(), b"pipeline 1\n", &WORDS)?, None);
    Ok(())
}

/// The terminal of a pipeline over no numbers, of a version, whose last line is the given one.
fn number_terminal(
    alloc: Global,
    version: u64,
    line: &str,
) -> Result<Option<NumberTerminal>, AllocError> {
    let file = format!(in alloc; "pipeline {version}\nnumbers\n{line}\n")?;
    match read_pipeline(alloc, file.as_bytes()) {
        Ok(Pipeline::Numbers(_source, body)) => Ok(Some(body.terminal)),
        Ok(Pipeline::Texts(_, _)) | Err(ReadError::Fault(_)) => Ok(None),
        Err(ReadError::NoMemory) => Err(AllocError),
    }
}

/// The first of the rows whose line isn't read as its terminal, or is read at all in a version that doesn't know it, by its place.
pub(super) fn first_other(
    alloc: Global,
    version: u64,
    is_known: bool,
    rows: &[(&str, NumberTerminal)],
) -> Result<Option<usize>, AllocError> {
    for (index, (line, wanted)) in rows.iter().enumerate() {
        let terminal = number_terminal(alloc, version, line)?;
        if terminal != is_known.then_some(*wanted) {
            return Ok(Some(index));
        }
    }
    Ok(None)
}

const BELOW: NumberTest = NumberTest::Less(3);

const ODD: NumberFunction = NumberFunction::Mod(2);

const COUNT: Summary = Summary::Base(Base::Count);

const FIRST: Summary = Summary::Base(Base::First);

const LIST: Summary = Summary::Base(Base::ToList);

const SUM: Summary = Summary::Base(Base::Own(NumberOnly::Sum));

const MAX: Summary = Summary::Base(Base::Own(NumberOnly::Max));

const MIN: Summary = Summary::Base(Base::Own(NumberOnly::Min));

/// Terminals that both versions have.
static TERMINALS: [(&str, NumberTerminal); 16] = [
    ("sum", NumberTerminal::Own(NumberTotal::Sum)),
    ("product", NumberTerminal::Own(NumberTotal::Product)),
    ("max", NumberTerminal::Own(NumberTotal::Max)),
    ("min", NumberTerminal::Own(NumberTotal::Min)),
    ("count", NumberTerminal::Whole(AllItems::Count)),
    ("findfirst", NumberTerminal::Whole(AllItems::FindFirst)),
    ("tolist", NumberTerminal::Whole(AllItems::ToList)),
    (
        "allmatch less 3",
        NumberTerminal::Match(Quantifier::AllMatch, BELOW),
    ),
    (
        "anymatch less 3",
        NumberTerminal::Match(Quantifier::AnyMatch, BELOW),
    ),
    (
        "nonematch less 3",
        NumberTerminal::Match(Quantifier::NoneMatch, BELOW),
    ),
    (
        "groupby mod 2 counting",
        NumberTerminal::GroupBy(ODD, COUNT),
    ),
    ("groupby mod 2 count", NumberTerminal::GroupBy(ODD, COUNT)),
    (
        "partition less 3 tolist",
        NumberTerminal::Partition(BELOW, LIST),
    ),
    ("teeing sum first", NumberTerminal::Teeing(SUM, FIRST)),
    ("teeing max min", NumberTerminal::Teeing(MAX, MIN)),
    (
        "tomap mod 2 mod 2 sum",
        NumberTerminal::ToMap(ODD, (ODD, Merge::Sum)),
    ),
];

#[test]
fn reads_terminals_of_numbers(rt: HostRuntime) -> Result<(), Fail> {
    for version in [1, 2] {
        assert!(rt; first_other(rt.alloc(), version, true, TERMINALS.as_slice())?.is_none());
    }
    Ok(())
}
