//! Pipelines of texts that are read.

use file_words::ReadError;
use pipeline_language::{
    AllItems, Barrier, Expansion, ItemCount, Joint, Merge, NumberChange, NumberFunction,
    NumberStage, NumberTerminal, NumberTotal, Part, Pipeline, Quantifier, TextBase, TextEnd,
    TextFunction, TextStage, TextSummary, TextTerminal, TextTest, TextValue,
};
use pipeline_reader::read_pipeline;
use std::alloc::{AllocError, Global};
use std::test::Fail;

/// Whether the file is a pipeline of two texts of the lengths with the stages, and then `map length`, `map add 1`, `max`.
fn is_of_texts<'a>(
    alloc: Global,
    file: &'a [u8],
    lengths: (usize, usize),
    stages: &[TextStage<'a>],
) -> Result<bool, AllocError> {
    match read_pipeline(alloc, file) {
        Ok(Pipeline::Texts(texts, body)) => {
            let same_texts = texts.len() == 2
                && texts[0].len() == lengths.0
                && texts[1].len() == lengths.1;
            let same_end = match &body.end {
                TextEnd::Lengths(body) => {
                    let wanted = [NumberStage::Map(NumberFunction::Change(NumberChange::Add(1)))];
                    body.stages.as_slice() == wanted.as_slice()
                        && body.terminal == NumberTerminal::Own(NumberTotal::Max)
                }
                TextEnd::Terminal(_) => false,
            };
            Ok(same_texts && body.stages.as_slice() == stages && same_end)
        }
        Ok(Pipeline::Numbers(_, _)) | Err(ReadError::Fault(_)) => Ok(false),
        Err(ReadError::NoMemory) => Err(AllocError),
    }
}

/// The stages of a file with each stage over texts.
const STAGES: [TextStage<'static>; 11] = [
    TextStage::Map(()),
    TextStage::Filter(TextTest::Starts("")),
    TextStage::Filter(TextTest::Empty),
    TextStage::Filter(TextTest::Longer(3)),
    TextStage::FlatMap(Expansion::Words),
    TextStage::FlatMap(Expansion::Repeat(2)),
    TextStage::Barrier(Barrier::Distinct),
    TextStage::Barrier(Barrier::Counted(Part::Front, ItemCount { number: 1 })),
    TextStage::Barrier(Barrier::Counted(Part::Rest, ItemCount { number: 0 })),
    TextStage::Barrier(Barrier::While(Part::Front, TextTest::Empty)),
    TextStage::Barrier(Barrier::While(Part::Rest, TextTest::Starts("a"))),
];

#[test]
fn reads_stages_over_texts(rt: HostRuntime) -> Result<(), Fail> {
    let file =
        b"pipeline 1\nlines 2\na b\n\nmap self\nfilter starts \nfilter empty\nfilter longer 3\nflatmap words\n\
        flatmap repeat 2\ndistinct\nlimit 1\nskip 0\ntakewhile empty\ndropwhile starts a\nmap length\nmap add 1\nmax\n";
    assert!(rt; is_of_texts(rt.alloc(), file, (3, 0), &STAGES)?);
    Ok(())
}

/// Whether a file is a pipeline of no texts with the terminal.
fn ends_with(
    alloc: Global,
    file: &'static [u8],
    wanted: TextTerminal<'static>,
) -> Result<bool, AllocError> {
    match read_pipeline(alloc, file) {
        Ok(Pipeline::Texts(_texts, body)) => {
            Ok(matches!(&body.end, TextEnd::Terminal(terminal) if *terminal == wanted))
        }
        Ok(Pipeline::Numbers(_, _)) | Err(ReadError::Fault(_)) => Ok(false),
        Err(ReadError::NoMemory) => Err(AllocError),
    }
}

/// The first of the files that isn't a pipeline of no texts with its terminal, by its place.
pub(super) fn first_other_end(
    alloc: Global,
    rows: &[(&'static [u8], TextTerminal<'static>)],
) -> Result<Option<usize>, AllocError> {
    for (index, (file, wanted)) in rows.iter().enumerate() {
        if !ends_with(alloc, file, *wanted)? {
            return Ok(Some(index));
        }
    }
    Ok(None)
}

/// Files over texts, with their terminals.
static TERMINALS: [(&[u8], TextTerminal<'static>); 9] = [
    (
        b"pipeline 1\nlines 0\ncount",
        TextTerminal::Whole(AllItems::Count),
    ),
    (
        b"pipeline 1\nlines 0\nfindfirst",
        TextTerminal::Whole(AllItems::FindFirst),
    ),
    (
        b"pipeline 1\nlines 0\ntolist",
        TextTerminal::Whole(AllItems::ToList),
    ),
    (
        b"pipeline 1\nlines 0\nallmatch longer 2",
        TextTerminal::Match(Quantifier::AllMatch, TextTest::Longer(2)),
    ),
    (
        b"pipeline 1\nlines 0\njoining ",
        TextTerminal::Own(Joint::Plain("")),
    ),
    (
        b"pipeline 1\nlines 0\njoining - < >",
        TextTerminal::Own(Joint::Within("-", "<", ">")),
    ),
    (
        b"pipeline 1\nlines 0\ngroupby length joining +",
        TextTerminal::GroupBy(TextFunction::Length, TextSummary::Base(TextBase::Own("+"))),
    ),
    (
        b"pipeline 1\nlines 0\ntomap self length sum",
        TextTerminal::ToMap(TextFunction::Itself, TextValue::Length(Merge::Sum)),
    ),
    (
        b"pipeline 1\nlines 0\nteeing first tolist",
        TextTerminal::Teeing(
            TextSummary::Base(TextBase::First),
            TextSummary::Base(TextBase::ToList),
        ),
    ),
];

#[test]
fn reads_terminals_of_texts(rt: HostRuntime) -> Result<(), Fail> {
    assert!(rt; first_other_end(rt.alloc(), TERMINALS.as_slice())?.is_none());
    Ok(())
}
