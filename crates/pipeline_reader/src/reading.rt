//! Reads a pipeline file, line by line.

ghost use Rattle.std.specs.Prelude.{◌≡◌, ◌<◌, ◌+◌, ◌-◌, ◌^◌, IfErr, IfOk, OnOk, map, drop, length, Ok, Err};
ghost use Rattle.file_words.specs.Words.{lines_of};
ghost use Rattle.pipeline_language.specs.Content.{number_body, program_of, text_body, number_line_content, text_line_content};
ghost use Rattle.pipeline_language.specs.FileReading.{IfFault, Reads, ReadsMeaning, TellsFault, body_from, file_of, first_of, first_text, no_more, program_from, texts_from};
ghost use Rattle.pipeline_language.specs.Language.{HasFault, Means};
ghost use Rattle.pipeline_language.specs.Syntax.{NumberKind, TextKind, comes};

use file_words::{FileError, FileFault, LineError, Lines, ReadError, first_of_text};
use pipeline_language::{
    NumberBody, NumberLine, Pipeline, Source, TextBody, TextEnd, TextLine, Version,
    read_number_line, read_source, read_text_line, read_version,
};
use std::alloc::Global;

/// The most bytes of a file.
pub const MOST_BYTES: usize = 1_048_576;

/// Reads a whole file. Its texts borrow from the bytes.
#[tactic(auto, using(pipeline_language::proofs::FileLemmas::reads_means, pipeline_language::proofs::FileLemmas::reads_fault))]
pub fn read_pipeline(alloc: Global, file: &[u8]) -> Result<Pipeline<'_>, ReadError>
    // What is read is what the file means, and a fault that is told is the file's.
    ensures meaning { IfOk result (λ pipeline. Means file.now (program_of pipeline)) }
    ensures fault { IfErr result (IfFault (HasFault file.now)) }

    // What a file means is read, and its fault is told, unless memory runs out.
    ensures read { ReadsMeaning file.now result }
    ensures told { TellsFault file.now result }
{
    read_bytes(alloc, file)
}

/// The same as `read_pipeline`, as a function of the bytes.
#[tactic(auto, unfolding(pipeline_language::specs::FileReading::file_of))]
fn read_bytes(alloc: Global, file: &[u8]) -> Result<Pipeline<'_>, ReadError>
    ensures { Reads program_of result (file_of file.now) }
{
    if file.len() > MOST_BYTES {
        return Err(LineError::Fault(FileError::TooLarge).at(0));
    }
    read_lines(alloc, Lines::new(file))
}

/// The lines of a file: its version, a source line with its texts, and a body.
#[tactic(auto, unfolding(pipeline_language::specs::FileReading::program_from))]
fn read_lines<'a>(alloc: Global, mut lines: Lines<'a>) -> Result<Pipeline<'a>, ReadError>
    requires { length lines < 2 ^ 32 }
    ensures { Reads program_of result (program_from lines.entry) }
{
    let Some(version) = lines.next() else {
        return Err(LineError::Fault(FileError::BadVersion).at(1));
    };
    let version = read_version(version).map_err(|e| LineError::Fault(e).at(1))?;
    let Some(line) = lines.next() else {
        return Err(LineError::Fault(FileError::MissingTerminal).at(2));
    };
    match read_source(alloc, line).map_err(|e| e.at(2))? {
        Source::Numbers(source) => {
            let body = read_number_body(alloc, version, &mut lines, 0, 3)?;
            Ok(Pipeline::Numbers(source, body))
        }
        Source::Lines(count) => {
            let texts = read_texts(alloc, &mut lines, count)?;
            let body = read_text_body(alloc, version, &mut lines, texts.len() as u64 + 3)?;
            Ok(Pipeline::Texts(texts, body))
        }
    }
}

/// The next `count` lines, which stand behind the source line, the second of the file.
fn read_texts<'a>(
    alloc: Global,
    lines: &mut Lines<'a>,
    count: u64,
) -> Result<Vec<&'a str>, ReadError>
    requires { length lines.old < 2 ^ 32 }
    ensures texts { Reads (λ texts. (map (λ text. text.now) texts.items, lines.new)) result (texts_from count 3 lines.old) }
    ensures taken { IfOk result (λ texts. length texts.items + length lines.new ≡ length lines.old) }
    ensures number { IfOk result (λ texts. length texts.items ≡ count) }
{
    let Some(text) = lines.text() else {
        return read_tested(alloc, lines, count);
    };
    let (texts, rest) = cut_texts(alloc, text, count)?;
    *lines = Lines::of_text(rest);
    Ok(texts)
}

/// The first `count` lines of a text, which stand behind the second line of the file, and what is left. Each line has a byte at least, so
/// that the room is for no more than the text can hold. It isn't inlined, which leaves its loop registers enough.
#[inline(never)]
fn cut_texts(alloc: Global, text: &str, count: u64) -> Result<(Vec<&str>, &str), ReadError>
    requires { length (lines_of text.now) < 2 ^ 32 }
    ensures texts { Reads (λ cut. (map (λ text. text.now) cut.0.items, lines_of cut.1.now)) result (texts_from count 3 (lines_of text.now)) }
    ensures taken { IfOk result (λ cut. length cut.0.items + length (lines_of cut.1.now) ≡ length (lines_of text.now)) }
    ensures number { IfOk result (λ cut. length cut.0.items ≡ count) }
{
    let mut texts = Vec::with_capacity(alloc, text.len().min(count as usize))?;
    let mut rest = text;
    for index in 0..count {
        let Some((line, behind)) = first_of_text(rest) else {
            return Err(LineError::Fault(FileError::MissingTerminal).at(index + 3));
        };
        texts.push(line)?;
        rest = behind;
    }
    Ok((texts, rest))
}

/// The same as `read_texts`, where each line is tested.
fn read_tested<'a>(
    alloc: Global,
    lines: &mut Lines<'a>,
    count: u64,
) -> Result<Vec<&'a str>, ReadError>
    requires { length lines.old < 2 ^ 32 }
    ensures texts { Reads (λ texts. (map (λ text. text.now) texts.items, lines.new)) result (texts_from count 3 lines.old) }
    ensures taken { IfOk result (λ texts. length texts.items + length lines.new ≡ length lines.old) }
    ensures number { IfOk result (λ texts. length texts.items ≡ count) }
{
    let mut texts = Vec::new(alloc);
    for before in 0..count {
        texts.push(first_text(lines, before + 3)?)?;
    }
    Ok(texts)
}

/// The next line, as a text; it has the number.
#[tactic(auto, unfolding(pipeline_language::specs::FileReading::first_text))]
fn first_text<'a>(lines: &mut Lines<'a>, number: u64) -> Result<&'a str, ReadError>
    ensures text { Reads (λ text. text.now) result (first_text number lines.old) }
    ensures rest { OnOk result (lines.new ≡ drop 1 lines.old) }
    ensures taken { OnOk result (length lines.old ≡ length lines.new + 1) }
{
    match lines.next() {
        Some(line) => line.text().map_err(|e| LineError::Fault(e).at(number)),
        None => Err(LineError::Fault(FileError::MissingTerminal).at(number)),
    }
}

/// The lines of a body over texts, of which the first has the number, and nothing after them.
fn read_text_body<'a>(
    alloc: Global,
    version: Version,
    lines: &mut Lines<'a>,
    number: u64,
) -> Result<TextBody<'a>, ReadError>
    requires { number + length lines.old < 2 ^ 63 }
    ensures { Reads text_body result (body_from (comes version TextKind 0) number lines.old) }
{
    let mut stages = Vec::new(alloc);
    'lines: loop {
        let before = stages.len();
        let at = number + before as u64;
        match read_text_first(version, lines, before, at) {
            Ok(TextLine::Stage(stage)) => stages.push(stage)?,
            Ok(TextLine::Lengths) => {
                let body = read_number_body(alloc, version, lines, before + 1, at + 1)?;
                let end = TextEnd::Lengths(body);
                return Ok(TextBody { stages, end });
            }
            Ok(TextLine::Terminal(terminal)) => {
                let end = TextEnd::Terminal(terminal);
                return Ok(TextBody { stages, end });
            }
            Err(e) => return Err(e),
        }
    }
}

/// The same over numbers, with so many stages before the first line.
fn read_number_body(
    alloc: Global,
    version: Version,
    lines: &mut Lines<'_>,
    before: usize,
    number: u64,
) -> Result<NumberBody, ReadError>
    requires stages { before + length lines.old < 2 ^ 63 }
    requires lines { number + length lines.old < 2 ^ 63 }
    ensures { Reads number_body result (body_from (comes version NumberKind before) number lines.old) }
{
    let mut stages = Vec::new(alloc);
    'lines: loop {
        let read = stages.len();
        match read_number_first(version, lines, before + read, number + read as u64)? {
            NumberLine::Stage(stage) => stages.push(stage)?,
            NumberLine::Terminal(terminal) => return Ok(NumberBody { stages, terminal }),
        }
    }
}

/// The next line, over texts, with so many stages before it. Nothing follows where it is the terminal.
#[tactic(auto, unfolding(pipeline_language::specs::FileReading::first_of))]
fn read_text_first<'a>(
    version: Version,
    lines: &mut Lines<'a>,
    before: usize,
    number: u64,
) -> Result<TextLine<'a>, ReadError>
    requires { number < 2 ^ 64 - 1 }
    ensures line { Reads text_line_content result (first_of (comes version TextKind before) number lines.old) }
    ensures rest { OnOk result (lines.new ≡ drop 1 lines.old) }
    ensures taken { OnOk result (length lines.old ≡ length lines.new + 1) }
{
    let Some(line) = lines.next() else {
        return Err(LineError::Fault(FileError::MissingTerminal).at(number));
    };
    match read_text_line(version, line, before) {
        Ok(TextLine::Terminal(terminal)) => {
            no_more(lines, number + 1)?;
            Ok(TextLine::Terminal(terminal))
        }
        Ok(line) => Ok(line),
        Err(e) => Err(LineError::Fault(e).at(number)),
    }
}

/// The same over numbers.
#[tactic(auto, unfolding(pipeline_language::specs::FileReading::first_of))]
fn read_number_first(
    version: Version,
    lines: &mut Lines<'_>,
    before: usize,
    number: u64,
) -> Result<NumberLine, ReadError>
    requires { number < 2 ^ 64 - 1 }
    ensures line { Reads number_line_content result (first_of (comes version NumberKind before) number lines.old) }
    ensures rest { OnOk result (lines.new ≡ drop 1 lines.old) }
    ensures taken { OnOk result (length lines.old ≡ length lines.new + 1) }
{
    let Some(line) = lines.next() else {
        return Err(LineError::Fault(FileError::MissingTerminal).at(number));
    };
    match read_number_line(version, line, before) {
        Ok(NumberLine::Terminal(terminal)) => {
            no_more(lines, number + 1)?;
            Ok(NumberLine::Terminal(terminal))
        }
        Ok(line) => Ok(line),
        Err(e) => Err(LineError::Fault(e).at(number)),
    }
}

/// No line follows the terminal line; the first that does would have the number.
#[tactic(auto, unfolding(pipeline_language::specs::FileReading::no_more, pipeline_language::specs::FileReading::after_end))]
fn no_more(lines: &mut Lines<'_>, number: u64) -> Result<(), ReadError>
    ensures told { Reads (λ x. x) result (no_more number lines.old) }
    ensures rest { OnOk result (lines.new ≡ lines.old) }
{
    let Some(line) = lines.next() else {
        return Ok(());
    };
    let fault = match line.text() {
        Ok(_) => FileError::AfterTerminal,
        Err(e) => e,
    };
    Err(LineError::Fault(fault).at(number))
}
