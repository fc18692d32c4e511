//! Lines of a file, each read at its place.

ghost use Rattle.std.specs.Prelude.{◌≡◌};
ghost use Rattle.file_words.specs.Pieces.{piece_bytes};
ghost use Rattle.pipeline_language.specs.FileReading.{LineReads, ReadsNumberLine, ReadsSource, ReadsTextLine, version_of};
ghost use Rattle.pipeline_language.specs.Content.{Takes, named_content, source_content};
ghost use Rattle.pipeline_language.specs.Syntax.{is_short, origin_words};

use crate::grammar::Line;
use crate::kinds::{MOST_STAGES, NumberLine, TextLine, number_line, text_line};
use crate::pipeline::NumberSource;
use crate::ranges::{ClosedRange, OpenRange};
use crate::syntax::read_line;
use crate::version::Version;
use file_words::{FileError, LineError, Piece, Words};
use std::alloc::Global;

/// Where items come from: numbers of their own, or so many lines.
#[derive(Drop)]
pub enum Source {
    Numbers(NumberSource),
    Lines(u64),
}

/// The first line of a file.
#[tactic(auto, unfolding(crate::specs::FileReading::version_of))]
pub fn read_version(line: Piece<'_>) -> Result<Version, FileError>
    ensures { result ≡ version_of (piece_bytes line.entry) }
{
    match line.text()? {
        "pipeline 1" => Ok(Version::One),
        "pipeline 2" => Ok(Version::Two),
        _ => Err(FileError::BadVersion),
    }
}

/// Where items come from, as a line says: a range may be too long.
#[derive(Drop)]
enum NamedSource {
    Range(i64, i64),
    Closed(i64, i64),
    Numbers(Vec<i64>),
    Lines(u64),
}

/// A source line, of a range that isn't too long.
#[tactic(auto, unfolding(crate::specs::Reading::line_of, crate::specs::Reading::whole))]
pub fn read_source(alloc: Global, line: Piece<'_>) -> Result<Source, LineError>
    ensures { ReadsSource (piece_bytes line.entry) result }
{
    let mut words = Words::new(line.text()?);
    let source = read_source_words(alloc, &mut words)?;
    words.end()?;
    match within_limit(source) {
        Some(source) => Ok(source),
        None => Err(LineError::Fault(FileError::RangeTooLong)),
    }
}

/// The source, where its range isn't too long.
fn within_limit(source: NamedSource) -> Option<Source>
    ensures { Takes source_content is_short (named_content source) result }
{
    Some(match source {
        NamedSource::Range(start, end) => {
            Source::Numbers(NumberSource::Range(OpenRange::of(start, end)?))
        }
        NamedSource::Closed(start, last) => {
            Source::Numbers(NumberSource::Closed(ClosedRange::of(start, last)?))
        }
        NamedSource::Numbers(numbers) => Source::Numbers(NumberSource::Numbers(numbers)),
        NamedSource::Lines(count) => Source::Lines(count),
    })
}

/// The words of a source.
#[tactic(auto, unfolding(crate::specs::Syntax::origin_words))]
fn read_source_words(alloc: Global, words: &mut Words<'_>) -> Result<NamedSource, LineError>
    ensures { LineReads (λ source. (named_content source, words.new)) result (origin_words words.old) }
{
    match words.any()? {
        "range" => Ok(NamedSource::Range(
            words.number(i64::MIN, i64::MAX)?,
            words.number(i64::MIN, i64::MAX)?,
        )),
        "closed" => Ok(NamedSource::Closed(
            words.number(i64::MIN, i64::MAX)?,
            words.number(i64::MIN, i64::MAX)?,
        )),
        "numbers" => Ok(NamedSource::Numbers(words.numbers(alloc)?)),
        "lines" => Ok(NamedSource::Lines(words.natural(1_000_000)?)),
        _ => Err(LineError::Fault(FileError::UnknownWord)),
    }
}

/// A line over texts, with so many stages before it.
#[tactic(auto, unfolding(crate::specs::Reading::line_of))]
pub fn read_text_line<'a>(
    version: Version,
    line: Piece<'a>,
    before: usize,
) -> Result<TextLine<'a>, FileError>
    ensures { ReadsTextLine version before (piece_bytes line.entry) result }
{
    match text_line(read_line(version, line.text()?)?) {
        None => Err(FileError::WrongKind),
        Some(TextLine::Stage(_) | TextLine::Lengths) if before >= MOST_STAGES => {
            Err(FileError::TooManyStages)
        }
        Some(line) => Ok(line),
    }
}

/// A line over numbers, with so many stages before it.
#[tactic(auto, unfolding(crate::specs::Reading::line_of))]
pub fn read_number_line(
    version: Version,
    line: Piece<'_>,
    before: usize,
) -> Result<NumberLine, FileError>
    ensures { ReadsNumberLine version before (piece_bytes line.entry) result }
{
    match number_line(read_line(version, line.text()?)?) {
        None => Err(FileError::WrongKind),
        Some(Line::Stage(_)) if before >= MOST_STAGES => Err(FileError::TooManyStages),
        Some(line) => Ok(line),
    }
}
