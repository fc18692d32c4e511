//! The counts: of a part as a line, and of all parts by their lines.

use file_parts::{PlacedBytes, Unfinished, lines_between};
use indexmap::IndexMap;
use mohairjade::{
    Above, Cloned, Composed, Counting, Engine, Gate, GroupingBy, Length, LineStream, LinesError,
    Pieces, lines_of,
};
use placed_containers::{Job, PartsError, Places};
use std::alloc::Global;
use std::hash::RandomState;
use std::sync::Wait;
use std::thread::Threads;
use std::time::Clock;
use thiserror::Error;

/// The name of the job.
const NAME: &str = "word_counts";

/// How often each word comes.
pub type Counts = GroupingBy<Cloned<String>, Counting<String>, RandomState>;

pub fn counts(alloc: Global, hashes: RandomState) -> Counts {
    GroupingBy::with_hasher(alloc, Cloned::new(), Counting::new(), hashes)
}

/// Why a part has no line.
#[derive(Debug, Drop, Error)]
pub enum PartError {
    #[error("{0}")]
    Lines(#[from] LinesError),
    #[error("{0}")]
    Parts(#[from] PartsError),
}

/// The line of the part of a text between two places.
pub fn part_line<P: PlacedBytes>(
    engine: &Engine<'_, impl Threads + Clock + Wait + Sync, impl Gate + Sync>,
    text: &P,
    places: Places,
    counts: &Counts,
) -> Result<String, PartError>
where
    P::Reader: Send,
{
    let alloc = engine.alloc;
    let part = lines_between(alloc, text, places).map_err(LinesError::Read)?;
    let pieces = lines_of(part).flat_map_lines(Pieces::new(alloc, ' '));
    let words = pieces.filter(Composed(Length, Above(0)));
    let container = words.collect_on(engine, &Unfinished { collector: counts })?;
    let job = Job {
        name: NAME,
        collector: counts,
    };
    Ok(job.part_line(alloc, places, container)?)
}

/// The lines of parts, neighbours joined.
pub fn combined(alloc: Global, counts: &Counts, lines: &[&str]) -> Result<Vec<String>, PartsError> {
    let job = Job {
        name: NAME,
        collector: counts,
    };
    job.combine_parts(alloc, lines)
}

/// How often each word of the whole text comes, in the order in which they come first.
pub fn finished(
    alloc: Global,
    counts: &Counts,
    lines: &[&str],
) -> Result<IndexMap<String, i64, RandomState>, PartsError> {
    let job = Job {
        name: NAME,
        collector: counts,
    };
    job.finish_parts(alloc, lines)
}
