//! The answers to a log, in one pass.
use crate::line::{Figure, Name, Parsed, Requests};
use indexmap::{IndexMap, IndexSet};
use mohairjade::*;
use program_frame::Both;
use std::fmt::{self, Display, Formatter, Write};
use std::hash::RandomState;
use std::io::Read;
use std::sync::Wait;
use std::thread::Threads;
use std::time::Clock;

/// How many bad lines are told of.
const MOST_TOLD: usize = 10;

/// Lines by status, which is 0 where they are bad, the first bad ones, and their places from 0 on.
type Lines = (IndexMap<i64, i64>, (Vec<Parsed>, Vec<u64>));

/// Requests by path, and clients; the bytes of hours, and the first failure.
type Asked = (
    (
        IndexMap<String, i64, RandomState>,
        IndexSet<String, RandomState>,
    ),
    (IndexMap<i64, i64>, Option<Parsed>),
);

/// How many lines are bad, the first of them, and their places from 0 on.
#[derive(Drop)]
pub struct Faults {
    pub number: i64,
    first: Vec<Parsed>,
    places: Vec<u64>,
}

impl Display for Faults {
    fn fmt<W: Write>(&self, f: &mut Formatter<W>) -> fmt::Result {
        write!(f, "bad lines: {}", self.number)?;
        for (line, place) in self.first.iter().zip(&self.places) {
            if let Err(fault) = &line.0 {
                write!(f, "\nline {}: {fault}", place.saturating_add(1))?;
            }
        }
        Ok(())
    }
}

/// What is answered.
#[derive(Drop)]
pub struct Answers {
    statuses: IndexMap<i64, i64>,
    asked: Asked,
    most: Vec<(String, i64)>,
    pub faults: Faults,
}

impl Display for Answers {
    fn fmt<W: Write>(&self, f: &mut Formatter<W>) -> fmt::Result {
        let ((_paths, clients), (hours, failure)) = &self.asked;
        writeln!(f, "requests by status: {:?}", self.statuses)?;
        for (path, count) in &self.most {
            writeln!(f, "path {path}: {count}")?;
        }
        match failure {
            Some(Parsed(Ok(it))) => writeln!(f, "first failure: {} {}", it.status, it.path)?,
            _ => writeln!(f, "first failure: none")?,
        }
        writeln!(f, "clients: {}", clients.len())?;
        writeln!(f, "bytes by hour: {hours:?}")?;
        writeln!(f, "bad lines: {}", self.faults.number)
    }
}

/// What five collectors make of one pass over the lines of a reader.
fn pass<L: LineStream, A, P, C, H, F>(
    engine: &Engine<'_, impl Threads + Clock + Wait + Sync, impl Gate + Sync>,
    log: L,
    lines: A,
    paths: P,
    clients: C,
    hours: H,
    failure: F,
) -> Result<(A::Out, ((P::Out, C::Out), (H::Out, F::Out))), LinesError>
where
    A: Collector<Item = L::Item> + Sync + Drop,
    P: Collector<Item = L::Item> + Sync + Drop,
    C: Collector<Item = L::Item> + Sync + Drop,
    H: Collector<Item = L::Item> + Sync + Drop,
    F: Collector<Item = L::Item> + Sync + Drop,
    A::Acc: Send,
    P::Acc: Send,
    C::Acc: Send,
    H::Acc: Send,
    F::Acc: Send,
    A::Out: Send,
    P::Out: Send,
    C::Out: Send,
    H::Out: Send,
    F::Out: Send,
    requires log { L.ready log }
    requires lines { A.ready lines }
    requires paths { P.ready paths }
    requires clients { C.ready clients }
    requires hours { H.ready hours }
    requires failure { F.ready failure }
{
    let asked = Teeing::new(paths, clients, Both);
    let asked = Teeing::new(asked, Teeing::new(hours, failure, Both), Both);
    log.collect_on(engine, &Teeing::new(lines, asked, Both))
}

/// What one pass over the log finds of its requests, and what a collector makes of its lines. Strangers choose what is hashed, so the hasher is a random
/// one.
fn find_asked<L: LineStream<Item = Parsed>, A: Collector<Item = Parsed> + Sync + Drop>(
    engine: &Engine<'_, impl Threads + Clock + Wait + Sync, impl Gate + Sync>,
    log: L,
    lines: A,
    hashes: RandomState,
) -> Result<(A::Out, Asked), LinesError>
where
    A::Acc: Send,
    A::Out: Send,
    requires log { L.ready log }
    requires lines { A.ready lines }
{
    let alloc = engine.alloc;
    let is_request = Composed(Figure::Status, Above(0));
    let count = Counting::<Parsed>::new();
    let paths = GroupingBy::with_hasher(alloc, Name::Path(alloc), count, hashes);
    let paths = FilteringTo::new(is_request, paths);
    let clients = ToSet::<String, _>::with_hasher(alloc, hashes);
    let clients = FilteringTo::new(is_request, MappingTo::new(Name::Client(alloc), clients));
    let hours = GroupingBy::new(alloc, Figure::Hour, SummingLong::new(Figure::Bytes));
    let hours = FilteringTo::new(is_request, hours);
    let is_failure = Composed(Figure::Status, Above(499));
    let failure = FilteringTo::new(is_failure, First::<Parsed>::new());
    pass(engine, log, lines, paths, clients, hours, failure)
}

/// What one pass over the log finds.
fn find(
    engine: &Engine<'_, impl Threads + Clock + Wait + Sync, impl Gate + Sync>,
    reader: impl Read + Send + Drop,
    hashes: RandomState,
) -> Result<(Lines, Asked), LinesError> {
    let alloc = engine.alloc;
    let is_bad = Not(Composed(Figure::Status, Above(0)));
    let first = FirstSorted::<Parsed, _>::new(alloc, Figure::Status, MOST_TOLD);
    let places = FirstPlaces::<Parsed, _>::new(alloc, is_bad, MOST_TOLD);
    let first = Teeing::new(FilteringTo::new(is_bad, first), places, Both);
    let statuses = GroupingBy::new(alloc, Figure::Status, Counting::<Parsed>::new());
    let log = lines_of(reader).map_lines(Requests(alloc));
    find_asked(engine, log, Teeing::new(statuses, first, Both), hashes)
}

/// The answers to the log that a reader gives.
pub fn answer(
    engine: &Engine<'_, impl Threads + Clock + Wait + Sync, impl Gate + Sync>,
    reader: impl Read + Send + Drop,
    hashes: RandomState,
) -> Result<Answers, LinesError> {
    let ((mut statuses, (first, places)), asked) = find(engine, reader, hashes)?;
    let number = statuses.shift_remove(&0).unwrap_or(0);
    let most = most_wanted(engine, &asked.0.0)?;
    Ok(Answers {
        statuses,
        asked,
        most,
        faults: Faults {
            number,
            first,
            places,
        },
    })
}

/// The three paths that were asked for most, and how often.
fn most_wanted(
    engine: &Engine<'_, impl Threads + Clock + Sync, impl Gate + Sync>,
    paths: &IndexMap<String, i64, RandomState>,
) -> Result<Vec<(String, i64)>, NoMemory> {
    let first = FirstSorted::new(engine.alloc, Descending(OnSecond(Itself)), 3);
    let mut most = Vec::new(engine.alloc);
    for (path, count) in of(EntriesSplit::new(paths)).collect_on(engine, &first)? {
        most.push((path.clone()?, *count))?;
    }
    Ok(most)
}
