//! Seven questions to the numbers of a file, or to ten million that are made.
#![tactic(auto)]

ghost use Rattle.std.specs.Prelude.{◌*ℤ◌};
ghost use Rattle.mohairjade.specs.Words.{wrapped_product, wrapped-value};

mod line;

use indexmap::{IndexMap, IndexSet};
use line::NumberOrLine;
use mohairjade::*;
use program_frame::{Answer, Both, Failure, Host, Task, Watch, Words, ended, given_words, parse};
use std::alloc::Global;
use std::hash::RandomState;
use std::io::{IsTerminal, Read};
use std::process::ExitCode;
use std::rt::Files;
use std::sync::Wait;
use std::thread::Threads;
use std::time::Clock;

const WORDS: Words = Words {
    name: "numbers",
    about: "Answers seven questions to the numbers of a file, or to ten million that are made",
    file: "Whole numbers between -2^31 and 2^31, one a line",
    options: &[],
};

#[derive(Clone, Copy)]
struct Square;

impl Mapping<i64> for Square {
    type Out = i64;

    ghost image = { λ _ x. wrapped_product x x };

    ghost images_are_values = { λ _ x _. wrapped-value (x *ℤ x) };

    fn image(&self, x: &i64) -> Result<i64, NoMemory> {
        Ok(x.wrapping_mul(*x))
    }
}

/// What one pass over the numbers finds: the sum of the squares of even ones, how many are great, the first that is greater, and the first that isn't below a
/// bound; those that differ, the greatest, and how many end with each digit.
type Found = (
    (i128, ((i64, Option<i64>), Option<i64>)),
    ((IndexSet<i64, RandomState>, Vec<i64>), IndexMap<i64, i64>),
);

/// How many numbers are made: to a check any number, since it would write out a list of so many.
fn count() -> i64 {
    10_000_000
}

fn main(rt: HostRuntime) -> ExitCode {
    ended(&rt, WORDS.name, command(&rt, rt.stderr().is_terminal()))
}

/// The answer to the words of the command line.
fn command<R: Host + Files + Input + Threads + Clock + Wait + Sync>(
    rt: &R,
    is_terminal: bool,
) -> Result<Answer, Failure>
where
    R::File: Send,
    R::Reader: Send,
{
    let given = given_words(rt)?;
    let words = parse(rt.alloc(), &WORDS, given.as_slice())?;
    let watch = Watch::new(rt, is_terminal, &words)?;
    let answer = answer(&Task::new(rt, &watch, &words)?);
    watch.end(answer)
}

fn answer<R: Host + Files + Input + Threads + Clock + Wait + Sync>(
    task: &Task<'_, '_, R>,
) -> Result<Answer, Failure>
where
    R::File: Send,
    R::Reader: Send,
{
    let reader = match task.file() {
        Some(_) => Some(task.input()?),
        None => None,
    };
    match find(&task.engine, reader, task.hashes()?) {
        Ok(Ok(found)) => Ok(Answer::of(text(task.engine.alloc, &found)?)),
        Ok(Err(line)) => Err(no_number(task, &line)),
        Err(error) => Err(task.bad_lines(error)),
    }
}

/// What one pass over the numbers finds, or a line that is no number.
fn find(
    engine: &Engine<'_, impl Threads + Clock + Wait + Sync, impl Gate + Sync>,
    reader: Option<impl Read + Send + Drop>,
    hashes: RandomState,
) -> Result<Result<Found, String>, LinesError> {
    let alloc = engine.alloc;
    let squares = FilteringTo::new(Even, SummingExact::new(Square));
    let great = FilteringTo::new(Above(900_000), Counting::<i64>::new());
    let first = FilteringTo::new(Above(999_990), First::<i64>::new());
    let beyond = FilteringTo::new(Not(Below(1_000_003)), First::<i64>::new());
    let differ = ToSet::<i64, _>::with_hasher(alloc, hashes);
    let greatest = FirstSorted::new(alloc, Descending(Itself), 3);
    let digits = GroupingBy::new(alloc, Modulo::by(10), Counting::<i64>::new());
    let above = Teeing::new(Teeing::new(great, first, Both), beyond, Both);
    let found = Teeing::new(Teeing::new(differ, greatest, Both), digits, Both);
    let questions = Teeing::new(Teeing::new(squares, above, Both), found, Both);
    collected(engine, reader, questions)
}

/// The text of the seven answers.
fn text(alloc: Global, found: &Found) -> Result<String, NoMemory> {
    let ((squares, ((great, first), beyond)), ((differ, greatest), digits)) = found;
    let first = match first {
        Some(first) => format!(in alloc; "{first}")?,
        None => String::from_str(alloc, "none")?,
    };
    Ok(format!(in alloc;
        "\
sum of the squares of even ones: {squares}
above 900000: {great}
first above 999990: {first}
all below 1000003: {}
that differ: {}
greatest: {greatest:?}
by last digit: {digits:?}
",
        beyond.is_none(),
        differ.len()
    )?)
}

/// The result of a collector on the numbers of a reader, or on those that are made; or a line that is no number.
fn collected<C: Collector<Item = i64> + Sync + Drop>(
    engine: &Engine<'_, impl Threads + Clock + Wait + Sync, impl Gate + Sync>,
    reader: Option<impl Read + Send + Drop>,
    questions: C,
) -> Result<Result<C::Out, String>, LinesError>
where
    C::Acc: Send,
    C::Out: Send,
    requires { C.ready questions }
{
    let Some(reader) = reader else {
        let scattered = Composed(Composed(Times(7_919), Plus(13)), Modulo::by(1_000_003));
        // so few are never refused
        let range = RangeSplit::range(0, count()).map_err(|_refused| NoMemory)?;
        let numbers = of(range).map(scattered);
        return Ok(Ok(numbers.collect_on(engine, &questions)?));
    };
    let lines = lines_of(reader).map_lines(NumberOrLine(engine.alloc));
    lines.collect_decided(engine, &Trying::<_, String>::new(questions))
}

/// The failure of a line.
fn no_number<R: Host + Files + Input + Clock>(task: &Task<'_, '_, R>, line: &str) -> Failure {
    match format!(in task.engine.alloc; "{line:?} is no whole number between -2^31 and 2^31") {
        Ok(what) => task.bad_data(&what),
        Err(refused) => Failure::NoMemory(refused),
    }
}
