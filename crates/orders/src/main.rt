//! The ten customers who spent most by orders above ten euros: of a CSV text or of a table, as JSON.
#![tactic(auto)]

mod order;
mod spending;
mod table;

use csv::Reader;
use indexmap::IndexMap;
use mohairjade::*;
use order::no_text;
use program_frame::{
    Answer, Failure, Host, Task, ValueOption, Watch, Words, ended, given_words, parse,
};
use serde::Serialize;
use spending::{Sums, add, add_all};
use std::io::IsTerminal;
use std::process::ExitCode;
use std::rt::Files;
use std::thread::Threads;
use std::time::Clock;
use table::orders_of_table;

const WORDS: Words = Words {
    name: "orders",
    about: "The ten customers who spent most by orders above ten euros, as JSON",
    file: "CSV with the header customer,cents, or with --table a SQLite database; standard input where none is named",
    options: &[ValueOption {
        name: "table",
        value_name: "NAME",
        help: "The table of the database that has the columns customer and cents",
    }],
};

#[derive(Serialize, Drop)]
struct Spent<'a> {
    customer: &'a str,
    cents: Option<i64>,
}

fn main(rt: HostRuntime) -> ExitCode {
    ended(&rt, WORDS.name, command(&rt, rt.stderr().is_terminal()))
}

/// The answer to the words of the command line.
fn command<R: Host + Files + Input + Threads + Clock + Sync>(
    rt: &R,
    is_terminal: bool,
) -> Result<Answer, Failure> {
    let given = given_words(rt)?;
    let words = parse(rt.alloc(), &WORDS, given.as_slice())?;
    let watch = Watch::new(rt, is_terminal, &words)?;
    let answer = answer(&Task::new(rt, &watch, &words)?);
    watch.end(answer)
}

fn answer<R: Host + Files + Input + Threads + Clock + Sync>(
    task: &Task<'_, '_, R>,
) -> Result<Answer, Failure> {
    let alloc = task.engine.alloc;
    let mut sums = IndexMap::with_hasher(alloc, task.hashes()?);
    match task.words.get_str("table") {
        Some(table) => add(&task.engine, &orders_of_table(task, table)?, &mut sums)?,
        None => {
            let reader = Reader::from_reader(alloc, task.input()?);
            add_all(&task.engine, reader, &mut sums).map_err(|error| no_text(task, error))?;
        }
    }
    answer_of(task, &sums)
}

/// The customers who spent most.
fn answer_of<R: Host + Files + Input + Threads + Clock + Sync>(
    task: &Task<'_, '_, R>,
    sums: &Sums,
) -> Result<Answer, Failure> {
    let alloc = task.engine.alloc;
    if let Some((customer, _)) = sums.iter().find(|(_, sum)| sum.is_none()) {
        let what = format!(in alloc; "the cents of {customer:?} come to 2^63 or more")?;
        return Err(task.bad_data(&what));
    }
    let most = FirstSorted::new(alloc, Descending(OnSecond(Itself)), 10);
    let mut spent = Vec::new(alloc);
    for (customer, &cents) in of(EntriesSplit::new(sums)).collect_on(&task.engine, &most)? {
        spent.push(Spent { customer, cents })?;
    }
    let mut text = serde_json::to_string(alloc, &spent).map_err(|_| NoMemory)?;
    text.push_str("\n")?;
    Ok(Answer::of(text))
}
