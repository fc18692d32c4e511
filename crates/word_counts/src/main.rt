//! How often each word of a text comes, where the text is of any size, and on many machines: each counts a part.
//!
//! ```text
//! word_counts plan FILE --parts N               N lines: FROM TO
//! word_counts part FILE --from FROM --to TO     the line of a part
//! word_counts combine                           fewer lines, of those on standard input
//! word_counts finish                            the words with their counts, of the lines on standard input
//! ```
#![tactic(auto)]

mod command_line;
mod counts;

use clap::ArgMatches;
use command_line::parse;
use counts::{PartError, combined, counts, finished, part_line};
use file_parts::FileBytes;
use mohairjade::{Engine, LinesError};
use placed_containers::{PartsError, Places};
use program_frame::{Answer, Failure, Host, bad_data, ended, failed, given_words, run_of};
use std::alloc::{AllocError, Global};
use std::fmt::Write;
use std::fs;
use std::hash::RandomState;
use std::io::Read;
use std::process::ExitCode;
use std::rt::Files;
use std::sync::Wait;
use std::thread::Threads;
use std::time::Clock;

fn main(rt: HostRuntime) -> ExitCode {
    ended(&rt, "word_counts", command(&rt))
}

/// The answer to the words of the command line.
fn command<R: Host + Files + Input + Threads + Clock + Wait + Sync>(
    rt: &R,
) -> Result<Answer, Failure>
where
    R::File: Send,
{
    let given = given_words(rt)?;
    let words = parse(rt.alloc(), given.as_slice())?;
    let text = match words.subcommand() {
        Some(("plan", words)) => plan(rt, words)?,
        Some(("part", words)) => part(rt, words)?,
        Some(("combine", _)) => joined(rt)?,
        _ => answer(rt)?,
    };
    Ok(Answer::of(text))
}

/// The name of the file, and its size.
fn file_of<'a, R: Host + Files>(rt: &R, words: &ArgMatches<'a>) -> Result<(&'a str, u64), Failure> {
    let name = words.get_str("FILE").unwrap_or("");
    match fs::metadata(rt, name) {
        Ok(data) => Ok((name, data.len())),
        Err(error) => Err(failed(rt.alloc(), name, error)),
    }
}

/// The places of so many parts.
fn plan<R: Host + Files>(rt: &R, words: &ArgMatches<'_>) -> Result<String, Failure> {
    let (_, of) = file_of(rt, words)?;
    let parts = u64::from(words.get_one::<u32>("parts").unwrap_or(1).max(1));
    let mut text = String::new(rt.alloc());
    let mut from = 0u64;
    for part in 0..parts {
        let one_more = u64::from(part < of % parts);
        let to = from.saturating_add(of / parts).saturating_add(one_more);
        writeln!(text, "{from} {to}")?;
        from = to;
    }
    Ok(text)
}

/// The line of a part.
fn part<R: Host + Files + Threads + Clock + Wait + Sync>(
    rt: &R,
    words: &ArgMatches<'_>,
) -> Result<String, Failure>
where
    R::File: Send,
{
    let alloc = rt.alloc();
    let (name, of) = file_of(rt, words)?;
    let from = words.get_one("from").unwrap_or(0);
    let to = words.get_one("to").unwrap_or(of);
    let places = Places { from, to, of };
    if !places.are_in_order() {
        return Err(parts_failure(alloc, name, PartsError::Misplaced(places)));
    }
    let run = run_of(words);
    let engine = Engine::new(rt, alloc, &run)?;
    let counts = counts(alloc, hashes(rt)?);
    match part_line(&engine, &FileBytes { files: rt, name }, places, &counts) {
        Ok(mut line) => {
            line.push('\n')?;
            Ok(line)
        }
        Err(PartError::Lines(error)) => Err(lines_failure(alloc, name, error)),
        Err(PartError::Parts(error)) => Err(parts_failure(alloc, name, error)),
    }
}

/// Fewer lines than those on standard input.
fn joined<R: Host + Input>(rt: &R) -> Result<String, Failure> {
    let alloc = rt.alloc();
    let given = read_all(rt)?;
    let lines: Vec<&str> = given.as_str().lines().collect(alloc)?;
    let counts = counts(alloc, hashes(rt)?);
    match combined(alloc, &counts, lines.as_slice()) {
        Ok(lines) => {
            let mut text = String::new(alloc);
            for line in lines {
                writeln!(text, "{line}")?;
            }
            Ok(text)
        }
        Err(error) => Err(parts_failure(alloc, "standard input", error)),
    }
}

/// The words with their counts.
fn answer<R: Host + Input>(rt: &R) -> Result<String, Failure> {
    let alloc = rt.alloc();
    let given = read_all(rt)?;
    let lines: Vec<&str> = given.as_str().lines().collect(alloc)?;
    let counts = counts(alloc, hashes(rt)?);
    match finished(alloc, &counts, lines.as_slice()) {
        Ok(counts) => {
            let mut text = String::new(alloc);
            for (word, count) in &counts {
                writeln!(text, "{word} {count}")?;
            }
            Ok(text)
        }
        Err(error) => Err(parts_failure(alloc, "standard input", error)),
    }
}

/// The text on standard input.
fn read_all<R: Host + Input>(rt: &R) -> Result<String, Failure> {
    let mut text = String::new(rt.alloc());
    match rt.reader().read_to_string(&mut text) {
        Ok(_) => Ok(text),
        Err(error) => Err(failed(rt.alloc(), "standard input", error)),
    }
}

/// What hashes are drawn from, which nobody who makes the data foresees.
fn hashes<R: Host>(rt: &R) -> Result<RandomState, Failure> {
    RandomState::new(rt).map_err(|error| failed(rt.alloc(), "random numbers", error))
}

/// The failure of a part's lines.
fn lines_failure(alloc: Global, name: &str, error: LinesError) -> Failure {
    match error {
        LinesError::NoMemory => Failure::NoMemory(AllocError),
        LinesError::Read(error) => failed(alloc, name, error),
        error => bad_data(alloc, name, &error),
    }
}

/// The failure of parts.
fn parts_failure(alloc: Global, name: &str, error: PartsError) -> Failure {
    match error {
        PartsError::NoMemory => Failure::NoMemory(AllocError),
        PartsError::NoParts | PartsError::Missing(_) => match format!(in alloc; "{error}") {
            Ok(text) => Failure::Incomplete(text),
            Err(refused) => Failure::NoMemory(refused),
        },
        error => bad_data(alloc, name, &error),
    }
}
