//! The command line.
use crate::{Failure, Host};
use clap::{Arg, ArgAction, ArgMatches, Command, value_parser};
use mohairjade::{NoGate, Run};
use std::alloc::Global;
use std::convert::AsStr;
use std::env;

const DEFAULT_WORKERS: u32 = 4;

const MOST_WORKERS: u32 = 64;

/// The end of the help.
const STATUSES: &str = "\
Status:

  0  the answer or this help was written
  1  a fault of the data
  2  a fault of the command line
  3  out of memory, or a file that can't be read or written";

/// What a program's command line may say beside its workers, its progress, its timeline and its help.
#[derive(Clone, Copy)]
pub struct Words {
    /// The program's name.
    pub name: &'static str,
    /// What it does.
    pub about: &'static str,
    /// What its file is.
    pub file: &'static str,
    /// Options that take a value.
    pub options: &'static [ValueOption],
}

/// An option that takes a value.
#[derive(Clone, Copy)]
pub struct ValueOption {
    pub name: &'static str,
    pub value_name: &'static str,
    pub help: &'static str,
}

/// The words after the program's name.
pub fn given_words<R: Host>(rt: &R) -> Result<Vec<String>, Failure> {
    let words = env::args(rt).map_err(Failure::NoWords)?;
    Ok(words.skip(1).collect(rt.alloc())?)
}

/// The run that the words ask for.
pub fn run_of(words: &ArgMatches<'_>) -> Run<'static, NoGate> {
    let workers = words.get_one("workers").unwrap_or(DEFAULT_WORKERS);
    Run::new(workers.clamp(1, MOST_WORKERS))
}

/// What the words of a command line say.
pub fn parse<'a, S: AsStr>(
    alloc: Global,
    words: &Words,
    given: &'a [S],
) -> Result<ArgMatches<'a>, Failure> {
    let mut command = Command::new(alloc, words.name)
        .about(words.about)
        .after_help(STATUSES)
        .no_binary_name(true)
        .arg(
            Arg::new(alloc, "FILE")
                .action(ArgAction::Set)
                .help(words.file),
        )?
        .arg(workers(alloc))?
        .arg(progress(alloc))?
        .arg(timeline(alloc))?;
    for option in words.options {
        command = command.arg(valued(alloc, option))?;
    }
    Ok(command.try_get_matches_from(given)?)
}

/// The option of a run's workers.
pub fn workers<'a>(alloc: Global) -> Arg<'a> {
    Arg::new(alloc, "workers")
        .long("workers")
        .value_name("N")
        .action(ArgAction::Set)
        .value_parser(value_parser!(u32).range(1..=MOST_WORKERS as i64))
        .help("The most workers, 1 to 64 [default: 4]")
}

fn progress<'a>(alloc: Global) -> Arg<'a> {
    Arg::new(alloc, "progress")
        .long("progress")
        .action(ArgAction::SetTrue)
        .help("Tells on standard error how far it has come")
}

fn timeline<'a>(alloc: Global) -> Arg<'a> {
    Arg::new(alloc, "timeline")
        .long("timeline")
        .value_name("SVG")
        .action(ArgAction::Set)
        .help("Draws which worker ran which leaf, and when, to this file")
}

fn valued<'a>(alloc: Global, option: &ValueOption) -> Arg<'a> {
    Arg::new(alloc, option.name)
        .long(option.name)
        .value_name(option.value_name)
        .action(ArgAction::Set)
        .help(option.help)
}
