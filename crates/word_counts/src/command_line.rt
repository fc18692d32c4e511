//! The command line.

use clap::{Arg, ArgAction, ArgMatches, Command, value_parser};
use program_frame::{Failure, workers};
use std::alloc::Global;

const ABOUT: &str = "Counts the words of a text in parts, on one machine or on many";

/// The end of the help.
const STATUSES: &str = "\
Status:

  0  the answer or this help was written
  1  a fault of the data
  2  a fault of the command line
  3  out of memory, or a file that can't be read or written
  4  parts are missing";

const MOST_PARTS: i64 = 1_000_000;

/// What the words after the program's name say.
pub fn parse<'a>(alloc: Global, given: &'a [String]) -> Result<ArgMatches<'a>, Failure> {
    let program = Command::new(alloc, "word_counts")
        .about(ABOUT)
        .after_help(STATUSES)
        .no_binary_name(true)
        .subcommand_required(true)
        .subcommand(plan(alloc)?)?
        .subcommand(part(alloc)?)?
        .subcommand(Command::new(alloc, "combine").about(
            "Makes fewer lines of those on standard input, in any order",
        ))?
        .subcommand(Command::new(alloc, "finish").about(
            "Writes the answer, from the lines on standard input, in any order",
        ))?;
    Ok(program.try_get_matches_from(given)?)
}

fn plan<'a>(alloc: Global) -> Result<Command<'a>, Failure> {
    Ok(
        Command::new(alloc, "plan")
            .about("Writes the places of parts of about one size, a line each")
            .arg(file(alloc))?
            .arg(
                Arg::new(alloc, "parts")
                    .long("parts")
                    .value_name("N")
                    .action(ArgAction::Set)
                    .value_parser(value_parser!(u32).range(1..=MOST_PARTS))
                    .help("How many, 1 to 1000000 [default: 1]"),
            )?,
    )
}

fn part<'a>(alloc: Global) -> Result<Command<'a>, Failure> {
    Ok(
        Command::new(alloc, "part")
            .about("Counts the lines that begin between two places, and writes a line for `finish`")
            .arg(file(alloc))?
            .arg(place(
                alloc,
                "from",
                "The first place, a byte's number [default: 0]",
            ))?
            .arg(place(
                alloc,
                "to",
                "The place behind the last [default: the file's end]",
            ))?
            .arg(workers(alloc))?,
    )
}

fn file<'a>(alloc: Global) -> Arg<'a> {
    Arg::new(alloc, "FILE")
        .action(ArgAction::Set)
        .required(true)
        .help("The text, words between spaces")
}

fn place<'a>(alloc: Global, name: &'static str, help: &'static str) -> Arg<'a> {
    Arg::new(alloc, name)
        .long(name)
        .value_name("PLACE")
        .action(ArgAction::Set)
        .value_parser(value_parser!(u64))
        .help(help)
}
