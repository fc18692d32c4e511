//! How a program ends.
use crate::failure::SUCCESS;
use crate::{Failure, Host};
use clap::error::ErrorKind;
use std::process::ExitCode;

/// What a program answers: a text, and what is wrong beside it.
#[derive(Drop)]
pub struct Answer {
    pub text: String,
    pub fault: Option<Failure>,
}

impl Answer {
    /// A text, where nothing is wrong.
    pub fn of(text: String) -> Answer {
        Answer { text, fault: None }
    }
}

/// Ends a program: writes its text, or the help that is asked for, to standard output, and tells on standard error what is wrong.
pub fn ended<R: Host>(rt: &R, name: &str, answer: Result<Answer, Failure>) -> ExitCode {
    match answer
        .and_then(|answer| write_answer(rt, answer))
        .or_else(|failure| help(rt, failure))
    {
        Ok(()) => ExitCode::from(SUCCESS),
        Err(failure) => {
            let _told = match &failure {
                Failure::Words(why) => eprint!(rt; "{why}"),
                _ => eprintln!(rt; "{name}: {failure}"),
            };
            ExitCode::from(failure.status())
        }
    }
}

/// Writes an answer's text, before what is wrong beside it is told.
fn write_answer<R: Host>(rt: &R, answer: Answer) -> Result<(), Failure> {
    let Answer { text, fault } = answer;
    write(rt, &text)?;
    match fault {
        Some(fault) => Err(fault),
        None => Ok(()),
    }
}

/// Writes a whole text to standard output.
fn write<R: Host>(rt: &R, text: &str) -> Result<(), Failure> {
    print!(rt; "{text}").map_err(Failure::Unwritten)
}

/// Writes the help, where it is asked for.
fn help<R: Host>(rt: &R, failure: Failure) -> Result<(), Failure> {
    match &failure {
        Failure::Words(why) if why.kind() == ErrorKind::DisplayHelp => {
            write(rt, &format!(in rt.alloc(); "{why}")?)
        }
        _ => Err(failure),
    }
}
