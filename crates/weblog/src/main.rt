//! Answers to the log of a web server of any size, in one pass: of a file or of standard input, a line a request.
#![tactic(auto)]

mod answers;
mod line;

use answers::answer;
use program_frame::{Answer, Failure, Host, Task, Watch, Words, ended, given_words, parse};
use std::io::IsTerminal;
use std::process::ExitCode;
use std::rt::Files;
use std::sync::Wait;
use std::thread::Threads;
use std::time::Clock;

const WORDS: Words = Words {
    name: "weblog",
    about: "Answers questions to the log of a web server: requests by status, the paths asked for most, the first failure, clients, bytes by hour",
    file: "The log, a line a request: CLIENT - - [DATE:HOUR:MINUTE:SECOND ZONE] \"METHOD PATH PROTOCOL\" STATUS BYTES; standard input where none is named",
    options: &[],
};

fn main(rt: HostRuntime) -> ExitCode {
    ended(&rt, WORDS.name, command(&rt, rt.stderr().is_terminal()))
}

/// The answers to the log that the command line names.
fn command<R: Host + Files + Input + Threads + Clock + Wait + Sync>(
    rt: &R,
    is_terminal: bool,
) -> Result<Answer, Failure>
where
    R::File: Send,
    R::Reader: Send,
{
    let given = given_words(rt)?;
    let words = parse(rt.alloc(), &WORDS, given.as_slice())?;
    let watch = Watch::new(rt, is_terminal, &words)?;
    let answer = text(&Task::new(rt, &watch, &words)?);
    watch.end(answer)
}

/// The answers, and the lines that are bad as what is wrong with the data.
fn text<R: Host + Files + Input + Threads + Clock + Wait + Sync>(
    task: &Task<'_, '_, R>,
) -> Result<Answer, Failure>
where
    R::File: Send,
    R::Reader: Send,
{
    let answers = match answer(&task.engine, task.input()?, task.hashes()?) {
        Ok(answers) => answers,
        Err(error) => return Err(task.bad_lines(error)),
    };
    let text = format!(in task.engine.alloc; "{answers}")?;
    let is_whole = answers.faults.number == 0;
    let fault = (!is_whole).then(|| task.bad_data(&answers.faults));
    Ok(Answer { text, fault })
}
