//! What a program is asked to do.
use crate::command_line::run_of;
use crate::failure::{Failure, bad_data, failed};
use crate::{Host, Watch, WatchGate};
use clap::ArgMatches;
use either::Either;
use mohairjade::{Engine, LinesError, Metered};
use std::alloc::AllocError;
use std::fmt::Display;
use std::hash::RandomState;
use std::rt::Files;
use std::time::Clock;
use std::{fs, io};

/// A file, or else standard input; a meter is told what is read of it.
pub type Reading<'m, 'a, R> = Metered<'m, 'a, Either<<R as Files>::File, <R as Input>::Reader>, R>;

/// What a program is asked to do: the words of its command line, and the engine that it runs on.
#[derive(Drop)]
pub struct Task<'a, 'w, R> {
    pub engine: Engine<'a, R, WatchGate<'a, R>>,
    pub words: &'a ArgMatches<'w>,
}

impl<'a, 'w, R: Host + Files + Input + Clock> Task<'a, 'w, R> {
    /// What these words ask of a run that is watched so.
    pub fn new(
        rt: &'a R,
        watch: &'a Watch<'a, R>,
        words: &'a ArgMatches<'w>,
    ) -> Result<Task<'a, 'w, R>, Failure> {
        let run = run_of(words).with_gate(&watch.gate);
        Ok(Task {
            engine: Engine::new(rt, rt.alloc(), &run)?,
            words,
        })
    }

    /// The file that is named.
    pub fn file(&self) -> Option<&str> {
        self.words.get_str("FILE")
    }

    /// What is read, as messages name it.
    pub fn name(&self) -> &str {
        self.file().unwrap_or("standard input")
    }

    /// The file that is named, or else standard input.
    pub fn input(&self) -> Result<Reading<'_, 'a, R>, Failure> {
        let reader = match self.file() {
            None => Either::Right(self.engine.rt.reader()),
            Some(name) => match fs::open(self.engine.rt, name) {
                Ok(file) => Either::Left(file),
                Err(error) => return Err(self.unread(error)),
            },
        };
        Ok(match &self.engine.run.gate.first {
            Some(meter) => meter.reading(reader, self.size()),
            None => Metered {
                reader,
                meter: None,
            },
        })
    }

    /// How many bytes the input has, where it is a file that tells so.
    fn size(&self) -> Option<u64> {
        let name = self.file().unwrap_or("/dev/stdin");
        match fs::metadata(self.engine.rt, name) {
            Ok(data) if data.is_file() && data.len() > 0 => Some(data.len()),
            _ => None,
        }
    }

    /// The failure of data that are at fault.
    pub fn bad_data(&self, what: &impl Display) -> Failure {
        bad_data(self.engine.alloc, self.name(), what)
    }

    /// The failure of an input that isn't read.
    pub fn unread(&self, error: io::Error) -> Failure {
        failed(self.engine.alloc, self.name(), error)
    }

    /// The failure of the input's lines.
    pub fn bad_lines(&self, error: LinesError) -> Failure {
        match error {
            LinesError::NoMemory => Failure::NoMemory(AllocError),
            LinesError::Read(error) => self.unread(error),
            error => self.bad_data(&error),
        }
    }

    /// What hashes are drawn from, which nobody who makes the data foresees.
    pub fn hashes(&self) -> Result<RandomState, Failure> {
        RandomState::new(self.engine.rt).map_err(|error| failed(
            self.engine.alloc,
            "random numbers",
            error,
        ))
    }
}
