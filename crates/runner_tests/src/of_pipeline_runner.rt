//! Every run of a file, on devices and with a gate of the tests' own.

use gates::Watch;
use pipeline_runner::{Counted, RunError, Settings, run};
use seeds::Drawing;
use std::alloc::{AllocError, Global};
use std::io;
use std::io::{ErrorKind, Read, Write};
use std::process::Abort;
use std::random::RandomSource;
use std::test::Fail;
use std::thread::Threads;
use std::time::Clock;

mod cuts;
mod devices;
mod distinct;
mod faults;
mod fronts;
mod gates;
mod known_sizes;
mod leaves;
mod limits;
mod numbers;
mod program;
mod rows;
mod seeds;
mod texts;
mod values;
mod workers;

/// The bytes for which an output of the tests asks at once, so that no write of its wants memory.
const ROOM: usize = 8192;

/// A device's failing call, and how many calls of it were made.
#[derive(Drop)]
struct Calls {
    made: u64,
    fails_at: u64,
}

impl Calls {
    /// No call fails where it is 0.
    fn failing_at(fails_at: u64) -> Calls {
        Calls { made: 0, fails_at }
    }

    /// Whether the call that is made now fails.
    fn fails(&mut self) -> bool {
        self.made = self.made.saturating_add(1);
        self.made == self.fails_at
    }
}

/// A reader that gives so many bytes at a time, and fails at one call.
#[derive(Drop)]
struct Source<'a> {
    bytes: &'a [u8],
    step: usize,
    calls: Calls,
}

impl Read for Source<'_> {
    fn read(&mut self, buf: &mut [u8]) -> io::Result<usize> {
        if self.calls.fails() {
            return Err(io::Error::from(ErrorKind::Interrupted));
        }
        let count = buf.len().min(self.step);
        self.bytes.read(&mut buf[..count])
    }
}

/// A writer that takes so many bytes at a time, and fails at one call.
#[derive(Drop)]
struct Sink {
    written: Vec<u8>,
    step: usize,
    calls: Calls,
}

impl Write for Sink {
    fn write(&mut self, buf: &[u8]) -> io::Result<usize> {
        if self.calls.fails() {
            return Err(io::Error::from(ErrorKind::Interrupted));
        }
        let count = buf.len().min(self.step);
        self.written.write(&buf[..count])
    }

    fn flush(&mut self) -> io::Result<()> {
        if self.calls.fails() {
            return Err(io::Error::from(ErrorKind::Interrupted));
        }
        Ok(())
    }
}

/// A file, how it is run, and how the devices of the run behave.
#[derive(Clone, Copy)]
struct Case<'a> {
    file: &'a [u8],
    workers: u32,
    target: u64,
    read_step: usize,
    read_fails: u64,
    write_step: usize,
    write_fails: u64,
}

impl<'a> Case<'a> {
    /// No device fails.
    fn of(file: &'a [u8], workers: u32, target: u64) -> Case<'a> {
        Case {
            file,
            workers,
            target,
            read_step: 65_536,
            read_fails: 0,
            write_step: ROOM,
            write_fails: 0,
        }
    }
}

/// What is told of a run's end. Want of memory is the test's own.
fn told(alloc: Global, end: Result<(), RunError>) -> Result<String, AllocError> {
    match end {
        Ok(()) => Ok(String::new(alloc)),
        Err(RunError::NoMemory) => Err(AllocError),
        Err(e) => format!(in alloc; "{e}"),
    }
}

/// What a run tells and writes.
fn run_with<R: Threads + Clock + Abort + Sync>(
    rt: &R,
    alloc: Global,
    case: &Case<'_>,
    gate: &Watch,
) -> Result<(String, String), AllocError> {
    run_drawing(&Drawing::new(rt), alloc, case, gate)
}

/// The same by a runtime that draws as is told.
fn run_drawing<R: Threads + Clock + Abort + Sync>(
    drawing: &Drawing<'_, R>,
    alloc: Global,
    case: &Case<'_>,
    gate: &Watch,
) -> Result<(String, String), AllocError> {
    let settings = Settings {
        workers: case.workers,
        target: case.target,
    };
    assert!(drawing.rt; (1..=64).contains(&settings.workers) && settings.target <= 1 << 62);
    let mut input = Counted::new(Source {
        bytes: case.file,
        step: case.read_step,
        calls: Calls::failing_at(case.read_fails),
    });
    let mut output = Counted::new(Sink {
        written: Vec::with_capacity(alloc, ROOM)?,
        step: case.write_step,
        calls: Calls::failing_at(case.write_fails),
    });
    let end = run(drawing, alloc, &mut input, &mut output, &settings, gate);
    let told = told(alloc, end)?;
    let written = String::from_utf8_lossy(alloc, output.get_ref().written.as_slice())?;
    Ok((told, written))
}

/// Asserts what a run tells and writes.
fn check<R: Threads + Clock + RandomSource + Abort + Sync>(
    rt: &R,
    alloc: Global,
    case: &Case<'_>,
    told: &str,
    written: &str,
) -> Result<(), Fail> {
    check_watched(rt, alloc, case, &Watch::new(false), told, written)
}

/// Asserts what a run tells and writes, which the gate watches.
fn check_watched<R: Threads + Clock + RandomSource + Abort + Sync>(
    rt: &R,
    alloc: Global,
    case: &Case<'_>,
    gate: &Watch,
    told: &str,
    written: &str,
) -> Result<(), Fail> {
    let end = run_with(rt, alloc, case, gate)?;
    let is_wanted = end.0.as_str() == told && end.1.as_str() == written;
    assert!(rt; is_wanted, "{end:?} is not {told:?} and {written:?}");
    Ok(())
}
