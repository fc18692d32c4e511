//! What each run uses.
ghost use Rattle.std.specs.Prelude.{◌≡◌, ◌≢◌, Err, IfOk};
ghost use Rattle.parallel_streams.specs.Runs.{AnswersUnder, IsLawfulRun};

use crate::{Run, StreamError};
use split_tree::MAX_TARGET;
use std::alloc::Global;

/// The greatest number of workers.
pub const MAX_WORKERS: u32 = 64;

/// What each run uses: threads, memory, and how it goes, in settings that are lawful.
///
/// ```text
/// let engine = Engine::new(&rt, rt.alloc(), &Run::new(4))?;
/// let total = of(SliceSplit::new(&[3, 1, 2])).sum(&engine)?;    // 6
/// ```
#[derive(Drop)]
pub struct Engine<'e, R, H> {
    pub rt: &'e R,
    pub alloc: Global,
    pub run: Run<'e, H>,
    ghost lawful: { IsLawfulRun run.workers run.target },
}

impl<'e, R, H> Engine<'e, R, H> {
    /// Refuses settings that are not lawful.
    pub fn new(rt: &'e R, alloc: Global, run: &Run<'e, H>) -> Result<Engine<'e, R, H>, StreamError>
        ensures settings { AnswersUnder run.now.workers run.now.target result }
        ensures memory { result ≢ Err StreamError.NoMemory }
        ensures run { IfOk result (λ engine. engine.run ≡ run.now) }
    {
        if !(1..=MAX_WORKERS).contains(&run.workers) {
            return Err(StreamError::BadWorkers);
        }
        if run.target > MAX_TARGET {
            return Err(StreamError::BadTarget);
        }
        Ok(Engine {
            rt,
            alloc,
            run: Run {
                workers: run.workers,
                target: run.target,
                gate: run.gate,
            },
        })
    }
}
