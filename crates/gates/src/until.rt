//! The gate of a run that may end before its end.
ghost use Rattle.std.specs.Prelude.{◌≡◌};
ghost use Rattle.gates.specs.Endings.{IfHalted};

use crate::Halt;
use spliterator::NoMemory;
use std::fmt::Display;
use stealing_pool::{Gate, NoGate};
use thiserror::Error;

/// A gate by which a run ends where there is a reason, as if memory were refused: whatever gives a value gives that of the whole.
///
/// ```text
/// match numbers.sum(&engine) {
///     Ok(sum) => println!(rt; "{sum}")?,
///     Err(refused) => return Err(until.ended(refused)),    // Halted, with what shows it, or NoMemory
/// }
/// ```
#[derive(Clone, Copy)]
pub struct Until<'a, E, H> {
    pub halt: E,
    pub gate: &'a H,
}

/// Why a run that may end before its end gave no value.
#[derive(Debug, Drop, Error)]
pub enum Ended<E> {
    #[error("out of memory")]
    NoMemory,
    #[error("stopped before the end")]
    Halted(E),
}

impl<E: Halt> Until<'static, E, NoGate> {
    /// Of a run whose leaves nobody is told of.
    pub fn new(halt: E) -> Until<'static, E, NoGate>
        ensures { result.halt ≡ halt }
    {
        Until {
            halt,
            gate: &NoGate,
        }
    }
}

impl<E: Halt, H> Until<'_, E, H> {
    /// Why a run gave no value that was refused memory: where there is a reason to end, that.
    pub fn ended(&self, _refused: NoMemory) -> Ended<E::Reason>
        ensures { IfHalted (E.justified self.now.halt) result }
    {
        match self.halt.reason() {
            Some(reason) => Ended::Halted(reason),
            None => Ended::NoMemory,
        }
    }
}

impl<E: Halt + Sync, H: Gate + Sync> Gate for Until<'_, E, H> {
    fn before_run(&self, leaves: usize) {
        self.gate.before_run(leaves);
    }

    fn before_leaf(&self, worker: u32, leaf: usize) {
        self.gate.before_leaf(worker, leaf);
    }

    fn after_leaf(&self, worker: u32, leaf: usize) {
        self.gate.after_leaf(worker, leaf);
    }

    fn after_stretch(&self) {
        self.gate.after_stretch();
    }

    #[inline(always)]
    fn is_halted(&self) -> bool {
        self.gate.is_halted() || self.halt.reason().is_some()
    }

    fn heeds_leaves(&self) -> bool {
        self.gate.heeds_leaves()
    }
}
