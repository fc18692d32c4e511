//! Calls around each leaf that is run.

use spliterator::NoMemory;

/// Is told of each leaf that a worker runs: before it begins, and after it has ended. Tests hold workers by it.
pub trait Gate {
    /// A run over so many leaves, numbered from 0, begins.
    fn before_run(&self, _leaves: usize) {}

    fn before_leaf(&self, worker: u32, leaf: usize);

    fn after_leaf(&self, worker: u32, leaf: usize);

    /// A worker read 1,024 items more of a leaf.
    fn after_stretch(&self) {}

    /// Whether the run is to end with no value, as if memory were refused. It is asked before each run, leaf, combination,
    /// barrier's pass and list of it, sort, making of keys and finish of a container, and after each 1,024 items of a leaf.
    fn is_halted(&self) -> bool {
        false
    }

    /// Refuses to go on where the run is to end.
    final fn goes_on(&self) -> Result<(), NoMemory> {
        if self.is_halted() {
            Err(NoMemory)
        } else {
            Ok(())
        }
    }

    /// Whether it heeds what it is told of leaves. Where it doesn't, few items are read with no leaf.
    fn heeds_leaves(&self) -> bool {
        true
    }
}

/// A gate that holds nobody.
#[derive(Clone, Copy, Debug)]
pub struct NoGate;

impl Gate for NoGate {
    fn before_leaf(&self, _worker: u32, _leaf: usize) {}

    fn after_leaf(&self, _worker: u32, _leaf: usize) {}

    fn heeds_leaves(&self) -> bool {
        false
    }
}
