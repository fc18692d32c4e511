//! A gate of one of several runs that are worked on at once.
use stealing_pool::Gate;

/// A gate that is told of another's only worker by a number.
#[derive(Drop)]
pub(crate) struct Lane<'g, H> {
    pub gate: &'g H,
    pub number: u32,
}

impl<H: Gate> Gate for Lane<'_, H> {
    fn before_run(&self, leaves: usize) {
        self.gate.before_run(leaves);
    }

    fn before_leaf(&self, _worker: u32, leaf: usize) {
        self.gate.before_leaf(self.number, leaf);
    }

    fn after_leaf(&self, _worker: u32, leaf: usize) {
        self.gate.after_leaf(self.number, leaf);
    }

    fn after_stretch(&self) {
        self.gate.after_stretch();
    }

    fn is_halted(&self) -> bool {
        self.gate.is_halted()
    }

    fn heeds_leaves(&self) -> bool {
        self.gate.heeds_leaves()
    }
}
