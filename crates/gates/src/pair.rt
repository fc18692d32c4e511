//! Two gates as one.

use stealing_pool::Gate;

/// Two gates as one, each of which may be missing: the first is told of everything before the second.
///
/// ```text
/// let watch = GatePair { first: Some(meter), second: Some(timeline) };
/// let engine = Engine::new(&rt, rt.alloc(), &Run::new(4).with_gate(&watch))?;
/// ```
#[derive(Clone, Copy, Drop)]
pub struct GatePair<A, B> {
    pub first: Option<A>,
    pub second: Option<B>,
}

impl<A: Gate, B: Gate> Gate for GatePair<A, B> {
    fn before_run(&self, leaves: usize) {
        if let Some(gate) = &self.first {
            gate.before_run(leaves);
        }
        if let Some(gate) = &self.second {
            gate.before_run(leaves);
        }
    }

    fn before_leaf(&self, worker: u32, leaf: usize) {
        if let Some(gate) = &self.first {
            gate.before_leaf(worker, leaf);
        }
        if let Some(gate) = &self.second {
            gate.before_leaf(worker, leaf);
        }
    }

    fn after_leaf(&self, worker: u32, leaf: usize) {
        if let Some(gate) = &self.first {
            gate.after_leaf(worker, leaf);
        }
        if let Some(gate) = &self.second {
            gate.after_leaf(worker, leaf);
        }
    }

    fn after_stretch(&self) {
        if let Some(gate) = &self.first {
            gate.after_stretch();
        }
        if let Some(gate) = &self.second {
            gate.after_stretch();
        }
    }

    fn is_halted(&self) -> bool {
        let first = self.first.as_ref().is_some_and(|gate| gate.is_halted());
        first || self.second.as_ref().is_some_and(|gate| gate.is_halted())
    }

    fn heeds_leaves(&self) -> bool {
        let first = self.first.as_ref().is_some_and(|gate| gate.heeds_leaves());
        let second = self.second.as_ref().is_some_and(|gate| gate.heeds_leaves());
        first || second
    }
}
