//! A board, and a job, beside a gate that may end the run.
use crate::gate::Gate;
use crate::job::LeafJob;
use barriers::Need;
use leaf_board::{Draw, Handout};
use leaf_reading::LeafEnd;
use spliterator::NoMemory;

/// A board, and the gate that tells whether the run is to end.
#[derive(Drop)]
pub(crate) struct Halting<'a, 'b, B, H> {
    pub(crate) board: &'a B,
    pub(crate) gate: &'b H,
}

impl<B: Handout, H: Gate> Handout for Halting<'_, '_, B, H> {
    type Seat = B::Seat;

    type Pass = B::Pass;

    ghost leaves = { λ h. B.leaves h.board.now };

    ghost full = { λ h. B.full h.board.now };

    ghost need = { λ h. B.need h.board.now };

    ghost is_of = { λ h. B.is_of h.board.now };

    ghost number = { B.number };

    ghost status = { B.status };

    ghost cut = { B.cut };

    ghost knows_count = { B.knows_count };

    ghost made_cut = { B.made_cut };

    ghost drained = { B.drained };

    ghost draws_left = { B.draws_left };

    ghost leaf_of = { B.leaf_of };

    fn seat_number(seat: &B::Seat) -> u32 {
        B::seat_number(seat)
    }

    fn leaf(pass: &B::Pass) -> usize {
        B::leaf(pass)
    }

    fn draw(&self, seat: &mut B::Seat) -> Draw<B::Pass> {
        self.board.draw(seat)
    }

    fn publish(&self, seat: &mut B::Seat, pass: B::Pass, count: u64) {
        self.board.publish(seat, pass, count);
    }

    fn settle(&self, seat: &mut B::Seat, i: usize) {
        self.board.settle(seat, i);
    }

    fn is_cut(&self, seat: &mut B::Seat, j: usize) -> bool {
        self.board.is_cut(seat, j)
    }

    fn skip(&self, seat: &mut B::Seat, pass: B::Pass) -> Result<(), B::Pass> {
        self.board.skip(seat, pass)
    }

    // A leaf asks after each stretch.
    fn is_halted(&self) -> bool {
        self.gate.after_stretch();
        self.gate.is_halted()
    }

    fn give_up(&self, seat: &mut B::Seat, pass: B::Pass) {
        self.board.give_up(seat, pass);
    }
}

/// A job, and the gate that is asked before each combination.
#[derive(Drop)]
pub(crate) struct HaltingJob<'a, 'b, J, H> {
    pub(crate) job: &'a J,
    pub(crate) gate: &'b H,
}

impl<J: LeafJob, H: Gate> LeafJob for HaltingJob<'_, '_, J, H> {
    type Kept = J::Kept;

    ghost ready = { λ h. J.ready h.job.now };

    ghost work = { λ h. J.work h.job.now };

    fn leaves(&self) -> usize {
        self.job.leaves()
    }

    fn need(&self) -> Need {
        self.job.need()
    }

    fn run_leaf<B: Handout>(
        &self,
        board: &B,
        seat: &mut B::Seat,
        leaf: usize,
    ) -> Result<LeafEnd<J::Kept>, NoMemory> {
        self.job.run_leaf(board, seat, leaf)
    }

    fn combine(&self, left: &mut J::Kept, right: J::Kept) -> Result<(), NoMemory> {
        self.gate.goes_on()?;
        self.job.combine(left, right)
    }

    fn is_light(&self, kept: &J::Kept) -> bool {
        self.job.is_light(kept)
    }
}
