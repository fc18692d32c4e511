//! One worker: it draws leaves, runs them and publishes their counts, until all are given out.
ghost use Rattle.std.specs.Prelude.{◌≡◌, ◌<◌, ◌⊎◌, ℕ, false, true, All, [], OnOk, vec_len, vec_capacity};
ghost use Rattle.barriers.specs.Needs.{need_of, Reaches};
ghost use Rattle.leaf_board.specs.Statuses.{Unknown, Given, StaysSeat};
ghost use Rattle.stealing_pool.specs.Jobs.{IsCase};
ghost use Rattle.stealing_pool.specs.Shifts.{Accepts, IsBegun, IsRan, IsShift, Serves, KeepsShift, CutBy};

use crate::crew::Worker;
use crate::gate::Gate;
use crate::halting::Halting;
use crate::job::LeafJob;
use barriers::Need;
use leaf_board::{Draw, Handout};
use leaf_reading::{LeafEnd, Portion};
use spliterator::NoMemory;
use std::alloc::{AllocError, Global};

/// A leaf that was run, and what is kept of it.
#[derive(Drop)]
pub struct Ran<K> {
    pub leaf: usize,
    pub portion: Portion<K>,
}

/// What a worker hands back: its seat, the leaves that it ran, and whether it was refused memory.
#[derive(Drop)]
pub struct Shift<T, K> {
    pub seat: T,
    pub ran: Vec<Ran<K>>,
    pub refused: bool,
}

/// Whether a count can make a cut: one of a leaf of which nothing counts can where nothing is needed.
fn may_cut(need: Need, count: u64) -> bool
    ensures no { result ≡ false → ¬ Reaches (need_of need) count }
    ensures yes { result ≡ true → (0 < count) ⊎ Reaches (need_of need) 0 }
{
    match need {
        Need::Never => false,
        Need::Reach(needed) => count > 0 || needed == 0,
    }
}

/// The most leaves for which a worker makes room at once.
const ROOM: usize = 32;

/// Makes room for one more leaf, and with the first for others.
fn make_room<K: Drop>(ran: &mut Vec<Ran<K>>, leaves: usize) -> Result<(), AllocError>
    ensures same { ran.new.items ≡ ran.old.items }
    ensures room { OnOk result (vec_len ran.new < vec_capacity ran.new) }
{
    if ran.is_empty() {
        ran.reserve_exact(leaves.min(ROOM).max(1))
    } else {
        ran.reserve(1)
    }
}

/// What all workers of a run share.
#[derive(Drop)]
pub struct Crew<'a, B, J, H> {
    pub alloc: Global,
    pub board: &'a B,
    pub job: &'a J,
    pub gate: &'a H,
}

impl<B: Handout, J: LeafJob, H: Gate> Crew<'_, B, J, H> {
    /// Runs the leaf and publishes its count, skips it where it was cut, or gives it up.
    fn run_and_publish(
        &self,
        seat: &mut B::Seat,
        pass: B::Pass,
        leaf: usize,
    ) -> Result<Option<Ran<J::Kept>>, NoMemory>
        requires ready { J.ready self.now.job.now }
        requires case { IsCase (J.work self.now.job.now) (B.leaves self.now.board.now) (B.full self.now.board.now) (B.need self.now.board.now) }
        requires of { B.is_of self.now.board.now seat.old }
        requires given { B.status seat.old (B.leaf_of pass) ≡ Given }
        requires leaf { leaf ≡ B.leaf_of pass }
        requires within { leaf < (J.work self.now.job.now).leaves }
        ensures seat { StaysSeat (B.is_of self.now.board.now) B.number B.draws_left B.made_cut seat.old seat.new }
        ensures serves { Serves (J.work self.now.job.now) (B.status seat.old) leaf result (B.status seat.new) (B.made_cut seat.new) }
    {
        let need = self.job.need();
        let board = Halting {
            board: self.board,
            gate: self.gate,
        };
        match self.job.run_leaf(&board, seat, leaf) {
            Ok(LeafEnd::Done(portion)) => {
                self.board.publish(seat, pass, portion.count);
                if may_cut(need, portion.count) {
                    self.board.settle(seat, leaf);
                }
                Ok(Some(Ran { leaf, portion }))
            }
            Ok(LeafEnd::Cut) => match self.board.skip(seat, pass) {
                Ok(()) => Ok(None),
                Err(_pass) => unreachable!(),
            },
            Err(NoMemory) => {
                self.board.give_up(seat, pass);
                Err(NoMemory)
            }
        }
    }

    /// Serves one leaf that was drawn. Says what is kept of it, or nothing where it was cut.
    fn serve(
        &self,
        worker: u32,
        seat: &mut B::Seat,
        pass: B::Pass,
    ) -> Result<Option<Ran<J::Kept>>, NoMemory>
        requires ready { J.ready self.now.job.now }
        requires case { IsCase (J.work self.now.job.now) (B.leaves self.now.board.now) (B.full self.now.board.now) (B.need self.now.board.now) }
        requires of { B.is_of self.now.board.now seat.old }
        requires given { B.status seat.old (B.leaf_of pass) ≡ Given }
        requires within { B.leaf_of pass < (J.work self.now.job.now).leaves }
        ensures seat { StaysSeat (B.is_of self.now.board.now) B.number B.draws_left B.made_cut seat.old seat.new }
        ensures serves { Serves (J.work self.now.job.now) (B.status seat.old) (B.leaf_of pass) result (B.status seat.new) (B.made_cut seat.new) }
    {
        let pass = match self.board.skip(seat, pass) {
            Ok(()) => return Ok(None),
            Err(pass) => pass,
        };
        if self.gate.is_halted() {
            self.board.give_up(seat, pass);
            return Err(NoMemory);
        }
        let leaf = B::leaf(&pass);
        self.gate.before_leaf(worker, leaf);
        let served = self.run_and_publish(seat, pass, leaf);
        self.gate.after_leaf(worker, leaf);
        served
    }

    /// Draws leaves and serves them, until all are given out or memory is refused.
    fn go_on(&self, shift: Shift<B::Seat, J::Kept>) -> Shift<B::Seat, J::Kept>
        requires ready { J.ready self.now.job.now }
        requires case { IsCase (J.work self.now.job.now) (B.leaves self.now.board.now) (B.full self.now.board.now) (B.need self.now.board.now) }
        requires begun { IsBegun (J.work self.now.job.now) (B.is_of self.now.board.now) B.status B.made_cut shift }
        requires lawful { shift.refused ≡ false }
        ensures of { B.is_of self.now.board.now result.seat }
        ensures number { B.number result.seat ≡ B.number shift.seat }
        ensures ran { All (IsRan (J.work self.now.job.now)) result.ran.items }
        ensures cuts { All (CutBy (J.work self.now.job.now) B.made_cut result.seat) result.ran.items }
        ensures kept { result.refused ≡ false → KeepsShift (B.status result.seat) result.ran.items }
        ensures drained { result.refused ≡ false → B.drained result.seat }
    {
        let worker = B::seat_number(&shift.seat);
        let mut shift = shift;
        'drawing: loop {
            let pass = match self.board.draw(&mut shift.seat) {
                Draw::Leaf(pass) => pass,
                Draw::Drained => return shift,
            };
            if make_room(&mut shift.ran, self.job.leaves()).is_err() {
                self.board.give_up(&mut shift.seat, pass);
                shift.refused = true;
                return shift;
            }
            match self.serve(worker, &mut shift.seat, pass) {
                Ok(Some(one)) => shift.ran.push_reserved(one),
                Ok(None) => {}
                Err(NoMemory) => {
                    shift.refused = true;
                    return shift;
                }
            }
        }
    }

    /// A shift in which nothing has been drawn.
    fn fresh(&self, seat: B::Seat) -> Shift<B::Seat, J::Kept>
        ensures seat { result.seat ≡ seat }
        ensures none { result.ran.items ≡ [] }
        ensures refused { result.refused ≡ false }
    {
        Shift {
            seat,
            ran: Vec::new(self.alloc),
            refused: false,
        }
    }
}

impl<B: Handout + Sync, J: LeafJob + Sync, H: Gate + Sync> Worker for Crew<'_, B, J, H>
where
    B::Seat: Send,
    J::Kept: Send,
{
    type Seat = B::Seat;

    type Shift = Shift<B::Seat, J::Kept>;

    ghost accepts = { λ w seat. Accepts (J.ready w.job.now) (J.work w.job.now) (B.leaves w.board.now) (B.full w.board.now) (B.need w.board.now) (B.is_of w.board.now seat) (B.status seat) };

    ghost gives = { λ w seat shift. IsShift (J.work w.job.now) (B.is_of w.board.now) B.number B.status B.made_cut seat shift };

    ghost ends = { λ w shift. shift.refused ≡ false → B.drained shift.seat };

    fn run(&self, seat: B::Seat) -> Shift<B::Seat, J::Kept> {
        self.go_on(self.fresh(seat))
    }
}
