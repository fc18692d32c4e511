//! The workers run at the same time, each on a seat of its own, and what they kept is gathered.
ghost use Rattle.std.specs.Prelude.{◌≡◌, ◌<◌, ℕ, length, IfOk, slice_index_or};
ghost use Rattle.leaf_board.specs.Statuses.{Unknown, AreSeats};
ghost use Rattle.split_tree.specs.SplitTree.{leaf_numbers, numbers_from};
ghost use Rattle.stealing_pool.specs.Jobs.{IsCase, StandsForRun};
ghost use Rattle.stealing_pool.specs.Reports.{Reports};

use crate::combine::combine_row;
use crate::crew::run_workers;
use crate::gate::Gate;
use crate::gather::{pick_row, sort_shifts};
use crate::halting::HaltingJob;
use crate::job::LeafJob;
use crate::worker::Crew;
use leaf_board::LeafBoard;
use split_tree::Tree;
use spliterator::NoMemory;
use std::alloc::Global;
use std::thread::Threads;

/// A board that nothing was drawn from, and all its seats.
#[derive(Drop)]
pub struct Opened<B, T> {
    pub board: B,
    pub seats: Vec<T>,
}

/// What a run of leaves leaves behind: what is kept, and what the board's seats did together.
#[derive(Drop)]
pub struct Closed<K, R> {
    pub kept: K,
    pub record: R,
}

/// Runs the leaves over a board and all its seats, and gathers what is kept of them.
pub fn run_on<R: Threads + Sync, B: LeafBoard + Sync, J: LeafJob + Sync, H: Gate + Sync>(
    rt: &R,
    alloc: Global,
    tree: &Tree,
    job: &J,
    workers: u32,
    gate: &H,
    opened: Opened<B, B::Seat>,
) -> Result<Closed<J::Kept, B::Record>, NoMemory>
where
    B::Seat: Send,
    J::Kept: Send,
    requires ready { J.ready job.now }
    requires tree { leaf_numbers tree.now ≡ numbers_from 0 (J.work job.now).leaves }
    requires workers { 0 < workers }
    requires case { IsCase (J.work job.now) (B.leaves opened.board) (B.full opened.board) (B.need opened.board) }
    requires all { AreSeats (B.is_of opened.board) B.number (B.seat_count opened.board) opened.seats.items }
    requires some { 0 < length opened.seats.items }
    requires fresh { (k : ℕ) (d : B.Seat) → k < length opened.seats.items → (i : ℕ) → B.status (slice_index_or opened.seats.items k d) i ≡ Unknown }
    ensures reports { IfOk result (λ g. Reports (J.work job.now).needed (J.work job.now).leaves (J.work job.now).full (B.recorded g.record) (B.count_of g.record) (B.cut_of g.record)) }
    ensures stands { IfOk result (λ g. StandsForRun (J.work job.now) g.kept) }
{
    let Opened { board, seats } = opened;
    gate.goes_on()?;
    gate.before_run(job.leaves());
    let crew = Crew {
        alloc,
        board: &board,
        job,
        gate,
    };
    let shifts = run_workers(rt, alloc, &crew, seats)?;
    let (seats, places) = sort_shifts(alloc, job.leaves(), shifts)?;
    let record = board.close(seats);
    let row = pick_row(alloc, job, places)?;
    let halting = HaltingJob { job, gate };
    let kept = combine_row(rt, &halting, tree, workers, row)?;
    Ok(Closed { kept, record })
}
