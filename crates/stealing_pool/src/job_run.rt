//! A run of a job's leaves on several threads.
ghost use Rattle.std.specs.Prelude.{◌≡◌, ◌<◌, ◌≤◌, IfOk, min};
ghost use Rattle.leaf_board.specs.Closing.{cut_of, count_of};
ghost use Rattle.split_tree.specs.SplitTree.{leaf_numbers, numbers_from};
ghost use Rattle.stealing_pool.specs.Cases.{case_of};
ghost use Rattle.stealing_pool.specs.Jobs.{StandsForRun};
ghost use Rattle.stealing_pool.specs.Reports.{Reports};

use crate::gate::Gate;
use crate::job::LeafJob;
use crate::report::RunEntry;
use crate::run::{Closed, Opened, run_on};
use leaf_board::{Board, Case};
use split_tree::Tree;
use spliterator::NoMemory;
use std::alloc::Global;
use std::cmp;
use std::marker::Brand;
use std::thread::Threads;

/// A container, and what its run tells of the leaves.
#[derive(Drop)]
pub struct Gathered<A> {
    pub acc: A,
    pub entry: RunEntry,
}

// K is the case of this run's board: the full counts of its leaves.
fn run_case<K: Case + Send + Sync, R: Threads + Sync, J: LeafJob + Sync, H: Gate + Sync>(
    rt: &R,
    alloc: Global,
    tree: &Tree,
    job: &J,
    workers: u32,
    seats: usize,
    gate: &H,
) -> Result<Gathered<J::Kept>, NoMemory>
where
    J::Kept: Send,
    requires ready { J.ready job.now }
    requires tree { leaf_numbers tree.now ≡ numbers_from 0 (J.work job.now).leaves }
    requires few { (J.work job.now).leaves ≤ 65536 }
    requires case { K.case ≡ case_of (J.work job.now) seats }
    requires workers { 0 < workers }
    requires seats { (0 < seats) × (seats ≤ 64) }
    requires lesser { seats ≡ min workers (J.work job.now).leaves }
    ensures entry { IfOk result (λ g. Reports (J.work job.now).needed (J.work job.now).leaves (J.work job.now).full g.entry.leaves (count_of g.entry) (cut_of g.entry)) }
    ensures stands { IfOk result (λ g. StandsForRun (J.work job.now) g.acc) }
{
    let (board, dealt) = Board::<K>::new(alloc, job.leaves(), job.need(), seats)?;
    let opened = Opened {
        board,
        seats: dealt,
    };
    let Closed { kept, record } = run_on(rt, alloc, tree, job, workers, gate, opened)?;
    Ok(Gathered {
        acc: kept,
        entry: RunEntry::of(record),
    })
}

/// As many seats as workers are wanted, but no more than there are leaves.
fn seat_count(workers: u32, leaves: usize) -> usize
    requires { (0 < workers) × (0 < leaves) }
    ensures some { 0 < result }
    ensures wanted { result ≤ workers }
    ensures lesser { result ≡ min workers leaves }
{
    cmp::min(workers as usize, leaves)
}

/// Runs the leaves of a job on at most as many workers as it has leaves, and combines what they kept up the tree of its plan.
///
/// `workers` is 1 to 64. A run may wait for its workers; where no thread can be made for one, it runs on another's.
/// The answer is `NoMemory` where any worker was refused memory.
pub fn run_job<R: Threads + Sync, J: LeafJob + Sync, H: Gate + Sync>(
    rt: &R,
    alloc: Global,
    tree: &Tree,
    job: &J,
    workers: u32,
    gate: &H,
) -> Result<Gathered<J::Kept>, NoMemory>
where
    J::Kept: Send,
    requires ready { J.ready job.now }
    requires tree { leaf_numbers tree.now ≡ numbers_from 0 (J.work job.now).leaves }
    requires few { (J.work job.now).leaves ≤ 65536 }
    requires workers { (0 < workers) × (workers ≤ 64) }
    ensures entry { IfOk result (λ g. Reports (J.work job.now).needed (J.work job.now).leaves (J.work job.now).full g.entry.leaves (count_of g.entry) (cut_of g.entry)) }
    ensures stands { IfOk result (λ g. StandsForRun (J.work job.now) g.acc) }
{
    let seats = seat_count(workers, job.leaves());
    run_case::<Brand, R, J, H>(rt, alloc, tree, job, workers, seats, gate)
}
