//! What is kept of the leaves is combined up the tree.
ghost use Rattle.std.specs.Prelude.{◌≡◌, ◌<◌, ◌≤◌, ◌*◌, ◌^◌, length, drop, IfOk, OnOk};
ghost use Rattle.std.specs.Thread.{IsSync};
ghost use denote.Param.Send.{IsSend};
ghost use Rattle.split_tree.specs.SplitTree.{leaf_numbers, numbers_from};
ghost use Rattle.stealing_pool.specs.Gathers.{IsNumbered, IsRow, StandsForPart};
ghost use Rattle.stealing_pool.specs.Jobs.{StandsForRun};

use crate::crew::join_apart;
use crate::job::LeafJob;
use split_tree::Tree;
use spliterator::NoMemory;
use std::thread::Threads;
use std::vec::IntoIter;

/// Combines what is kept of a node's leaves, as far as the row goes.
fn combine_node<J: LeafJob>(
    job: &J,
    tree: &Tree,
    row: &mut IntoIter<J::Kept>,
) -> Result<J::Kept, NoMemory>
    requires ready { J.ready job.now }
    requires some { 0 < length row.old.rest.items }
    ensures rest { OnOk result (row.new.rest.items ≡ drop (length (leaf_numbers tree.now)) row.old.rest.items) }
    ensures kept { IfOk result (StandsForPart (J.work job.now) (length (leaf_numbers tree.now)) row.old.rest.items) }
{
    let Tree::Node(left, right) = tree else {
        let Some(kept) = row.next() else {
            unreachable!()
        };
        return Ok(kept);
    };
    let mut kept = combine_node(job, left, row)?;
    if row.len() == 0 {
        return Ok(kept);
    }
    let following = combine_node(job, right, row)?;
    job.combine(&mut kept, following)?;
    Ok(kept)
}

/// Combines what is kept of a node's leaves. Of so many levels from here on the right child is another thread's, where it has any.
#[cycle(forks)]
fn combine_part<R: Threads + Sync, J: LeafJob + Sync>(
    rt: &R,
    job: &J,
    tree: &Tree,
    levels: u32,
    mut row: Vec<J::Kept>,
) -> Result<J::Kept, NoMemory>
where
    J::Kept: Send,
    requires ready { J.ready job.now }
    requires some { 0 < length row.items }
    requires numbered { IsNumbered tree.now }
    ensures { IfOk result (StandsForPart (J.work job.now) (length (leaf_numbers tree.now)) row.items) }
{
    let (left, right) = match tree {
        Tree::Node(left, right) if levels > 0 => (left, right),
        _ => return combine_node(job, tree, &mut row.into_iter()),
    };
    let middle = right.first_leaf() - left.first_leaf();
    if row.len() <= middle {
        return combine_part(rt, job, left, levels - 1, row);
    }
    let following = row.split_off(middle)?;
    let (mut kept, following) = combine_both(rt, job, left, right, levels - 1, row, following)?;
    job.combine(&mut kept, following)?;
    Ok(kept)
}

/// Combines what is kept of two children, each in a thread of its own where one can be made.
#[cycle(forks)]
fn combine_both<R: Threads + Sync, J: LeafJob + Sync>(
    rt: &R,
    job: &J,
    left: &Tree,
    right: &Tree,
    levels: u32,
    row: Vec<J::Kept>,
    following: Vec<J::Kept>,
) -> Result<(J::Kept, J::Kept), NoMemory>
where
    J::Kept: Send,
    requires ready { J.ready job.now }
    requires left { (0 < length row.items) × IsNumbered left.now }
    requires right { (0 < length following.items) × IsNumbered right.now }
    ensures left { IfOk result (λ both. StandsForPart (J.work job.now) (length (leaf_numbers left.now)) row.items both.0) }
    ensures right { IfOk result (λ both. StandsForPart (J.work job.now) (length (leaf_numbers right.now)) following.items both.1) }
{
    let theirs = move || -> Result<J::Kept, NoMemory>
        requires { IsSync R.row × IsSync J.row × IsSend J.Kept.row × J.ready job.now × (0 < length following.items) × IsNumbered right.now }
        ensures { IfOk result (StandsForPart (J.work job.entry.now) (length (leaf_numbers right.entry.now)) following.items) }
    { combine_part(rt, job, right, levels, following) };
    let ours = move || -> Result<J::Kept, NoMemory>
        requires { IsSync R.row × IsSync J.row × IsSend J.Kept.row × J.ready job.now × (0 < length row.items) × IsNumbered left.now }
        ensures { IfOk result (StandsForPart (J.work job.entry.now) (length (leaf_numbers left.entry.now)) row.items) }
    { combine_part(rt, job, left, levels, row) };
    let (after, before) = join_apart(rt, theirs, ours);
    Ok((before?, after?))
}

/// The most leaves whose combining starts no thread.
const FEW_LEAVES: usize = 256;

/// Whether what is kept of the leaves is combined sooner than threads start.
fn is_light_row<J: LeafJob>(job: &J, row: &[J::Kept]) -> bool {
    if FEW_LEAVES < row.len() {
        return false;
    }
    for kept in row {
        if !job.is_light(kept) {
            return false;
        }
    }
    true
}

/// Of how many levels the right children are combined by other threads: the greatest number such that two to its power is at most the number
/// of workers. One worker starts no thread.
fn fork_levels(workers: u32) -> u32
    requires { 0 < workers }
    ensures fits { 2 ^ result ≤ workers }
    ensures greatest { workers < 2 * 2 ^ result }
{
    workers.ilog2()
}

/// Combines what is kept of the first leaves up the tree: in this thread where it is light, else with at most as many threads as there are workers.
pub fn combine_row<R: Threads + Sync, J: LeafJob + Sync>(
    rt: &R,
    job: &J,
    tree: &Tree,
    workers: u32,
    row: Vec<J::Kept>,
) -> Result<J::Kept, NoMemory>
where
    J::Kept: Send,
    requires ready { J.ready job.now }
    requires tree { leaf_numbers tree.now ≡ numbers_from 0 (J.work job.now).leaves }
    requires workers { 0 < workers }
    requires row { IsRow (J.work job.now) row.items }
    ensures { IfOk result (StandsForRun (J.work job.now)) }
{
    let levels = if is_light_row(job, row.as_slice()) {
        0
    } else {
        fork_levels(workers)
    };
    combine_part(rt, job, tree, levels, row)
}
