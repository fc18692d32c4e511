//! What the runs of barriers keep, and what they leave.
ghost use Rattle.std.specs.Prelude.{◌≡◌, IfOk, map};
ghost use Rattle.barriers.specs.Thinned.{IsThinned};
ghost use Rattle.parallel_streams.specs.Progress.{EndedThinned, ended_with};
ghost use Rattle.parallel_streams.specs.declared.kept.Kept.TheVariants.{Before as before_kept};

use crate::places::Places;
use barriers::Barrier;
use collectors::Pieces;
use leaf_reading::{LeafEnd, Portion};
use spliterator::{NoMemory, OrderedValue};

/// The value of a barrier: its items, and how they are cut into the leaves of the next run.
#[derive(Drop)]
pub struct Listed<T> {
    pub items: Vec<T>,
    pub places: Places,
}

/// What the barriers left of the present segment: those before, and the last one, once it has run. And the last one's state.
///
/// Where `passes`, it leaves everything as it is, and doesn't run. `longest_list` tells how many items its run listed.
#[derive(Drop)]
pub struct BarredProgress<P, S, T> {
    pub before: P,
    pub state: S,
    pub listed: Option<Listed<T>>,
    pub passes: bool,
    pub longest_list: u64,
}

/// What is kept of leaves in one barrier's run: that of a barrier before, or the items that the last one looks at.
#[derive(Drop)]
pub enum Kept<P, T> {
    Before(P),
    Own(Pieces<T>),
}

/// How a leaf of a run of a barrier before ended.
pub fn end_before<P: Drop, T: Drop>(
    end: Result<LeafEnd<P>, NoMemory>,
) -> Result<LeafEnd<Kept<P, T>>, NoMemory>
    ensures { result ≡ ended_with before_kept end }
{
    match end {
        Ok(LeafEnd::Done(Portion { count, kept })) => Ok(LeafEnd::Done(Portion {
            count,
            kept: Kept::Before(kept),
        })),
        Ok(LeafEnd::Cut) => Ok(LeafEnd::Cut),
        Err(refused) => Err(refused),
    }
}

// A list without what makes no difference to the barrier.
fn thin_pieces<T: OrderedValue + Drop, B: Barrier<T>>(
    barrier: &B,
    state: &B::State,
    pieces: Pieces<T>,
) -> Result<Pieces<T>, NoMemory>
    ensures { let thinned = IsThinned (B.needed_behind barrier.now state.now) (B.value_behind barrier.now state.now) in
        IfOk result (λ kept. thinned (map T.content pieces) (map T.content kept)) }
{
    if !barrier.thins(state) {
        return Ok(pieces);
    }
    let mut list = pieces.into_list()?;
    barrier.thin(state, &mut list)?;
    Ok(Pieces::of(list))
}

/// How a leaf of the last barrier's run ended. What makes no difference to the barrier is left out.
pub fn end_own<P: Drop, T: OrderedValue + Drop, B: Barrier<T>>(
    barrier: &B,
    state: &B::State,
    end: Result<LeafEnd<Pieces<T>>, NoMemory>,
) -> Result<LeafEnd<Kept<P, T>>, NoMemory>
    ensures { let thinned = IsThinned (B.needed_behind barrier.now state.now) (B.value_behind barrier.now state.now) in
        EndedThinned (λ whole kept. thinned (map T.content whole) (map T.content kept)) result end }
{
    match end? {
        LeafEnd::Done(Portion { count, kept }) => {
            let kept = thin_pieces(barrier, state, kept)?;
            Ok(LeafEnd::Done(Portion {
                count,
                kept: Kept::Own(kept),
            }))
        }
        LeafEnd::Cut => Ok(LeafEnd::Cut),
    }
}
