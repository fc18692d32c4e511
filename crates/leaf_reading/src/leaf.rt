//! The reading of one leaf: its source's items pass a stage, and are kept until they are enough.
ghost use Rattle.std.specs.Prelude.{◌≡◌, ◌<◌, ◌≤◌, IfNone, IfOk, IfSome, flat_map};
ghost use Rattle.barriers.specs.Needs.{need_of};
ghost use Rattle.leaf_board.specs.Statuses.{SameFrom, StaysSeat};
ghost use Rattle.leaf_reading.specs.Fronts.{folding, EndsList};

use crate::keeper::Keeper;
use crate::stretch::feed_until_cut;
use crate::{LeafEnd, Portion, Reading};
use barriers::{Demand, Need};
use collectors::Collector;
use leaf_board::Handout;
use spliterator::{NoMemory, Spliterator};
use stages::Stage;
use std::alloc::Global;

/// How many items a container is made for. Those of a leaf, where their number is known, and no more than are needed.
fn expected(need: Need, size: Option<u64>) -> u64
    ensures unknown { IfNone size (result ≡ 0) }
    ensures left { IfSome size (λ number. result ≤ number) }
    ensures needed { IfSome (need_of need) (λ needed. result ≤ needed) }
{
    match (need, size) {
        (_, None) => 0,
        (Need::Never, Some(number)) => number,
        (Need::Reach(needed), Some(number)) => number.min(needed),
    }
}

/// Reads one leaf: feeds its source's items through a stage into a container, until the source ends or enough is kept.
///
/// It asks the board after each 1,024 source items whether the leaf was cut. No list stands between the source and the container.
/// A job calls it in its own `run_leaf`.
pub fn read_leaf<
    B: Handout,
    S: Spliterator,
    G: Stage<In = S::Item>,
    D: Demand<G::Out>,
    C: Collector<Item = G::Out>,
>(
    alloc: Global,
    source: S,
    reading: &Reading<'_, G, D, C>,
    board: &B,
    seat: &mut B::Seat,
    leaf: usize,
) -> Result<LeafEnd<C::Acc>, NoMemory>
    requires stage { G.ready reading.now.stage.now }
    requires demand { D.ready reading.now.demand.now }
    requires collector { C.ready reading.now.collector.now }
    requires of { B.is_of board.now seat.old }
    requires within { leaf < B.leaves board.now }
    ensures seat { StaysSeat (B.is_of board.now) B.number B.draws_left B.made_cut seat.old seat.new }
    ensures same { SameFrom (B.status seat.old) (B.status seat.new) }
    ensures end { let needs = folding (D.needed reading.now.demand.now) (D.counted reading.now.demand.now) G.Out.is_value in
        let fold = needs (C.empty reading.now.collector.now) (C.add reading.now.collector.now) in
        let list = flat_map (G.expand reading.now.stage.now) (S.items source) in
        IfOk result (EndsList fold (C.content reading.now.collector.now) list (B.cut seat.new) leaf) }
{
    let Reading {
        stage,
        demand,
        collector,
    } = *reading;
    let size = stage.size_after(source.exact_size());
    let kept = collector.supply_for(expected(demand.need(), size))?;
    let mut keeper = Keeper {
        demand,
        need: demand.need(),
        collector,
        portion: Portion { count: 0, kept },
    };
    match feed_until_cut(alloc, stage, source, &mut keeper, board, seat, leaf) {
        Ok(true) => Ok(LeafEnd::Done(keeper.portion)),
        Ok(false) => Ok(LeafEnd::Cut),
        Err(refused) => Err(refused),
    }
}
