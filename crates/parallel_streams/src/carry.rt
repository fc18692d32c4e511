//! The pass of a barrier over what its run kept.
ghost use Rattle.std.specs.Prelude.{◌≡◌, ◌++◌, None, IfOk, List, count_by, flat_map, length, map};
ghost use Rattle.barriers.specs.Needs.{IsToldBy, less_needed};
ghost use Rattle.parallel_streams.specs.Cuts.{Ascends};
ghost use Rattle.parallel_streams.specs.Ends.{ends_of};
ghost use Rattle.parallel_streams.specs.Leaves.{AreLeafEnds};

use crate::Engine;
use crate::kept::Listed;
use crate::places::Places;
use barriers::{Barrier, Need};
use collectors::Pieces;
use spliterator::{NoMemory, OrderedValue};
use stealing_pool::Gate;

// What a barrier leaves of the items of some lists, and how many they had. The gate is asked before each list.
fn carry_lists<R, T: OrderedValue + Drop, B: Barrier<T>, H: Gate>(
    engine: &Engine<'_, R, H>,
    barrier: &B,
    state: &mut B::State,
    lists: Vec<Vec<T>>,
) -> Result<(Vec<T>, u64), NoMemory>
    requires ready { B.ready barrier.now }
    requires can { B.can_carry barrier.now }
    requires whole { B.needed_behind barrier.now state.old ≡ None }
    ensures goes_on { let all = map T.content (flat_map (λ list. list.items) lists.items) in
        (more : List T.Content) → IfOk result (λ r. B.value_behind barrier.now state.old (all ++ more)
        ≡ map T.content r.0.items ++ B.value_behind barrier.now state.new more) }
    ensures whole { IfOk result (λ _. B.needed_behind barrier.now state.new ≡ None) }
{
    let mut kept = Vec::new(engine.alloc);
    let mut number: u64 = 0;
    for list in lists {
        engine.run.gate.goes_on()?;
        number = number.saturating_add(list.len() as u64);
        let mut left = barrier.carry(state, list, false)?;
        if kept.is_empty() {
            kept = left;
        } else {
            kept.append(&mut left)?;
        }
    }
    Ok((kept, number))
}

// What a barrier leaves of what its run kept, and how many items that were. Where a number of items is needed, they are one list, since the run's cut tells
// of all of them.
fn carry_pieces<R, T: OrderedValue + Drop, B: Barrier<T>, H: Gate>(
    engine: &Engine<'_, R, H>,
    barrier: &B,
    state: &mut B::State,
    pieces: Pieces<T>,
    is_cut: bool,
) -> Result<(Vec<T>, u64), NoMemory>
    requires ready { B.ready barrier.now }
    requires can { B.can_carry barrier.now }
    requires told { IsToldBy (B.needed_behind barrier.now state.old) (B.counted barrier.now)
        (map T.content pieces) is_cut }
    ensures goes_on { (more : List T.Content) → IfOk result (λ r.
        B.value_behind barrier.now state.old (map T.content pieces ++ more)
        ≡ map T.content r.0.items ++ B.value_behind barrier.now state.new more) }
    ensures lessened { let came = count_by (B.counted barrier.now) (map T.content pieces) in
        let needed = less_needed (B.needed_behind barrier.now state.old) came in
        IfOk result (λ _. B.needed_behind barrier.now state.new ≡ needed) }
{
    if let Need::Never = barrier.need_behind(state) {
        return carry_lists(engine, barrier, state, pieces.into_pieces()?);
    }
    let list = pieces.into_list()?;
    let number = list.len() as u64;
    Ok((barrier.carry(state, list, is_cut)?, number))
}

/// What a barrier leaves of what its run kept, cut into leaves, and how many items the run kept. The gate is asked before each piece of them, where no number
/// of items is needed.
pub fn list_kept<R, T: OrderedValue + Drop, B: Barrier<T>, H: Gate>(
    engine: &Engine<'_, R, H>,
    barrier: &B,
    state: &mut B::State,
    pieces: Pieces<T>,
    is_cut: bool,
) -> Result<(Listed<T>, u64), NoMemory>
    requires ready { B.ready barrier.now }
    requires can { B.can_carry barrier.now }
    requires told { IsToldBy (B.needed_behind barrier.now state.old) (B.counted barrier.now)
        (map T.content pieces) is_cut }
    ensures goes_on { (more : List T.Content) → IfOk result (λ r.
        B.value_behind barrier.now state.old (map T.content pieces ++ more)
        ≡ map T.content r.0.items.items ++ B.value_behind barrier.now state.new more) }
    ensures lessened { let came = count_by (B.counted barrier.now) (map T.content pieces) in
        let needed = less_needed (B.needed_behind barrier.now state.old) came in
        IfOk result (λ _. B.needed_behind barrier.now state.new ≡ needed) }
    ensures order { IfOk result (λ r. Ascends 0 (length r.0.items.items) (ends_of r.0.places)) }
    ensures leaves { let run = engine.now.run in IfOk result (λ r.
        AreLeafEnds run.workers run.target (length r.0.items.items) (ends_of r.0.places)) }
{
    let (items, number) = carry_pieces(engine, barrier, state, pieces, is_cut)?;
    let run = &engine.run;
    let places = Places::cut(engine.alloc, items.as_slice(), run.workers, run.target)?;
    Ok((Listed { items, places }, number))
}
