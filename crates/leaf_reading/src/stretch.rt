//! A leaf's items go to a sink, a stretch at a time.
ghost use Rattle.std.specs.Prelude.{◌≡◌, ◌<◌, flat_map, length, MatchBool, OnOk, IfOk, IfNone, IfSome, false};
ghost use Rattle.leaf_board.specs.Statuses.{SameFrom, StaysSeat};
ghost use Rattle.leaf_reading.specs.Stretches.{TakesOn};

use leaf_board::Handout;
use spliterator::{NoMemory, Spliterator};
use stages::{Sink, Stage};
use std::alloc::Global;

/// The source items between two questions whether the leaf was cut.
const STRETCH: u64 = 1024;

/// The source items of a batch, which are those between two questions how many items are left.
const BATCH: u64 = 16;

/// Feeds one of the source's items to a sink. Says whether it did: nothing is left, or no item makes a difference any more.
#[inline(always)]
fn feed_one<S: Spliterator, G: Stage<In = S::Item>, K: Sink<G::Out>>(
    stage: &G,
    source: &mut S,
    sink: &mut K,
) -> Result<bool, NoMemory>
    requires stage { G.ready stage.now }
    requires sink { K.ready sink.old }
    ensures taken { OnOk result (TakesOn K.takes (flat_map (G.expand stage.now)) (S.items source.old) sink.old (S.items source.new) sink.new) }
    ensures ready { OnOk result (K.ready sink.new) }
    ensures more { IfOk result (λ more. MatchBool more (length (S.items source.new) < length (S.items source.old)) (K.takes sink.new (flat_map (G.expand stage.now) (S.items source.new)) sink.new)) }
{
    if sink.is_full() {
        return Ok(false);
    }
    let Some(x) = source.try_advance()? else {
        return Ok(false);
    };
    stage.feed(x, sink)?;
    Ok(true)
}

/// Feeds so many of a source's items to a sink. Says whether it did: else nothing is left, or no item makes a difference any more.
///
/// Where the number is a constant and small, a compiler lays the steps out in a row, and steps the source's own numbers once for all.
#[inline(always)]
fn feed_some<S: Spliterator, G: Stage<In = S::Item>, K: Sink<G::Out>>(
    stage: &G,
    source: &mut S,
    sink: &mut K,
    number: u64,
) -> Result<bool, NoMemory>
    requires some { 0 < number }
    requires stage { G.ready stage.now }
    requires sink { K.ready sink.old }
    ensures taken { OnOk result (TakesOn K.takes (flat_map (G.expand stage.now)) (S.items source.old) sink.old (S.items source.new) sink.new) }
    ensures ready { OnOk result (K.ready sink.new) }
    ensures more { IfOk result (λ more. MatchBool more (length (S.items source.new) < length (S.items source.old)) (K.takes sink.new (flat_map (G.expand stage.now) (S.items source.new)) sink.new)) }
{
    for _read in 0..number {
        if !feed_one(stage, source, sink)? {
            return Ok(false);
        }
    }
    Ok(true)
}

/// Feeds batches of a source's items to a sink, at least one, as long as it tells that more than so many items are left. Says whether more
/// may make a difference.
///
/// The loop keeps one number, the source's own. Where it is at least a batch's, that each item of a batch is there follows from it.
#[inline(always)]
fn feed_batches<S: Spliterator, G: Stage<In = S::Item>, K: Sink<G::Out>>(
    stage: &G,
    source: &mut S,
    sink: &mut K,
    above: u64,
) -> Result<bool, NoMemory>
    requires stage { G.ready stage.now }
    requires sink { K.ready sink.old }
    ensures taken { OnOk result (TakesOn K.takes (flat_map (G.expand stage.now)) (S.items source.old) sink.old (S.items source.new) sink.new) }
    ensures ready { OnOk result (K.ready sink.new) }
    ensures more { IfOk result (λ more. MatchBool more (length (S.items source.new) < length (S.items source.old)) (K.takes sink.new (flat_map (G.expand stage.now) (S.items source.new)) sink.new)) }
{
    'reading: loop {
        if !feed_some(stage, source, sink, BATCH)? {
            return Ok(false);
        }
        match source.exact_size() {
            Some(left) if above < left => {}
            _ => return Ok(true),
        }
    }
}

/// Feeds a source's items to a sink until it tells that no more than so many are left. Says whether more may make a difference.
///
/// It feeds batches as long as one fits, and then single items.
#[inline(always)]
fn feed_counted<S: Spliterator, G: Stage<In = S::Item>, K: Sink<G::Out>>(
    stage: &G,
    source: &mut S,
    sink: &mut K,
    rest: u64,
) -> Result<bool, NoMemory>
    requires stage { G.ready stage.now }
    requires sink { K.ready sink.old }
    ensures taken { OnOk result (TakesOn K.takes (flat_map (G.expand stage.now)) (S.items source.old) sink.old (S.items source.new) sink.new) }
    ensures ready { OnOk result (K.ready sink.new) }
    ensures more { IfOk result (λ more. MatchBool more (length (S.items source.new) < length (S.items source.old)) (K.takes sink.new (flat_map (G.expand stage.now) (S.items source.new)) sink.new)) }
{
    let above = rest.saturating_add(BATCH - 1);
    'reading: loop {
        let more = match source.exact_size() {
            Some(left) if above < left => feed_batches(stage, source, sink, above)?,
            _ => feed_one(stage, source, sink)?,
        };
        if !more {
            return Ok(false);
        }
        match source.exact_size() {
            Some(left) if rest < left => {}
            Some(0) => return Ok(false),
            _ => return Ok(true),
        }
    }
}

/// Feeds a stretch of what the source covers to a sink, item by item. Says whether more may make a difference.
#[inline(always)]
fn feed_items<S: Spliterator, G: Stage<In = S::Item>, K: Sink<G::Out>>(
    stage: &G,
    source: &mut S,
    sink: &mut K,
) -> Result<bool, NoMemory>
    requires stage { G.ready stage.now }
    requires sink { K.ready sink.old }
    ensures taken { OnOk result (TakesOn K.takes (flat_map (G.expand stage.now)) (S.items source.old) sink.old (S.items source.new) sink.new) }
    ensures ready { OnOk result (K.ready sink.new) }
    ensures more { IfOk result (λ more. MatchBool more (length (S.items source.new) < length (S.items source.old)) (K.takes sink.new (flat_map (G.expand stage.now) (S.items source.new)) sink.new)) }
{
    match source.exact_size() {
        Some(0) => Ok(false),
        Some(left) => feed_counted(stage, source, sink, left.saturating_sub(STRETCH)),
        None => feed_some(stage, source, sink, STRETCH),
    }
}

/// Feeds a block of at most so many of a source's items to a sink. Says whether more may make a difference.
#[inline(always)]
fn feed_block<S: Spliterator, G: Stage<In = S::Item>, K: Sink<G::Out>>(
    stage: &G,
    source: &mut S,
    most: usize,
    room: &mut Vec<S::Item>,
    sink: &mut K,
) -> Result<bool, NoMemory>
    requires some { 0 < most }
    requires stage { G.ready stage.now }
    requires sink { K.ready sink.old }
    ensures taken { OnOk result (TakesOn K.takes (flat_map (G.expand stage.now)) (S.items source.old) sink.old (S.items source.new) sink.new) }
    ensures ready { OnOk result (K.ready sink.new) }
    ensures more { IfOk result (λ more. MatchBool more (length (S.items source.new) < length (S.items source.old)) (K.takes sink.new (flat_map (G.expand stage.now) (S.items source.new)) sink.new)) }
{
    if sink.is_full() {
        return Ok(false);
    }
    source.next_block(most, room)?;
    if room.is_empty() {
        return Ok(false);
    }
    stage.feed_all(room, sink)?;
    Ok(true)
}

/// Feeds a stretch of a source's items to a sink in blocks that grow: each is as long as those before it, and 64 at least. Says whether more may
/// make a difference.
#[inline(always)]
fn feed_growing<S: Spliterator, G: Stage<In = S::Item>, K: Sink<G::Out>>(
    stage: &G,
    source: &mut S,
    room: &mut Vec<S::Item>,
    sink: &mut K,
) -> Result<bool, NoMemory>
    requires stage { G.ready stage.now }
    requires sink { K.ready sink.old }
    ensures taken { OnOk result (TakesOn K.takes (flat_map (G.expand stage.now)) (S.items source.old) sink.old (S.items source.new) sink.new) }
    ensures ready { OnOk result (K.ready sink.new) }
    ensures more { IfOk result (λ more. MatchBool more (length (S.items source.new) < length (S.items source.old)) (K.takes sink.new (flat_map (G.expand stage.now) (S.items source.new)) sink.new)) }
{
    let mut fed: usize = 0;
    'reading: loop {
        let most = fed.max(64);
        if !feed_block(stage, source, most, room, sink)? {
            return Ok(false);
        }
        fed = fed.saturating_add(most);
        if STRETCH as usize <= fed {
            return Ok(true);
        }
    }
}

/// Feeds a block of a source's items to a sink where they lie, and says whether more may make a difference: nothing where the source, the
/// stage or the sink can't do so, and then all is as it was.
#[inline(always)]
fn feed_lent<S: Spliterator, G: Stage<In = S::Item>, K: Sink<G::Out>>(
    stage: &G,
    source: &mut S,
    sink: &mut K,
) -> Result<Option<bool>, NoMemory>
    requires sink { K.ready sink.old }
    ensures same { IfOk result (λ fed. IfNone fed ((source.new ≡ source.old) × (sink.new ≡ sink.old))) }
    ensures taken { IfOk result (λ fed. IfSome fed (λ _. TakesOn K.takes (flat_map (G.expand stage.now)) (S.items source.old) sink.old (S.items source.new) sink.new)) }
    ensures ready { OnOk result (K.ready sink.new) }
    ensures more { IfOk result (λ fed. IfSome fed (λ more. MatchBool more (length (S.items source.new) < length (S.items source.old)) (K.takes sink.new (flat_map (G.expand stage.now) (S.items source.new)) sink.new))) }
{
    if sink.is_full() {
        return Ok(Some(false));
    }
    let Some((items, rest)) = source.lent_block(STRETCH as usize) else {
        return Ok(None);
    };
    let Some(images) = stage.lent_block(items) else {
        return Ok(None);
    };
    if !sink.take_lent(images)? {
        return Ok(None);
    }
    let is_more = !items.is_empty();
    *source = rest;
    Ok(Some(is_more))
}

/// Feeds a stretch of what the source covers to a sink, as the stage prefers it. Says whether more may make a difference.
#[inline(always)]
fn feed_stretch<S: Spliterator, G: Stage<In = S::Item>, K: Sink<G::Out>>(
    stage: &G,
    source: &mut S,
    is_first: bool,
    room: &mut Vec<S::Item>,
    sink: &mut K,
) -> Result<bool, NoMemory>
    requires stage { G.ready stage.now }
    requires sink { K.ready sink.old }
    ensures taken { OnOk result (TakesOn K.takes (flat_map (G.expand stage.now)) (S.items source.old) sink.old (S.items source.new) sink.new) }
    ensures ready { OnOk result (K.ready sink.new) }
    ensures more { IfOk result (λ more. MatchBool more (length (S.items source.new) < length (S.items source.old)) (K.takes sink.new (flat_map (G.expand stage.now) (S.items source.new)) sink.new)) }
{
    if let Some(more) = feed_lent(stage, source, sink)? {
        return Ok(more);
    }
    if !stage.prefers_blocks() {
        feed_items(stage, source, sink)
    } else if is_first {
        feed_growing(stage, source, room, sink)
    } else {
        feed_block(stage, source, STRETCH as usize, room, sink)
    }
}

/// Feeds what the source covers to a sink, until no more makes a difference, or the leaf is cut. Says whether it wasn't cut.
pub(crate) fn feed_until_cut<B: Handout, S: Spliterator, G: Stage<In = S::Item>, K: Sink<G::Out>>(
    alloc: Global,
    stage: &G,
    source: S,
    sink: &mut K,
    board: &B,
    seat: &mut B::Seat,
    leaf: usize,
) -> Result<bool, NoMemory>
    requires stage { G.ready stage.now }
    requires sink { K.ready sink.old }
    requires of { B.is_of board.now seat.old }
    requires within { leaf < B.leaves board.now }
    ensures seat { StaysSeat (B.is_of board.now) B.number B.draws_left B.made_cut seat.old seat.new }
    ensures same { SameFrom (B.status seat.old) (B.status seat.new) }
    ensures fed { IfOk result (λ ended. MatchBool ended (K.takes sink.old (flat_map (G.expand stage.now) (S.items source)) sink.new) (B.cut seat.new < leaf)) }
{
    let mut source = source;
    let mut room = Vec::new(alloc);
    let mut is_first = true;
    'reading: loop {
        let more = feed_stretch(stage, &mut source, is_first, &mut room, sink)?;
        is_first = false;
        if !more {
            return Ok(true);
        }
        if board.is_cut(seat, leaf) {
            return Ok(false);
        }
        if board.is_halted() {
            return Err(NoMemory);
        }
    }
}

/// What happens between two stretches of a leaf.
pub trait Pause {
    /// Refuses to go on where the reading is to end, as if memory were refused.
    fn goes_on(&self) -> Result<(), NoMemory>;
}

/// Feeds all that a source covers through a stage to a sink, as far as it makes a difference.
pub fn feed_whole<P: Pause, S: Spliterator, G: Stage<In = S::Item>, K: Sink<G::Out>>(
    alloc: Global,
    pause: &P,
    stage: &G,
    source: S,
    sink: &mut K,
) -> Result<(), NoMemory>
    requires stage { G.ready stage.now }
    requires sink { K.ready sink.old }
    ensures fed { OnOk result (K.takes sink.old (flat_map (G.expand stage.now) (S.items source)) sink.new) }
{
    let mut source = source;
    let mut room = Vec::new(alloc);
    'reading: loop {
        if !feed_stretch(stage, &mut source, false, &mut room, sink)? {
            return Ok(());
        }
        pause.goes_on()?;
    }
}

/// How long one thread goes on reading by itself.
pub trait Patience {
    /// Whether it is over, where so many items were read, and about so many are left as far as the source tells. Refuses to go on where the reading is to
    /// end, as if memory were refused.
    fn is_over(&self, read: u64, left: Option<u64>) -> Result<bool, NoMemory>;
}

/// Feeds the first of a source's items through a stage to a sink, until patience is over. Says whether more may make a difference.
///
/// It asks behind the first item, and then behind four times as many each time, up to a stretch.
pub fn feed_front<P: Patience, S: Spliterator, G: Stage<In = S::Item>, K: Sink<G::Out>>(
    alloc: Global,
    patience: &P,
    stage: &G,
    source: &mut S,
    sink: &mut K,
) -> Result<bool, NoMemory>
    requires stage { G.ready stage.now }
    requires sink { K.ready sink.old }
    ensures taken { OnOk result (TakesOn K.takes (flat_map (G.expand stage.now)) (S.items source.old) sink.old (S.items source.new) sink.new) }
    ensures ready { OnOk result (K.ready sink.new) }
    ensures end { IfOk result (λ more. more ≡ false → K.takes sink.new (flat_map (G.expand stage.now) (S.items source.new)) sink.new) }
{
    let mut room = Vec::new(alloc);
    let mut read: u64 = 0;
    let mut number: u64 = 1;
    'reading: loop {
        let more = if number < STRETCH {
            feed_some(stage, source, sink, number)?
        } else {
            feed_stretch(stage, source, false, &mut room, sink)?
        };
        if !more {
            return Ok(false);
        }
        read = read.saturating_add(number);
        if patience.is_over(read, source.exact_size())? {
            return Ok(true);
        }
        if number < STRETCH {
            number *= 4;
        }
    }
}
