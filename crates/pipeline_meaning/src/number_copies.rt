//! Steps over blocks of numbers, into a sink. Copies are made a room at a time.
ghost use Rattle.std.specs.Prelude.{OnOk, OnErr, flat_map};
ghost use Rattle.std.proofs.Math.ListN.{replicate};
ghost use Rattle.pipeline_meaning.specs.NumberSteps.{steps_images};

use crate::functions::{filter_block, map_block};
use crate::number_steps::NumberStep;
use spliterator::NoMemory;
use stages::Sink;
use std::alloc::Global;
use stream_functions::copy_each;

/// How many copies a sink is given at once.
const ROOM: usize = 1024;

/// Feeds what steps make of a block, one after another, to a sink, as long as it makes a difference. What the list holds afterwards is of no
/// use.
#[cycle(repeating)]
pub(crate) fn feed_steps<K: Sink<i64>>(
    alloc: Global,
    steps: &[NumberStep],
    items: &mut Vec<i64>,
    sink: &mut K,
) -> Result<(), NoMemory>
    requires { K.ready sink.old }
    ensures taken { OnOk result (K.takes sink.old (flat_map (steps_images steps.now) items.old.items) sink.new) }
    ensures spoilt { OnErr result (K.spoils sink.old sink.new) }
{
    let Some((step, later)) = steps.split_first() else {
        return sink.take_all(items);
    };
    match *step {
        NumberStep::Map(mapping) => {
            map_block(mapping, items)?;
            feed_steps(alloc, later, items, sink)
        }
        NumberStep::Filter(check) => {
            filter_block(check, items);
            feed_steps(alloc, later, items, sink)
        }
        NumberStep::Repeat(number) => {
            let mut room = Vec::new(alloc);
            feed_each(alloc, number, later, items.as_slice(), &mut room, sink)
        }
    }
}

// Feeds what later steps make of so many copies of each number, by way of a room.
#[cycle(repeating)]
fn feed_each<K: Sink<i64>>(
    alloc: Global,
    number: u64,
    later: &[NumberStep],
    items: &[i64],
    room: &mut Vec<i64>,
    sink: &mut K,
) -> Result<(), NoMemory>
    requires { K.ready sink.old }
    ensures taken { OnOk result (K.takes sink.old (flat_map (steps_images later.now) (flat_map (replicate number) items.now)) sink.new) }
    ensures spoilt { OnErr result (K.spoils sink.old sink.new) }
{
    if number <= ROOM as u64 {
        return feed_few(alloc, number as usize, later, items, room, sink);
    }
    for x in items {
        feed_many(alloc, number, later, *x, room, sink)?;
    }
    Ok(())
}

// The same where a room holds the copies of a number.
#[cycle(repeating)]
fn feed_few<K: Sink<i64>>(
    alloc: Global,
    number: usize,
    later: &[NumberStep],
    items: &[i64],
    room: &mut Vec<i64>,
    sink: &mut K,
) -> Result<(), NoMemory>
    requires { K.ready sink.old }
    ensures taken { OnOk result (K.takes sink.old (flat_map (steps_images later.now) (flat_map (replicate number) items.now)) sink.new) }
    ensures spoilt { OnErr result (K.spoils sink.old sink.new) }
{
    let most = (ROOM / number.max(1)).max(1);
    let mut left = items;
    'copying: while !left.is_empty() {
        if sink.is_full() {
            return Ok(());
        }
        let (part, rest) = left.split_at(left.len().min(most));
        copy_each(number, part, room)?;
        feed_steps(alloc, later, room, sink)?;
        left = rest;
    }
    Ok(())
}

// The same of one number with more copies than a room holds.
#[cycle(repeating)]
fn feed_many<K: Sink<i64>>(
    alloc: Global,
    number: u64,
    later: &[NumberStep],
    x: i64,
    room: &mut Vec<i64>,
    sink: &mut K,
) -> Result<(), NoMemory>
    requires { K.ready sink.old }
    ensures taken { OnOk result (K.takes sink.old (flat_map (steps_images later.now) (replicate number x)) sink.new) }
    ensures spoilt { OnErr result (K.spoils sink.old sink.new) }
{
    let mut left = number;
    'copying: while left > 0 {
        if sink.is_full() {
            return Ok(());
        }
        let part = left.min(ROOM as u64);
        copy_each(part as usize, &[x], room)?;
        feed_steps(alloc, later, room, sink)?;
        left -= part;
    }
    Ok(())
}
