//! A list folded as a whole, and in all two and three parts of it.
use super::shown::{Shown, text_of};
use collectors::{Collector, collect, combine_containers, finish_container, fold_items};
use spliterator::NoMemory;
use std::alloc::Global;
use std::process::Abort;

/// Takes a further part of the list into the container of what comes before it.
fn add_part<C: Collector>(
    collector: &C,
    whole: &mut C::Acc,
    part: &[C::Item],
) -> Result<(), NoMemory>
    requires { C.ready collector.now }
{
    combine_containers(collector, whole, fold_items(collector, part)?)
}

/// The result on three parts of a list, where the first two are combined before the third.
fn left_first<C: Collector>(
    collector: &C,
    left: &[C::Item],
    middle: &[C::Item],
    right: &[C::Item],
) -> Result<C::Out, NoMemory>
    requires { C.ready collector.now }
{
    let mut whole = fold_items(collector, left)?;
    add_part(collector, &mut whole, middle)?;
    add_part(collector, &mut whole, right)?;
    finish_container(collector, whole)
}

/// The result on three parts of a list, where the last two are combined before the first.
fn right_first<C: Collector>(
    collector: &C,
    left: &[C::Item],
    middle: &[C::Item],
    right: &[C::Item],
) -> Result<C::Out, NoMemory>
    requires { C.ready collector.now }
{
    let mut rest = fold_items(collector, middle)?;
    add_part(collector, &mut rest, right)?;
    let mut whole = fold_items(collector, left)?;
    combine_containers(collector, &mut whole, rest)?;
    finish_container(collector, whole)
}

/// Whether this is the text of a result.
fn has_text<R: Shown + Drop>(alloc: Global, value: R, wanted: &str) -> Result<bool, NoMemory> {
    Ok(text_of(alloc, &value)?.as_str() == wanted)
}

/// Whether this is the result on a list whose first part is `left`, the rest being cut in every two parts.
fn parts_give<C: Collector>(
    alloc: Global,
    collector: &C,
    left: &[C::Item],
    rest: &[C::Item],
    wanted: &str,
) -> Result<bool, NoMemory>
where
    C::Out: Shown,
    requires { C.ready collector.now }
{
    for cut in 0..=rest.len() {
        let (middle, right) = rest.split_at(cut);
        let first = left_first(collector, left, middle, right)?;
        let second = right_first(collector, left, middle, right)?;
        if !has_text(alloc, first, wanted)? || !has_text(alloc, second, wanted)? {
            return Ok(false);
        }
    }
    Ok(true)
}

/// The result on a list whose items a container may keep: a block of all but the last, and then the last.
fn kept<C: Collector>(alloc: Global, collector: &C, items: &[C::Item]) -> Result<C::Out, NoMemory>
where
    C::Item: Clone + Drop,
    requires { C.ready collector.now }
{
    let mut owned = Vec::new(alloc);
    for item in items {
        owned.push(item.clone()?)?;
    }
    let mut acc = collector.supply_for(items.len() as u64)?;
    if let Some(last) = owned.pop() {
        collector.accumulate_all_owned(&mut acc, &mut owned)?;
        collector.accumulate_owned(&mut acc, last)?;
    }
    collector.finish(acc)
}

/// Whether this is the result on a list: folded on one thread, taken in as a block, of items that may be kept, and by all ways of cutting it
/// in up to three parts. Empty parts are among them.
fn gives<C: Collector>(
    alloc: Global,
    collector: &C,
    items: &[C::Item],
    wanted: &str,
) -> Result<bool, NoMemory>
where
    C::Item: Clone + Drop,
    C::Out: Shown,
    requires { C.ready collector.now }
{
    for cut in 0..=items.len() {
        let (left, rest) = items.split_at(cut);
        if !parts_give(alloc, collector, left, rest, wanted)? {
            return Ok(false);
        }
    }
    let mut block = collector.supply()?;
    collector.accumulate_all(&mut block, items)?;
    let of_block = collector.finish(block)?;
    let at_once = collect(collector, items)?;
    let of_kept = kept(alloc, collector, items)?;
    Ok(
        has_text(alloc, of_block, wanted)?
            && has_text(alloc, at_once, wanted)?
            && has_text(alloc, of_kept, wanted)?,
    )
}

/// Checks the results on lists, each beside the result that is wanted.
pub fn check<C: Collector + Drop>(
    rt: &impl Abort,
    alloc: Global,
    collector: C,
    rows: &[(&[C::Item], &str)],
) -> Result<(), NoMemory>
where
    C::Item: Clone + Drop,
    C::Out: Shown,
    requires { C.ready collector }
{
    for (items, wanted) in rows {
        assert!(rt; gives(alloc, &collector, items, wanted)?, "{wanted}");
    }
    Ok(())
}
