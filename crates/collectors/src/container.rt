//! Containers and the lists that they stand for: what the laws of a collector give to whoever folds, combines and finishes.
//!
//! Each function has the contract that follows for every lawful collector, so a caller of these cites no law.
ghost use Rattle.std.specs.Prelude.{List, [], ◌∷◌, ◌++◌, IfOk, OnOk, map};
ghost use Rattle.collectors.specs.Laws.{IsContainerOf};

use crate::Collector;
use crate::strands::are_values;
use spliterator::{NoMemory, Value};

/// The container of no items.
pub fn new_container<C: Collector>(collector: &C) -> Result<C::Acc, NoMemory>
    requires { C.ready collector.now }
    ensures { IfOk result (IsContainerOf C.Item.is_value (C.content collector.now) (C.empty collector.now) (C.add collector.now) []) }
{
    collector.supply()
}

/// Takes one more item into the container of a list.
pub fn accumulate_item<C: Collector>(
    collector: &C,
    acc: &mut C::Acc,
    x: &C::Item,
) -> Result<(), NoMemory>
    requires { C.ready collector.now }
    ensures { let made = IsContainerOf C.Item.is_value (C.content collector.now) (C.empty collector.now) (C.add collector.now) in
        (l : List C.Item.Content) → made l acc.old → OnOk result (made (l ++ C.Item.content x.now ∷ []) acc.new) }
{
    let _value = x.is_value();
    collector.accumulate(acc, x)
}

/// Takes the items of a slice into the container of a list, one after another.
pub fn accumulate_items<C: Collector>(
    collector: &C,
    acc: &mut C::Acc,
    items: &[C::Item],
) -> Result<(), NoMemory>
    requires { C.ready collector.now }
    ensures { let made = IsContainerOf C.Item.is_value (C.content collector.now) (C.empty collector.now) (C.add collector.now) in
        (l : List C.Item.Content) → made l acc.old → OnOk result (made (l ++ map C.Item.content items.now) acc.new) }
{
    for x in items {
        accumulate_item(collector, acc, x)?;
    }
    Ok(())
}

/// Combines the containers of two lists: the outcome is the container of the one list followed by the other.
pub fn combine_containers<C: Collector>(
    collector: &C,
    left: &mut C::Acc,
    right: C::Acc,
) -> Result<(), NoMemory>
    requires { C.ready collector.now }
    ensures { let made = IsContainerOf C.Item.is_value (C.content collector.now) (C.empty collector.now) (C.add collector.now) in
        (l r : List C.Item.Content) → made l left.old → made r right → OnOk result (made (l ++ r) left.new) }
{
    collector.combine(left, right)
}

/// The result on the list whose container this is.
pub fn finish_container<C: Collector>(collector: &C, acc: C::Acc) -> Result<C::Out, NoMemory>
    requires { C.ready collector.now }
    ensures { let made = IsContainerOf C.Item.is_value (C.content collector.now) (C.empty collector.now) (C.add collector.now) in
        (l : List C.Item.Content) → made l acc → IfOk result (C.gives collector.now l) }
{
    collector.finish(acc)
}

/// The container of the items of a slice.
pub fn fold_items<C: Collector>(collector: &C, items: &[C::Item]) -> Result<C::Acc, NoMemory>
    requires { C.ready collector.now }
    ensures { let made = IsContainerOf C.Item.is_value (C.content collector.now) (C.empty collector.now) (C.add collector.now) in
        IfOk result (made (map C.Item.content items.now)) }
{
    let mut acc = new_container(collector)?;
    accumulate_items(collector, &mut acc, items)?;
    Ok(acc)
}

/// The container of the items of a list, which it may keep as they are.
pub fn fold_owned<C: Collector>(collector: &C, mut items: Vec<C::Item>) -> Result<C::Acc, NoMemory>
where
    C::Item: Drop,
    requires { C.ready collector.now }
    ensures { let made = IsContainerOf C.Item.is_value (C.content collector.now) (C.empty collector.now) (C.add collector.now) in
        IfOk result (made (map C.Item.content items.items)) }
{
    are_values(items.as_slice());
    let mut acc = collector.supply()?;
    collector.accumulate_all_owned(&mut acc, &mut items)?;
    Ok(acc)
}

/// The result on the items of a slice.
pub fn collect<C: Collector>(collector: &C, items: &[C::Item]) -> Result<C::Out, NoMemory>
    requires { C.ready collector.now }
    ensures { IfOk result (C.gives collector.now (map C.Item.content items.now)) }
{
    let acc = fold_items(collector, items)?;
    finish_container(collector, acc)
}
