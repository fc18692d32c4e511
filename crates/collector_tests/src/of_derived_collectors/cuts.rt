//! The results on a list that is cut in two at each place.
use collectors::{Collector, fold_items};
use spliterator::NoMemory;

/// The result on two parts of a list: one folded item by item, and the other of items that the container may keep.
pub fn of_parts<C: Collector>(
    collector: &C,
    left: &[C::Item],
    right: &[C::Item],
) -> Result<C::Out, NoMemory>
where
    C::Item: Clone + Drop,
    requires { C.ready collector.now }
{
    let mut whole = fold_items(collector, left)?;
    let mut later = collector.supply()?;
    for item in right {
        collector.accumulate_owned(&mut later, item.clone()?)?;
    }
    collector.combine(&mut whole, later)?;
    collector.finish(whole)
}
