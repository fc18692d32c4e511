//! Ways to read a source, by its trait alone.
use spliterator::{NoMemory, Spliterator};
use std::alloc::Global;

/// Appends the items that are left.
pub fn append<S: Spliterator>(mut split: S, items: &mut Vec<S::Item>) -> Result<(), NoMemory> {
    while let Some(item) = split.try_advance()? {
        items.push(item)?;
    }
    Ok(())
}

/// Appends the items of the parts that split no more, from the first to the last.
pub fn append_parts<S: Spliterator>(
    mut split: S,
    items: &mut Vec<S::Item>,
) -> Result<(), NoMemory> {
    match split.try_split() {
        Some(part) => {
            append_parts(part, items)?;
            append_parts(split, items)
        }
        None => append(split, items),
    }
}

/// The items that are left.
pub fn read<S: Spliterator>(alloc: Global, mut split: S) -> Result<Vec<S::Item>, NoMemory> {
    let mut items = Vec::new(alloc);
    while let Some(item) = split.try_advance()? {
        items.push(item)?;
    }
    Ok(items)
}
