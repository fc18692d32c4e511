//! Items beside their keys.
ghost use Rattle.std.specs.Prelude.{◌≡◌, IfOk, List, map};
ghost use Rattle.std.specs.Cmp.{IsTotalOrder};
ghost use Rattle.collectors.specs.Grouping.{contents};
ghost use Rattle.terminals.specs.Sorted.{IsSortedList, beside_keys, by_key};

use spliterator::{NoMemory, SortedValue, Value};
use stages::Mapping;
use std::alloc::{AllocError, Global};

/// Each item behind its key, which is asked for once.
pub fn with_keys<T: Value + Drop, M: Mapping<T>>(
    alloc: Global,
    key: &M,
    items: Vec<T>,
) -> Result<Vec<(M::Out, T)>, NoMemory>
where
    M::Out: Drop,
    requires { M.ready key.now }
    ensures { IfOk result (λ pairs. contents M.Out.content T.content pairs.items ≡ beside_keys (M.image key.now) (map T.content items.items)) }
{
    let mut pairs = Vec::with_capacity(alloc, items.len())?;
    for item in items {
        pairs.push((key.image(&item)?, item))?;
    }
    Ok(pairs)
}

/// The second part of each pair.
pub fn second_parts<K: Drop, T: Drop>(
    alloc: Global,
    pairs: Vec<(K, T)>,
) -> Result<Vec<T>, AllocError>
    ensures { IfOk result (λ items. items.items ≡ map (λ p. p.1) pairs.items) }
{
    let mut items = Vec::with_capacity(alloc, pairs.len())?;
    for (_, item) in pairs {
        items.push(item)?;
    }
    Ok(items)
}

/// The items without their keys. Where the pairs are those of a list, sorted by their first parts, they are that list, sorted by its keys.
pub fn without_keys<T: Value + Drop, M: Mapping<T>>(
    alloc: Global,
    _key: &M,
    pairs: Vec<(M::Out, T)>,
) -> Result<Vec<T>, AllocError>
where
    M::Out: SortedValue + Drop,
    ensures { (list : List T.Content) (before : List (M.Out × T))
        → contents M.Out.content T.content before ≡ beside_keys (M.image _key.now) list
        → (IsTotalOrder M.Out.cmp → IsSortedList (by_key (λ p. p.0) M.Out.cmp) before pairs.items)
        → IfOk result (λ items. IsSortedList (by_key (M.image _key.now) M.Out.order) list (map T.content items.items)) }
{
    second_parts(alloc, pairs)
}
