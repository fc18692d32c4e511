//! Entries of maps.
ghost use Rattle.std.specs.Prelude.{◌≡◌, OnOk, IfOk};
ghost use Rattle.indexmap.specs.IndexMap.{insert_entry};

use indexmap::IndexMap;
use spliterator::{NoMemory, Value};
use stages::Mapping;
use std::hash::{BuildHasher, Hash};

/// The key and the value of an item.
pub(crate) fn entry_of<T: Value, K: Mapping<T>, V: Mapping<T>>(
    key_of: &K,
    value_of: &V,
    x: &T,
) -> Result<(K::Out, V::Out), NoMemory>
where
    K::Out: Drop,
    requires key_ready { K.ready key_of.now }
    requires value_ready { V.ready value_of.now }
    ensures key { IfOk result (λ e. K.Out.content e.0 ≡ K.image key_of.now (T.content x.now)) }
    ensures value { IfOk result (λ e. V.Out.content e.1 ≡ V.image value_of.now (T.content x.now)) }
{
    let key = key_of.image(x)?;
    let value = value_of.image(x)?;
    Ok((key, value))
}

/// Adds an entry.
pub(crate) fn add_entry<K: Eq + Hash + Drop, V: Drop, S: BuildHasher>(
    map: &mut IndexMap<K, V, S>,
    key: K,
    value: V,
) -> Result<(), NoMemory>
    ensures { OnOk result (map.new.entries ≡ insert_entry K.eq map.old.entries key value) }
{
    map.insert(key, value)?;
    Ok(())
}
