//! The entries of a map as JSON: an array of pairs, each of a key and what is kept for it, in the map's order.
ghost use Rattle.std.specs.Prelude.{◌≡◌, ◌++◌, ◌∷◌, [], List, false, map, IfOk, IfErr, OnOk};
ghost use Rattle.std.specs.List.{list_any};
ghost use Rattle.serde_json.specs.View.{view};
ghost use Rattle.wire_form.specs.Forms.{entry_form, list_form};
ghost use Rattle.wire_form.specs.KnownEntries.{AreKnownEntries, IsKnownEntry};

use crate::kept::{ReadsKept, WritesKept};
use crate::shapes::{members_of, pair, pair_of};
use crate::{FromWireValue, WireError, WireValue};
use indexmap::IndexMap;
use serde_json::Value as Json;
use spliterator::{EqualValue, NoMemory};
use std::alloc::Global;
use std::hash::{BuildHasher, Hash};

// Writes an entry.
fn write_entry<K: WireValue + Drop, W: WritesKept>(
    alloc: Global,
    kept: &W,
    entry: (K, W::Kept),
) -> Result<Json, NoMemory>
    ensures { let form = entry_form (λ k. K.form (K.content k)) (W.form kept.now) in
        IfOk result (λ value. view value ≡ form entry) }
{
    let (key, value) = entry;
    let key = key.write(alloc)?;
    let value = kept.write(alloc, value)?;
    pair(alloc, key, value)
}

/// Writes the entries.
pub(crate) fn write_entries<
    K: WireValue + EqualValue + Hash + Drop,
    W: WritesKept,
    S: BuildHasher + Copy,
>(alloc: Global, kept: &W, entries: IndexMap<K, W::Kept, S>) -> Result<Json, NoMemory>
    ensures { let form = entry_form (λ k. K.form (K.content k)) (W.form kept.now) in
        IfOk result (λ value. view value ≡ list_form form entries.entries) }
{
    let mut written = Vec::with_capacity(alloc, entries.len())?;
    for entry in entries {
        written.push(write_entry(alloc, kept, entry)?)?;
    }
    Ok(Json::Array(written))
}

// Reads an entry. Its key is a new one.
fn read_entry<K: FromWireValue + EqualValue + Hash + Drop, W: ReadsKept, S: BuildHasher>(
    alloc: Global,
    kept: &W,
    entries: &mut IndexMap<K, W::Kept, S>,
    member: Json,
) -> Result<(), WireError>
    requires { W.ready kept.now }
    ensures form { let form = entry_form (λ k. K.form (K.content k)) (W.form kept.now) in
        let old = map form entries.old.entries in
        OnOk result (map form entries.new.entries ≡ old ++ view member ∷ []) }
    ensures known { let known = IsKnownEntry K.is_value (W.is_known kept.now) in
        let before = map (λ e. K.content e.0) entries.old.entries in
        (e : K.Content × W.Kept) → known e → list_any (K.same e.0) before ≡ false
        → entry_form K.form (W.form kept.now) e ≡ view member
        → IfErr result (λ e. e ≡ WireError.NoMemory) }
{
    let (key, value) = pair_of(member)?;
    let key = K::read(key)?;
    let value = kept.read(alloc, value)?;
    if entries.contains_key(&key) {
        return Err(WireError::OtherForm);
    }
    entries.insert(key, value)?;
    Ok(())
}

// Reads entries one by one.
fn read_members<K: FromWireValue + EqualValue + Hash + Drop, W: ReadsKept, S: BuildHasher>(
    alloc: Global,
    kept: &W,
    entries: &mut IndexMap<K, W::Kept, S>,
    members: Vec<Json>,
) -> Result<(), WireError>
    requires { W.ready kept.now }
    ensures form { let form = entry_form (λ k. K.form (K.content k)) (W.form kept.now) in
        let old = map form entries.old.entries in
        OnOk result (map form entries.new.entries ≡ old ++ map view members.items) }
    ensures known { let known = AreKnownEntries K.is_value (W.is_known kept.now) K.same in
        let before = map (λ e. K.content e.0) entries.old.entries in
        (es : List (K.Content × W.Kept)) → known before es
        → map (entry_form K.form (W.form kept.now)) es ≡ map view members.items
        → IfErr result (λ e. e ≡ WireError.NoMemory) }
{
    for member in members {
        read_entry(alloc, kept, entries, member)?;
    }
    Ok(())
}

/// Reads the entries of a map into one that has none.
pub(crate) fn read_entries<
    K: FromWireValue + EqualValue + Hash + Drop,
    W: ReadsKept,
    S: BuildHasher,
>(
    alloc: Global,
    kept: &W,
    entries: &mut IndexMap<K, W::Kept, S>,
    value: Json,
) -> Result<(), WireError>
    requires ready { W.ready kept.now }
    requires none { entries.old.entries ≡ [] }
    ensures form { let form = entry_form (λ k. K.form (K.content k)) (W.form kept.now) in
        OnOk result (list_form form entries.new.entries ≡ view value) }
    ensures known { let known = AreKnownEntries K.is_value (W.is_known kept.now) K.same in
        (es : List (K.Content × W.Kept)) → known [] es
        → list_form (entry_form K.form (W.form kept.now)) es ≡ view value
        → IfErr result (λ e. e ≡ WireError.NoMemory) }
{
    let members = members_of(value)?;
    read_members(alloc, kept, entries, members)
}
