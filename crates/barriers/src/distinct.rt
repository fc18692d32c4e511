ghost use Rattle.std.specs.Prelude.{◌≡◌, ◌++◌, List, [], None, IfOk, OnOk, filter, map, not, refl, true};
ghost use Rattle.std.specs.List.{list_any};
ghost use Rattle.std.specs.Option.{is_some};
ghost use Rattle.stages.specs.declared.flags.Operation.TheVariants.{Distinct as distinct_row};
ghost use Rattle.spliterator.specs.Clones.{ClonesAlike};
ghost use Rattle.stages.specs.Distinct.{distinct, distinct_after};
ghost use Rattle.barriers.specs.Needs.{no_item};
ghost use Rattle.barriers.specs.NeedLaws.{KeepsEnough-never};
ghost use Rattle.barriers.specs.Thinned.{IsThinned};
ghost use Rattle.barriers.specs.BarrierFlags.{KeepsSound-distinct};

use crate::{Barrier, Demand, Need};
use indexmap::IndexSet;
use spliterator::{EqualValue, NoMemory, OrderedValue, Value};
use stages::Operation;
use std::alloc::Global;
use std::hash::{BuildHasher, BuildHasherDefault, FoldHasher, Hash};
use std::mem;

// Of equal items the first, in the order of the items. The items go into a set that is empty; none is cloned.
fn first_ones<T: EqualValue + Hash + Drop, S: BuildHasher + Drop>(
    mut empty: IndexSet<T, S>,
    items: Vec<T>,
) -> Result<Vec<T>, NoMemory>
    requires { empty.keys ≡ [] }
    ensures { IfOk result (λ kept. map T.content kept.items ≡ distinct T.same (map T.content items.items)) }
{
    let alloc = *items.allocator();
    empty.extend(items)?;
    Ok(empty.into_iter().collect(alloc)?)
}

// So many of a leaf's items tell whether its others repeat.
const SAMPLE: usize = 1 << 10;

// Whether an item is the one at a place of a set.
fn stands_at<T: EqualValue + Hash, S: BuildHasher>(
    came: &IndexSet<T, S>,
    place: usize,
    x: &T,
) -> bool
    ensures { result ≡ true → list_any (T.PartialEq.eq x.now) came.now.keys ≡ true }
{
    let known = came.as_slice();
    place < known.len() && *x == known[place]
}

// The place of an item in a set. Items often come again in the order in which they came first, as remainders do. So an item is compared with the one
// that is expected, and hashed only where that is another.
fn place_of<T: EqualValue + Hash, S: BuildHasher>(
    came: &IndexSet<T, S>,
    expected: usize,
    x: &T,
) -> Option<usize>
    ensures { is_some result ≡ list_any (T.PartialEq.eq x.now) came.now.keys }
{
    if stands_at(came, expected, x) {
        return Some(expected);
    }
    came.get_index_of(x)
}

// The items that didn't come.
fn without_known<T: EqualValue + Hash + Drop, S: BuildHasher>(
    came: &IndexSet<T, S>,
    items: Vec<T>,
) -> Result<Vec<T>, NoMemory>
    ensures { let came = λ (x : T). list_any (T.PartialEq.eq x) came.now.keys in
        IfOk result (λ kept. kept.items ≡ filter (λ x. not (came x)) items.items) }
{
    let mut kept = Vec::new(*items.allocator());
    let mut expected = 0;
    for x in items {
        if let Some(place) = place_of(came, expected, &x) {
            expected = place.saturating_add(1);
            continue;
        }
        kept.push(x)?;
    }
    Ok(kept)
}

// Where it pays, drops the items that came, and of equal ones all but the first. The set is empty.
fn keep_new<T: EqualValue + Hash + Drop, S: BuildHasher + Drop>(
    came: &IndexSet<T, S>,
    empty: IndexSet<T, S>,
    items: Vec<T>,
    pays: bool,
) -> Result<Vec<T>, NoMemory>
    requires { empty.keys ≡ [] }
    ensures { let thinned = IsThinned None (distinct_after T.same (map T.content came.now.keys)) in
        IfOk result (λ kept. thinned (map T.content items.items) (map T.content kept.items)) }
{
    if !pays {
        return Ok(items);
    }
    let new = without_known(came, items)?;
    first_ones(empty, new)
}

// Drops items that came, and of equal ones all but the first. Where most of a sample are new, the others stay as they are: a set of them would not pay.
fn thin_distinct<T: EqualValue + Hash + Drop, S: BuildHasher + Copy + Drop>(
    came: &IndexSet<T, S>,
    hashes: S,
    items: &mut Vec<T>,
) -> Result<(), NoMemory>
    ensures { let thinned = IsThinned None (distinct_after T.same (map T.content came.now.keys)) in
        OnOk result (thinned (map T.content items.old.items) (map T.content items.new.items)) }
{
    let alloc = *items.allocator();
    let others = items.split_off(SAMPLE.min(items.len()))?;
    let sample = mem::replace(items, Vec::new(alloc));
    *items = keep_new(came, IndexSet::with_hasher(alloc, hashes), sample, true)?;
    let pays = items.len() <= SAMPLE / 2;
    let mut rest = keep_new(came, IndexSet::with_hasher(alloc, hashes), others, pays)?;
    items.append(&mut rest)?;
    Ok(())
}

// Makes room for three times as many items as a set has, where there is none for `more`. A set that grew with each segment would put all its items into
// their places anew too often. Where memory is refused, the set stays as it is.
fn make_room<T: EqualValue + Hash, S: BuildHasher>(came: &mut IndexSet<T, S>, more: usize)
    ensures { came.new.keys ≡ came.old.keys }
{
    if came.capacity().saturating_sub(came.len()) < more {
        let _refused = came.reserve(came.len().saturating_mul(3));
    }
}

// The items go into the set of those that came, and what is new there is cloned: an item that repeats is not.
fn carry_distinct<T: EqualValue + Hash + Clone + Drop, S: BuildHasher>(
    came: &mut IndexSet<T, S>,
    items: Vec<T>,
) -> Result<Vec<T>, NoMemory>
    requires { ClonesAlike T.is_clone T.content }
    ensures { (more : List T.Content) → IfOk result (λ kept.
        distinct_after T.same (map T.content came.old.keys) (map T.content items.items ++ more)
        ≡ map T.content kept.items ++ distinct_after T.same (map T.content came.new.keys) more) }
{
    let alloc = *items.allocator();
    let known = came.len();
    make_room(came, items.len());
    came.extend(items)?;
    Ok(Vec::from_clones(alloc, &came.as_slice()[known..])?)
}

/// Of equal items the first, in the order of the items (`java.util.stream.Stream`, `distinct`). `apply` moves the items; none is cloned. `S` hashes them.
#[derive(Clone, Copy, Debug)]
pub struct Distinct<S = BuildHasherDefault<FoldHasher>> {
    pub hashes: S,
}

impl Distinct {
    /// Items are hashed by the fast hash of `IndexSet`.
    pub fn new() -> Distinct {
        Distinct::with_hasher(BuildHasherDefault::new())
    }
}

impl<S> Distinct<S> {
    /// Items are hashed by `hashes`, as by a `RandomState` where strangers choose the items.
    pub fn with_hasher(hashes: S) -> Distinct<S>
        ensures { result.hashes ≡ hashes }
    {
        Distinct { hashes }
    }
}

impl<T: Value, S> Demand<T> for Distinct<S> {
    ghost needed = { λ _. None };

    ghost counted = { λ _. no_item };

    fn need(&self) -> Need {
        Need::Never
    }

    fn counts(&self, _x: &T) -> bool {
        false
    }
}

impl<T: OrderedValue + EqualValue + Hash + Clone + Drop, S: BuildHasher + Copy> Barrier<T>
    for Distinct<S> {
    /// Of the items that came the first ones, as clones.
    type State = IndexSet<T, S>;

    ghost value = { λ _. distinct T.same };

    ghost operation = { λ _. distinct_row };

    ghost size_after = { λ _ _. None };

    ghost value_behind = { λ _ came. distinct_after T.same (map T.content came.keys) };

    ghost needed_behind = { λ _ _. None };

    ghost can_carry = { λ _. ClonesAlike T.is_clone T.content };

    ghost enough_law = { λ _. KeepsEnough-never no_item (distinct T.same) };

    ghost enough_behind = { λ _ came. KeepsEnough-never no_item (distinct_after T.same (map T.content came.keys)) };

    ghost of_nothing = { λ _ _. refl };

    ghost flag_law = { λ _. KeepsSound-distinct T.same T.same_decides T.order };

    fn apply(&self, items: Vec<T>) -> Result<Vec<T>, NoMemory>
        ensures { IfOk result (λ kept. map T.content kept.items ≡ distinct T.same (map T.content items.items)) }
    {
        let empty = IndexSet::with_hasher(*items.allocator(), self.hashes);
        first_ones(empty, items)
    }

    fn operation(&self) -> Operation {
        Operation::Distinct
    }

    fn size_after(&self, _size: Option<u64>) -> Option<u64> {
        None
    }

    fn fresh(&self, alloc: Global) -> IndexSet<T, S> {
        IndexSet::with_hasher(alloc, self.hashes)
    }

    fn need_behind(&self, _state: &IndexSet<T, S>) -> Need {
        Need::Never
    }

    fn thins(&self, state: &IndexSet<T, S>) -> bool {
        !state.is_empty()
    }

    fn thin(&self, state: &IndexSet<T, S>, items: &mut Vec<T>) -> Result<(), NoMemory>
        ensures { let thinned = IsThinned None (distinct_after T.same (map T.content state.now.keys)) in
            OnOk result (thinned (map T.content items.old.items) (map T.content items.new.items)) }
    {
        thin_distinct(state, self.hashes, items)
    }

    fn carry(
        &self,
        state: &mut IndexSet<T, S>,
        items: Vec<T>,
        _is_cut: bool,
    ) -> Result<Vec<T>, NoMemory>
        requires { ClonesAlike T.is_clone T.content }
        ensures { (more : List T.Content) → IfOk result (λ kept.
            distinct_after T.same (map T.content state.old.keys) (map T.content items.items ++ more)
            ≡ map T.content kept.items ++ distinct_after T.same (map T.content state.new.keys) more) }
    {
        carry_distinct(state, items)
    }
}
