//! Two stages, one behind the other, that are put more simply.

ghost use Rattle.std.specs.Prelude.{◌≡◌, ◌≤◌, ◌+◌, IfSome, List, [], ◌++◌, drop, length, take, true};
ghost use Rattle.pipeline_meaning.specs.Stages.{stage_list};
ghost use Rattle.pipeline_plan.specs.Rules.{Betters, IsBetter, instead_list, IsSectionOver, Repeats, is_distinct, passes_copies};

use crate::{Kind, StageOf};
use pipeline_language::{Barrier, Part, Stage};

/// What stands in the place of two neighbours.
pub enum Instead<G> {
    Both(G, G),
    One(G),
}

/// A limit or a skip behind a map stands as well before it.
///
/// ```text
/// map negate, limit 3    // limit 3, map negate
/// ```
#[tactic(auto, using(crate::specs::Rules::section_first))]
fn section_first<K: Kind>(first: &StageOf<K>, second: &StageOf<K>) -> Option<Instead<StageOf<K>>>
    ensures { IfSome result (IsBetter K.means first.now second.now) }
{
    match (*first, *second) {
        (Stage::Map(_), Stage::Barrier(Barrier::Counted(_, _))) => {
            Some(Instead::Both(*second, *first))
        }
        _ => None,
    }
}

/// How many copies of each item a stage makes, where it makes copies alone.
pub(crate) fn copies_of<K: Kind>(stage: &StageOf<K>) -> Option<u64>
    ensures { IfSome result (Repeats K.means stage.now) }
{
    match stage {
        Stage::FlatMap(expansion) => K::copies(expansion),
        _ => None,
    }
}

/// Whether a stage makes nothing of whatever comes to it: so many copies as none.
#[tactic(auto, using(crate::specs::Rules::none_made))]
pub(crate) fn makes_none<K: Kind>(stage: &StageOf<K>) -> bool
    ensures { result ≡ true → (l : List K.Item.Content) → stage_list K.means stage.now l ≡ [] }
{
    matches!(copies_of::<K>(stage), Some(0))
}

/// What stands before a stage that makes nothing is of no use.
///
/// ```text
/// map negate, flatmap repeat 0    // flatmap repeat 0
/// ```
#[tactic(auto, using(crate::specs::Rules::nothing_first))]
fn emptied<K: Kind>(_first: &StageOf<K>, second: &StageOf<K>) -> Option<Instead<StageOf<K>>>
    ensures { IfSome result (IsBetter K.means _first.now second.now) }
{
    if makes_none::<K>(second) {
        Some(Instead::One(*second))
    } else {
        None
    }
}

/// Whether a stage looks at items and not at how many there are: a map, a filter or a while.
fn passes_copies<F, P, E>(stage: &Stage<F, P, E>) -> bool
    ensures { result ≡ passes_copies stage.now }
{
    match stage {
        Stage::Map(_) | Stage::Filter(_) | Stage::Barrier(Barrier::While(_, _)) => true,
        _ => false,
    }
}

/// What looks at items had better look before they are copied.
///
/// ```text
/// flatmap repeat 4, map negate    // map negate, flatmap repeat 4
/// ```
fn copies_last<K: Kind>(first: &StageOf<K>, second: &StageOf<K>) -> Option<Instead<StageOf<K>>>
    ensures { IfSome result (IsBetter K.means first.now second.now) }
{
    let _copies = copies_of::<K>(first)?;
    if passes_copies(second) {
        Some(Instead::Both(*second, *first))
    } else {
        None
    }
}

/// Whether the stage is `distinct`.
pub(crate) fn is_distinct<F, P, E>(stage: &Stage<F, P, E>) -> bool
    ensures { result ≡ is_distinct stage.now }
{
    matches!(stage, Stage::Barrier(Barrier::Distinct))
}

/// A `distinct` drops the copies that a repeat makes.
///
/// ```text
/// flatmap repeat 4, distinct    // distinct
/// ```
fn copies_dropped<K: Kind>(first: &StageOf<K>, second: &StageOf<K>) -> Option<Instead<StageOf<K>>>
    ensures { IfSome result (IsBetter K.means first.now second.now) }
{
    let copies = copies_of::<K>(first)?;
    if copies >= 1 && is_distinct(second) {
        Some(Instead::One(*second))
    } else {
        None
    }
}

/// The limit or the skip of items whose copies a limit or a skip is of, where it is of whole copies.
fn section_over<F: Copy, P: Copy, E: Copy>(
    stage: &Stage<F, P, E>,
    copies: u64,
) -> Option<Stage<F, P, E>>
    ensures { IfSome result (IsSectionOver copies stage.now) }
{
    match *stage {
        Stage::Barrier(Barrier::Counted(part, number)) => {
            let number = number.part(copies)?;
            Some(Stage::Barrier(Barrier::Counted(part, number)))
        }
        _ => None,
    }
}

/// A limit or a skip of whole copies stands as well before they are made.
///
/// ```text
/// flatmap repeat 4, limit 12    // limit 3, flatmap repeat 4
/// ```
#[tactic(auto, using(crate::specs::Rules::section_before_copies))]
fn section_before_copies<K: Kind>(
    first: &StageOf<K>,
    second: &StageOf<K>,
) -> Option<Instead<StageOf<K>>>
    ensures { IfSome result (IsBetter K.means first.now second.now) }
{
    let copies = copies_of::<K>(first)?;
    let part = section_over(second, copies)?;
    Some(Instead::Both(part, *first))
}

/// Two limits are one, and so are two skips.
///
/// ```text
/// limit 7, limit 3    // limit 3
/// skip 7, skip 3      // skip 10
/// ```
fn sections_merged<K: Kind>(first: &StageOf<K>, second: &StageOf<K>) -> Option<Instead<StageOf<K>>>
    ensures { IfSome result (IsBetter K.means first.now second.now) }
{
    let (Stage::Barrier(first), Stage::Barrier(second)) = (*first, *second) else {
        return None;
    };
    let barrier = match (first, second) {
        (Barrier::Counted(Part::Front, most), Barrier::Counted(Part::Front, other)) => {
            Barrier::Counted(Part::Front, most.least(other))
        }
        (Barrier::Counted(Part::Rest, number), Barrier::Counted(Part::Rest, other)) => {
            Barrier::Counted(Part::Rest, number.plus(other)?)
        }
        _ => return None,
    };
    Some(Instead::One(Stage::Barrier(barrier)))
}

/// The two as the first rule that fits puts them.
fn better<K: Kind>(first: &StageOf<K>, second: &StageOf<K>) -> Option<Instead<StageOf<K>>>
    ensures { IfSome result (IsBetter K.means first.now second.now) }
{
    emptied::<K>(first, second)
        .or_else(|| section_first::<K>(first, second))
        .or_else(|| copies_last::<K>(first, second))
        .or_else(|| copies_dropped::<K>(first, second))
        .or_else(|| section_before_copies::<K>(first, second))
        .or_else(|| sections_merged::<K>(first, second))
}

/// The first neighbours that a rule betters, and what stands in their place.
pub(crate) fn better_neighbours<K: Kind>(
    stages: &[StageOf<K>],
) -> Option<(usize, Instead<StageOf<K>>)>
    ensures within { IfSome result (λ found. found.0 + 2 ≤ length stages.now) }
    ensures betters { IfSome result (λ found. Betters K.means (instead_list found.1) (take 2 (drop found.0 stages.now))) }
{
    for at in 1..stages.len() {
        if let Some(new) = better::<K>(&stages[at - 1], &stages[at]) {
            return Some((at - 1, new));
        }
    }
    None
}

/// Puts something in the place of two neighbours.
pub(crate) fn put<G: Copy>(stages: &mut Vec<G>, at: usize, new: Instead<G>)
    requires { at + 2 ≤ length stages.old.items }
    ensures { stages.new.items ≡ take at stages.old.items ++ (instead_list new ++ drop (at + 2) stages.old.items) }
{
    match new {
        Instead::Both(first, second) => {
            stages[at] = first;
            stages[at + 1] = second;
        }
        Instead::One(stage) => {
            stages[at] = stage;
            stages.remove(at + 1);
        }
    }
}
