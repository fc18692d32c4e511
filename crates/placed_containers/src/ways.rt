//! Parts that lead from the begin of the whole to its end, one behind another.
ghost use Rattle.std.specs.Prelude.{◌≡◌, ◌<◌, ◌≤◌, ℕ, List, All, Contains, IfOk, IfErr, length};
ghost use Rattle.collectors.specs.Laws.{IsContainerOf};
ghost use Rattle.placed_containers.specs.Parts.{IsForMore, IsPart, Joins};
ghost use Rattle.placed_containers.specs.Ways.{HasPart, IsFalling, IsStop, IsWay, LeadsOn, begin_of, end_of};
ghost use Rattle.placed_containers.specs.declared.error.PartsError.{PartsError};

use crate::pieces::{Part, extend_piece, sort_parts};
use crate::{Gaps, PartsError, Places};
use collectors::{Collector, finish_container, new_container};
use indexmap::IndexSet;
use spliterator::NoMemory;
use std::alloc::Global;

// The parts from which others lead to the end, in the order of their places.
fn leading_parts<A: Drop>(
    alloc: Global,
    of: u64,
    parts: Vec<Part<A>>,
) -> Result<Vec<Part<A>>, NoMemory>
    ensures members { IfOk result (λ leading. All (Contains parts.items) leading.items) }
    ensures leads { IfOk result (λ leading. LeadsOn of leading.items) }
    ensures reaches { IsFalling parts.items → All (λ part. begin_of part ≤ end_of part) parts.items
        → (p : ℕ) (stops : List ℕ) → IsWay (HasPart parts.items) p stops of
        → IfOk result (λ leading. IsStop of leading.items p) }
{
    let mut places = IndexSet::new(alloc);
    places.insert(of)?;
    let mut leading = Vec::new(alloc);
    for part in parts {
        if places.contains(&part.places.to) {
            places.insert(part.places.from)?;
            leading.push(part)?;
        }
    }
    leading.reverse();
    Ok(leading)
}

// What parts make from the begin on, each joined where it begins at the end so far.
fn follow_parts<C: Collector>(
    collector: &C,
    of: u64,
    parts: Vec<Part<C::Acc>>,
) -> Result<Part<C::Acc>, NoMemory>
    requires { C.ready collector.now }
    ensures begin { IfOk result (λ piece. piece.places.from ≡ 0) }
    ensures part { let c = collector.now in
        let made = IsContainerOf C.Item.is_value (C.content c) (C.empty c) (C.add c) in
        (between : ℕ → ℕ → List C.Item.Content) → Joins between
        → All (IsPart made between of) parts.items
        → IfOk result (IsPart made between of) }
    ensures end { LeadsOn of parts.items → IsStop of parts.items 0
        → IfOk result (λ piece. piece.places.to ≡ of) }
{
    let mut piece = Part {
        places: Places { from: 0, to: 0, of },
        container: new_container(collector)?,
    };
    for part in parts {
        extend_piece(collector, &mut piece, part)?;
    }
    Ok(piece)
}

// The places between parts that follow one another: each is the first behind the one before it, and the longest that begins there.
fn gaps_of<A>(alloc: Global, of: u64, parts: &[Part<A>]) -> Result<Vec<Places>, NoMemory> {
    let mut gaps = Vec::new(alloc);
    let (mut begin, mut from) = (0, 0);
    for part in parts.iter().rev() {
        let Places { from: next, to, .. } = part.places;
        if next == to {
            continue;
        }
        if from < next {
            let to = next;
            gaps.push(Places { from, to, of })?;
        }
        if from <= next || begin == next {
            begin = next;
            from = to;
        }
    }
    if from < of {
        gaps.push(Places { from, to: of, of })?;
    }
    Ok(gaps)
}

/// The result, where parts lead from the begin to the end.
pub(crate) fn finish_whole<C: Collector>(
    alloc: Global,
    collector: &C,
    mut parts: Vec<Part<C::Acc>>,
) -> Result<C::Out, PartsError>
    requires { C.ready collector.now }
    ensures result { let c = collector.now in
        let made = IsContainerOf C.Item.is_value (C.content c) (C.empty c) (C.add c) in
        (between : ℕ → ℕ → List C.Item.Content) (n : ℕ) → Joins between
        → All (IsPart made between n) parts.items
        → IfOk result (C.gives c (between 0 n)) }
    ensures known { IfErr result IsForMore }
    ensures complete { let c = collector.now in
        let made = IsContainerOf C.Item.is_value (C.content c) (C.empty c) (C.add c) in
        (between : ℕ → ℕ → List C.Item.Content) (n : ℕ) → All (IsPart made between n) parts.items
        → 0 < length parts.items → (stops : List ℕ) → IsWay (HasPart parts.items) 0 stops n
        → IfErr result (λ e. e ≡ PartsError.NoMemory) }
{
    let Some(first) = parts.first() else {
        return Err(PartsError::NoParts);
    };
    let of = first.places.of;
    sort_parts(&mut parts);
    let gaps = gaps_of(alloc, of, parts.as_slice())?;
    let leading = leading_parts(alloc, of, parts)?;
    let whole = follow_parts(collector, of, leading)?;
    if whole.places.to < of {
        return Err(PartsError::Missing(Gaps { gaps }));
    }
    Ok(finish_container(collector, whole.container)?)
}
