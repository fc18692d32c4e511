//! Parts in the order of their places, neighbours joined.
ghost use Rattle.std.specs.Prelude.{◌≡◌, ◌≢◌, ◌<◌, ◌≤◌, ◌⊎◌, ◌∷◌, [], ℕ, List, true, false, All, IfOk, IsSome, OnOk, length, if◌then◌else◌, nat_eq};
ghost use Rattle.std.specs.List.Sorted.{IsPermutation};
ghost use Rattle.collectors.specs.Laws.{IsContainerOf};
ghost use Rattle.placed_containers.specs.Parts.{IsPart, Joins};
ghost use Rattle.placed_containers.specs.Ways.{AllPieces, HasPart, HaveLength, IsFalling, IsLongestWay, all_of, begin_of, end_of};
ghost use Rattle.placed_containers.specs.declared.pieces.Part.{Part};

use crate::Places;
use collectors::{Collector, combine_containers};
use spliterator::NoMemory;
use std::alloc::Global;
use std::cmp::Reverse;

/// A part that was read, or several that were joined.
#[derive(Drop)]
pub(crate) struct Part<A> {
    pub places: Places,
    pub container: A,
}

/// Sorts parts: one that begins first comes last, and of those that begin together the shortest.
pub(crate) fn sort_parts<A>(parts: &mut Vec<Part<A>>)
    ensures permutation { IsPermutation parts.old.items parts.new.items }
    ensures len { length parts.new.items ≡ length parts.old.items }
    ensures falling { IsFalling parts.new.items }
{
    parts.sort_unstable_by_key(|part| Reverse((part.places.from, part.places.to)));
}

/// Takes a part into a piece where it begins at the piece's end.
pub(crate) fn extend_piece<C: Collector>(
    collector: &C,
    piece: &mut Part<C::Acc>,
    part: Part<C::Acc>,
) -> Result<(), NoMemory>
    requires { C.ready collector.now }
    ensures part { let c = collector.now in
        let made = IsContainerOf C.Item.is_value (C.content c) (C.empty c) (C.add c) in
        (between : ℕ → ℕ → List C.Item.Content) (n : ℕ) → Joins between
        → IsPart made between n piece.old → IsPart made between n part
        → OnOk result (IsPart made between n piece.new) }
    ensures begin { OnOk result (begin_of piece.new ≡ begin_of piece.old) }
    ensures end { let meets = nat_eq (end_of piece.old) (begin_of part) in
        OnOk result (end_of piece.new ≡ (if meets then end_of part else end_of piece.old)) }
{
    if piece.places.to != part.places.from {
        return Ok(());
    }
    if piece.places.from == piece.places.to {
        *piece = part;
        return Ok(());
    }
    combine_containers(collector, &mut piece.container, part.container)?;
    piece.places.to = part.places.to;
    Ok(())
}

// Pieces in the order of their places, the last of which stays open for what follows.
#[derive(Drop)]
struct Pieces<A> {
    done: Vec<Part<A>>,
    // where those end, at most
    end: u64,
    open: Option<Part<A>>,
}

// Whether a part tells nothing new: it has no length, or the next has its places too.
fn tells_nothing_new<A>(part: &Part<A>, rest: &[Part<A>]) -> bool
    ensures again { result ≡ true → HasPart rest.now (begin_of part.now) (end_of part.now)
        ⊎ (begin_of part.now ≡ end_of part.now) }
    ensures length { result ≡ false → begin_of part.now ≢ end_of part.now }
{
    if part.places.from == part.places.to {
        return true;
    }
    let Some(next) = rest.last() else {
        return false;
    };
    next.places.from == part.places.from && next.places.to == part.places.to
}

// Whether none of the parts that are left begins with this one.
fn begins_alone<A>(part: &Part<A>, rest: &[Part<A>]) -> bool
    ensures { IsFalling rest.now → All (λ r. begin_of part.now ≤ begin_of r) rest.now
        → result ≡ true → All (λ r. begin_of r ≢ begin_of part.now) rest.now }
{
    let Some(next) = rest.last() else {
        return true;
    };
    next.places.from != part.places.from
}

// Takes the part that follows. It is joined where nothing else ends at its begin, nor begins there.
fn take_part<C: Collector>(
    collector: &C,
    pieces: Pieces<C::Acc>,
    part: Part<C::Acc>,
    begins_alone: bool,
) -> Result<Pieces<C::Acc>, NoMemory>
    requires { C.ready collector.now }
    ensures parts { let c = collector.now in
        let made = IsContainerOf C.Item.is_value (C.content c) (C.empty c) (C.add c) in
        (between : ℕ → ℕ → List C.Item.Content) (n : ℕ) → Joins between
        → AllPieces (IsPart made between n) pieces → IsPart made between n part
        → IfOk result (AllPieces (IsPart made between n)) }
    ensures length { HaveLength pieces → begin_of part < end_of part → IfOk result HaveLength }
    ensures longest { HaveLength pieces → begin_of part < end_of part
        → (rest : List (Part C.Acc)) → All (λ r. begin_of part ≤ begin_of r) rest
        → All (λ r. begin_of r ≤ end_of r) rest
        → (begins_alone ≡ true → All (λ r. begin_of r ≢ begin_of part) rest)
        → (p q : ℕ) → IsLongestWay (HasPart (all_of pieces (part ∷ rest))) p q
        → IfOk result (λ after. IsLongestWay (HasPart (all_of after rest)) p q) }
    ensures open { IfOk result (λ after. IsSome after.open) }
{
    let Pieces {
        mut done,
        end,
        open,
    } = pieces;
    let Some(mut last) = open else {
        let open = Some(part);
        return Ok(Pieces { done, end, open });
    };
    let begin = part.places.from;
    if begins_alone && last.places.to == begin && end < begin {
        extend_piece(collector, &mut last, part)?;
        let open = Some(last);
        return Ok(Pieces { done, end, open });
    }
    let end = end.max(last.places.to);
    done.push(last)?;
    let open = Some(part);
    Ok(Pieces { done, end, open })
}

// The pieces, once nothing follows.
fn close<A: Drop>(pieces: Pieces<A>) -> Result<Vec<Part<A>>, NoMemory>
    ensures { IfOk result (λ list. list.items ≡ all_of pieces []) }
{
    let Pieces { mut done, open, .. } = pieces;
    if let Some(last) = open {
        done.push(last)?;
    }
    Ok(done)
}

/// The parts in the order of their places, neighbours joined, none twice.
pub(crate) fn join_parts<C: Collector>(
    alloc: Global,
    collector: &C,
    mut parts: Vec<Part<C::Acc>>,
) -> Result<Vec<Part<C::Acc>>, NoMemory>
    requires { C.ready collector.now }
    ensures parts { let c = collector.now in
        let made = IsContainerOf C.Item.is_value (C.content c) (C.empty c) (C.add c) in
        (between : ℕ → ℕ → List C.Item.Content) (n : ℕ) → Joins between
        → All (IsPart made between n) parts.items
        → IfOk result (λ pieces. All (IsPart made between n) pieces.items) }
    ensures longest { All (λ part. begin_of part ≤ end_of part) parts.items
        → (p q : ℕ) → IsLongestWay (HasPart parts.items) p q
        → IfOk result (λ pieces. IsLongestWay (HasPart pieces.items) p q) }
    ensures some { 0 < length parts.items → IfOk result (λ pieces. 0 < length pieces.items) }
{
    sort_parts(&mut parts);
    let mut pieces = Pieces {
        done: Vec::new(alloc),
        end: 0,
        open: None,
    };
    while let Some(part) = parts.pop() {
        if parts.is_empty() && pieces.open.is_none() {
            pieces.open = Some(part);
        } else if !tells_nothing_new(&part, parts.as_slice()) {
            let begins_alone = begins_alone(&part, parts.as_slice());
            pieces = take_part(collector, pieces, part, begins_alone)?;
        }
    }
    close(pieces)
}
