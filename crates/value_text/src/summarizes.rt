//! Collectors whose results have texts that follow from the items.
ghost use Rattle.std.specs.Prelude.{◌≡◌, ◌++◌, ℕ, pos, List, OnOk, string_bytes, length, map, filter};
ghost use Rattle.std.specs.Fmt.{signed_decimal};
ghost use Rattle.either.specs.Either.{either};
ghost use Rattle.stages.specs.Wrapping.{wrapped};
ghost use Rattle.collectors.specs.Reductions.{reduced, first};
ghost use Rattle.collectors.specs.Sums.{int_sum};
ghost use Rattle.value_text.specs.Texts.{groups_text, parts_text, merged_text, optional_text, partition_text, pair_text, optional_tells, either_tells, groups_tell, merged_tells};
ghost use Rattle.std.proofs.Common.{ap, ap₂, ◌∙◌};
ghost use Rattle.collectors.specs.NestedLaws.{fails};

use crate::{Spelled, Written};
use collectors::{
    Collector, Counting, First, GroupingBy, MappingTo, Pairing, PartitioningBy, Reducing,
    SummingLong, Teeing, ToMap,
};
use either::Either;
use spliterator::{EqualValue, NoMemory, Value};
use stages::{Mapping, Operator, Test};
use std::alloc::Global;
use std::hash::{BuildHasher, Hash};

/// A collector whose result's text follows from the items.
pub trait Summarizes: Collector
where
    Self::Out: Written,
{
    // the text of the result on a list of items
    ghost summary: { Self → List Self.Item.Content → List ℕ };

    ghost tells: { (c : Self) (l : List Self.Item.Content) (made : Self.Out) → Self.gives c l made → Self.Out.text made ≡ summary c l };
}

/// Writes the text of a collector's result behind what `out` holds.
pub fn write_result<C: Summarizes>(
    _collector: &C,
    made: &C::Out,
    out: &mut String,
) -> Result<(), NoMemory>
where
    C::Out: Written,
    ensures { (l : List C.Item.Content) → C.gives _collector.now l made.now →
        OnOk result (string_bytes out.new ≡ string_bytes out.old ++ C.summary _collector.now l) }
{
    made.write_to(out)
}

/// Groups by a hasher, with the text of the groups in terms of the key's and the downstream's.
pub fn grouped<D: Summarizes, K: Mapping<D::Item>, S: BuildHasher + Copy>(
    alloc: Global,
    key: K,
    downstream: D,
    hashes: S,
) -> GroupingBy<K, D, S>
where
    K::Out: EqualValue + Spelled + Hash + Drop,
    D::Out: Written,
    ensures key { result.key ≡ key }
    ensures downstream { result.downstream ≡ downstream }
    ensures summary { (l : List D.Item.Content) → ⟦<GroupingBy<K, D, S> as Summarizes>⟧.summary result l
        ≡ groups_text K.Out.spelling K.Out.same (K.image key) (D.summary downstream) l }
{
    GroupingBy::with_hasher(alloc, key, downstream, hashes)
}

/// The two results of a `Teeing`, side by side.
#[derive(Clone, Copy)]
pub struct Both;

impl<A: Drop, B: Drop> Pairing<A, B> for Both {
    type Out = (A, B);

    ghost gives = { λ _ a b r. r ≡ (a, b) };

    fn pair(&self, first: A, second: B) -> Result<(A, B), NoMemory> {
        Ok((first, second))
    }
}

impl<T: Value> Summarizes for Counting<T> {
    ghost summary = { λ _ l. signed_decimal (wrapped (pos (length l))) };

    ghost tells = { λ _ _ _ h. ap signed_decimal h };
}

impl<T: Value, M: Mapping<T, Out = i64>> Summarizes for SummingLong<T, M> {
    ghost summary = { λ c l. signed_decimal (wrapped (int_sum (map (M.image c.number) l))) };

    ghost tells = { λ _ _ _ h. ap signed_decimal h };
}

impl<T: Spelled + Clone + Drop, O: Operator<T>> Summarizes for Reducing<T, O> {
    ghost summary = { λ c l. optional_text T.spelling (reduced (O.join c.operator) l) };

    ghost tells = { λ c l made. optional_tells T.text T.content T.spelling T.spelled made (reduced (O.join c.operator) l) };
}

impl<T: Spelled + Clone + Drop> Summarizes for First<T> {
    ghost summary = { λ _ l. optional_text T.spelling (first l) };

    ghost tells = { λ _ l made. optional_tells T.text T.content T.spelling T.spelled made (first l) };
}

impl<A: Summarizes, B: Summarizes + Collector<Item = A::Item>> Summarizes for Either<A, B>
where
    A::Out: Written,
    B::Out: Written,
{
    ghost summary = { either A.summary B.summary };

    ghost tells = { either_tells A.tells B.tells };
}

impl<T: Value, D: Summarizes, M: Mapping<T, Out = D::Item>> Summarizes for MappingTo<T, M, D>
where
    D::Item: Drop,
    D::Out: Written,
{
    ghost summary = { λ c l. D.summary c.downstream (map (M.image c.mapping) l) };

    ghost tells = { λ c l. D.tells c.downstream (map (M.image c.mapping) l) };
}

impl<D: Summarizes, P: Test<D::Item>> Summarizes for PartitioningBy<P, D>
where
    D::Out: Written,
{
    ghost summary = { λ c. parts_text (P.holds c.test) (D.summary c.downstream) };

    ghost tells = { λ c l made h. ap₂ partition_text (D.tells c.downstream (filter (fails (P.holds c.test)) l) made.no h.0) (D.tells c.downstream (filter (P.holds c.test) l) made.yes h.1) };
}

impl<D: Summarizes, K: Mapping<D::Item>, S: BuildHasher + Copy> Summarizes for GroupingBy<K, D, S>
where
    K::Out: EqualValue + Spelled + Hash + Drop,
    D::Out: Written,
{
    ghost summary = { λ c. groups_text K.Out.spelling K.Out.same (K.image c.key) (D.summary c.downstream) };

    ghost tells = { λ c l made. groups_tell K.Out.text K.Out.content K.Out.spelling K.Out.spelled K.Out.same (K.image c.key) D.Out.text (D.gives c.downstream) (D.summary c.downstream) (D.tells c.downstream) l made.entries };
}

impl<A: Summarizes, B: Summarizes + Collector<Item = A::Item>> Summarizes for Teeing<A, B, Both>
where
    A::Out: Written,
    B::Out: Written,
{
    ghost summary = { λ c l. pair_text (A.summary c.first l) (B.summary c.second l) };

    ghost tells = { λ c l made h. ap (λ p. pair_text (A.Out.text p.0) (B.Out.text p.1)) h.4 ∙ ap₂ pair_text (A.tells c.first l h.0 h.2) (B.tells c.second l h.1 h.3) };
}

impl<
    T: Value,
    U: Spelled + Drop,
    K: Mapping<T>,
    V: Mapping<T, Out = U>,
    M: Operator<U>,
    S: BuildHasher + Copy,
> Summarizes for ToMap<T, U, K, V, M, S>
where
    K::Out: EqualValue + Spelled + Hash + Drop,
{
    ghost summary = { λ c. merged_text K.Out.spelling U.spelling K.Out.same (K.image c.key) (V.image c.value) (M.join c.merge) };

    ghost tells = { λ c l made. merged_tells K.Out.text K.Out.content K.Out.spelling K.Out.spelled K.Out.same (K.image c.key) U.text U.content U.spelling U.spelled (λ s. reduced (M.join c.merge) (map (V.image c.value) s)) l made.entries };
}
