//! Stages, as the links of a chain and the steps behind them.

ghost use Rattle.std.specs.Prelude.{◌≡◌, All, IfOk, List, flat_map, Bool, false, IsTrue, MatchBool, MatchOption};
ghost use Rattle.spliterator.specs.Clones.{ClonesAlike};
ghost use Rattle.chained_streams.specs.Chains.{link_value, through_links};
ghost use Rattle.pipeline_meaning.specs.Walks.{one_after_other};
ghost use Rattle.pipeline_value.specs.Barriers.{IsReady, barrier_list};
ghost use Rattle.pipeline_meaning.specs.Stages.{is_barrier_stage, number_stage, text_stage};

use barriers::{AnyBarrier, Barrier, Demand, Distinct, DropWhile, Limit, Skip, TakeWhile};
use chained_streams::Link;
use pipeline_language::{Barrier as Line, NumberStage, Part, TextStage};
use pipeline_meaning::{NumberCheck, NumberSteps, SeededHashes, TextCheck, TextSteps};
use spliterator::{EqualValue, NoMemory, OrderedValue};
use stages::{Stage, Test};
use std::alloc::Global;
use std::hash::Hash;

/// A barrier of the language, whose distinct items are hashed by seeded hashes.
pub(crate) type LanguageBarrier<K> = AnyBarrier<K, SeededHashes>;

/// Stages as links, and the steps behind the last of them.
#[derive(Drop)]
pub(crate) struct LinkedStages<A, B> {
    pub(crate) links: Vec<Link<A, B>>,
    pub(crate) steps: A,
}

/// A barrier of the language as one of the library's.
fn language_barrier<T, K>(hashes: SeededHashes, barrier: Line<K>) -> LanguageBarrier<K>
where
    T: OrderedValue + EqualValue + Hash + Clone + Drop,
    K: Test<T>,
    requires ready { IsReady K.ready barrier }
    requires clones { ClonesAlike T.is_clone T.content }
    ensures value { (l : List T.Content) → ⟦<LanguageBarrier<K> as Barrier<T>>⟧.value result l ≡ barrier_list T.same K.holds barrier l }
    ensures ready { ⟦<LanguageBarrier<K> as Demand<T>>⟧.ready result }
    ensures can { ⟦<LanguageBarrier<K> as Barrier<T>>⟧.can_carry result }
{
    match barrier {
        Line::Distinct => AnyBarrier::Distinct(Distinct::with_hasher(hashes)),
        Line::Counted(Part::Front, most) => AnyBarrier::Limit(Limit::new(most.get())),
        Line::Counted(Part::Rest, number) => AnyBarrier::Skip(Skip::new(number.get())),
        Line::While(Part::Front, test) => AnyBarrier::TakeWhile(TakeWhile::new(test)),
        Line::While(Part::Rest, test) => AnyBarrier::DropWhile(DropWhile::new(test)),
    }
}

/// Stages as links, and the steps behind the last of them.
pub(crate) fn linked<T, G>(
    alloc: Global,
    hashes: SeededHashes,
    stages: &[G],
) -> Result<LinkedStages<G::Steps, LanguageBarrier<G::Check>>, NoMemory>
where
    T: OrderedValue + EqualValue + Hash + Clone + Drop,
    G: LanguageStage<T>,
    requires clones { ClonesAlike T.is_clone T.content }
    ensures means { let value = link_value G.Steps.expand ⟦<LanguageBarrier<G::Check> as Barrier<T>>⟧.value in
        IfOk result (λ linked. (l : List T.Content) → flat_map (G.Steps.expand linked.steps) (through_links value linked.links.items l) ≡ one_after_other G.makes stages.now l) }
    ensures ready { IfOk result (λ linked. All (λ link. G.Steps.ready link.stage × ⟦<LanguageBarrier<G::Check> as Demand<T>>⟧.ready link.barrier × ⟦<LanguageBarrier<G::Check> as Barrier<T>>⟧.can_carry link.barrier) linked.links.items) }
{
    let mut links = Vec::new(alloc);
    let mut steps = G::no_steps(alloc);
    for at in 0..stages.len() {
        if stages[at].put_behind(&mut steps)? {
            continue;
        }
        let Some(barrier) = stages[at].barrier() else {
            unreachable!()
        };
        let barrier = language_barrier::<T, G::Check>(hashes, barrier);
        links.push(Link {
            stage: steps,
            barrier,
        })?;
        steps = G::no_steps(alloc);
    }
    Ok(LinkedStages { links, steps })
}

/// A stage of the language over items of one type.
pub(crate) trait LanguageStage<T: OrderedValue + Drop>: Sized {
    /// Stages that look at one item at a time, as one stage.
    type Steps: Stage<In = T, Out = T> + Drop + Sync;

    /// A test, prepared.
    type Check: Test<T> + Drop + Sync;

    // what the stage makes of a list
    ghost makes: { Self → List T.Content → List T.Content };

    // whether the stage looks at more than one item
    ghost is_barrier: { Self → Bool };

    /// No stage.
    fn no_steps(alloc: Global) -> Self::Steps
        ensures { (l : List T.Content) → flat_map (Self.Steps.expand result) l ≡ l };

    /// Puts the stage behind others. Says whether it did: it doesn't put a barrier.
    fn put_behind(&self, steps: &mut Self::Steps) -> Result<bool, NoMemory>
        ensures { IfOk result (λ is_put. MatchBool is_put ((l : List T.Content) → flat_map (Self.Steps.expand steps.new) l ≡ makes self.now (flat_map (Self.Steps.expand steps.old) l)) (IsTrue (is_barrier self.now) × (steps.new ≡ steps.old))) };

    /// The barrier that the stage is, or `None` where it looks at one item at a time.
    fn barrier(&self) -> Option<Line<Self::Check>>
        ensures none { MatchOption result (is_barrier self.now ≡ false) (λ b. (l : List T.Content) → barrier_list T.same Self.Check.holds b l ≡ makes self.now l) }
        ensures ready { MatchOption result (Unit {0}) (IsReady Self.Check.ready) };

    // steps are always ready
    ghost are_ready: { (steps : Self.Steps) → Self.Steps.Stage.ready steps };
}

impl LanguageStage<i64> for NumberStage {
    type Steps = NumberSteps;

    type Check = NumberCheck;

    ghost are_ready = { λ _. tt };

    ghost makes = { number_stage };

    ghost is_barrier = { is_barrier_stage };

    fn no_steps(alloc: Global) -> NumberSteps {
        NumberSteps::new(alloc)
    }

    fn put_behind(&self, steps: &mut NumberSteps) -> Result<bool, NoMemory> {
        steps.put(self)
    }

    fn barrier(&self) -> Option<Line<NumberCheck>> {
        let NumberStage::Barrier(barrier) = *self else {
            return None;
        };
        Some(match barrier {
            Line::Distinct => Line::Distinct,
            Line::Counted(part, number) => Line::Counted(part, number),
            Line::While(part, test) => Line::While(part, NumberCheck::of(test)),
        })
    }
}

impl<'a> LanguageStage<&'a str> for TextStage<'a> {
    type Steps = TextSteps<'a>;

    type Check = TextCheck<'a>;

    ghost are_ready = { λ _. tt };

    ghost makes = { text_stage };

    ghost is_barrier = { is_barrier_stage };

    fn no_steps(alloc: Global) -> TextSteps<'a> {
        TextSteps::new(alloc)
    }

    fn put_behind(&self, steps: &mut TextSteps<'a>) -> Result<bool, NoMemory> {
        steps.put(self)
    }

    fn barrier(&self) -> Option<Line<TextCheck<'a>>> {
        let TextStage::Barrier(barrier) = *self else {
            return None;
        };
        Some(match barrier {
            Line::Distinct => Line::Distinct,
            Line::Counted(part, number) => Line::Counted(part, number),
            Line::While(part, test) => Line::While(part, TextCheck::of(test)),
        })
    }
}
