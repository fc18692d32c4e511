//! The collector of a base of texts or of their lengths, chosen at run time.
ghost use Rattle.std.proofs.Common.{ap};
ghost use Rattle.std.specs.Prelude.{◌≡◌, ⊤, ℕ, pos, refl, List, map};
ghost use Rattle.std.specs.Fmt.{signed_decimal};
ghost use Rattle.spliterator.specs.Values.{IsI64};
ghost use Rattle.stages.specs.Wrapping.{wrapped-value};
ghost use Rattle.collectors.specs.Either.{either_laws};
ghost use Rattle.collectors.specs.NestedLaws.{mapping_laws};
ghost use Rattle.collectors.specs.Reductions.{first, first_laws};
ghost use Rattle.collectors.specs.Sums.{sum_laws};
ghost use Rattle.value_text.specs.Texts.{itself, optional_tells, either_tells, joined_text_laws};
ghost use Rattle.pipeline_meaning.specs.Functions.{text_length};
ghost use Rattle.pipeline_meaning.specs.Adapting.{numbers_behind, numbers_behind_laws};
ghost use Rattle.pipeline_meaning.specs.Summaries.{number_inner_text, text_base_text};
ghost use Rattle.pipeline_meaning.specs.contracts.number_bases.NumberBaseCollectorCollector.TheImpl.Laws as numbers;
ghost use Rattle.pipeline_meaning.specs.contracts.number_bases.NumberBaseCollectorSummarizes.TheImpl.Laws as numbers_told;

use crate::number_summaries::{NumberInnerCollector, number_inner};
use collectors::{Collector, Counting, First, MappingTo};
use either::{Either, Left, Right};
use pipeline_language::{NumberInner, TextBase};
use spliterator::NoMemory;
use std::alloc::Global;
use stream_functions::Length;
use value_text::{JoinedText, Summarizes, Written};

// What is made of texts at once, or of their lengths, as is chosen at run time.
type TextBaseChoice<'a> = Either<
    Either<Counting<&'a str>, First<&'a str>>,
    Either<JoinedText<'a, &'a str>, MappingTo<&'a str, Length, NumberInnerCollector>>,
>;

/// What is made of texts at once, or of their lengths.
#[derive(Drop)]
pub struct TextBaseCollector<'a> {
    chosen: TextBaseChoice<'a>,
}

/// The container of a `TextBaseCollector`.
#[derive(Drop)]
pub struct TextBaseContainer<'a> {
    held: <TextBaseChoice<'a> as Collector>::Acc,
}

/// What a `TextBaseCollector` makes.
#[derive(Drop)]
pub struct TextBaseResult<'a> {
    made: <TextBaseChoice<'a> as Collector>::Out,
}

impl<'a> Written for TextBaseResult<'a> {
    ghost text = { λ result. ⟦<<TextBaseChoice<'a> as Collector>::Out as Written>⟧.text result.made };

    fn write_to(&self, out: &mut String) -> Result<(), NoMemory> {
        self.made.write_to(out)
    }
}

impl<'a> Collector for TextBaseCollector<'a> {
    type Item = &'a str;

    type Acc = TextBaseContainer<'a>;

    type Out = TextBaseResult<'a>;

    ghost ready = { λ c. ⟦<TextBaseChoice<'a> as Collector>⟧.ready c.chosen };

    ghost Content = { ⟦<TextBaseChoice<'a> as Collector>⟧.Content };

    ghost content = { λ c acc. ⟦<TextBaseChoice<'a> as Collector>⟧.content c.chosen acc.held };

    ghost empty = { λ c. ⟦<TextBaseChoice<'a> as Collector>⟧.empty c.chosen };

    ghost add = { λ c. ⟦<TextBaseChoice<'a> as Collector>⟧.add c.chosen };

    ghost merge = { λ c. ⟦<TextBaseChoice<'a> as Collector>⟧.merge c.chosen };

    ghost gives = { λ c l result. ⟦<TextBaseChoice<'a> as Collector>⟧.gives c.chosen l result.made };

    ghost laws = { λ c. either_laws (λ _. ⊤) _ _ _ _ _ _
        (either_laws (λ _. ⊤) _ _ _ _ _ _ (λ _. sum_laws (λ _. pos 1) (λ _. ⊤)) (λ _. first_laws (λ _. ⊤)))
        (either_laws (λ _. ⊤) _ _ _ _ _ _
        (λ joined. joined_text_laws (λ text. text) joined.between.now (λ _. ⊤))
        (λ m. mapping_laws text_length _ _ (λ _. ⊤) IsI64 (λ _ _. wrapped-value _) _ (numbers_behind_laws (numbers.laws-law m.downstream.downstream) m.downstream.step)))
        c.chosen };

    fn supply(&self) -> Result<TextBaseContainer<'a>, NoMemory> {
        let held = self.chosen.supply()?;
        Ok(TextBaseContainer { held })
    }

    #[inline(always)]
    fn accumulate(&self, acc: &mut TextBaseContainer<'a>, x: &&'a str) -> Result<(), NoMemory> {
        self.chosen.accumulate(&mut acc.held, x)
    }

    fn accumulate_all(
        &self,
        acc: &mut TextBaseContainer<'a>,
        items: &[&'a str],
    ) -> Result<(), NoMemory> {
        self.chosen.accumulate_all(&mut acc.held, items)
    }

    fn combine(
        &self,
        left: &mut TextBaseContainer<'a>,
        right: TextBaseContainer<'a>,
    ) -> Result<(), NoMemory> {
        self.chosen.combine(&mut left.held, right.held)
    }

    fn finish(&self, acc: TextBaseContainer<'a>) -> Result<TextBaseResult<'a>, NoMemory> {
        let made = self.chosen.finish(acc.held)?;
        Ok(TextBaseResult { made })
    }

    fn is_light(&self, acc: &TextBaseContainer<'a>) -> bool {
        self.chosen.is_light(&acc.held)
    }

    fn counts_alone(&self) -> bool {
        self.chosen.counts_alone()
    }
}

impl<'a> Summarizes for TextBaseCollector<'a> {
    ghost summary = { λ c. ⟦<TextBaseChoice<'a> as Summarizes>⟧.summary c.chosen };

    ghost tells = { λ c l result. either_tells
        (either_tells (λ _ _ _ h. ap signed_decimal h) (λ _ l made. optional_tells (λ text. text.now) (λ text. text.now) itself (λ _. refl) made (first l)))
        (either_tells (λ _ _ _ h. h)
        (λ m l. numbers_told.tells-law m.downstream.downstream (numbers_behind m.downstream.step (map text_length l))))
        c.chosen l result.made };
}

/// The collector of a base of texts.
pub fn text_base<'a>(alloc: Global, base: TextBase<'a>) -> TextBaseCollector<'a>
    ensures ready { ⟦<TextBaseCollector<'a> as Collector>⟧.ready result }
    ensures summary { (l : List (List ℕ)) → ⟦<TextBaseCollector<'a> as Summarizes>⟧.summary result l
        ≡ text_base_text base.entry l }
{
    let chosen = match base {
        TextBase::Count => Left(Left(Counting::new())),
        TextBase::First => Left(Right(First::new())),
        TextBase::ToList => Right(Left(JoinedText::list(alloc))),
        TextBase::Own(delimiter) => Right(Left(JoinedText::new(alloc, delimiter))),
    };
    TextBaseCollector { chosen }
}

/// The collector of the lengths of texts.
pub(crate) fn text_lengths<'a>(alloc: Global, inner: NumberInner) -> TextBaseCollector<'a>
    ensures ready { ⟦<TextBaseCollector<'a> as Collector>⟧.ready result }
    ensures summary { (l : List (List ℕ)) → ⟦<TextBaseCollector<'a> as Summarizes>⟧.summary result l
        ≡ number_inner_text inner (map text_length l) }
{
    let chosen = Right(Right(MappingTo::new(Length, number_inner(alloc, inner))));
    TextBaseCollector { chosen }
}
