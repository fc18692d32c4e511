//! The language's collectors of texts, each chosen at run time.
ghost use Rattle.std.specs.Prelude.{◌≡◌, ⊤, ℕ, refl, List, bytes_eq};
ghost use Rattle.std.specs.Fmt.{signed_decimal};
ghost use Rattle.std.specs.Ordering.{int_eq};
ghost use Rattle.spliterator.specs.Values.{int_eq-decides, bytes_eq-decides};
ghost use Rattle.collectors.specs.Either.{either_laws};
ghost use Rattle.collectors.specs.GroupingLaws.{grouping_laws};
ghost use Rattle.pipeline_meaning.specs.Functions.{text_length};
ghost use Rattle.pipeline_meaning.specs.Adapting.{texts_behind, texts_behind_laws};
ghost use Rattle.value_text.specs.Texts.{itself, either_tells, groups_tell};
ghost use Rattle.pipeline_meaning.specs.Summaries.{text_inner_text, text_summary_text, text_groups_text};
ghost use Rattle.pipeline_meaning.specs.contracts.text_bases.TextBaseCollectorCollector.TheImpl.Laws as base;
ghost use Rattle.pipeline_meaning.specs.contracts.text_bases.TextBaseCollectorSummarizes.TheImpl.Laws as told;

use crate::seeded_hashes::SeededHashes;
use crate::text_bases::{TextBaseCollector, text_base, text_lengths};
use crate::{Adapted, Adapting, TextCheck};
use collectors::{Collector, GroupingBy};
use either::{Either, Left, Right};
use pipeline_language::{Mapped, NumberInner, TextFunction, TextInner, TextSummary};
use spliterator::NoMemory;
use std::alloc::Global;
use stream_functions::{Itself, Length};
use value_text::{Summarizes, Written, grouped};

/// What is made of texts inside another collector.
pub type TextInnerCollector<'a> = Adapted<Itself, TextCheck<'a>, TextBaseCollector<'a>>;

// The groups of texts by their lengths.
type TextsByLength<'a> = GroupingBy<Length, TextInnerCollector<'a>, SeededHashes>;

// The groups of equal texts.
type TextsByThemselves<'a> = GroupingBy<Itself, TextInnerCollector<'a>, SeededHashes>;

// Groups of texts.
type TextGroups<'a> = Either<TextsByLength<'a>, TextsByThemselves<'a>>;

// What is made of some of the texts, as is chosen at run time.
type TextSummaryChoice<'a> = Either<
    Adapted<Itself, TextCheck<'a>, TextInnerCollector<'a>>,
    TextGroups<'a>,
>;

/// What is made of some of the texts.
#[derive(Drop)]
pub struct TextSummaryCollector<'a> {
    chosen: TextSummaryChoice<'a>,
}

/// The container of a `TextSummaryCollector`.
#[derive(Drop)]
pub struct TextSummaryContainer<'a> {
    held: <TextSummaryChoice<'a> as Collector>::Acc,
}

/// What a `TextSummaryCollector` makes.
#[derive(Drop)]
pub struct TextSummaryResult<'a> {
    made: <TextSummaryChoice<'a> as Collector>::Out,
}

impl<'a> Written for TextSummaryResult<'a> {
    ghost text = { λ result. ⟦<<TextSummaryChoice<'a> as Collector>::Out as Written>⟧.text result.made };

    fn write_to(&self, out: &mut String) -> Result<(), NoMemory> {
        self.made.write_to(out)
    }
}

impl<'a> Collector for TextSummaryCollector<'a> {
    type Item = &'a str;

    type Acc = TextSummaryContainer<'a>;

    type Out = TextSummaryResult<'a>;

    ghost ready = { λ c. ⟦<TextSummaryChoice<'a> as Collector>⟧.ready c.chosen };

    ghost Content = { ⟦<TextSummaryChoice<'a> as Collector>⟧.Content };

    ghost content = { λ c acc. ⟦<TextSummaryChoice<'a> as Collector>⟧.content c.chosen acc.held };

    ghost empty = { λ c. ⟦<TextSummaryChoice<'a> as Collector>⟧.empty c.chosen };

    ghost add = { λ c. ⟦<TextSummaryChoice<'a> as Collector>⟧.add c.chosen };

    ghost merge = { λ c. ⟦<TextSummaryChoice<'a> as Collector>⟧.merge c.chosen };

    ghost gives = { λ c l result. ⟦<TextSummaryChoice<'a> as Collector>⟧.gives c.chosen l result.made };

    ghost laws = { λ c. either_laws (λ _. ⊤) _ _ _ _ _ _
        (λ a. texts_behind_laws (texts_behind_laws (base.laws-law a.downstream.downstream) a.downstream.step) a.step)
        (either_laws (λ _. ⊤) _ _ _ _ _ _
        (λ g. grouping_laws int_eq int_eq-decides text_length (λ _. ⊤) _ _ _ (texts_behind_laws (base.laws-law g.downstream.downstream) g.downstream.step))
        (λ g. grouping_laws bytes_eq bytes_eq-decides itself (λ _. ⊤) _ _ _ (texts_behind_laws (base.laws-law g.downstream.downstream) g.downstream.step)))
        c.chosen };

    fn supply(&self) -> Result<TextSummaryContainer<'a>, NoMemory> {
        let held = self.chosen.supply()?;
        Ok(TextSummaryContainer { held })
    }

    fn accumulate(&self, acc: &mut TextSummaryContainer<'a>, x: &&'a str) -> Result<(), NoMemory> {
        self.chosen.accumulate(&mut acc.held, x)
    }

    fn accumulate_all(
        &self,
        acc: &mut TextSummaryContainer<'a>,
        items: &[&'a str],
    ) -> Result<(), NoMemory> {
        self.chosen.accumulate_all(&mut acc.held, items)
    }

    fn combine(
        &self,
        left: &mut TextSummaryContainer<'a>,
        right: TextSummaryContainer<'a>,
    ) -> Result<(), NoMemory> {
        self.chosen.combine(&mut left.held, right.held)
    }

    fn finish(&self, acc: TextSummaryContainer<'a>) -> Result<TextSummaryResult<'a>, NoMemory> {
        let made = self.chosen.finish(acc.held)?;
        Ok(TextSummaryResult { made })
    }

    fn is_light(&self, acc: &TextSummaryContainer<'a>) -> bool {
        self.chosen.is_light(&acc.held)
    }
}

impl<'a> Summarizes for TextSummaryCollector<'a> {
    ghost summary = { λ c. ⟦<TextSummaryChoice<'a> as Summarizes>⟧.summary c.chosen };

    ghost tells = { λ c l result. either_tells
        (λ a l. told.tells-law a.downstream.downstream (texts_behind a.downstream.step (texts_behind a.step l)))
        (either_tells
        (λ g l made. groups_tell signed_decimal (λ n. n) signed_decimal (λ _. refl) int_eq text_length _ _ _
        (λ l. told.tells-law g.downstream.downstream (texts_behind g.downstream.step l)) l made.entries)
        (λ g l made. groups_tell (λ text. text.now) (λ text. text.now) itself (λ _. refl) bytes_eq itself _ _ _
        (λ l. told.tells-law g.downstream.downstream (texts_behind g.downstream.step l)) l made.entries))
        c.chosen l result.made };
}

/// The collector of texts inside another.
fn text_inner<'a>(alloc: Global, inner: TextInner<'a>) -> TextInnerCollector<'a>
    ensures ready { ⟦<TextInnerCollector<'a> as Collector>⟧.ready result }
    ensures summary { (l : List (List ℕ)) → ⟦<TextInnerCollector<'a> as Summarizes>⟧.summary result l
        ≡ text_inner_text inner.entry l }
{
    let (step, base) = match inner {
        TextInner::Base(base) | TextInner::Mapping(Mapped::Itself(base)) => (
            Adapting::Nothing,
            base,
        ),
        TextInner::Mapping(Mapped::Length(base)) => {
            let lengths = text_lengths(alloc, NumberInner::Base(base));
            return Adapted::new(Adapting::Nothing, lengths);
        }
        TextInner::Filtering(test, base) => (Adapting::Filtering(TextCheck::of(test)), base),
    };
    Adapted::new(step, text_base(alloc, base))
}

// The collector of groups of texts.
fn text_groups<'a>(
    alloc: Global,
    hashes: SeededHashes,
    key: TextFunction,
    inner: TextInner<'a>,
) -> TextGroups<'a>
    ensures ready { ⟦<TextGroups<'a> as Collector>⟧.ready result }
    ensures summary { (l : List (List ℕ)) → ⟦<TextGroups<'a> as Summarizes>⟧.summary result l
        ≡ text_groups_text key (text_inner_text inner.entry) l }
{
    let inner = text_inner(alloc, inner);
    match key {
        TextFunction::Length => Left(grouped(alloc, Length, inner, hashes)),
        TextFunction::Itself => Right(grouped(alloc, Itself, inner, hashes)),
    }
}

/// The collector of texts. Groups are hashed by `hashes`, since whoever writes a file picks the keys.
pub fn text_summary<'a>(
    alloc: Global,
    hashes: SeededHashes,
    summary: TextSummary<'a>,
) -> TextSummaryCollector<'a>
    ensures ready { ⟦<TextSummaryCollector<'a> as Collector>⟧.ready result }
    ensures summary { (l : List (List ℕ)) → ⟦<TextSummaryCollector<'a> as Summarizes>⟧.summary result l
        ≡ text_summary_text summary.entry l }
{
    let (step, inner) = match summary {
        TextSummary::Base(base) => (Adapting::Nothing, text_inner(alloc, TextInner::Base(base))),
        TextSummary::Mapping(Mapped::Itself(inner)) => (
            Adapting::Nothing,
            text_inner(alloc, inner),
        ),
        TextSummary::Mapping(Mapped::Length(inner)) => (
            Adapting::Nothing,
            Adapted::new(Adapting::Nothing, text_lengths(alloc, inner)),
        ),
        TextSummary::Filtering(test, inner) => {
            let step = Adapting::Filtering(TextCheck::of(test));
            (step, text_inner(alloc, inner))
        }
        TextSummary::GroupBy(key, inner) => {
            let chosen = Right(text_groups(alloc, hashes, key, inner));
            return TextSummaryCollector { chosen };
        }
    };
    let chosen = Left(Adapted::new(step, inner));
    TextSummaryCollector { chosen }
}
