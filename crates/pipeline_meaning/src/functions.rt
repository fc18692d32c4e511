//! The functions of a pipeline, each made of what the file names, with what is worth preparing once.

ghost use Rattle.std.specs.Prelude.{◌≡◌, count_by, map, ⊤, OnOk, [], ◌∷◌, cond, flat_map};
ghost use Rattle.spliterator.specs.Values.{IsI64};
ghost use Rattle.stages.specs.Operators.{IsAssociative};
ghost use Rattle.pipeline_meaning.specs.Functions.{number_image, number_holds, number_join, text_holds, text_join, change_image, mapping_image, comparison_holds, check_holds, joining_join, merging_join, mapping_image-value, merging_join-value, text_join-value};

use pipeline_language::{Merge, NumberChange, NumberFunction, NumberTest, TextMerge, TextTest};
use spliterator::{NoMemory, Text, Value};
use stages::{Mapping, Operator, Test};
use stream_functions::{
    Above, Below, Divisible, Divisor, Equal, Negated, PlainMapping, Plus, Times, keep_all,
    keep_runs, map_all, remainders,
};

/// What a number is changed to.
fn changed(change: NumberChange, x: i64) -> i64
    ensures { result ≡ change_image change x }
{
    match change {
        NumberChange::Add(n) => Plus(n).image_of(&x),
        NumberChange::Mul(n) => Times(n).image_of(&x),
        NumberChange::Negate => Negated.image_of(&x),
    }
}

/// What a number is mapped to. No choice has more than three ways: four or more become a jump through a table, which costs some processors
/// as much as the rest of an item.
#[derive(Clone, Copy)]
pub enum NumberMapping {
    Itself,
    Mod(Divisor),
    Change(NumberChange),
}

impl NumberMapping {
    pub fn of(function: NumberFunction) -> NumberMapping
        ensures { ⟦<NumberMapping as Mapping<i64>>⟧.image result ≡ number_image function }
    {
        match function {
            NumberFunction::Change(change) => NumberMapping::Change(change),
            NumberFunction::Mod(n) => NumberMapping::Mod(Divisor::new(n)),
            NumberFunction::Itself => NumberMapping::Itself,
        }
    }

    pub(crate) fn image_of(&self, x: i64) -> i64
        ensures { result ≡ mapping_image self.now x }
    {
        match self {
            NumberMapping::Itself => x,
            NumberMapping::Mod(divisor) => divisor.remainder(x),
            NumberMapping::Change(change) => changed(*change, x),
        }
    }
}

impl Mapping<i64> for NumberMapping {
    type Out = i64;

    ghost image = { mapping_image };

    ghost images_are_values = { mapping_image-value };

    fn image(&self, x: &i64) -> Result<i64, NoMemory> {
        Ok(self.image_of(*x))
    }
}

/// A comparison with a number.
#[derive(Clone, Copy)]
pub enum NumberComparison {
    Less(i64),
    Greater(i64),
    Equals(i64),
}

impl NumberComparison {
    fn holds(&self, x: i64) -> bool
        ensures { result ≡ comparison_holds self.now x }
    {
        match self {
            NumberComparison::Less(n) => x < *n,
            NumberComparison::Greater(n) => x > *n,
            NumberComparison::Equals(n) => x == *n,
        }
    }

    fn count_meeting(self, items: &[i64]) -> usize
        ensures { result ≡ count_by (comparison_holds self) (map (λ x. x) items.now) }
    {
        match self {
            NumberComparison::Less(n) => Below(n).count_meeting(items),
            NumberComparison::Greater(n) => Above(n).count_meeting(items),
            NumberComparison::Equals(n) => Equal(n).count_meeting(items),
        }
    }
}

/// What is asked of a number.
#[derive(Clone, Copy)]
pub enum NumberCheck {
    Divisible(Divisor),
    Comparison(NumberComparison),
}

impl NumberCheck {
    pub fn of(test: NumberTest) -> NumberCheck
        ensures { ⟦<NumberCheck as Test<i64>>⟧.holds result ≡ number_holds test }
    {
        match test {
            NumberTest::Less(n) => NumberCheck::Comparison(NumberComparison::Less(n)),
            NumberTest::Greater(n) => NumberCheck::Comparison(NumberComparison::Greater(n)),
            NumberTest::Equals(n) => NumberCheck::Comparison(NumberComparison::Equals(n)),
            NumberTest::Divisible(n) => NumberCheck::Divisible(Divisor::new(n)),
        }
    }
}

impl Test<i64> for NumberCheck {
    ghost holds = { check_holds };

    fn holds(&self, x: &i64) -> bool {
        match self {
            NumberCheck::Divisible(divisor) => divisor.divides(*x),
            NumberCheck::Comparison(comparison) => comparison.holds(*x),
        }
    }

    // Which check it is is asked once for all items.
    fn count_meeting(&self, items: &[i64]) -> usize {
        match *self {
            NumberCheck::Divisible(divisor) => Divisible { divisor }.count_meeting(items),
            NumberCheck::Comparison(comparison) => comparison.count_meeting(items),
        }
    }
}

/// What is asked of a text.
#[derive(Clone, Copy)]
pub struct TextCheck<'a> {
    pub test: TextTest<'a>,
}

impl<'a> TextCheck<'a> {
    pub fn of(test: TextTest<'a>) -> TextCheck<'a>
        ensures { result.test ≡ test.entry }
    {
        TextCheck { test }
    }
}

impl<T: Text> Test<T> for TextCheck<'_> {
    ghost holds = { λ t. text_holds t.test };

    fn holds(&self, x: &T) -> bool {
        let text = x.text();
        match self.test {
            TextTest::Empty => text.is_empty(),
            TextTest::Starts(front) => text.starts_with(front),
            TextTest::Longer(n) => text.len() as u64 > n,
        }
    }
}

/// A number that is made of two.
#[derive(Clone, Copy)]
pub enum NumberJoining {
    Sum,
    Max,
    Min,
}

impl NumberJoining {
    fn of_both(&self, a: i64, b: i64) -> i64
        ensures { result ≡ joining_join self.now a b }
    {
        match self {
            NumberJoining::Sum => a.wrapping_add(b),
            NumberJoining::Max => a.max(b),
            NumberJoining::Min => a.min(b),
        }
    }
}

/// What becomes of two numbers of one key. No choice has more than three ways, as in `NumberMapping`.
#[derive(Clone, Copy)]
pub enum NumberMerging {
    First,
    Last,
    Joined(NumberJoining),
}

impl NumberMerging {
    pub fn of(merge: Merge) -> NumberMerging
        ensures join { ⟦<NumberMerging as Operator<i64>>⟧.join result ≡ number_join merge }
        ensures associative { IsAssociative IsI64 (⟦<NumberMerging as Operator<i64>>⟧.join result) }
    {
        match merge {
            Merge::First => NumberMerging::First,
            Merge::Last => NumberMerging::Last,
            Merge::Sum => NumberMerging::Joined(NumberJoining::Sum),
            Merge::Max => NumberMerging::Joined(NumberJoining::Max),
            Merge::Min => NumberMerging::Joined(NumberJoining::Min),
        }
    }
}

impl Operator<i64> for NumberMerging {
    ghost join = { merging_join };

    ghost joins_are_values = { merging_join-value };

    fn join(&self, a: &i64, b: &i64) -> Result<i64, NoMemory> {
        Ok(match self {
            NumberMerging::First => *a,
            NumberMerging::Last => *b,
            NumberMerging::Joined(joining) => joining.of_both(*a, *b),
        })
    }
}

/// What becomes of two texts of one key.
#[derive(Clone, Copy)]
pub struct TextMerging {
    pub merge: TextMerge,
}

impl TextMerging {
    pub fn of(merge: TextMerge) -> TextMerging
        ensures merge { result.merge ≡ merge }
        ensures associative { IsAssociative (λ _. ⊤)
            (⟦<TextMerging as Operator<&'static str>>⟧.join result) }
    {
        TextMerging { merge }
    }
}

impl<T: Text + Copy> Operator<T> for TextMerging {
    ghost join = { λ m. text_join m.merge };

    ghost joins_are_values = { λ m. text_join-value m.merge T.is_value };

    fn join(&self, a: &T, b: &T) -> Result<T, NoMemory> {
        Ok(match self.merge {
            TextMerge::First => *a,
            TextMerge::Last => *b,
        })
    }
}

/// Puts each number's image in its place.
pub(crate) fn map_block(mapping: NumberMapping, items: &mut Vec<i64>) -> Result<(), NoMemory>
    ensures { OnOk result (items.new.items ≡ flat_map (λ x. mapping_image mapping x ∷ []) items.old.items) }
{
    match mapping {
        NumberMapping::Itself => Ok(()),
        NumberMapping::Mod(divisor) => remainders(divisor, items),
        NumberMapping::Change(change) => match change {
            NumberChange::Add(summand) => map_all(Plus(summand), items),
            NumberChange::Mul(factor) => map_all(Times(factor), items),
            NumberChange::Negate => map_all(Negated, items),
        },
    }
}

/// Leaves the numbers that meet a test.
pub(crate) fn filter_block(check: NumberCheck, items: &mut Vec<i64>)
    ensures { items.new.items ≡ flat_map (λ x. cond (check_holds check x) (x ∷ []) []) items.old.items }
{
    match check {
        NumberCheck::Divisible(divisor) => keep_all(Divisible { divisor }, items),
        NumberCheck::Comparison(comparison) => match comparison {
            NumberComparison::Less(bound) => keep_runs(Below(bound), items),
            NumberComparison::Greater(bound) => keep_runs(Above(bound), items),
            NumberComparison::Equals(number) => keep_runs(Equal(number), items),
        },
    }
}
