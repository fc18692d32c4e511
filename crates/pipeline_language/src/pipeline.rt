//! A pipeline, as a file names it. Pipelines of numbers and of texts are different types, so that each stage, terminal and
//! collector takes the items that come to it; the stage `map length` alone leads from texts to numbers.

use crate::grammar::{
    Base, Expansion, Inner, Joint, Merge, NumberChange, NumberOnly, NumberTest, NumberTotal, Stage,
    Summary, Terminal, TextCondition,
};
use crate::ranges::{ClosedRange, OpenRange};

/// A whole pipeline. Texts borrow from the file's bytes.
#[derive(Drop)]
pub enum Pipeline<'a> {
    Numbers(NumberSource, NumberBody),
    Texts(Vec<&'a str>, TextBody<'a>),
}

/// Stages over numbers in their order, and what is made of their items.
#[derive(Drop)]
pub struct NumberBody {
    pub stages: Vec<NumberStage>,
    pub terminal: NumberTerminal,
}

/// Stages over texts in their order, and what follows them.
#[derive(Drop)]
pub struct TextBody<'a> {
    pub stages: Vec<TextStage<'a>>,
    pub end: TextEnd<'a>,
}

/// What follows stages over texts.
#[derive(Drop)]
pub enum TextEnd<'a> {
    Terminal(TextTerminal<'a>),
    /// `map length`: the texts' lengths, and what follows over numbers.
    Lengths(NumberBody),
}

/// Where numbers come from.
#[derive(Drop)]
pub enum NumberSource {
    /// `range A B`: A, A + 1, .., B - 1.
    Range(OpenRange),
    /// `closed A B`: the same with B.
    Closed(ClosedRange),
    /// `numbers N ..`: the numbers as they stand.
    Numbers(Vec<i64>),
}

/// What one number is mapped to.
#[derive(Clone, Copy, PartialEq)]
pub enum NumberFunction {
    Change(NumberChange),
    /// The least remainder that isn't negative. The divisor is at least 1.
    Mod(i64),
    /// The number itself.
    Itself,
}

/// What one text is mapped to.
#[derive(Clone, Copy, PartialEq)]
pub enum TextFunction {
    /// The number of its bytes.
    Length,
    /// The text itself.
    Itself,
}

/// What is asked of one text.
pub type TextTest<'a> = TextCondition<&'a str>;

/// A value of a text, and what follows by its kind: L behind the length, I behind the text itself.
#[derive(Clone, Copy, PartialEq)]
pub enum Mapped<L, I> {
    Length(L),
    Itself(I),
}

/// What becomes of two texts of one key.
#[derive(Clone, Copy, PartialEq)]
pub enum TextMerge {
    First,
    Last,
}

/// A stage over numbers. `flatmap` puts so many copies in a number's place.
pub type NumberStage = Stage<NumberFunction, NumberTest, u64>;

/// A stage over texts that gives texts: its map is `map self`.
pub type TextStage<'a> = Stage<(), TextTest<'a>, Expansion>;

/// What is made of numbers at once, inside another collector, and of some of them.
pub type NumberBase = Base<NumberOnly>;

pub type NumberInner = Inner<(NumberFunction, NumberBase), NumberTest, NumberBase>;

pub type NumberSummary = Summary<
    NumberFunction,
    (NumberFunction, NumberInner),
    NumberTest,
    NumberBase,
    NumberInner,
>;

/// What is made of texts at once, inside another collector, and of some of them.
pub type TextBase<'a> = Base<&'a str>;

pub type TextInner<'a> = Inner<Mapped<NumberBase, TextBase<'a>>, TextTest<'a>, TextBase<'a>>;

pub type TextSummary<'a> = Summary<
    TextFunction,
    Mapped<NumberInner, TextInner<'a>>,
    TextTest<'a>,
    TextBase<'a>,
    TextInner<'a>,
>;

/// The value that a text has in a map, and what becomes of two values of one key.
pub type TextValue = Mapped<Merge, TextMerge>;

/// What is made of all the numbers.
pub type NumberTerminal = Terminal<
    NumberFunction,
    NumberTest,
    NumberSummary,
    (NumberFunction, Merge),
    NumberTotal,
>;

/// What is made of all the texts.
pub type TextTerminal<'a> = Terminal<
    TextFunction,
    TextTest<'a>,
    TextSummary<'a>,
    TextValue,
    Joint<&'a str>,
>;
