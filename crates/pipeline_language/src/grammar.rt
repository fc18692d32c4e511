//! What stands in a line, once for all kinds of items: F is a function, P a test, N a number of items, and T a text, as it is lent from a file or by
//! its bytes. Things that are treated alike stand together, as variants of a type of their own.

use crate::item_count::ItemCount;

/// What stands for numbers or for texts alone.
#[derive(Clone, Copy, PartialEq)]
pub enum OfKind<N, T> {
    OfNumbers(N),
    OfTexts(T),
}

/// A sum, a product or the number's negative, each wrapped.
#[derive(Clone, Copy, PartialEq)]
pub enum NumberChange {
    Add(i64),
    Mul(i64),
    Negate,
}

/// What one item is mapped to.
#[derive(Clone, Copy, PartialEq)]
pub enum Function {
    Change(NumberChange),
    Mod(i64),
    Length,
    Itself,
}

/// What is asked of one number.
#[derive(Clone, Copy, PartialEq)]
pub enum NumberTest {
    Less(i64),
    Greater(i64),
    Equals(i64),
    /// The divisor is at least 1.
    Divisible(i64),
}

/// What is asked of one text.
#[derive(Clone, Copy, PartialEq)]
pub enum TextCondition<T> {
    Empty,
    Starts(T),
    /// Its length is above the number.
    Longer(u64),
}

/// What becomes of two values of one key.
#[derive(Clone, Copy, PartialEq)]
pub enum Merge {
    First,
    Last,
    Sum,
    Max,
    Min,
}

/// What `flatmap` puts in an item's place.
#[derive(Clone, Copy, PartialEq)]
pub enum Expansion {
    /// So many copies, at most 1,000.
    Repeat(u64),
    /// The pieces between a text's spaces.
    Words,
}

/// Which part stays of items that are cut in two: those before the cut, or those behind it.
#[derive(Clone, Copy, PartialEq)]
pub enum Part {
    Front,
    Rest,
}

/// A stage that looks at more than one item.
#[derive(Clone, Copy, PartialEq)]
pub enum Barrier<P, N = ItemCount> {
    Distinct,
    /// A cut behind so many items: `limit` keeps the front, `skip` the rest.
    Counted(Part, N),
    /// A cut before the first item that fails: `takewhile` keeps the front, `dropwhile` the rest.
    While(Part, P),
}

/// A stage. E is what it may put in an item's place.
#[derive(Clone, Copy, PartialEq)]
pub enum Stage<F, P, E, N = ItemCount> {
    Map(F),
    Filter(P),
    FlatMap(E),
    Barrier(Barrier<P, N>),
}

/// What is made of items at once. O is what is made of one kind alone: a `NumberOnly`, or the text that joins texts.
#[derive(Clone, Copy, PartialEq)]
pub enum Base<O> {
    /// `count`, or `counting`.
    Count,
    First,
    ToList,
    Own(O),
}

/// What is made of numbers alone.
#[derive(Clone, Copy, PartialEq)]
pub enum NumberOnly {
    Sum,
    Max,
    Min,
}

/// What is made of items inside another collector. M is a function with what is made of its values, B what is made at once.
#[derive(Clone, Copy, PartialEq)]
pub enum Inner<M, P, B> {
    Base(B),
    /// Of the values of the items.
    Mapping(M),
    /// Of the items that pass.
    Filtering(P, B),
}

/// What is made of some of the items. I is what is made inside.
#[derive(Clone, Copy, PartialEq)]
pub enum Summary<F, M, P, B, I> {
    Base(B),
    /// Of the values of the items.
    Mapping(M),
    /// Of the items that pass.
    Filtering(P, I),
    /// Of the items of each key.
    GroupBy(F, I),
}

/// What is made of all numbers alone.
#[derive(Clone, Copy, PartialEq)]
pub enum NumberTotal {
    Sum,
    Product,
    Max,
    Min,
}

/// What stands between texts, and also in front of them and behind them.
#[derive(Clone, Copy, PartialEq)]
pub enum Joint<T> {
    Plain(T),
    Within(T, T, T),
}

/// What is made of all items of either kind, by no test and no function.
#[derive(Clone, Copy, PartialEq)]
pub enum AllItems {
    Count,
    FindFirst,
    ToList,
}

/// Of how many items a test has to hold.
#[derive(Clone, Copy, PartialEq)]
pub enum Quantifier {
    AllMatch,
    AnyMatch,
    NoneMatch,
}

/// What is made of all the items. S is what is made of some of them, V the value in a map with its merge.
#[derive(Clone, Copy, PartialEq)]
pub enum Terminal<F, P, S, V, O> {
    Whole(AllItems),
    Match(Quantifier, P),
    /// The groups of one key, each collected.
    GroupBy(F, S),
    Partition(P, S),
    /// The key, and the value with what becomes of two values of one key.
    ToMap(F, V),
    /// The key and the value; no key may come twice.
    ToMapStrict(F, F),
    Teeing(S, S),
    Own(O),
}

/// A line after the source.
#[derive(Clone, Copy)]
pub enum Line<S, E> {
    Stage(S),
    Terminal(E),
}
