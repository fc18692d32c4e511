//! The words of the second version: collectors in collectors, and a map that refuses a repeated key.

use super::first_wrong;
use super::numbers::first_other;
use super::texts::first_other_end;
use pipeline_language::{
    Mapped, NumberBase as Base, NumberChange as Change, NumberFunction as Function,
    NumberInner as Inner, NumberOnly, NumberSummary as Summary, NumberTerminal as Terminal,
    NumberTest as Test, TextBase, TextFunction, TextInner, TextSummary, TextTerminal, TextTest,
};
use std::test::Fail;

const ODD: Function = Function::Mod(2);

const THIRDS: Function = Function::Mod(3);

const SUM: Base = Base::Own(NumberOnly::Sum);

const MAX: Base = Base::Own(NumberOnly::Max);

const MIN: Base = Base::Own(NumberOnly::Min);

const COUNT: Inner = Inner::Base(Base::Count);

/// Terminals of numbers that the first version does not have.
static NEW_TERMINALS: [(&str, Terminal); 8] = [
    (
        "tomapstrict mod 10 self",
        Terminal::ToMapStrict(Function::Mod(10), Function::Itself),
    ),
    (
        "tomapstrict self negate",
        Terminal::ToMapStrict(Function::Itself, Function::Change(Change::Negate)),
    ),
    (
        "groupby mod 2 groupby mod 3 counting",
        Terminal::GroupBy(ODD, Summary::GroupBy(THIRDS, COUNT)),
    ),
    (
        "partition less 3 mapping mul 10 tolist",
        Terminal::Partition(
            Test::Less(3),
            Summary::Mapping((Function::Change(Change::Mul(10)), Inner::Base(Base::ToList))),
        ),
    ),
    (
        "groupby mod 2 filtering greater 2 count",
        Terminal::GroupBy(ODD, Summary::Filtering(Test::Greater(2), COUNT)),
    ),
    (
        "groupby mod 2 groupby mod 3 mapping negate max",
        Terminal::GroupBy(
            ODD,
            Summary::GroupBy(
                THIRDS,
                Inner::Mapping((Function::Change(Change::Negate), MAX)),
            ),
        ),
    ),
    (
        "partition equals 1 filtering divisible 2 filtering less 3 sum",
        Terminal::Partition(
            Test::Equals(1),
            Summary::Filtering(Test::Divisible(2), Inner::Filtering(Test::Less(3), SUM)),
        ),
    ),
    (
        "teeing mapping self mapping add 1 first groupby mod 2 min",
        Terminal::Teeing(
            Summary::Mapping((
                Function::Itself,
                Inner::Mapping((Function::Change(Change::Add(1)), Base::First)),
            )),
            Summary::GroupBy(ODD, Inner::Base(MIN)),
        ),
    ),
];

#[test]
fn reads_strict_maps_and_nested_collectors_of_numbers(rt: HostRuntime) -> Result<(), Fail> {
    let rows = NEW_TERMINALS.as_slice();
    for (version, is_known) in [(2, true), (1, false)] {
        assert!(rt; first_other(rt.alloc(), version, is_known, rows)?.is_none());
    }
    Ok(())
}

/// Files of the second version over texts, with their terminals.
static NEW_TEXT_TERMINALS: [(&[u8], TextTerminal<'static>); 7] = [
    (
        b"pipeline 2\nlines 0\ntomapstrict self length",
        TextTerminal::ToMapStrict(TextFunction::Itself, TextFunction::Length),
    ),
    (
        b"pipeline 2\nlines 0\ngroupby length mapping length sum",
        TextTerminal::GroupBy(
            TextFunction::Length,
            TextSummary::Mapping(Mapped::Length(Inner::Base(SUM))),
        ),
    ),
    (
        b"pipeline 2\nlines 0\ngroupby self mapping length filtering less 3 max",
        TextTerminal::GroupBy(
            TextFunction::Itself,
            TextSummary::Mapping(Mapped::Length(Inner::Filtering(Test::Less(3), MAX))),
        ),
    ),
    (
        b"pipeline 2\nlines 0\npartition empty mapping self joining +",
        TextTerminal::Partition(
            TextTest::Empty,
            TextSummary::Mapping(Mapped::Itself(TextInner::Base(TextBase::Own("+")))),
        ),
    ),
    (
        b"pipeline 2\nlines 0\npartition empty filtering starts a mapping length min",
        TextTerminal::Partition(
            TextTest::Empty,
            TextSummary::Filtering(
                TextTest::Starts("a"),
                TextInner::Mapping(Mapped::Length(MIN)),
            ),
        ),
    ),
    (
        b"pipeline 2\nlines 0\ngroupby length groupby self mapping self tolist",
        TextTerminal::GroupBy(
            TextFunction::Length,
            TextSummary::GroupBy(
                TextFunction::Itself,
                TextInner::Mapping(Mapped::Itself(TextBase::ToList)),
            ),
        ),
    ),
    (
        b"pipeline 2\nlines 0\nteeing groupby length filtering longer 1 first count",
        TextTerminal::Teeing(
            TextSummary::GroupBy(
                TextFunction::Length,
                TextInner::Filtering(TextTest::Longer(1), TextBase::First),
            ),
            TextSummary::Base(TextBase::Count),
        ),
    ),
];

#[test]
fn reads_strict_maps_and_nested_collectors_of_texts(rt: HostRuntime) -> Result<(), Fail> {
    assert!(rt; first_other_end(rt.alloc(), NEW_TEXT_TERMINALS.as_slice())?.is_none());
    Ok(())
}

/// Lines with a word that the first version has not.
static NEW_WORDS: [&str; 9] = [
    "numbers\ntomapstrict self self-> line 3: UNKNOWN_WORD",
    "numbers\ntomapstrict-> line 3: UNKNOWN_WORD",
    "numbers\ngroupby mod 2 mapping negate count-> line 3: UNKNOWN_WORD",
    "numbers\ngroupby mod x mapping-> line 3: UNKNOWN_WORD",
    "numbers\npartition less 3 filtering less 2 count-> line 3: UNKNOWN_WORD",
    "numbers\nteeing groupby mod 2 count count-> line 3: UNKNOWN_WORD",
    "numbers\nteeing count mapping self count-> line 3: UNKNOWN_WORD",
    "lines 0\ngroupby length mapping length sum-> line 3: UNKNOWN_WORD",
    "lines 0\ntomapstrict self length-> line 3: UNKNOWN_WORD",
];

#[test]
fn new_words_are_unknown_in_the_first_version(rt: HostRuntime) -> Result<(), Fail> {
    assert_eq!(rt; first_wrong(rt.alloc(), b"pipeline 1\n", &NEW_WORDS)?, None);
    Ok(())
}

/// Lines with a new word where the second version has none, also as a third nesting.
static MISPLACED: [&str; 9] = [
    "numbers\nmapping negate\nsum-> line 3: UNKNOWN_WORD",
    "numbers\nfiltering less 1\nsum-> line 3: UNKNOWN_WORD",
    "numbers\npartition less 3 partition-> line 3: UNKNOWN_WORD",
    "numbers\ngroupby mod 2 mapping negate mapping negate mapping negate count-> line 3: UNKNOWN_WORD",
    "numbers\npartition less 3 filtering less 2 filtering less 1 filtering less 0 count-> line 3: UNKNOWN_WORD",
    "numbers\ngroupby mod 2 groupby mod 3 groupby mod 5 count-> line 3: UNKNOWN_WORD",
    "numbers\nteeing mapping self groupby self count sum-> line 3: UNKNOWN_WORD",
    "numbers\nteeing sum filtering less 1 mapping self groupby self count-> line 3: UNKNOWN_WORD",
    "lines 0\ngroupby length groupby self mapping length mapping self sum-> line 3: UNKNOWN_WORD",
];

/// Lines with too few or too many words, or a bad number, behind new words.
static MISCOUNTED: [&str; 11] = [
    "numbers\ntomapstrict-> line 3: BAD_ARITY",
    "numbers\ntomapstrict self-> line 3: BAD_ARITY",
    "numbers\ntomapstrict self self sum-> line 3: BAD_ARITY",
    "numbers\ngroupby mod 2 mapping-> line 3: BAD_ARITY",
    "numbers\ngroupby mod 2 mapping mul count-> line 3: BAD_ARITY",
    "numbers\ngroupby mod 2 mapping negate filtering less-> line 3: BAD_ARITY",
    "numbers\npartition less 3 filtering less 2 count count-> line 3: BAD_ARITY",
    "lines 0\npartition empty mapping self joining-> line 3: BAD_ARITY",
    "numbers\ngroupby mod 2 mapping mod 0 count-> line 3: BAD_NUMBER",
    "numbers\npartition less 3 filtering longer -1 count-> line 3: BAD_NUMBER",
    "numbers\ntomapstrict mul 03 length-> line 3: BAD_NUMBER",
];

/// Lines that don't take the items that come to a collector.
static MISTAKEN: [&str; 13] = [
    "numbers\ntomapstrict length self-> line 3: WRONG_KIND",
    "numbers\ntomapstrict self length-> line 3: WRONG_KIND",
    "lines 0\ntomapstrict mod 2 self-> line 3: WRONG_KIND",
    "numbers\ngroupby mod 2 mapping length count-> line 3: WRONG_KIND",
    "numbers\npartition less 1 filtering empty count-> line 3: WRONG_KIND",
    "numbers\nteeing count groupby length count-> line 3: WRONG_KIND",
    "numbers\ngroupby mod 2 mapping negate joining ,-> line 3: WRONG_KIND",
    "lines 0\ngroupby self mapping length joining ,-> line 3: WRONG_KIND",
    "lines 0\ngroupby self mapping length filtering longer 3 count-> line 3: WRONG_KIND",
    "lines 0\ngroupby self mapping length mapping length sum-> line 3: WRONG_KIND",
    "lines 0\ngroupby self mapping self sum-> line 3: WRONG_KIND",
    "lines 0\ngroupby self filtering less 3 count-> line 3: WRONG_KIND",
    "lines 0\nteeing count groupby length sum-> line 3: WRONG_KIND",
];

#[test]
fn new_words_have_their_places_their_words_and_their_items(rt: HostRuntime) -> Result<(), Fail> {
    for rows in [
        MISPLACED.as_slice(),
        MISCOUNTED.as_slice(),
        MISTAKEN.as_slice(),
    ] {
        assert_eq!(rt; first_wrong(rt.alloc(), b"pipeline 2\n", rows)?, None);
    }
    Ok(())
}
