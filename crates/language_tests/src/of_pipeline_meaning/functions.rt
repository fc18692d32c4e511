//! Functions of numbers and texts, made of what a file names.

use pipeline_language::{Merge, NumberChange, NumberFunction, NumberTest, TextMerge, TextTest};
use pipeline_meaning::{NumberCheck, NumberMapping, NumberMerging, TextCheck, TextMerging};
use spliterator::{NoMemory, Value};
use stages::{Mapping, Operator, Test};
use std::process::Abort;
use std::test::Fail;

fn image<T: Value, M: Mapping<T>>(mapping: &M, x: &T) -> Result<M::Out, NoMemory>
    requires { M.ready mapping.now }
{
    mapping.image(x)
}

fn joined<T: Value, O: Operator<T>>(operator: &O, a: &T, b: &T) -> Result<T, NoMemory>
    requires { O.ready operator.now }
{
    operator.join(a, b)
}

/// The function, a number, and what it becomes.
static MAPPED: [(NumberFunction, i64, i64); 11] = [
    (NumberFunction::Change(NumberChange::Add(5)), -7, -2),
    (
        NumberFunction::Change(NumberChange::Add(1)),
        i64::MAX,
        i64::MIN,
    ),
    (NumberFunction::Change(NumberChange::Mul(-3)), 5, -15),
    (
        NumberFunction::Change(NumberChange::Mul(-1)),
        i64::MIN,
        i64::MIN,
    ),
    (NumberFunction::Change(NumberChange::Mul(4)), 1 << 62, 0),
    (NumberFunction::Change(NumberChange::Negate), 5, -5),
    (
        NumberFunction::Change(NumberChange::Negate),
        i64::MIN,
        i64::MIN,
    ),
    (NumberFunction::Itself, -4, -4),
    (NumberFunction::Mod(3), -1, 2),
    (NumberFunction::Mod(3), 7, 1),
    // 2^63 is 2 more than 3 times 3074457345618258602
    (NumberFunction::Mod(3), i64::MIN, 1),
];

#[test]
fn numbers_are_mapped(rt: HostRuntime) -> Result<(), Fail> {
    for &(function, x, wanted) in &MAPPED {
        let found = image(&NumberMapping::of(function), &x)?;
        assert!(rt; found == wanted, "{x} becomes {found}");
    }
    Ok(())
}

/// The test, a number, and whether it passes.
static TESTED: [(NumberTest, i64, bool); 11] = [
    (NumberTest::Less(5), 4, true),
    (NumberTest::Less(5), 5, false),
    (NumberTest::Greater(5), 6, true),
    (NumberTest::Greater(5), 5, false),
    (NumberTest::Equals(5), 5, true),
    (NumberTest::Equals(5), -5, false),
    (NumberTest::Divisible(3), -9, true),
    (NumberTest::Divisible(3), -8, false),
    (NumberTest::Divisible(3), 0, true),
    (NumberTest::Divisible(2), i64::MIN, true),
    (NumberTest::Divisible(3), i64::MIN, false),
];

#[test]
fn tests_of_numbers(rt: HostRuntime) -> Result<(), Fail> {
    for &(test, x, wanted) in &TESTED {
        assert!(rt; NumberCheck::of(test).holds(&x) == wanted, "{x}");
    }
    Ok(())
}

/// The test, a text, and whether it passes.
type TextRow<'a> = (TextTest<'a>, &'a str, bool);

fn check_texts(rt: &impl Abort, rows: &[TextRow<'_>]) -> Result<(), Fail> {
    for &(test, text, wanted) in rows {
        assert!(rt; TextCheck::of(test).holds(&text) == wanted, "{text}");
    }
    Ok(())
}

/// One letter has the two bytes c3 a9.
static TESTED_TEXTS: [TextRow<'_>; 9] = [
    (TextTest::Empty, "", true),
    (TextTest::Empty, " ", false),
    (TextTest::Starts(""), "", true),
    (TextTest::Starts(""), "ab", true),
    (TextTest::Starts("ab"), "abc", true),
    (TextTest::Starts("ab"), "a", false),
    (TextTest::Starts("b"), "ab", false),
    (TextTest::Longer(1), "é", true),
    (TextTest::Longer(2), "é", false),
];

#[test]
fn tests_of_texts(rt: HostRuntime) -> Result<(), Fail> {
    check_texts(&rt, &TESTED_TEXTS)
}

#[test]
fn a_test_of_an_owned_text(rt: HostRuntime) -> Result<(), Fail> {
    let owned = String::from_str(rt.alloc(), "ab")?;
    assert!(rt; TextCheck::of(TextTest::Starts("a")).holds(&owned));
    Ok(())
}

static JOINED: [(Merge, i64, i64, i64); 5] = [
    (Merge::First, 3, 5, 3),
    (Merge::Last, 3, 5, 5),
    (Merge::Sum, i64::MAX, 1, i64::MIN),
    (Merge::Max, 3, 5, 5),
    (Merge::Min, 3, 5, 3),
];

#[test]
fn numbers_of_one_key_are_joined(rt: HostRuntime) -> Result<(), Fail> {
    for &(merge, a, b, wanted) in &JOINED {
        let found = joined(&NumberMerging::of(merge), &a, &b)?;
        assert!(rt; found == wanted, "{a} and {b} become {found}");
    }
    Ok(())
}

static JOINED_TEXTS: [(TextMerge, &str); 2] = [(TextMerge::First, "a"), (TextMerge::Last, "b")];

#[test]
fn texts_of_one_key_are_joined(rt: HostRuntime) -> Result<(), Fail> {
    for &(merge, wanted) in &JOINED_TEXTS {
        assert!(rt; joined(&TextMerging::of(merge), &"a", &"b")? == wanted);
    }
    Ok(())
}
