//! The texts of values, and of what the language's collectors make.
use collectors::{Collector, collect};
use pipeline_language::{
    Mapped, NumberBase, NumberInner, NumberOnly, NumberSummary, TextBase, TextFunction, TextInner,
    TextSummary,
};
use pipeline_meaning::{Seed, SeededHashes, number_summary, text_summary};
use spliterator::NoMemory;
use std::alloc::Global;
use std::process::Abort;
use std::test::Fail;
use value_text::{Summarizes, Written, write_result};

/// Checks the text of what a collector makes of the items.
fn check<C: Summarizes>(
    rt: &(impl Abort + Alloc<A = Global>),
    collector: &C,
    items: &[C::Item],
    wanted: &str,
) -> Result<(), NoMemory>
where
    C::Out: Written,
    requires { C.ready collector.now }
{
    let made = collect(collector, items)?;
    let mut text = String::new(rt.alloc());
    write_result(collector, &made, &mut text)?;
    assert!(rt; text.as_str() == wanted, "{text}");
    Ok(())
}

/// The summary, the items, and the text of what is made of these.
static OF_NUMBERS: [(NumberBase, &[i64], &str); 8] = [
    (NumberBase::Count, &[2, 5, 3], "3"),
    (NumberBase::Own(NumberOnly::Sum), &[2, 5, 3], "10"),
    (NumberBase::Own(NumberOnly::Max), &[2, 5, 3], "Optional[5]"),
    (NumberBase::Own(NumberOnly::Min), &[2, 5, 3], "Optional[2]"),
    (NumberBase::First, &[2, 5, 3], "Optional[2]"),
    (NumberBase::ToList, &[2, 5, 3], "[2, 5, 3]"),
    (NumberBase::Own(NumberOnly::Max), &[], "Optional.empty"),
    (NumberBase::ToList, &[], "[]"),
];

#[test]
fn summaries_of_numbers(rt: HostRuntime) -> Result<(), Fail> {
    let hashes = SeededHashes::of(Seed::draw(&rt));
    for &(base, items, wanted) in &OF_NUMBERS {
        let summary = number_summary(rt.alloc(), hashes, NumberSummary::Base(base));
        check(&rt, &summary, items, wanted)?;
    }
    Ok(())
}

/// The summary, the items, and the text of what is made of these.
type TextRow<'a> = (TextSummary<'a>, &'a [&'a str], &'a str);

static OF_TEXTS: [TextRow<'_>; 4] = [
    (
        TextSummary::Base(TextBase::Own("+")),
        &["a", "", "bb"],
        "a++bb",
    ),
    (
        TextSummary::Mapping(Mapped::Length(NumberInner::Base(NumberBase::ToList))),
        &["a", "", "bb"],
        "[1, 0, 2]",
    ),
    (
        TextSummary::GroupBy(TextFunction::Length, TextInner::Base(TextBase::First)),
        &["bb", "a", "cc"],
        "{2=Optional[bb], 1=Optional[a]}",
    ),
    (
        TextSummary::GroupBy(TextFunction::Itself, TextInner::Base(TextBase::Count)),
        &["b", "", "b"],
        "{b=2, =1}",
    ),
];

#[test]
fn summaries_of_texts(rt: HostRuntime) -> Result<(), Fail> {
    let hashes = SeededHashes::of(Seed::draw(&rt));
    for &(summary, items, wanted) in &OF_TEXTS {
        let collector = text_summary(rt.alloc(), hashes, summary);
        check(&rt, &collector, items, wanted)?;
    }
    Ok(())
}

#[test]
fn texts_of_values(rt: HostRuntime) -> Result<(), Fail> {
    let mut text = String::new(rt.alloc());
    i64::MIN.write_to(&mut text)?;
    true.write_to(&mut text)?;
    false.write_to(&mut text)?;
    "as it stands".write_to(&mut text)?;
    (Some(5), -7).write_to(&mut text)?;
    assert!(rt; text.as_str() == "-9223372036854775808truefalseas it stands[Optional[5], -7]");
    Ok(())
}
