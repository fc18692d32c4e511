//! Collectors over texts, lent and owned.
use super::cuts::check;
use super::parted::{check_groups, check_map};
use collectors::{Counting, First, Joining, MappingTo, Reducing, SummingLong, ToList};
use spliterator::NoMemory;
use stages::LastOf;
use std::alloc::Global;
use std::process::Abort;
use stream_functions::{Cloned, Itself, Length};

/// What stands between, before and after the texts, and rows. An empty text is an item like any other.
static JOINED: [(&str, &str, &str, &[(&[&str], &str)]); 3] = [
    (",", "<", ">", &[(&["", "", ""], "<,,>"), (&[], "<>")]),
    (",", "", "", &[(&["", "a", ""], ",a,")]),
    ("-", "<", ">", &[(&["a", "b", "c"], "<a-b-c>")]),
];

#[test]
fn joins_empty_texts_as_items(rt: HostRuntime) -> Result<(), NoMemory> {
    let alloc = rt.alloc();
    for &(between, before, after, rows) in &JOINED {
        let joining = Joining::<&str>::new(alloc, between, before, after);
        check(&rt, alloc, joining, rows)?;
    }
    Ok(())
}

static BY_LENGTH: [(&[&str], &str); 1] = [(&["bb", "a", "cc"], "{2=bb+cc, 1=a}")];

static COUNTS: [(&[&str], &str); 1] = [(&["b", "", "b", "a"], "{b=2, =1, a=1}")];

#[test]
fn groups_of_texts(rt: HostRuntime) -> Result<(), NoMemory> {
    let alloc = rt.alloc();
    let texts = Joining::<&str>::new(alloc, "+", "", "");
    check_groups(&rt, alloc, Length, texts, &BY_LENGTH).and(check_groups(
        &rt,
        alloc,
        Itself,
        Counting::<&str>::new(),
        &COUNTS,
    ))
}

static LAST_BY_LENGTH: [(&[&str], &str); 1] = [(&["bb", "a", "cc"], "{2=cc, 1=a}")];

static LENGTHS_BY_TEXT: [(&[&str], &str); 1] = [(&["bb", "a"], "{bb=2, a=1}")];

#[test]
fn maps_of_texts(rt: HostRuntime) -> Result<(), NoMemory> {
    let alloc = rt.alloc();
    let (last_text, last_length) = (LastOf::<&str>::new(), LastOf::<i64>::new());
    check_map(&rt, alloc, Length, Itself, last_text, &LAST_BY_LENGTH).and(check_map(
        &rt,
        alloc,
        Itself,
        Length,
        last_length,
        &LENGTHS_BY_TEXT,
    ))
}

static LISTS: [(&[&str], &str); 1] = [(&["b", "a"], "[b, a]")];

static FIRSTS: [(&[&str], &str); 1] = [(&["b", "a"], "Optional[b]")];

static SUMS: [(&[&str], &str); 1] = [(&["bb", "", "a"], "3")];

static LENGTHS: [(&[&str], &str); 1] = [(&["bb", "", "a"], "[2, 0, 1]")];

#[test]
fn lists_and_sums_texts(rt: HostRuntime) -> Result<(), NoMemory> {
    let alloc = rt.alloc();
    let lengths = MappingTo::<&str, _, _>::new(Length, ToList::<i64>::new(alloc));
    check(&rt, alloc, ToList::<&str>::new(alloc), &LISTS)
        .and(check(&rt, alloc, First::<&str>::new(), &FIRSTS))
        .and(check(&rt, alloc, SummingLong::<&str, _>::new(Length), &SUMS))
        .and(check(&rt, alloc, lengths, &LENGTHS))
}

fn owned(alloc: Global) -> Result<[String; 3], NoMemory> {
    let first = String::from_str(alloc, "b")?;
    let second = String::from_str(alloc, "a")?;
    let third = String::from_str(alloc, "b")?;
    Ok([first, second, third])
}

#[test]
fn takes_owned_texts(rt: HostRuntime) -> Result<(), NoMemory> {
    let alloc = rt.alloc();
    let texts = owned(alloc)?;
    check_owned(&rt, alloc, &texts).and(check_keyed(&rt, alloc, &texts))
}

fn check_owned(rt: &impl Abort, alloc: Global, texts: &[String]) -> Result<(), NoMemory> {
    let list = ToList::<String>::new(alloc);
    let joined = Joining::<String>::new(alloc, ",", "", "");
    let last = Reducing::<String, _>::new(LastOf::<String>::new());
    check(rt, alloc, list, &[(texts, "[b, a, b]")])
        .and(check(rt, alloc, joined, &[(texts, "b,a,b")]))
        .and(check(rt, alloc, last, &[(texts, "Optional[b]")]))
}

// By the texts themselves.
fn check_keyed(rt: &impl Abort, alloc: Global, texts: &[String]) -> Result<(), NoMemory> {
    let counts = Counting::<String>::new();
    let (key, value) = (Cloned::new(), Cloned::new());
    let last = LastOf::<String>::new();
    let of_groups = check_groups(rt, alloc, Cloned::new(), counts, &[(texts, "{b=2, a=1}")]);
    of_groups.and(check_map(rt, alloc, key, value, last, &[(texts, "{b=b, a=a}")]))
}
