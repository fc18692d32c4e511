//! Collectors over numbers.
use super::cuts::check;
use super::parted::{check_groups, check_map, check_parts, check_reduced};
use collectors::{
    Counting, FilteringTo, First, GroupingBy, MappingTo, Reducing, SummingLong, ToList, ToMap,
};
use spliterator::NoMemory;
use stages::{FirstOf, LastOf, Max, Min, WrapAdd, WrapMul};
use std::hash::RandomState;
use std::test::Fail;
use stream_functions::{Above, Below, Itself, Modulo, Times};

static COUNTS: [(&[i64], &str); 2] = [(&[], "0"), (&[7, 7, 7], "3")];

/// Sums wrap, as a `long` does.
static SUMS: [(&[i64], &str); 2] = [
    (&[1, 2, 3, 4, 5], "15"),
    (&[9223372036854775806, 9223372036854775807], "-3"),
];

#[test]
fn counts_and_sums(rt: HostRuntime) -> Result<(), NoMemory> {
    let alloc = rt.alloc();
    check(&rt, alloc, Counting::<i64>::new(), &COUNTS).and(check(
        &rt,
        alloc,
        SummingLong::new(Itself),
        &SUMS,
    ))
}

static LISTS: [(&[i64], &str); 1] = [(&[3, 1, 2], "[3, 1, 2]")];

static NONE: [(&[i64], &str); 1] = [(&[], "Optional.empty")];

static FIRST_TENS: [(&[i64], &str); 1] = [(&[4, 5], "Optional[40]")];

#[test]
fn lists_and_first_items(rt: HostRuntime) -> Result<(), NoMemory> {
    let alloc = rt.alloc();
    let tens = MappingTo::<i64, _, _>::new(Times(10), First::<i64>::new());
    check(&rt, alloc, ToList::<i64>::new(alloc), &LISTS)
        .and(check(&rt, alloc, First::<i64>::new(), &NONE))
        .and(check(&rt, alloc, tens, &FIRST_TENS))
}

static LEAST: [(&[i64], &str); 1] = [(&[2, 5, 3], "Optional[2]")];

static GREATEST: [(&[i64], &str); 2] = [(&[], "Optional.empty"), (&[2, 5, 3], "Optional[5]")];

/// A part without items adds nothing.
static LAST_BELOW_TEN: [(&[i64], &str); 1] = [(&[4, 9, 50, 60], "Optional[9]")];

#[test]
fn least_greatest_and_last(rt: HostRuntime) -> Result<(), NoMemory> {
    let alloc = rt.alloc();
    let last = Reducing::<i64, _>::new(LastOf::<i64>::new());
    let below_ten = FilteringTo::new(Below(10), last);
    check_reduced(&rt, alloc, Min::<i64>::new(), &LEAST)
        .and(check_reduced(&rt, alloc, Max::<i64>::new(), &GREATEST))
        .and(check(&rt, alloc, below_ten, &LAST_BELOW_TEN))
}

static PRODUCTS: [(&[i64], &str); 2] = [(&[], "Optional.empty"), (&[2, 5, 3], "Optional[30]")];

static WRAPPED_SUMS: [(&[i64], &str); 1] = [(
    &[9223372036854775807, 1],
    "Optional[-9223372036854775808]",
)];

#[test]
fn products_and_sums(rt: HostRuntime) -> Result<(), NoMemory> {
    let alloc = rt.alloc();
    check_reduced(&rt, alloc, WrapMul::new(), &PRODUCTS).and(check_reduced(
        &rt,
        alloc,
        WrapAdd::new(),
        &WRAPPED_SUMS,
    ))
}

// Of no items, none is a hit and none is a miss.
#[test]
fn no_items_have_no_hit(rt: HostRuntime) -> Result<(), NoMemory> {
    for limit in [0, -1] {
        let hit = FilteringTo::new(Above(limit), First::<i64>::new());
        check(&rt, rt.alloc(), hit, &NONE)?;
    }
    Ok(())
}

static PARTS: [(&[i64], &str); 3] = [
    (&[1, 3], "{false=[1, 3], true=[]}"),
    (&[5, 2, 7, 4, 5], "{false=[2], true=[5, 7, 4, 5]}"),
    (&[], "{false=[], true=[]}"),
];

#[test]
fn partitions_have_both_sides(rt: HostRuntime) -> Result<(), NoMemory> {
    let alloc = rt.alloc();
    check_parts(&rt, alloc, 3, ToList::<i64>::new(alloc), &PARTS)
}

static GROUPS: [(&[i64], &str); 2] = [(&[5, 2, 7, 4, 5], "{1=3, 0=2}"), (&[], "{}")];

/// A group whose items are all filtered away keeps its key.
static FILTERED: [(&[i64], &str); 1] = [(&[1, 2], "{1=0, 0=0}")];

#[test]
fn groups_stand_by_their_first_item(rt: HostRuntime) -> Result<(), NoMemory> {
    let alloc = rt.alloc();
    let counts = Counting::<i64>::new();
    let large = FilteringTo::new(Above(100), Counting::<i64>::new());
    check_groups(&rt, alloc, Modulo::by(2), counts, &GROUPS).and(check_groups(
        &rt,
        alloc,
        Modulo::by(2),
        large,
        &FILTERED,
    ))
}

/// Keys that repeat, sorted and shuffled.
static BY_KEYS: [(&[i64], &str); 3] = [
    (&[1, 2, 3, 4, 5, 6, 7], "{1=[1, 4, 7], 2=[2, 5], 0=[3, 6]}"),
    (&[0, 3, 6, 1, 4, 2, 5], "{0=[0, 3, 6], 1=[1, 4], 2=[2, 5]}"),
    (
        &[2, 4, 3, 5, 8, 6, 1, 9, 7],
        "{2=[2, 5, 8], 1=[4, 1, 7], 0=[3, 6, 9]}",
    ),
];

#[test]
fn groups_of_repeated_sorted_and_shuffled_keys(rt: HostRuntime) -> Result<(), NoMemory> {
    let alloc = rt.alloc();
    check_groups(
        &rt,
        alloc,
        Modulo::by(3),
        ToList::<i64>::new(alloc),
        &BY_KEYS,
    )
}

static COUNTS_BY_HASHES: [(&[i64], &str); 1] = [(&[5, 2, 7, 4, 5], "{1=3, 0=2}")];

static LAST: [(&[i64], &str); 1] = [(&[1, 2, 3, 4], "{1=3, 0=4}")];

static FIRST: [(&[i64], &str); 1] = [(&[1, 2, 3, 4], "{1=1, 0=2}")];

#[test]
fn groups_by_random_hashes(rt: HostRuntime) -> Result<(), Fail> {
    let alloc = rt.alloc();
    let hashes = RandomState::new(&rt)?;
    let counts = GroupingBy::with_hasher(alloc, Modulo::by(2), Counting::<i64>::new(), hashes);
    let last = ToMap::with_hasher(alloc, Modulo::by(2), Itself, LastOf::<i64>::new(), hashes);
    check(&rt, alloc, counts, &COUNTS_BY_HASHES).and(check(&rt, alloc, last, &LAST))?;
    Ok(())
}

#[test]
fn maps_merge_from_left_to_right(rt: HostRuntime) -> Result<(), NoMemory> {
    let alloc = rt.alloc();
    let (last, first) = (LastOf::<i64>::new(), FirstOf::<i64>::new());
    check_map(&rt, alloc, Modulo::by(2), Itself, last, &LAST).and(check_map(
        &rt,
        alloc,
        Modulo::by(2),
        Itself,
        first,
        &FIRST,
    ))
}
