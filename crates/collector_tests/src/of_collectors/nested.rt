//! Collectors in collectors, and collectors by closures.
ghost use Rattle.std.specs.Prelude.{◌≡◌, ℤ, pos, fold};
ghost use Rattle.spliterator.specs.Values.{IsI64};
ghost use Rattle.stages.specs.Wrapping.{wrapped_sum};
ghost use Rattle.collectors.specs.NestedLaws.{add_both, teeing_laws};
ghost use Rattle.collectors.specs.Sums.{add_number, sum_laws};

use super::cuts::check;
use super::functions::Pair;
use super::parted::{check_groups, check_groups_of_groups, check_parts};
use collectors::{
    CollectorDefinition, CollectorOf, Counting, FilteringTo, GroupingBy, Joining, MappingTo,
    PartitioningBy, SummingLong, Teeing, ToList,
};
use spliterator::NoMemory;
use stream_functions::{Above, Itself, Length, Modulo, Times};

static SUM_AND_COUNT: [(&[i64], &str); 1] = [(&[1, 2, 3, 4], "(10, 4)")];

static GROUPED_TOTALS: [(&[i64], &str); 1] = [(&[5, 2, 7, 4, 5], "{1=(3, 17), 0=(2, 6)}")];

#[test]
fn teeing_feeds_both(rt: HostRuntime) -> Result<(), NoMemory> {
    let alloc = rt.alloc();
    let totals = Teeing::new(SummingLong::new(Itself), Counting::<i64>::new(), Pair);
    let by_two = Teeing::new(Counting::<i64>::new(), SummingLong::new(Itself), Pair);
    check(&rt, alloc, totals, &SUM_AND_COUNT).and(check_groups(
        &rt,
        alloc,
        Modulo::by(2),
        by_two,
        &GROUPED_TOTALS,
    ))
}

static PARTS_OF_GROUPS: [(&[i64], &str); 1] = [(
    &[5, 2, 7, 4, 5],
    "{false={0=[2]}, true={1=[5, 7, 5], 0=[4]}}",
)];

#[test]
fn parts_of_groups(rt: HostRuntime) -> Result<(), NoMemory> {
    let alloc = rt.alloc();
    let groups = GroupingBy::new(alloc, Modulo::by(2), ToList::<i64>::new(alloc));
    check_parts(&rt, alloc, 3, groups, &PARTS_OF_GROUPS)
}

static GROUPS_OF_PARTS: [(&[i64], &str); 1] = [(
    &[5, 2, 1, 7],
    "{1={false=[10], true=[50, 70]}, 0={false=[20], true=[]}}",
)];

#[test]
fn groups_of_parts(rt: HostRuntime) -> Result<(), NoMemory> {
    let alloc = rt.alloc();
    let tens = MappingTo::<i64, _, _>::new(Times(10), ToList::<i64>::new(alloc));
    let parts = PartitioningBy::new(Above(3), tens);
    check_groups(&rt, alloc, Modulo::by(2), parts, &GROUPS_OF_PARTS)
}

static TEXTS: [(&[&str], &str); 1] = [(&["bb", "a", "cc", "bb"], "{2={bb=bb+bb, cc=cc}, 1={a=a}}")];

static NUMBERS: [(&[i64], &str); 1] = [(&[1, 101, 2, 200], "{1={1=[], 5=[101]}, 0={2=[200]}}")];

#[test]
fn groups_of_groups(rt: HostRuntime) -> Result<(), NoMemory> {
    let alloc = rt.alloc();
    let joined = Joining::<&str>::new(alloc, "+", "", "");
    let large = FilteringTo::new(Above(100), ToList::<i64>::new(alloc));
    let (by_two, by_six) = (Modulo::by(2), Modulo::by(6));
    check_groups_of_groups(&rt, alloc, Length, Itself, joined, &TEXTS).and(check_groups_of_groups(
        &rt, alloc, by_two, by_six, large, &NUMBERS,
    ))
}

// The number of items and their sum.
struct CountAndSum;

impl CollectorDefinition<i64, (i64, i64), (i64, i64)> for CountAndSum {
    ghost Content = { ℤ × ℤ };

    ghost content = { λ a. a };

    ghost empty = { (pos 0, pos 0) };

    ghost add = { add_both (pos 0) (add_number (λ _. pos 1)) (pos 0) (add_number (λ x. x)) };

    ghost merge = { λ p q. (wrapped_sum p.0 q.0, wrapped_sum p.1 q.1) };

    ghost gives = { λ l r. r ≡ fold (add_both (pos 0) (add_number (λ _. pos 1)) (pos 0) (add_number (λ x. x))) (pos 0, pos 0) l };

    ghost laws = { teeing_laws (pos 0) (add_number (λ _. pos 1)) (pos 0) (add_number (λ x. x)) IsI64 wrapped_sum wrapped_sum (sum_laws (λ _. pos 1) IsI64) (sum_laws (λ x. x) IsI64) };
}

fn plus(a: i64, b: i64) -> i64
    ensures { result ≡ wrapped_sum a b }
{
    a.wrapping_add(b)
}

static CLOSURES: [(&[i64], &str); 1] = [(&[5, -2, 9], "(3, 12)")];

#[test]
fn by_closures(rt: HostRuntime) -> Result<(), NoMemory> {
    let collector: CollectorOf<i64, _, _, _, _, _, _, CountAndSum> = CollectorOf::new(
        || -> Result<(i64, i64), NoMemory> { Ok((0, 0)) },
        |acc: &mut (i64, i64), x: &i64| -> Result<(), NoMemory> {
            *acc = (plus(acc.0, 1), plus(acc.1, *x));
            Ok(())
        },
        |left: &mut (i64, i64), right: (i64, i64)| -> Result<(), NoMemory> {
            *left = (plus(left.0, right.0), plus(left.1, right.1));
            Ok(())
        },
        |acc: (i64, i64)| -> Result<(i64, i64), NoMemory> { Ok(acc) },
    );
    check(&rt, rt.alloc(), collector, &CLOSURES)
}
