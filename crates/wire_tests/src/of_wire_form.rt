//! Containers that are written, read again, and take in what follows.
ghost use Rattle.spliterator.specs.Clones.{ClonesAlike};

use crate::pair::Pair;
use collectors::{
    Counting, FilteringTo, First, GroupingBy, Joining, MappingTo, PartitioningBy, Reducing,
    SummingLong, Teeing, ToList, ToMap, accumulate_items, finish_container, fold_items,
};
use derived_collectors::{CollectingAndThen, FlatMappingTo, Summarizing, ToSet};
use serde_json::Value as Json;
use stages::{Max, Min, WrapAdd};
use std::alloc::Global;
use std::process::Abort;
use stream_functions::{Even, Itself, LowerCase, Modulo, Pieces, Times};
use wire_form::{FromWire, WireError};

static FRONT: [i64; 3] = [5, 2, 7];

static REST: [i64; 2] = [4, 5];

/// The text of the container of the first items, and the result of what is read of it and of the items that follow.
fn carried<C: FromWire>(
    alloc: Global,
    collector: &C,
    front: &[C::Item],
    rest: &[C::Item],
) -> Result<(String, C::Out), WireError>
    requires { C.ready collector.now }
{
    let container = fold_items(collector, front)?;
    let text = collector.write(alloc, container)?.to_string(alloc)?;
    let Ok(value) = Json::from_str(alloc, text.as_str()) else {
        return Err(WireError::NoMemory);
    };
    let mut whole = collector.read(alloc, value)?;
    accumulate_items(collector, &mut whole, rest)?;
    Ok((text, finish_container(collector, whole)?))
}

fn a_count<R: Abort>(rt: &R, alloc: Global) -> Result<(), WireError> {
    let (text, count) = carried(alloc, &Counting::<i64>::new(), &FRONT, &REST)?;
    assert!(rt; text.as_str() == "3" && count == 5);
    Ok(())
}

fn a_sum<R: Abort>(rt: &R, alloc: Global) -> Result<(), WireError> {
    let sum = SummingLong::<i64, Itself>::new(Itself);
    let (text, sum) = carried(alloc, &sum, &FRONT, &REST)?;
    assert!(rt; text.as_str() == "14" && sum == 23);
    Ok(())
}

fn the_greatest<R: Abort>(rt: &R, alloc: Global) -> Result<(), WireError> {
    let (text, greatest) = carried(alloc, &Reducing::new(Max::<i64>::new()), &FRONT, &REST)?;
    assert!(rt; text.as_str() == "[7]" && greatest == Some(7));
    Ok(())
}

fn the_least_of_later_ones<R: Abort>(rt: &R, alloc: Global) -> Result<(), WireError> {
    let (text, least) = carried(alloc, &Reducing::new(Min::<i64>::new()), &[], &REST)?;
    assert!(rt; text.as_str() == "null" && least == Some(4));
    Ok(())
}

fn the_first<R: Abort>(rt: &R, alloc: Global) -> Result<(), WireError> {
    let (text, first) = carried(alloc, &First::<i64>::new(), &FRONT, &REST)?;
    assert!(rt; text.as_str() == "[5]" && first == Some(5));
    Ok(())
}

fn a_list<R: Abort>(rt: &R, alloc: Global) -> Result<(), WireError> {
    let (text, list) = carried(alloc, &ToList::<i64>::new(alloc), &FRONT, &REST)?;
    assert!(rt; text.as_str() == "[5,2,7]" && list.as_slice() == [5, 2, 7, 4, 5].as_slice());
    Ok(())
}

fn a_joined_text<R: Abort>(rt: &R, alloc: Global) -> Result<(), WireError> {
    let joining = Joining::<&str>::new(alloc, ", ", "{", "}");
    let (text, joined) = carried(alloc, &joining, &["a", "\n"], &["c"])?;
    assert!(rt; text.as_str() == r#""a, \n""# && joined.as_str() == "{a, \n, c}");
    Ok(())
}

fn two_results<R: Abort>(rt: &R, alloc: Global) -> Result<(), WireError> {
    let sum = SummingLong::<i64, Itself>::new(Itself);
    let both = Teeing::new(sum, Counting::<i64>::new(), Pair);
    let (text, (sum, count)) = carried(alloc, &both, &FRONT, &REST)?;
    assert!(rt; text.as_str() == "[14,3]" && sum == 23 && count == 5);
    Ok(())
}

fn words<R: Abort>(rt: &R, alloc: Global) -> Result<(), WireError> {
    let lower = MappingTo::<&str, _, _>::new(LowerCase(alloc), ToList::<String>::new(alloc));
    let (text, words) = carried(alloc, &lower, &["To", "BE"], &["Or"])?;
    assert!(rt; text.as_str() == r#"["to","be"]"# && words.len() == 3);
    assert!(rt;
        words[0].as_str() == "to" && words[1].as_str() == "be" && words[2].as_str() == "or"
    );
    Ok(())
}

fn some_items<R: Abort>(rt: &R, alloc: Global) -> Result<(), WireError> {
    let even = FilteringTo::new(Even, ToList::<i64>::new(alloc));
    let (text, list) = carried(alloc, &even, &FRONT, &REST)?;
    assert!(rt; text.as_str() == "[2]" && list.as_slice() == [2, 4].as_slice());
    Ok(())
}

fn counts_of_words<R: Abort>(rt: &R, alloc: Global) -> Result<(), WireError> {
    let counts = GroupingBy::new(alloc, LowerCase(alloc), Counting::<&str>::new());
    let pieces = FlatMappingTo::<&str, _, _>::new(Pieces::new(alloc, ' '), counts);
    let (text, counts) = carried(alloc, &pieces, &["To be", "or"], &["not to be"])?;
    assert!(rt; text.as_str() == r#"[["to",1],["be",1],["or",1]]"# && counts.len() == 4);
    assert!(rt; counts.get("to") == Some(&2) && counts.get("be") == Some(&2));
    assert!(rt; counts.get("or") == Some(&1) && counts.get("not") == Some(&1));
    Ok(())
}

fn what_becomes_of_a_sum<R: Abort>(rt: &R, alloc: Global) -> Result<(), WireError> {
    let sum = SummingLong::<i64, Itself>::new(Itself);
    let twice = CollectingAndThen::new(sum, Times(2));
    let (text, sum) = carried(alloc, &twice, &FRONT, &REST)?;
    assert!(rt; text.as_str() == "14" && sum == 46);
    Ok(())
}

fn groups_of_counts<R: Abort>(rt: &R, alloc: Global) -> Result<(), WireError> {
    let counts = GroupingBy::new(alloc, Modulo::by(3), Counting::<i64>::new());
    let (text, groups) = carried(alloc, &counts, &FRONT, &REST)?;
    assert!(rt; text.as_str() == "[[2,2],[1,1]]" && groups.len() == 2);
    assert!(rt; groups.get(&2) == Some(&3) && groups.get(&1) == Some(&2));
    Ok(())
}

fn groups_of_lists<R: Abort>(rt: &R, alloc: Global) -> Result<(), WireError> {
    let lists = GroupingBy::new(alloc, Modulo::by(3), ToList::<i64>::new(alloc));
    let (text, groups) = carried(alloc, &lists, &FRONT, &REST)?;
    assert!(rt; text.as_str() == "[[2,[5,2]],[1,[7]]]" && groups.len() == 2);
    let twos = groups.get(&2).expect(rt, "a group");
    let ones = groups.get(&1).expect(rt, "a group");
    assert!(rt; twos.as_slice() == [5, 2, 5].as_slice() && ones.as_slice() == [7, 4].as_slice());
    Ok(())
}

fn two_sides<R: Abort>(rt: &R, alloc: Global) -> Result<(), WireError> {
    let sides = PartitioningBy::new(Even, Counting::<i64>::new());
    let (text, sides) = carried(alloc, &sides, &FRONT, &REST)?;
    assert!(rt; text.as_str() == "[2,1]" && sides.no == 3 && sides.yes == 2);
    Ok(())
}

fn a_map_of_sums<R: Abort>(rt: &R, alloc: Global) -> Result<(), WireError> {
    let sums = ToMap::<i64, i64, _, _, _>::new(alloc, Modulo::by(3), Itself, WrapAdd::new());
    let (text, map) = carried(alloc, &sums, &FRONT, &REST)?;
    assert!(rt; text.as_str() == "[[2,7],[1,7]]" && map.len() == 2);
    assert!(rt; map.get(&2) == Some(&12) && map.get(&1) == Some(&11));
    Ok(())
}

fn a_set<R: Abort>(rt: &R, alloc: Global) -> Result<(), WireError> {
    let (text, set) = carried(alloc, &ToSet::<i64>::new(alloc), &FRONT, &REST)?;
    assert!(rt; text.as_str() == "[5,2,7]" && set.len() == 4);
    assert!(rt; set.contains(&5) && set.contains(&2) && set.contains(&7) && set.contains(&4));
    Ok(())
}

fn a_summary<R: Abort>(rt: &R, alloc: Global) -> Result<(), WireError> {
    let facts = Summarizing::<i64, Itself>::new(Itself);
    let (text, summary) = carried(alloc, &facts, &FRONT, &REST)?;
    assert!(rt; text.as_str() == "[[3,14],[[2],[7]]]" && summary.count == 5 && summary.sum == 23);
    assert!(rt; summary.least == Some(2) && summary.greatest == Some(7));
    Ok(())
}

#[test]
fn containers_are_read_again(rt: HostRuntime) -> Result<(), WireError> {
    let alloc = rt.alloc();
    a_count(&rt, alloc)?;
    a_sum(&rt, alloc)?;
    the_greatest(&rt, alloc)?;
    the_least_of_later_ones(&rt, alloc)?;
    the_first(&rt, alloc)?;
    a_list(&rt, alloc)?;
    a_joined_text(&rt, alloc)?;
    two_results(&rt, alloc)?;
    words(&rt, alloc)?;
    some_items(&rt, alloc)?;
    counts_of_words(&rt, alloc)?;
    what_becomes_of_a_sum(&rt, alloc)?;
    groups_of_counts(&rt, alloc)?;
    groups_of_lists(&rt, alloc)?;
    two_sides(&rt, alloc)?;
    a_map_of_sums(&rt, alloc)?;
    a_set(&rt, alloc)?;
    a_summary(&rt, alloc)
}

/// Values that no container of the collector below is written as.
static OTHERS: [&str; 6] = [
    "7",
    "[7]",
    "[[1]]",
    "[[1,2,3]]",
    r#"[["a",1]]"#,
    "[[2,1],[2,1]]",
];

#[test]
fn other_values_are_refused(rt: HostRuntime) -> Result<(), WireError> {
    let alloc = rt.alloc();
    let counts = GroupingBy::new(alloc, Modulo::by(3), Counting::<i64>::new());
    for text in OTHERS {
        let Ok(value) = Json::from_str(alloc, text) else {
            return Err(WireError::NoMemory);
        };
        let error = counts.read(alloc, value).err().expect(&rt, "an error");
        if error == WireError::NoMemory {
            return Err(error);
        }
    }
    Ok(())
}
