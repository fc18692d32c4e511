ghost use Rattle.std.specs.Prelude.{◌≤◌};

use crate::reading::read;
use sources::{Concat, LinesSplit, RangeSplit};
use split_tree::{DEPTH_LIMIT, MAX_TARGET, Plan, PlanError, Tree};
use spliterator::{NoMemory, Spliterator};
use std::alloc::{AllocError, Global};
use std::fmt::Debug;
use std::process::Abort;

/// The items of each leaf, from the first leaf to the last.
fn leaves<S: Spliterator>(alloc: Global, plan: &Plan<S>) -> Result<Vec<Vec<S::Item>>, NoMemory> {
    let mut leaves = Vec::new(alloc);
    for number in 0..plan.leaves() {
        let items = read(alloc, plan.leaf(number))?;
        leaves.push(items)?;
    }
    Ok(leaves)
}

/// Whether the items of the leaves have this text.
fn has_leaves<S: Spliterator>(alloc: Global, plan: &Plan<S>, wanted: &str) -> Result<bool, NoMemory>
where
    S::Item: Debug,
{
    let text = format!(in alloc; "{:?}", leaves(alloc, plan)?)?;
    Ok(text.as_str() == wanted)
}

/// Whether a tree has this text.
fn has_text(alloc: Global, tree: &Tree, wanted: &str) -> Result<bool, NoMemory> {
    let text = format!(in alloc; "{tree:?}")?;
    Ok(text.as_str() == wanted)
}

/// The integers from 0 up to an end.
fn integers(rt: &impl Abort, end: i64) -> RangeSplit {
    RangeSplit::range(0, end).expect(rt, "a range")
}

/// The plan of a source at a lawful target.
fn plan_of<S: Spliterator>(
    rt: &impl Abort,
    alloc: Global,
    split: S,
    workers: u32,
    target: u64,
) -> Result<Plan<S>, NoMemory>
    requires { (1 ≤ workers) × (workers ≤ 64) }
{
    match Plan::make(alloc, split, workers, target) {
        Ok(plan) => Ok(plan),
        Err(PlanError::NoMemory) => Err(NoMemory),
        Err(PlanError::BadTarget) => panic!(rt; "the target is lawful"),
    }
}

/// Checks the items of the leaves of a source's plan.
fn check_leaves<S: Spliterator>(
    rt: &impl Abort,
    alloc: Global,
    split: S,
    target: u64,
    wanted: &str,
) -> Result<(), NoMemory>
where
    S::Item: Debug,
{
    let plan = plan_of(rt, alloc, split, 1, target)?;
    assert!(rt; has_leaves(alloc, &plan, wanted)?, "at target {target}");
    Ok(())
}

/// Checks the items of the leaves of a source's plan, and the tree.
fn check_tree<S: Spliterator>(
    rt: &impl Abort,
    alloc: Global,
    split: S,
    target: u64,
    leaves: &str,
    tree: &str,
) -> Result<(), NoMemory>
where
    S::Item: Debug,
{
    let plan = plan_of(rt, alloc, split, 1, target)?;
    let has_tree = has_text(alloc, plan.tree(), tree)?;
    assert!(rt; has_tree && has_leaves(alloc, &plan, leaves)?);
    Ok(())
}

/// Targets, and the leaves of the integers up to 10.
static LEAVES: [(u64, &str); 4] = [
    (3, "[[0, 1], [2, 3, 4], [5, 6], [7, 8, 9]]"),
    (0, "[[0, 1], [2], [3, 4], [5, 6], [7], [8, 9]]"),
    (10, "[[0, 1, 2, 3, 4, 5, 6, 7, 8, 9]]"),
    (
        4_611_686_018_427_387_904,
        "[[0, 1, 2, 3, 4, 5, 6, 7, 8, 9]]",
    ),
];

#[test]
fn a_source_is_split_to_the_target(rt: HostRuntime) -> Result<(), NoMemory> {
    for &(target, wanted) in &LEAVES {
        check_leaves(&rt, rt.alloc(), integers(&rt, 10), target, wanted)?;
    }
    Ok(())
}

/// Checks the number of leaves where the target is the default.
fn check_default(
    rt: &impl Abort,
    alloc: Global,
    end: i64,
    workers: u32,
    leaves: usize,
) -> Result<(), NoMemory>
    requires { (1 ≤ workers) × (workers ≤ 64) }
{
    let plan = plan_of(rt, alloc, integers(rt, end), workers, 0)?;
    assert!(rt; plan.leaves() == leaves, "{workers} workers");
    Ok(())
}

#[test]
fn the_default_target_is_four_leaves_a_worker(rt: HostRuntime) -> Result<(), NoMemory> {
    check_default(&rt, rt.alloc(), 10, 1, 6)
        .and(check_default(&rt, rt.alloc(), 10, 7, 10))
        .and(check_default(&rt, rt.alloc(), 1024, 64, 256))
}

/// Whether a tree is a node whose sides have these first and last leaves.
fn is_node_of(tree: &Tree, left: (usize, usize), right: (usize, usize)) -> bool {
    match tree {
        Tree::Node(a, b) => {
            (a.first_leaf(), a.last_leaf()) == left && (b.first_leaf(), b.last_leaf()) == right
        }
        Tree::Leaf(_) => false,
    }
}

/// Checks the leaves on both sides of the tree of five integers, each a leaf.
fn check_sides(rt: &impl Abort, alloc: Global) -> Result<(), NoMemory> {
    let plan = plan_of(rt, alloc, integers(rt, 5), 1, 1)?;
    assert!(rt; is_node_of(plan.tree(), (0, 1), (2, 4)));
    Ok(())
}

#[test]
fn the_tree_is_that_of_the_splits(rt: HostRuntime) -> Result<(), NoMemory> {
    let leaves = "[[0], [1], [2], [3], [4]]";
    let tree = "Node(Node(Leaf(0), Leaf(1)), Node(Leaf(2), Node(Leaf(3), Leaf(4))))";
    check_tree(&rt, rt.alloc(), integers(&rt, 5), 1, leaves, tree).and(check_sides(&rt, rt.alloc()))
}

/// No integers are one leaf.
#[test]
fn nothing_is_one_leaf(rt: HostRuntime) -> Result<(), NoMemory> {
    check_tree(&rt, rt.alloc(), integers(&rt, 0), 0, "[[]]", "Leaf(0)")
}

#[test]
fn lines_are_split_after_line_feeds(rt: HostRuntime) -> Result<(), NoMemory> {
    let lines = LinesSplit::new("a\nb\nc\nd\n");
    let leaves = "[[\"a\"], [\"b\"], [\"c\"], [\"d\"]]";
    let tree = "Node(Node(Node(Leaf(0), Leaf(1)), Leaf(2)), Leaf(3))";
    check_tree(&rt, rt.alloc(), lines, 1, leaves, tree)
}

#[test]
fn a_concatenation_is_split_between_its_sides(rt: HostRuntime) -> Result<(), NoMemory> {
    let second = RangeSplit::range(5, 6).expect(&rt, "a range");
    let sides = Concat::new(integers(&rt, 2), second);
    check_leaves(&rt, rt.alloc(), sides, 1, "[[0], [1], [5]]")
}

/// The end of the integers, a target, the number of leaves, and how many integers the first leaf has.
static COUNTS: [(i64, u64, usize, usize); 4] = [
    (1_000_000, 1, 65_536, 15),
    (1_000_000, 100, 16_384, 61),
    (1_000_000, 1000, 1_024, 976),
    (70_000, 1, 65_536, 1),
];

/// Checks the number of leaves, and how many integers the first leaf has.
fn check_depth(
    rt: &impl Abort,
    alloc: Global,
    end: i64,
    target: u64,
    leaves: usize,
    size: usize,
) -> Result<(), NoMemory> {
    let plan = plan_of(rt, alloc, integers(rt, end), 1, target)?;
    let first = read(alloc, plan.leaf(0))?;
    let is_first = first.len() == size && first.first() == Some(&0);
    assert!(rt; plan.leaves() == leaves && is_first, "{end} integers");
    Ok(())
}

#[test]
fn the_depth_is_limited(rt: HostRuntime) -> Result<(), NoMemory> {
    assert!(rt; 1_usize << DEPTH_LIMIT == 65_536);
    for &(end, target, leaves, size) in &COUNTS {
        check_depth(&rt, rt.alloc(), end, target, leaves, size)?;
    }
    Ok(())
}

#[test]
fn a_great_target_is_refused(rt: HostRuntime) {
    let refused = Plan::make(rt.alloc(), integers(&rt, 10), 1, 4_611_686_018_427_387_905);
    let is_refused = matches!(refused, Err(PlanError::BadTarget));
    assert!(rt; is_refused && MAX_TARGET == 4_611_686_018_427_387_904);
}

#[test]
fn errors_have_texts(rt: HostRuntime) -> Result<(), AllocError> {
    let texts = format!(in rt.alloc(); "{}; {}", PlanError::BadTarget, PlanError::NoMemory)?;
    assert!(rt; texts.as_str() == "the target is above 2^62; out of memory");
    Ok(())
}

/// With any of its allocations refused, a plan is the same one or a want of memory.
#[test]
fn a_refused_plan_is_a_want_of_memory(rt: HostRuntime) {
    match Plan::make(rt.alloc(), integers(&rt, 20), 1, 1) {
        Ok(plan) => {
            let ends = (plan.tree().first_leaf(), plan.tree().last_leaf());
            assert!(rt; plan.leaves() == 20 && ends == (0, 19));
        }
        Err(error) => assert!(rt; error == PlanError::NoMemory),
    }
}
