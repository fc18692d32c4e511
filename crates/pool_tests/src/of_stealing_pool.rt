//! Runs of ranges by real threads, with gates that hold workers.
ghost use Rattle.std.specs.Prelude.{◌≤◌};

mod gates;
mod rows;
mod streams;
mod watched;

use sources::RangeSplit;
use split_tree::Plan;
use std::alloc::Global;
use std::test::Fail;

/// The most turns of a gate that holds a worker.
const TURNS: u64 = 10_000_000;

/// The plan of the numbers from 0 up to an end.
fn plan_of(alloc: Global, end: i64, workers: u32, target: u64) -> Result<Plan<RangeSplit>, Fail>
    requires { (1 ≤ workers) × (workers ≤ 64) }
{
    Ok(Plan::make(alloc, RangeSplit::range(0, end)?, workers, target)?)
}
