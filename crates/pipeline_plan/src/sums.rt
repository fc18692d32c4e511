//! The sum of numbers by one step, known before anything runs.

ghost use Rattle.std.specs.Prelude.{◌≡◌, ◌≤◌, ◌^◌, ◌-ℤ◌, IfSome, fold, pos, suc};
ghost use Rattle.pipeline_meaning.specs.Stages.{number_meaning, stages_list};
ghost use Rattle.pipeline_plan.specs.Numbers.{range_items};
ghost use Rattle.stages.specs.Products.{wrapped_product};
ghost use Rattle.stages.specs.Wrapping.{wrapped, wrapped_sum};
ghost use Rattle.pipeline_plan.specs.Sums.{pairs_of};

use crate::{NumberRange, Numbers, Plan};
use sources::{Placed, Progression};
use spliterator::Spliterator;

/// A sum that wraps.
fn wrapping_sum(a: i64, b: i64) -> i64
    ensures { result ≡ wrapped_sum a b }
{
    a.wrapping_add(b)
}

/// A difference that wraps.
fn wrapping_difference(a: i64, b: i64) -> i64
    ensures { result ≡ wrapped (a -ℤ b) }
{
    a.wrapping_sub(b)
}

/// A product that wraps.
fn wrapping_product(a: i64, b: i64) -> i64
    ensures { result ≡ wrapped_product a b }
{
    a.wrapping_mul(b)
}

/// How many pairs one number more than so many have, wrapped.
fn pairs_with(later: u64) -> i64
    requires { later ≤ 2 ^ 62 }
    ensures { result ≡ wrapped (pos (pairs_of (suc later))) }
{
    let half = later / 2;
    if later % 2 == 0 {
        wrapping_product(half.cast_signed(), (later + 1).cast_signed())
    } else {
        wrapping_product((half + 1).cast_signed(), later.cast_signed())
    }
}

/// The sum of numbers by one step, which wraps: the first as often as there are numbers, and the step as often as there are pairs of them.
fn sum_of(numbers: Progression) -> i64
    ensures { result ≡ fold wrapped_sum (pos 0) (⟦<Progression as Spliterator>⟧.items numbers) }
{
    let mut rest = numbers;
    let Some(first) = rest.try_advance().unwrap() else {
        return 0;
    };
    let later = rest.count();
    let Some(second) = rest.try_advance().unwrap() else {
        return first;
    };
    let step = wrapping_difference(second, first);
    let firsts = wrapping_product(first, (later + 1).cast_signed());
    wrapping_sum(firsts, wrapping_product(step, pairs_with(later)))
}

/// The sum of a plan's numbers, which wraps, where no stage is left.
///
/// ```text
/// range 0 10000000, map mul 3    // 149999985000000
/// ```
pub fn known_sum(plan: &Plan<NumberRange, Numbers>) -> Option<i64>
    ensures { let made = stages_list number_meaning plan.now.stages.items in
        IfSome result (λ sum. sum ≡ fold wrapped_sum (pos 0) (made (range_items plan.now.source))) }
{
    if !plan.stages.is_empty() {
        return None;
    }
    Some(sum_of(plan.source.steps()))
}
