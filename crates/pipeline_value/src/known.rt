//! A sum that is known before anything runs.

ghost use Rattle.std.specs.Prelude.{IfSome};
ghost use Rattle.pipeline_meaning.specs.Stages.{number_stages};
ghost use Rattle.pipeline_plan.specs.Numbers.{range_items};
ghost use Rattle.pipeline_value.specs.Typed.{number_told};
ghost use Rattle.pipeline_value.specs.Value.{Tells};

use crate::told::{ValueError, told};
use parallel_streams::Engine;
use pipeline_language::{NumberTerminal, NumberTotal};
use pipeline_plan::{NumberRange, Numbers, Plan, known_sum};
use value_text::Rope;

/// The text of the sum of a plan's numbers, where it is known. A target of the user's own has its leaves run.
///
/// ```text
/// range 0 10000000, map mul 3, sum    // 149999985000000
/// ```
pub(crate) fn known_number_sum<R, H>(
    engine: &Engine<'_, R, H>,
    plan: &Plan<NumberRange, Numbers>,
    terminal: &NumberTerminal,
) -> Option<Result<Rope, ValueError>>
    ensures { IfSome result (Tells (number_told terminal.now (number_stages plan.now.stages.items (range_items plan.now.source)))) }
{
    if engine.run.target > 0 {
        return None;
    }
    match *terminal {
        NumberTerminal::Own(NumberTotal::Sum) => {
            let sum = known_sum(plan)?;
            Some(told(engine.alloc, &sum))
        }
        _ => None,
    }
}
