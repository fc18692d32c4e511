//! What the library's flags tell of items before anything runs. The number of the items is left out.

ghost use Rattle.std.specs.Prelude.{◌≡◌, List};
ghost use Rattle.pipeline_meaning.specs.Stages.{stages_list};
ghost use Rattle.pipeline_plan.specs.PlanFlags.{AreFlags, operation_of};

use crate::{Kind, StageOf};
use pipeline_language::{Barrier, Part, Stage};
use spliterator::Spliterator;
use stages::{Operation, StreamFlags};

/// The flags of a source's items.
#[tactic(auto, using(crate::specs::PlanFlags::without_size))]
pub(crate) fn flags_of<S: Spliterator>(source: &S) -> StreamFlags
    ensures { AreFlags S.Item.order result (S.items source.now) }
{
    StreamFlags::of_source(source).after(Operation::Filter)
}

/// The operation that a stage is.
fn operation_of<F, P, E>(stage: &Stage<F, P, E>) -> Operation
    ensures { result ≡ operation_of stage.now }
{
    match stage {
        Stage::Map(_) => Operation::Map,
        Stage::Filter(_) => Operation::Filter,
        Stage::FlatMap(_) => Operation::FlatMap,
        Stage::Barrier(Barrier::Distinct) => Operation::Distinct,
        Stage::Barrier(Barrier::Counted(Part::Front, _)) => Operation::Limit,
        Stage::Barrier(Barrier::Counted(Part::Rest, _)) => Operation::Skip,
        Stage::Barrier(Barrier::While(Part::Front, _)) => Operation::TakeWhile,
        Stage::Barrier(Barrier::While(Part::Rest, _)) => Operation::DropWhile,
    }
}

/// The flags of what stages make of items.
pub(crate) fn flags_through<K: Kind>(flags: StreamFlags, stages: &[StageOf<K>]) -> StreamFlags
    ensures { (l : List K.Item.Content) → AreFlags K.Item.order flags l
        → AreFlags K.Item.order result (stages_list K.means stages.now l) }
{
    let mut behind = flags;
    for stage in stages {
        behind = behind.after(operation_of(stage));
    }
    behind
}
