//! A pipeline's plan, and the loop that makes it simpler.

ghost use Rattle.std.specs.Prelude.{◌≡◌, ◌<◌, IfSome, List, length, remove, true};
ghost use Rattle.pipeline_plan.specs.Rules.{work};
ghost use Rattle.pipeline_meaning.specs.Stages.{stage_list, stages_list};
ghost use Rattle.pipeline_plan.specs.PlanFlags.{AreFlags};

use crate::flags::flags_through;
use crate::neighbours::{better_neighbours, is_distinct, makes_none, put};
use crate::{Kind, StageOf};
use pipeline_language::{Barrier, ItemCount, Part, Stage};
use stages::StreamFlags;

/// Where the items of a plan come from.
pub trait PlanSource<K: Kind>: Copy {
    ghost items: { Self → List K.Item.Content };

    /// The source of what a stage leaves of the items, where that is a source of this type.
    fn absorbed(&self, stage: &StageOf<K>) -> Option<Self>
        ensures { IfSome result (λ source. items source ≡ stage_list K.means stage.now (items self.now)) };

    /// What the library's flags tell of the items.
    fn flags(&self) -> StreamFlags
        ensures { AreFlags K.Item.order result (items self.now) };
}

/// Where items come from, and the stages behind.
#[derive(Drop)]
pub struct Plan<S, K: Kind> {
    pub source: S,
    pub stages: Vec<StageOf<K>>,
}

/// A `distinct` to which only items that differ come.
fn unneeded_distinct<K: Kind, S: PlanSource<K>>(source: &S, stages: &[StageOf<K>]) -> Option<usize>
    ensures within { IfSome result (λ at. at < length stages.now) }
    ensures same { let made = stages_list K.means in
        IfSome result (λ at. made (remove stages.now at) (S.items source.now) ≡ made stages.now (S.items source.now)) }
{
    for at in 0..stages.len() {
        if is_distinct(&stages[at]) {
            let (front, _) = stages.split_at(at);
            if flags_through::<K>(source.flags(), front).is_distinct() {
                return Some(at);
            }
        }
    }
    None
}

/// The source that does what the first stage does, where there is one.
fn absorbing<K: Kind, S: PlanSource<K>>(source: &S, stages: &[StageOf<K>]) -> Option<S>
    ensures within { IfSome result (λ _. 0 < length stages.now) }
    ensures same { let made = stages_list K.means in
        IfSome result (λ new. made (remove stages.now 0) (S.items new) ≡ made stages.now (S.items source.now)) }
{
    if stages.is_empty() {
        return None;
    }
    if makes_none::<K>(&stages[0]) {
        let none = ItemCount { number: 0 };
        return source.absorbed(&Stage::Barrier(Barrier::Counted(Part::Front, none)));
    }
    source.absorbed(&stages[0])
}

/// Applies the first rule that fits. Says whether one did.
fn simpler<K: Kind, S: PlanSource<K>>(plan: &mut Plan<S, K>) -> bool
    ensures same { stages_list K.means plan.new.stages.items (S.items plan.new.source)
        ≡ stages_list K.means plan.old.stages.items (S.items plan.old.source) }
    ensures less { result ≡ true → work plan.new.stages.items < work plan.old.stages.items }
{
    let stages = plan.stages.as_slice();
    if let Some(at) = unneeded_distinct::<K, S>(&plan.source, stages) {
        plan.stages.remove(at);
        return true;
    }
    if let Some(source) = absorbing::<K, S>(&plan.source, stages) {
        plan.source = source;
        plan.stages.remove(0);
        return true;
    }
    if let Some((at, new)) = better_neighbours::<K>(stages) {
        put(&mut plan.stages, at, new);
        return true;
    }
    false
}

/// Applies rules to a plan until none fits.
pub fn optimised<K: Kind, S: PlanSource<K>>(plan: &mut Plan<S, K>)
    ensures { stages_list K.means plan.new.stages.items (S.items plan.new.source)
        ≡ stages_list K.means plan.old.stages.items (S.items plan.old.source) }
{
    while simpler(plan) {}
}
