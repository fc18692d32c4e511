ghost use Rattle.std.specs.Prelude.{◌≡◌, ◌<◌, ◌++◌, ◌^◌, List, Some, take, IsOk, IfOk, count_by, map, min, option_map};
ghost use Rattle.stages.specs.declared.flags.Operation.TheVariants.{Limit as limit_row};
ghost use Rattle.barriers.specs.Needs.{every_item, less_needed};
ghost use Rattle.barriers.specs.NeedLaws.{KeepsEnough-take};
ghost use Rattle.barriers.specs.Parts.{take-nothing};
ghost use Rattle.barriers.specs.BarrierFlags.{KeepsSound-take};

use crate::{Barrier, Demand, Need};
use spliterator::{NoMemory, OrderedValue, Value};
use stages::Operation;
use std::alloc::Global;

/// At most the first items (`java.util.stream.Stream`, `limit`). So many items are enough.
#[derive(Clone, Copy, Debug)]
pub struct Limit {
    pub most: u64,
    ghost fits: { most < 2 ^ 63 },
}

impl Limit {
    /// At most the first `most` items: less than 2^63.
    pub fn new(most: u64) -> Limit
        requires { most < 2 ^ 63 }
        ensures { result.most ≡ most }
    {
        Limit { most }
    }
}

impl<T: Value> Demand<T> for Limit {
    ghost needed = { λ b. Some b.most };

    ghost counted = { λ _. every_item };

    fn need(&self) -> Need {
        Need::Reach(self.most)
    }

    fn counts(&self, _x: &T) -> bool {
        true
    }
}

impl<T: OrderedValue + Drop> Barrier<T> for Limit {
    /// The limit of what is still to come.
    type State = Limit;

    ghost value = { λ b items. take b.most items };

    ghost operation = { λ _. limit_row };

    ghost size_after = { λ b. option_map (min b.most) };

    ghost value_behind = { λ _ left items. take left.most items };

    ghost needed_behind = { λ _ left. Some left.most };

    ghost enough_law = { λ b. KeepsEnough-take b.most };

    ghost enough_behind = { λ _ left. KeepsEnough-take left.most };

    ghost of_nothing = { λ _ left. take-nothing left.most };

    ghost flag_law = { λ b. KeepsSound-take T.order b.most };

    fn apply(&self, mut items: Vec<T>) -> Result<Vec<T>, NoMemory>
        ensures value { IfOk result (λ kept. map T.content kept.items ≡ take self.now.most (map T.content items.items)) }
        ensures answered { IsOk result }
    {
        items.truncate(self.most as usize);
        Ok(items)
    }

    fn operation(&self) -> Operation {
        Operation::Limit
    }

    fn size_after(&self, size: Option<u64>) -> Option<u64>
        ensures { result ≡ option_map (min self.now.most) size }
    {
        match size {
            Some(size) => Some(self.most.min(size)),
            None => None,
        }
    }

    fn fresh(&self, _alloc: Global) -> Limit {
        *self
    }

    fn need_behind(&self, state: &Limit) -> Need {
        Need::Reach(state.most)
    }

    fn carry(&self, state: &mut Limit, items: Vec<T>, _is_cut: bool) -> Result<Vec<T>, NoMemory>
        ensures goes_on { (more : List T.Content) → IfOk result (λ kept.
            take state.old.most (map T.content items.items ++ more)
            ≡ map T.content kept.items ++ take state.new.most more) }
        ensures lessened { let came = count_by every_item (map T.content items.items) in
            IfOk result (λ _. Some state.new.most ≡ less_needed (Some state.old.most) came) }
        ensures answered { IsOk result }
    {
        let kept = state.apply(items)?;
        *state = Limit::new(state.most.saturating_sub(kept.len() as u64));
        Ok(kept)
    }
}
