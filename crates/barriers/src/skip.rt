ghost use Rattle.std.specs.Prelude.{◌≡◌, ◌++◌, ◌-◌, ◌<◌, ◌≤◌, vec_len, ◌^◌, List, None, drop, IsOk, IfOk, map, option_map};
ghost use Rattle.stages.specs.declared.flags.Operation.TheVariants.{Skip as skip_row};
ghost use Rattle.barriers.specs.Needs.{no_item};
ghost use Rattle.barriers.specs.NeedLaws.{KeepsEnough-never};
ghost use Rattle.barriers.specs.Parts.{drop-nothing};
ghost use Rattle.barriers.specs.BarrierFlags.{KeepsSound-drop};

use crate::{Barrier, Demand, Need};
use spliterator::{NoMemory, OrderedValue, Value};
use stages::Operation;
use std::alloc::Global;

// Drops the first items, and takes no memory.
pub(crate) fn drop_front<T: Drop>(items: &mut Vec<T>, number: usize)
    requires { number ≤ vec_len items.old }
    ensures { items.new.items ≡ drop number items.old.items }
{
    drop(items.drain(..number));
}

/// The items after the first ones (`java.util.stream.Stream`, `skip`).
#[derive(Clone, Copy, Debug)]
pub struct Skip {
    pub number: u64,
    ghost fits: { number < 2 ^ 63 },
}

impl Skip {
    /// The items after the first `number`: less than 2^63.
    pub fn new(number: u64) -> Skip
        requires { number < 2 ^ 63 }
        ensures { result.number ≡ number }
    {
        Skip { number }
    }
}

impl<T: Value> Demand<T> for Skip {
    ghost needed = { λ _. None };

    ghost counted = { λ _. no_item };

    fn need(&self) -> Need {
        Need::Never
    }

    fn counts(&self, _x: &T) -> bool {
        false
    }
}

impl<T: OrderedValue + Drop> Barrier<T> for Skip {
    /// What is still to be dropped.
    type State = Skip;

    ghost value = { λ b items. drop b.number items };

    ghost operation = { λ _. skip_row };

    ghost size_after = { λ b. option_map (λ size. size - b.number) };

    ghost value_behind = { λ _ left items. drop left.number items };

    ghost needed_behind = { λ _ _. None };

    ghost enough_law = { λ b. KeepsEnough-never no_item (drop b.number) };

    ghost enough_behind = { λ _ left. KeepsEnough-never no_item (drop left.number) };

    ghost of_nothing = { λ _ left. drop-nothing left.number };

    ghost flag_law = { λ b. KeepsSound-drop T.order b.number };

    fn apply(&self, mut items: Vec<T>) -> Result<Vec<T>, NoMemory>
        ensures value { IfOk result (λ kept. map T.content kept.items ≡ drop self.now.number (map T.content items.items)) }
        ensures answered { IsOk result }
    {
        let number = items.len().min(self.number as usize);
        drop_front(&mut items, number);
        Ok(items)
    }

    fn operation(&self) -> Operation {
        Operation::Skip
    }

    fn size_after(&self, size: Option<u64>) -> Option<u64>
        ensures { result ≡ option_map (λ size. size - self.now.number) size }
    {
        match size {
            Some(size) => Some(size.saturating_sub(self.number)),
            None => None,
        }
    }

    fn fresh(&self, _alloc: Global) -> Skip {
        *self
    }

    fn need_behind(&self, _state: &Skip) -> Need {
        Need::Never
    }

    fn lets_pass(&self, state: &Skip) -> bool {
        state.number == 0
    }

    fn carry(&self, state: &mut Skip, items: Vec<T>, _is_cut: bool) -> Result<Vec<T>, NoMemory>
        ensures goes_on { (more : List T.Content) → IfOk result (λ kept.
            drop state.old.number (map T.content items.items ++ more)
            ≡ map T.content kept.items ++ drop state.new.number more) }
        ensures answered { IsOk result }
    {
        let number = items.len() as u64;
        let kept = state.apply(items)?;
        *state = Skip::new(state.number.saturating_sub(number));
        Ok(kept)
    }
}
