//! Operations that look at a whole list.
ghost use Rattle.std.specs.Prelude.{◌≡◌, ◌≢◌, ◌++◌, ◌^◌, ℕ, true, false, ⊤, List, [], Option, Some, None, IfOk, OnOk, count_by, map};
ghost use Rattle.stages.specs.declared.flags.Operation.{Operation};
ghost use Rattle.stages.specs.Flags.{KeepsSound};
ghost use Rattle.barriers.specs.Needs.{need_of, less_needed, CountsNone, IsBelow, IsToldBy, KeepsEnough};
ghost use Rattle.barriers.specs.Thinned.{IsThinned};

use crate::{Demand, Need};
use spliterator::{NoMemory, OrderedValue};
use stages::Operation;
use std::alloc::Global;

/// An operation that looks at a whole list (`java.util.stream`, package summary, Stateful operations). It is its own demand: what it asks of the
/// list before it.
///
/// The list may come in consecutive parts: `carry` takes one after another, with a state that tells what is known of those before.
pub trait Barrier<T: OrderedValue>: Demand<T> {
    /// What is known of the items that came so far.
    type State: Drop;

    ghost value: { Self → List T.Content → List T.Content };

    // the row of the flags' table
    ghost operation: { Self → Operation };

    // the number of items after the barrier, where it follows from the number before
    ghost size_after: { Self → Option ℕ → Option ℕ };

    // what the barrier makes of the items behind those that led to the state
    ghost value_behind: { Self → Self.State → List T.Content → List T.Content };

    // how many counting items are needed of them
    ghost needed_behind: { Self → Self.State → Option ℕ };

    // the condition of `carry`, where it clones items
    ghost can_carry: { Self → Type 0 } = { λ _. ⊤ };

    /// The barrier's value of a list. Refused: the list is gone.
    fn apply(&self, items: Vec<T>) -> Result<Vec<T>, NoMemory>
        requires { Self.ready self.now }
        ensures { IfOk result (λ kept. map T.content kept.items ≡ value self.now (map T.content items.items)) };

    /// The operation whose row of the flags' table the barrier has.
    fn operation(&self) -> Operation
        ensures { result ≡ operation self.now };

    /// The number of items after the barrier, where it follows from the number before.
    fn size_after(&self, size: Option<u64>) -> Option<u64>
        ensures { result ≡ size_after self.now size };

    /// The state before any item.
    fn fresh(&self, alloc: Global) -> Self::State
        ensures value { (items : List T.Content) → value_behind self.now result items ≡ value self.now items }
        ensures needed { needed_behind self.now result ≡ Self.needed self.now };

    /// How many counting items are needed of those still to come: less than 2^63. With `Need::Never` no item counts.
    fn need_behind(&self, state: &Self::State) -> Need
        requires { Self.ready self.now }
        ensures is { need_of result ≡ needed_behind self.now state.now }
        ensures fits { IsBelow (needed_behind self.now state.now) (2 ^ 63) }
        ensures never { CountsNone (needed_behind self.now state.now) (Self.counted self.now) };

    /// Whether what is still to come is left as it is, and no number of items is needed of it. No is no promise.
    fn lets_pass(&self, _state: &Self::State) -> bool
        ensures passes { result ≡ true
            → (more : List T.Content) → value_behind self.now _state.now more ≡ more }
        ensures asks_nothing { result ≡ true → needed_behind self.now _state.now ≡ None }
    {
        false
    }

    /// Whether `thin` may pay. It is no promise.
    fn thins(&self, _state: &Self::State) -> bool {
        false
    }

    /// Of some items those that make the difference that all of them make. Refused: the items are gone.
    fn thin(&self, _state: &Self::State, _items: &mut Vec<T>) -> Result<(), NoMemory>
        ensures { let thinned = IsThinned (needed_behind self.now _state.now) (value_behind self.now _state.now) in
            OnOk result (thinned (map T.content _items.old.items) (map T.content _items.new.items)) }
    {
        Ok(())
    }

    /// What the barrier leaves of the next items. The state is then behind them, and needs fewer by those that count. `is_cut` says whether
    /// the run that kept the items was cut, since they were enough. Refused: the state is only to be dropped.
    fn carry(
        &self,
        state: &mut Self::State,
        items: Vec<T>,
        is_cut: bool,
    ) -> Result<Vec<T>, NoMemory>
        requires ready { Self.ready self.now }
        requires can { can_carry self.now }
        requires told { IsToldBy (needed_behind self.now state.old) (Self.counted self.now)
            (map T.content items.items) is_cut }
        ensures goes_on { (more : List T.Content) → IfOk result (λ kept.
            value_behind self.now state.old (map T.content items.items ++ more)
            ≡ map T.content kept.items ++ value_behind self.now state.new more) }
        ensures lessened { let contents = map T.content items.items in
            let came = count_by (Self.counted self.now) contents in
            let needed = less_needed (needed_behind self.now state.old) came in
            IfOk result (λ _. needed_behind self.now state.new ≡ needed) };

    // where a front of the list is enough, what follows it makes no difference
    ghost enough_law: { (b : Self) → KeepsEnough (Self.needed b) (Self.counted b) (value b) };

    // where a front of what is still to come is enough, what follows it makes no difference
    ghost enough_behind: { (b : Self) (state : Self.State)
        → KeepsEnough (needed_behind b state) (Self.counted b) (value_behind b state) };

    // of nothing, nothing is left
    ghost of_nothing: { (b : Self) (state : Self.State) → value_behind b state [] ≡ [] };

    // sound flags and a known size stay so
    ghost flag_law: { (b : Self) → KeepsSound T.order T.order (operation b) (size_after b) (value b) };

    /// Whether no counting item is needed of those still to come. Then nothing that is still to come matters.
    final fn is_over(&self, state: &Self::State) -> bool
        requires ready { Self.ready self.now }
        ensures over { result ≡ true → (more : List T.Content) → value_behind self.now state.now more ≡ [] }
        ensures needs { result ≡ false → needed_behind self.now state.now ≢ Some 0 }
    {
        matches!(self.need_behind(state), Need::Reach(0))
    }
}
