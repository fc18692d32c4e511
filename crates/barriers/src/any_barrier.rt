//! A barrier that is chosen at run time.
use crate::{Barrier, Demand, Distinct, DropWhile, Limit, Need, Skip, TakeWhile};
use indexmap::IndexSet;
use spliterator::{EqualValue, NoMemory, OrderedValue, Value};
use stages::{Operation, Test};
use std::alloc::Global;
use std::hash::{BuildHasher, Hash};

/// One of the barriers, chosen at run time. `P` is the test of a while, and `S` hashes distinct items.
#[derive(Drop)]
pub enum AnyBarrier<P, S> {
    Distinct(Distinct<S>),
    Limit(Limit),
    Skip(Skip),
    TakeWhile(TakeWhile<P>),
    DropWhile(DropWhile<P>),
}

/// The state of one of the barriers.
#[derive(Drop)]
pub enum AnyState<T: Eq + Hash, S: BuildHasher> {
    Distinct(IndexSet<T, S>),
    Limit(Limit),
    Skip(Skip),
    TakeWhile(bool),
    DropWhile(bool),
}

impl<T: Value, P: Test<T>, S> Demand<T> for AnyBarrier<P, S> {
    ghost use Rattle.barriers.specs.AnyBarriers.{any_ready, any_needed, any_counted};

    ghost ready = { any_ready P.ready };

    ghost needed = { any_needed };

    ghost counted = { any_counted P.holds };

    fn need(&self) -> Need {
        match self {
            AnyBarrier::Distinct(barrier) => Demand::<T>::need(barrier),
            AnyBarrier::Limit(barrier) => Demand::<T>::need(barrier),
            AnyBarrier::Skip(barrier) => Demand::<T>::need(barrier),
            AnyBarrier::TakeWhile(barrier) => Demand::<T>::need(barrier),
            AnyBarrier::DropWhile(barrier) => Demand::<T>::need(barrier),
        }
    }

    fn counts(&self, x: &T) -> bool {
        match self {
            AnyBarrier::Distinct(barrier) => barrier.counts(x),
            AnyBarrier::Limit(barrier) => barrier.counts(x),
            AnyBarrier::Skip(barrier) => barrier.counts(x),
            AnyBarrier::TakeWhile(barrier) => barrier.counts(x),
            AnyBarrier::DropWhile(barrier) => barrier.counts(x),
        }
    }

    fn front(&self, items: &[T], wanted: u64) -> (usize, u64) {
        match self {
            AnyBarrier::Distinct(barrier) => barrier.front(items, wanted),
            AnyBarrier::Limit(barrier) => barrier.front(items, wanted),
            AnyBarrier::Skip(barrier) => barrier.front(items, wanted),
            AnyBarrier::TakeWhile(barrier) => barrier.front(items, wanted),
            AnyBarrier::DropWhile(barrier) => barrier.front(items, wanted),
        }
    }
}

/// With a state of another barrier, which none of its own calls makes, the barrier is over: nothing is left of what comes.
impl<T: OrderedValue + EqualValue + Hash + Clone + Drop, P: Test<T>, S: BuildHasher + Copy> Barrier<
    T,
> for AnyBarrier<P, S> {
    ghost use Rattle.std.specs.Prelude.{◌≡◌, ◌++◌, List, IfOk, OnOk, count_by, map};
    ghost use Rattle.spliterator.specs.Clones.{ClonesAlike};
    ghost use Rattle.barriers.specs.Needs.{IsToldBy, less_needed};
    ghost use Rattle.barriers.specs.Thinned.{IsThinned};
    ghost use Rattle.barriers.specs.Parts.{KeepsEnough-taken_while};
    ghost use Rattle.barriers.specs.AnyBarriers.{any_ready, any_counted, any_value, any_operation, any_size_after, any_can_carry, any_needed_behind, any_value_behind};
    ghost use Rattle.barriers.specs.AnyBarrierLaws.{KeepsEnough-any, KeepsEnough-any_behind, KeepsSound-any, nothing-any};

    /// The state of the barrier that it is.
    type State = AnyState<T, S>;

    ghost value = { any_value T.same P.holds };

    ghost operation = { any_operation };

    ghost size_after = { any_size_after };

    ghost value_behind = { any_value_behind T.content T.same P.holds };

    ghost needed_behind = { any_needed_behind ⟦<TakeWhile<P> as Barrier<T>>⟧.needed_behind };

    ghost can_carry = { any_can_carry (ClonesAlike T.is_clone T.content) };

    ghost enough_law = { KeepsEnough-any T.same P.holds };

    ghost enough_behind = { KeepsEnough-any_behind T.same P.holds T.content
        ⟦<TakeWhile<P> as Barrier<T>>⟧.needed_behind
        (λ b is_open. KeepsEnough-taken_while is_open (P.holds b.test)) };

    ghost of_nothing = { nothing-any T.same P.holds T.content };

    ghost flag_law = { KeepsSound-any T.same P.holds T.same_decides T.order };

    fn apply(&self, items: Vec<T>) -> Result<Vec<T>, NoMemory>
        requires { any_ready P.ready self.now }
        ensures value { let value = any_value T.same P.holds self.now in
            IfOk result (λ kept. map T.content kept.items ≡ value (map T.content items.items)) }
    {
        match self {
            AnyBarrier::Distinct(barrier) => barrier.apply(items),
            AnyBarrier::Limit(barrier) => barrier.apply(items),
            AnyBarrier::Skip(barrier) => barrier.apply(items),
            AnyBarrier::TakeWhile(barrier) => barrier.apply(items),
            AnyBarrier::DropWhile(barrier) => barrier.apply(items),
        }
    }

    fn operation(&self) -> Operation {
        match self {
            AnyBarrier::Distinct(_) => Operation::Distinct,
            AnyBarrier::Limit(_) => Operation::Limit,
            AnyBarrier::Skip(_) => Operation::Skip,
            AnyBarrier::TakeWhile(_) => Operation::TakeWhile,
            AnyBarrier::DropWhile(_) => Operation::DropWhile,
        }
    }

    fn size_after(&self, size: Option<u64>) -> Option<u64> {
        match self {
            AnyBarrier::Limit(barrier) => Barrier::<T>::size_after(barrier, size),
            AnyBarrier::Skip(barrier) => Barrier::<T>::size_after(barrier, size),
            _ => None,
        }
    }

    fn fresh(&self, alloc: Global) -> AnyState<T, S> {
        match self {
            AnyBarrier::Distinct(barrier) => {
                AnyState::Distinct(Barrier::<T>::fresh(barrier, alloc))
            }
            AnyBarrier::Limit(barrier) => AnyState::Limit(Barrier::<T>::fresh(barrier, alloc)),
            AnyBarrier::Skip(barrier) => AnyState::Skip(Barrier::<T>::fresh(barrier, alloc)),
            AnyBarrier::TakeWhile(barrier) => {
                AnyState::TakeWhile(Barrier::<T>::fresh(barrier, alloc))
            }
            AnyBarrier::DropWhile(barrier) => {
                AnyState::DropWhile(Barrier::<T>::fresh(barrier, alloc))
            }
        }
    }

    fn need_behind(&self, state: &AnyState<T, S>) -> Need {
        match (self, state) {
            (AnyBarrier::Distinct(barrier), AnyState::Distinct(came)) => {
                Barrier::<T>::need_behind(barrier, came)
            }
            (AnyBarrier::Limit(barrier), AnyState::Limit(left)) => {
                Barrier::<T>::need_behind(barrier, left)
            }
            (AnyBarrier::Skip(barrier), AnyState::Skip(left)) => {
                Barrier::<T>::need_behind(barrier, left)
            }
            (AnyBarrier::TakeWhile(barrier), AnyState::TakeWhile(is_open)) => {
                Barrier::<T>::need_behind(barrier, is_open)
            }
            (AnyBarrier::DropWhile(barrier), AnyState::DropWhile(is_dropping)) => {
                Barrier::<T>::need_behind(barrier, is_dropping)
            }
            _ => Need::Reach(0),
        }
    }

    fn lets_pass(&self, state: &AnyState<T, S>) -> bool {
        match (self, state) {
            (AnyBarrier::Distinct(barrier), AnyState::Distinct(came)) => {
                Barrier::<T>::lets_pass(barrier, came)
            }
            (AnyBarrier::Limit(barrier), AnyState::Limit(left)) => {
                Barrier::<T>::lets_pass(barrier, left)
            }
            (AnyBarrier::Skip(barrier), AnyState::Skip(left)) => {
                Barrier::<T>::lets_pass(barrier, left)
            }
            (AnyBarrier::TakeWhile(barrier), AnyState::TakeWhile(is_open)) => {
                Barrier::<T>::lets_pass(barrier, is_open)
            }
            (AnyBarrier::DropWhile(barrier), AnyState::DropWhile(is_dropping)) => {
                Barrier::<T>::lets_pass(barrier, is_dropping)
            }
            _ => false,
        }
    }

    fn thins(&self, state: &AnyState<T, S>) -> bool {
        match (self, state) {
            (AnyBarrier::Distinct(barrier), AnyState::Distinct(came)) => {
                Barrier::<T>::thins(barrier, came)
            }
            _ => false,
        }
    }

    fn thin(&self, state: &AnyState<T, S>, items: &mut Vec<T>) -> Result<(), NoMemory>
        ensures { let needed = any_needed_behind ⟦<TakeWhile<P> as Barrier<T>>⟧.needed_behind self.now state.now in
            let left = any_value_behind T.content T.same P.holds self.now state.now in
            OnOk result (IsThinned needed left (map T.content items.old.items) (map T.content items.new.items)) }
    {
        match (self, state) {
            (AnyBarrier::Distinct(barrier), AnyState::Distinct(came)) => barrier.thin(came, items),
            _ => Ok(()),
        }
    }

    fn carry(
        &self,
        state: &mut AnyState<T, S>,
        mut items: Vec<T>,
        is_cut: bool,
    ) -> Result<Vec<T>, NoMemory>
        requires ready { any_ready P.ready self.now }
        requires can { any_can_carry (ClonesAlike T.is_clone T.content) self.now }
        requires told { let needed = any_needed_behind ⟦<TakeWhile<P> as Barrier<T>>⟧.needed_behind in
            IsToldBy (needed self.now state.old) (any_counted P.holds self.now)
            (map T.content items.items) is_cut }
        ensures goes_on { let left = any_value_behind T.content T.same P.holds self.now in
            (more : List T.Content) → IfOk result (λ kept.
            left state.old (map T.content items.items ++ more)
            ≡ map T.content kept.items ++ left state.new more) }
        ensures lessened { let needed = any_needed_behind ⟦<TakeWhile<P> as Barrier<T>>⟧.needed_behind self.now in
            let came = count_by (any_counted P.holds self.now) (map T.content items.items) in
            IfOk result (λ _. needed state.new ≡ less_needed (needed state.old) came) }
    {
        match (self, state) {
            (AnyBarrier::Distinct(barrier), AnyState::Distinct(came)) => {
                return barrier.carry(came, items, is_cut);
            }
            (AnyBarrier::Limit(barrier), AnyState::Limit(left)) => {
                return barrier.carry(left, items, is_cut);
            }
            (AnyBarrier::Skip(barrier), AnyState::Skip(left)) => {
                return barrier.carry(left, items, is_cut);
            }
            (AnyBarrier::TakeWhile(barrier), AnyState::TakeWhile(is_open)) => {
                return barrier.carry(is_open, items, is_cut);
            }
            (AnyBarrier::DropWhile(barrier), AnyState::DropWhile(is_dropping)) => {
                return barrier.carry(is_dropping, items, is_cut);
            }
            _ => {
                items.clear();
                return Ok(items);
            }
        }
    }
}
