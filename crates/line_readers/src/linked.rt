//! An operation that looks at many items, behind others.
ghost use Rattle.std.specs.Prelude.{◌≡◌, ◌++◌, List, [], IfOk, flat_map, map, true, false};
ghost use Rattle.spliterator.specs.Clones.{ClonesAlike};
ghost use Rattle.barriers.specs.Needs.{IsOutcome, IsToldBy};
ghost use Rattle.line_readers.specs.Values.{GoesOn};
ghost use Rattle.line_readers.specs.Carried.{linked-nothing};

use crate::Between;
use barriers::{Barrier, Demand, Need};
use spliterator::{NoMemory, OrderedValue};
use stages::{Stage, Then};
use std::alloc::Global;
use std::marker::PhantomData;

/// One operation more, behind a stage that `M` is.
#[derive(Drop)]
pub struct Linked<Q, M, B> {
    pub before: Q,
    pub barrier: B,
    stage: PhantomData<M>,
}

impl<Q, M, B> Linked<Q, M, B> {
    pub(crate) fn new(before: Q, barrier: B) -> Linked<Q, M, B>
        ensures before { result.before ≡ before }
        ensures barrier { result.barrier ≡ barrier }
    {
        Linked {
            before,
            barrier,
            stage: PhantomData,
        }
    }
}

/// The states of operations, one after another.
#[derive(Drop)]
pub struct LinkedState<P, S> {
    pub before: P,
    pub own: S,
}

/// What a stage makes of items.
fn through<M: Stage>(stage: &M, items: Vec<M::In>) -> Result<Vec<M::Out>, NoMemory>
    requires { M.ready stage.now }
    ensures { IfOk result (λ made.
        map M.Out.content made.items ≡ flat_map (M.expand stage.now) (map M.In.content items.items)) }
{
    let mut items = items;
    let mut made = Vec::new(*items.allocator());
    stage.feed_all(&mut items, &mut made)?;
    Ok(made)
}

/// Keeps no item behind the first that counts, where that one is enough. Answers whether there is one.
fn cut_behind<T: OrderedValue + Drop, B: Barrier<T>>(
    barrier: &B,
    state: &B::State,
    items: &mut Vec<T>,
) -> bool
    requires { B.Demand.ready barrier.now }
    ensures front { let needed = B.needed_behind barrier.now state.now in
        let is_front = IsOutcome needed (B.Demand.counted barrier.now) in
        is_front (map T.content items.old.items) (map T.content items.new.items) }
    ensures told { let needed = B.needed_behind barrier.now state.now in
        let kept = map T.content items.new.items in
        IsToldBy needed (B.Demand.counted barrier.now) kept result }
{
    let Need::Reach(1) = barrier.need_behind(state) else {
        return false;
    };
    let (taken, counting) = barrier.front(items.as_slice(), 1);
    items.truncate(taken);
    counting == 1
}

/// What a barrier leaves of the next items, all of which have come.
fn carry_all<T: OrderedValue + Drop, B: Barrier<T>>(
    barrier: &B,
    state: &mut B::State,
    items: Vec<T>,
) -> Result<Vec<T>, NoMemory>
    requires ready { B.Demand.ready barrier.now }
    requires can { B.can_carry barrier.now }
    ensures { let before = B.value_behind barrier.now state.old in
        let behind = B.value_behind barrier.now state.new in
        let came = map T.content items.items in
        IfOk result (λ kept. GoesOn before behind came (map T.content kept.items)) }
{
    let mut items = items;
    let is_cut = cut_behind(barrier, state, &mut items);
    barrier.carry(state, items, is_cut)
}

impl<Q: Between, M: Stage<In = Q::Out> + Sync + Drop, B: Barrier<M::Out>> Between
    for Linked<Q, M, B>
where
    M::Out: Clone + Send + Sync,
{
    type In = Q::In;

    type Out = M::Out;

    type Stages = Then<Q::Stages, M>;

    type State = LinkedState<Q::State, B::State>;

    ghost ready = { λ b s. Q.ready b.before s.first × M.ready s.second × B.Demand.ready b.barrier × B.can_carry b.barrier
        × ClonesAlike Q.In.is_clone Q.In.content × ClonesAlike M.Out.is_clone M.Out.content };

    ghost value = { λ b s items. B.value b.barrier (flat_map (M.expand s.second) (Q.value b.before s.first items)) };

    ghost value_behind = { λ b s state items. let before = Q.value_behind b.before s.first state.before items in
        B.value_behind b.barrier state.own (flat_map (M.expand s.second) before) };

    ghost of_nothing = { λ b s state. linked-nothing (B.value_behind b.barrier state.own) (M.expand s.second) (Q.value_behind b.before s.first state.before)
        (Q.of_nothing b.before s.first state.before) (B.of_nothing b.barrier state.own) };

    fn fresh(&self, alloc: Global) -> LinkedState<Q::State, B::State> {
        LinkedState {
            before: self.before.fresh(alloc),
            own: self.barrier.fresh(alloc),
        }
    }

    fn lets_pass(&self, state: &LinkedState<Q::State, B::State>) -> bool {
        self.before.lets_pass(&state.before) && self.barrier.lets_pass(&state.own)
    }

    fn is_over(
        &self,
        stages: &Then<Q::Stages, M>,
        state: &LinkedState<Q::State, B::State>,
    ) -> bool {
        let before = self.before.is_over(&stages.first, &state.before);
        before || self.barrier.is_over(&state.own)
    }

    fn carry(
        &self,
        stages: &Then<Q::Stages, M>,
        state: &mut LinkedState<Q::State, B::State>,
        items: Vec<Q::In>,
    ) -> Result<Vec<M::Out>, NoMemory>
        requires { Q.ready self.now.before stages.now.first × M.ready stages.now.second × B.Demand.ready self.now.barrier × B.can_carry self.now.barrier
            × ClonesAlike Q.In.is_clone Q.In.content × ClonesAlike M.Out.is_clone M.Out.content }
        ensures { let through = flat_map (M.expand stages.now.second) in
            let front = Q.value_behind self.now.before stages.now.first in
            let own = B.value_behind self.now.barrier in
            let before = λ (l : List Q.In.Content). own state.old.own (through (front state.old.before l)) in
            let behind = λ (l : List Q.In.Content). own state.new.own (through (front state.new.before l)) in
            let came = map Q.In.content items.items in
            IfOk result (λ kept. GoesOn before behind came (map M.Out.content kept.items)) }
    {
        let items = self.before.carry(&stages.first, &mut state.before, items)?;
        let items = through(&stages.second, items)?;
        carry_all(&self.barrier, &mut state.own, items)
    }
}
