//! Operations that look at many items of a reader's lines, and the stages between them.
ghost use Rattle.std.specs.Prelude.{◌≡◌, ◌++◌, List, [], IfOk, flat_map, map, true, false, refl, ⊤};
ghost use Rattle.spliterator.specs.Clones.{ClonesAlike};
ghost use Rattle.line_readers.specs.Values.{GoesOn};

use spliterator::{NoMemory, OrderedValue};
use stages::{Nothing, Stage};
use std::alloc::Global;
use std::marker::PhantomData;

/// Operations that look at many items, each with a stage before it. Their states go on from one block to the next.
pub trait Between {
    type In: OrderedValue + Clone + Drop + Send + Sync;

    type Out: OrderedValue + Clone + Drop + Send + Sync;

    /// The stages, one after another.
    type Stages: Stage<In = Self::In, Out = Self::Out> + Sync + Drop;

    /// What is known of the items that came so far.
    type State: Drop;

    ghost ready: { Self → Self.Stages → Type 0 };

    ghost value: { Self → Self.Stages → List Self.In.Content → List Self.Out.Content };

    // what is made of the items behind those that led to the state
    ghost value_behind: { Self → Self.Stages → Self.State → List Self.In.Content → List Self.Out.Content };

    /// The state before any item.
    fn fresh(&self, alloc: Global) -> Self::State
        ensures { (stages : Self.Stages) → (items : List Self.In.Content)
            → value_behind self.now stages result items ≡ value self.now stages items };

    /// Whether of what is still to come no operation looks at more than one item. No is no promise.
    fn lets_pass(&self, state: &Self::State) -> bool
        ensures passes { result ≡ true → (stages : Self.Stages) → (more : List Self.In.Content)
            → value_behind self.now stages state.now more ≡ flat_map (Self.Stages.expand stages) more }
        ensures ready { result ≡ true → (stages : Self.Stages) → ready self.now stages
            → Self.Stages.ready stages }
        ensures first { result ≡ false → (stages : Self.Stages) → ready self.now stages
            → ClonesAlike Self.In.is_clone Self.In.content }
        ensures last { result ≡ false → (stages : Self.Stages) → ready self.now stages
            → ClonesAlike Self.Out.is_clone Self.Out.content };

    /// Whether nothing that is still to come matters.
    fn is_over(&self, stages: &Self::Stages, state: &Self::State) -> bool
        requires { ready self.now stages.now }
        ensures { result ≡ true → (more : List Self.In.Content)
            → value_behind self.now stages.now state.now more ≡ [] };

    /// What is left of the next items. Refused: the state is only to be dropped.
    fn carry(
        &self,
        stages: &Self::Stages,
        state: &mut Self::State,
        items: Vec<Self::In>,
    ) -> Result<Vec<Self::Out>, NoMemory>
        requires { ready self.now stages.now }
        ensures { let before = value_behind self.now stages.now state.old in
            let behind = value_behind self.now stages.now state.new in
            let came = map Self.In.content items.items in
            IfOk result (λ kept. GoesOn before behind came (map Self.Out.content kept.items)) };

    // of nothing, nothing is left
    ghost of_nothing: { (b : Self) (stages : Self.Stages) (state : Self.State) → value_behind b stages state [] ≡ [] };
}

/// No operation.
#[derive(Drop)]
pub struct NoBarrier<T> {
    items: PhantomData<T>,
}

impl<T> NoBarrier<T> {
    pub(crate) fn new() -> NoBarrier<T> {
        NoBarrier { items: PhantomData }
    }
}

impl<T: OrderedValue + Clone + Drop + Send + Sync> Between for NoBarrier<T> {
    type In = T;

    type Out = T;

    type Stages = Nothing<T>;

    type State = ();

    ghost ready = { λ _ _. ⊤ };

    ghost value = { λ _ _ items. items };

    ghost value_behind = { λ _ _ _ items. items };

    ghost of_nothing = { λ _ _ _. refl };

    fn fresh(&self, _alloc: Global) {}

    fn lets_pass(&self, _state: &()) -> bool {
        true
    }

    fn is_over(&self, _stages: &Nothing<T>, _state: &()) -> bool {
        false
    }

    fn carry(
        &self,
        _stages: &Nothing<T>,
        _state: &mut (),
        items: Vec<T>,
    ) -> Result<Vec<T>, NoMemory>
        ensures { let same = λ (l : List T.Content). l in
            IfOk result (λ kept. GoesOn same same (map T.content items.items) (map T.content kept.items)) }
    {
        Ok(items)
    }
}
