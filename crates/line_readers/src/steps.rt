//! What becomes of each line, and of the lines of one text.
ghost use Rattle.std.specs.Prelude.{◌≡◌, ◌<◌, ◌≤◌, ◌^◌, ◌++◌, ℕ, List, IfOk, flat_map, map, string_bytes};
ghost use Rattle.spliterator.specs.Clones.{ClonesAlike};
ghost use Rattle.collectors.specs.Laws.{IsContainerOf};
ghost use Rattle.sources.specs.Lines.{text_lines};
ghost use Rattle.line_readers.specs.Values.{values_of, IsTaken};

use crate::{Between, LineFunction, OfLine};
use collectors::{Collector, ToList};
use parallel_streams::{Engine, Run, Stream, fold_into, of};
use sources::{LinesSplit, SliceSplit};
use split_tree::MAX_TARGET;
use spliterator::{NoMemory, OrderedValue};
use stages::Stage;
use std::thread::Threads;
use std::time::Clock;
use stealing_pool::Gate;

/// What becomes of each line: a function of it, a stage behind that, operations that look at many items, with the stages between them, and a stage
/// behind those.
#[derive(Drop)]
pub struct LineSteps<F, A, Q, S, Z> {
    pub function: F,
    pub first: A,
    pub barriers: Q,
    pub between: S,
    pub last: Z,
}

/// The lines of a reader, in blocks of `size` bytes or, where a line is longer, of up to `longest`, and what becomes of them.
#[derive(Drop)]
pub struct LineParts<I, F, A, Q, S, Z> {
    pub reader: I,
    pub size: usize,
    pub longest: usize,
    pub steps: LineSteps<F, A, Q, S, Z>,
    ghost sized: { 0 < size },
}

/// Takes what two stages make of a stream's items into a container, behind what is in it.
fn take_staged<
    R: Threads + Clock + Sync,
    H: Gate + Sync,
    X: Stream + Drop,
    S: Stage<In = X::Item> + Sync,
    Z: Stage<In = S::Out> + Sync,
    C: Collector<Item = Z::Out> + Sync,
>(
    engine: &Engine<'_, R, H>,
    items: X,
    between: &S,
    last: &Z,
    collector: &C,
    acc: C::Acc,
) -> Result<C::Acc, NoMemory>
where
    S::Out: OrderedValue + Clone + Drop + Send + Sync,
    Z::Out: Clone + Send + Sync,
    C::Acc: Send,
    C::Out: Send,
    requires items { X.ready items }
    requires between { S.ready between.now }
    requires last { Z.ready last.now }
    requires collector { C.ready collector.now }
    ensures { let it = collector.now in
        let made = IsContainerOf Z.Out.is_value (C.content it) (C.empty it) (C.add it) in
        let passed = flat_map (S.expand between.now) (X.value items) in
        (l : List Z.Out.Content) → made l acc
        → IfOk result (made (l ++ flat_map (Z.expand last.now) passed)) }
{
    let mut acc = acc;
    fold_into(engine, &items.then(between).then(last), collector, &mut acc)?;
    Ok(acc)
}

/// Takes what becomes of the lines of a text into a container, behind what is in it, where no operation looks at more than one item.
fn take_through<
    R: Threads + Clock + Sync,
    H: Gate + Sync,
    F: LineFunction + Sync,
    A: Stage<In = F::Out> + Sync,
    Q: Between<In = A::Out>,
    Z: Stage<In = Q::Out> + Sync,
    C: Collector<Item = Z::Out> + Sync,
>(
    engine: &Engine<'_, R, H>,
    steps: &LineSteps<F, A, Q, Q::Stages, Z>,
    collector: &C,
    acc: C::Acc,
    text: String,
) -> Result<C::Acc, NoMemory>
where
    A::Out: Clone + Send + Sync,
    Z::Out: Clone + Send + Sync,
    C::Acc: Send,
    C::Out: Send,
    requires function { F.ready steps.now.function }
    requires first { A.ready steps.now.first }
    requires between { Q.Stages.ready steps.now.between }
    requires last { Z.ready steps.now.last }
    requires collector { C.ready collector.now }
    ensures { let it = collector.now in
        let made = IsContainerOf Z.Out.is_value (C.content it) (C.empty it) (C.add it) in
        let items = values_of (F.image steps.now.function) (A.expand steps.now.first) in
        let passed = flat_map (Q.Stages.expand steps.now.between) (items (text_lines (string_bytes text))) in
        (l : List Z.Out.Content) → made l acc
        → IfOk result (made (l ++ flat_map (Z.expand steps.now.last) passed)) }
{
    let lines = of(LinesSplit::new(text.as_str()));
    let function = &steps.function;
    let items = lines.map(OfLine { function }).then(&steps.first);
    take_staged(engine, items, &steps.between, &steps.last, collector, acc)
}

/// Takes what the last stage makes of items into a container, behind what is in it.
fn take_list<
    T: OrderedValue + Clone + Drop + Send + Sync,
    R: Threads + Clock + Sync,
    H: Gate + Sync,
    Z: Stage<In = T> + Sync,
    C: Collector<Item = Z::Out> + Sync,
>(
    engine: &Engine<'_, R, H>,
    last: &Z,
    collector: &C,
    acc: C::Acc,
    items: &[T],
) -> Result<C::Acc, NoMemory>
where
    Z::Out: Clone + Send + Sync,
    C::Acc: Send,
    C::Out: Send,
    requires last { Z.ready last.now }
    requires collector { C.ready collector.now }
    requires clones { ClonesAlike T.is_clone T.content }
    ensures { let it = collector.now in
        let made = IsContainerOf Z.Out.is_value (C.content it) (C.empty it) (C.add it) in
        (l : List Z.Out.Content) → made l acc
        → IfOk result (made (l ++ flat_map (Z.expand last.now) (map T.content items.now))) }
{
    let mut acc = acc;
    let stream = of(SliceSplit::new(items)).then(last);
    fold_into(engine, &stream, collector, &mut acc)?;
    Ok(acc)
}

/// What becomes of the lines of a text in front of the first operation that looks at many items, as a list.
fn list_of<
    R: Threads + Clock + Sync,
    H: Gate + Sync,
    F: LineFunction + Sync,
    A: Stage<In = F::Out> + Sync,
>(engine: &Engine<'_, R, H>, function: &F, first: &A, text: String) -> Result<Vec<A::Out>, NoMemory>
where
    A::Out: Clone + Send + Sync,
    requires function { F.ready function.now }
    requires first { A.ready first.now }
    requires clones { ClonesAlike A.Out.is_clone A.Out.content }
    ensures { let values = values_of (F.image function.now) (A.expand first.now) in
        IfOk result (λ list. map A.Out.content list.items ≡ values (text_lines (string_bytes text))) }
{
    let lines = of(LinesSplit::new(text.as_str()));
    let stream = lines.map(OfLine { function }).then(first);
    stream.collect_on(engine, &ToList::new(engine.alloc))
}

/// How many bytes a leaf of a block has: a worker's share and a fifth more, so that a share which ends behind its line isn't split again.
pub(crate) fn leaf_bytes(bytes: usize, workers: u32) -> u64
    requires { 0 < workers }
    ensures { result ≤ 2 ^ 62 }
{
    let share = bytes as u64 / u64::from(workers);
    share.saturating_add(share / 5).clamp(1, MAX_TARGET)
}

/// What a block of so many bytes runs on. It has a leaf a worker where the run leaves that open, since what leaves keep is combined for each block anew.
fn engine_of<'e, R, H>(engine: &Engine<'e, R, H>, bytes: usize) -> Engine<'e, R, H> {
    let run = &engine.run;
    let target = if run.target == 0 {
        leaf_bytes(bytes, run.workers)
    } else {
        run.target
    };
    Engine {
        rt: engine.rt,
        alloc: engine.alloc,
        run: Run {
            workers: run.workers,
            target,
            gate: run.gate,
        },
    }
}

/// Takes what becomes of the lines of a text into a container, behind what is in it.
pub(crate) fn work<
    R: Threads + Clock + Sync,
    H: Gate + Sync,
    F: LineFunction + Sync,
    A: Stage<In = F::Out> + Sync,
    Q: Between<In = A::Out>,
    Z: Stage<In = Q::Out> + Sync,
    C: Collector<Item = Z::Out> + Sync,
>(
    engine: &Engine<'_, R, H>,
    steps: &LineSteps<F, A, Q, Q::Stages, Z>,
    collector: &C,
    taken: (C::Acc, Q::State),
    text: String,
) -> Result<(C::Acc, Q::State), NoMemory>
where
    A::Out: Clone + Send + Sync,
    Z::Out: Clone + Send + Sync,
    C::Acc: Send,
    C::Out: Send,
    requires function { F.ready steps.now.function }
    requires first { A.ready steps.now.first }
    requires between { Q.ready steps.now.barriers steps.now.between }
    requires last { Z.ready steps.now.last }
    requires collector { C.ready collector.now }
    ensures { let it = collector.now in
        let own = steps.now in
        let made = IsContainerOf Z.Out.is_value (C.content it) (C.empty it) (C.add it) in
        let behind = Q.value_behind own.barriers own.between in
        let items = values_of (F.image own.function) (A.expand own.first) in
        (whole : List A.Out.Content → List Q.Out.Content) → (l : List (List ℕ))
        → IsTaken made (Z.expand own.last) whole behind (items l) taken → IfOk result
        (IsTaken made (Z.expand own.last) whole behind (items (l ++ text_lines (string_bytes text)))) }
{
    let (acc, mut state) = taken;
    let by_bytes = engine_of(engine, text.len());
    if steps.barriers.lets_pass(&state) {
        let acc = take_through(&by_bytes, steps, collector, acc, text)?;
        return Ok((acc, state));
    }
    let items = list_of(&by_bytes, &steps.function, &steps.first, text)?;
    engine.run.gate.goes_on()?;
    let kept = steps.barriers.carry(&steps.between, &mut state, items)?;
    let acc = take_list(engine, &steps.last, collector, acc, kept.as_slice())?;
    Ok((acc, state))
}
