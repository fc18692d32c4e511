//! Several blocks at once, each worked on by a thread of its own.
ghost use Rattle.std.specs.Prelude.{◌≡◌, ◌≤◌, ◌^◌, ◌++◌, ℕ, List, [], ◌∷◌, All, Option, MatchBool, true, false, IfOk, IfErr, IfSome, OnOk, string_bytes};
ghost use Rattle.std.specs.Io.KnownBytes.{IsAtEnd, prepend_known};
ghost use Rattle.collectors.specs.Laws.{IsContainerOf};
ghost use Rattle.sources.specs.Lines.{text_lines};
ghost use Rattle.line_blocks.specs.Blocks.{TakesBlock};
ghost use Rattle.line_blocks.specs.Faults.{StandsAt, IsFault};
ghost use Rattle.line_readers.specs.Flights.{IsFlying, IsSettled, Settles};
ghost use Rattle.line_readers.specs.Values.{values_of};

use crate::ending::Ending;
use crate::lane::Lane;
use crate::reading::read_ahead;
use crate::steps::leaf_bytes;
use crate::{LineFunction, OfLine};
use collectors::{Collector, combine_containers};
use line_blocks::{Block, LineBlocks, LinesError};
use parallel_streams::{Engine, Run, Stream, container_of, of};
use sources::LinesSplit;
use spliterator::NoMemory;
use stages::Stage;
use std::alloc::Global;
use std::collections::VecDeque;
use std::io::Read;
use std::snapshot::Snapshot;
use std::sync::Wait;
use std::thread;
use std::thread::{Promise, PromisedHandle, Scope, Threads};
use std::time::Clock;
use stealing_pool::Gate;

/// What becomes of each line, and what takes it: a function, a stage behind it, and a collector.
#[derive(Drop)]
pub(crate) struct Passing<'a, F, G, C> {
    pub function: &'a F,
    pub stage: &'a G,
    pub collector: &'a C,
}

/// What a thread owes: the container of what becomes of the lines of a text.
#[derive(Drop)]
struct Owed<'a, F, G, C> {
    passing: &'a Passing<'a, F, G, C>,
    text: Snapshot<String>,
}

impl<'a, F: LineFunction, G: Stage<In = F::Out>, C: Collector<Item = G::Out>> Promise<
    Result<C::Acc, NoMemory>,
> for Owed<'a, F, G, C> {
    ghost kept_by = { λ p result. let it = p.passing.now.collector.now in
        let made = IsContainerOf G.Out.is_value (C.content it) (C.empty it) (C.add it) in
        let values = values_of (F.image p.passing.now.function.now) (G.expand p.passing.now.stage.now) in
        IfOk result (made (values (text_lines (string_bytes p.text.value)))) };
}

type AtWork<'a, F, G, C> = PromisedHandle<
    Result<<C as Collector>::Acc, NoMemory>,
    Owed<'a, F, G, C>,
>;

/// Blocks at work, from the first on, and the container of what stands before them.
#[derive(Drop)]
struct Flight<'a, F: LineFunction, G: Stage<In = F::Out>, C: Collector<Item = G::Out>> {
    at_work: VecDeque<AtWork<'a, F, G, C>>,
    whole: C::Acc,
    lane: u32,
}

/// One worker.
fn alone<'e, R, H>(rt: &'e R, alloc: Global, target: u64, gate: &'e H) -> Engine<'e, R, H>
    requires { target ≤ 2 ^ 62 }
{
    Engine {
        rt,
        alloc,
        run: Run {
            workers: 1,
            target,
            gate,
        },
    }
}

/// The container of what becomes of the lines of a text, by one worker.
fn hold<
    R: Threads + Clock + Sync,
    H: Gate + Sync,
    F: LineFunction + Sync,
    G: Stage<In = F::Out> + Sync,
    C: Collector<Item = G::Out> + Sync,
>(
    engine: &Engine<'_, R, H>,
    lane: u32,
    passing: &Passing<'_, F, G, C>,
    text: String,
) -> Result<C::Acc, NoMemory>
where
    G::Out: Clone + Send + Sync,
    C::Acc: Send,
    C::Out: Send,
    requires function { F.ready passing.now.function.now }
    requires stage { G.ready passing.now.stage.now }
    requires collector { C.ready passing.now.collector.now }
    ensures { let it = passing.now.collector.now in
        let made = IsContainerOf G.Out.is_value (C.content it) (C.empty it) (C.add it) in
        let values = values_of (F.image passing.now.function.now) (G.expand passing.now.stage.now) in
        IfOk result (made (values (text_lines (string_bytes text)))) }
{
    let lane = Lane {
        gate: engine.run.gate,
        number: lane,
    };
    let target = if engine.run.target == 0 {
        leaf_bytes(text.len(), 1)
    } else {
        engine.run.target
    };
    let alone = alone(engine.rt, engine.alloc, target, &lane);
    let lines = of(LinesSplit::new(text.as_str()));
    let function = passing.function;
    let items = lines.map(OfLine { function }).then(passing.stage);
    container_of(&alone, &items, passing.collector)
}

/// Begins the work on a text, in a thread of its own. Where none can be made, does it here.
fn begin<
    's,
    V,
    R: Threads + Clock + Sync,
    H: Gate + Sync,
    F: LineFunction + Sync,
    G: Stage<In = F::Out> + Sync,
    C: Collector<Item = G::Out> + Sync,
>(
    scope: &Scope<'s, V>,
    engine: &'s Engine<'s, R, H>,
    lane: u32,
    passing: &'s Passing<'s, F, G, C>,
    text: String,
) -> Result<AtWork<'s, F, G, C>, Result<C::Acc, NoMemory>>
where
    G::Out: Clone + Send + Sync,
    C::Acc: Send,
    C::Out: Send,
    requires function { F.ready passing.now.function.now }
    requires stage { G.ready passing.now.stage.now }
    requires collector { C.ready passing.now.collector.now }
    ensures passing { IfOk result (λ handle. handle.promise.passing.now ≡ passing.now) }
    ensures text { IfOk result (λ handle. handle.promise.text.value ≡ text) }
    ensures here { let it = passing.now.collector.now in
        let made = IsContainerOf G.Out.is_value (C.content it) (C.empty it) (C.add it) in
        let values = values_of (F.image passing.now.function.now) (G.expand passing.now.stage.now) in
        IfErr result (λ acc. IfOk acc (made (values (text_lines (string_bytes text))))) }
{
    let owed = Owed {
        passing,
        text: Snapshot::of(&text),
    };
    let work = move || -> Result<C::Acc, NoMemory>
        requires { F.ready passing.now.function.now × G.ready passing.now.stage.now × C.ready passing.now.collector.now }
        ensures { let own = passing.entry.now in
            let it = own.collector.now in
            let made = IsContainerOf G.Out.is_value (C.content it) (C.empty it) (C.add it) in
            let values = values_of (F.image own.function.now) (G.expand own.stage.now) in
            IfOk result (made (values (text_lines (string_bytes text)))) }
    { hold(engine, lane, passing, text) };
    match scope.spawn_with(owed, work) {
        Ok(handle) => Ok(handle),
        Err(refused) => Err((refused.value)()),
    }
}

/// Takes what a thread makes into a container, behind what is in it.
fn take_made<
    R: Threads,
    H: Gate,
    F: LineFunction,
    G: Stage<In = F::Out>,
    C: Collector<Item = G::Out>,
>(
    engine: &Engine<'_, R, H>,
    passing: &Passing<'_, F, G, C>,
    whole: &mut C::Acc,
    handle: AtWork<'_, F, G, C>,
) -> Result<(), NoMemory>
    requires { C.ready passing.now.collector.now }
    ensures { let own = passing.now in
        let it = own.collector.now in
        let made = IsContainerOf G.Out.is_value (C.content it) (C.empty it) (C.add it) in
        let values = values_of (F.image own.function.now) (G.expand own.stage.now) in
        let lines = text_lines (string_bytes handle.entry.promise.text.value) in
        handle.entry.promise.passing.now ≡ own → (l : List G.Out.Content) → made l whole.old
        → OnOk result (made (l ++ values lines) whole.new) }
{
    let made = handle.join(engine.rt)?;
    engine.run.gate.goes_on()?;
    combine_containers(passing.collector, whole, made)
}

/// Takes in what all blocks at work become, in their order, until nothing that follows makes a difference. Says whether that is so.
fn land<
    R: Threads,
    H: Gate,
    F: LineFunction,
    G: Stage<In = F::Out>,
    C: Collector<Item = G::Out>,
    E: Ending<C>,
>(
    engine: &Engine<'_, R, H>,
    passing: &Passing<'_, F, G, C>,
    ending: &E,
    flight: &mut Flight<'_, F, G, C>,
) -> Result<bool, NoMemory>
    requires { C.ready passing.now.collector.now }
    ensures landed { IfOk result (λ over. over ≡ false → flight.new.at_work.items ≡ []) }
    ensures taken { let own = passing.now in
        let it = own.collector.now in
        let made = IsContainerOf G.Out.is_value (C.content it) (C.empty it) (C.add it) in
        let values = values_of (F.image own.function.now) (G.expand own.stage.now) in
        (before : List G.Out.Content) → (lines : List (List ℕ)) → IsFlying made values (λ w. w.promise.passing.now ≡ own)
        (λ w. string_bytes w.promise.text.value) before lines flight.old.whole flight.old.at_work.items
        → IfOk result (λ over. MatchBool over (IsSettled made (C.gives it) values before lines flight.new.whole)
        (made (before ++ values lines) flight.new.whole)) }
{
    while let Some(handle) = flight.at_work.pop_front() {
        take_made(engine, passing, &mut flight.whole, handle)?;
        if ending.is_over(passing.collector, &flight.whole) {
            return Ok(true);
        }
    }
    Ok(false)
}

/// Takes in what the first block becomes, where as many are at work as there are workers. Says whether nothing that follows makes a difference.
fn make_room<
    R: Threads,
    H: Gate,
    F: LineFunction,
    G: Stage<In = F::Out>,
    C: Collector<Item = G::Out>,
    E: Ending<C>,
>(
    engine: &Engine<'_, R, H>,
    passing: &Passing<'_, F, G, C>,
    ending: &E,
    flight: &mut Flight<'_, F, G, C>,
) -> Result<bool, NoMemory>
    requires { C.ready passing.now.collector.now }
    ensures { let own = passing.now in
        let it = own.collector.now in
        let made = IsContainerOf G.Out.is_value (C.content it) (C.empty it) (C.add it) in
        let values = values_of (F.image own.function.now) (G.expand own.stage.now) in
        (before : List G.Out.Content) → (lines : List (List ℕ)) → IsFlying made values (λ w. w.promise.passing.now ≡ own)
        (λ w. string_bytes w.promise.text.value) before lines flight.old.whole flight.old.at_work.items
        → IfOk result (λ over. MatchBool over (IsSettled made (C.gives it) values before lines flight.new.whole)
        (IsFlying made values (λ w. w.promise.passing.now ≡ own)
        (λ w. string_bytes w.promise.text.value) before lines flight.new.whole flight.new.at_work.items)) }
{
    if flight.at_work.len() < engine.run.workers as usize {
        return Ok(false);
    }
    let Some(handle) = flight.at_work.pop_front() else {
        return Ok(false);
    };
    take_made(engine, passing, &mut flight.whole, handle)?;
    Ok(ending.is_over(passing.collector, &flight.whole))
}

/// Sets a text off behind the blocks at work. Says whether nothing that follows makes a difference.
fn set_off<
    's,
    V,
    R: Threads + Clock + Sync,
    H: Gate + Sync,
    F: LineFunction + Sync,
    G: Stage<In = F::Out> + Sync,
    C: Collector<Item = G::Out> + Sync,
    E: Ending<C>,
>(
    scope: &Scope<'s, V>,
    engine: &'s Engine<'s, R, H>,
    passing: &'s Passing<'s, F, G, C>,
    ending: &E,
    flight: &mut Flight<'s, F, G, C>,
    text: String,
) -> Result<bool, NoMemory>
where
    G::Out: Clone + Send + Sync,
    C::Acc: Send,
    C::Out: Send,
    requires function { F.ready passing.now.function.now }
    requires stage { G.ready passing.now.stage.now }
    requires collector { C.ready passing.now.collector.now }
    ensures { let own = passing.now in
        let it = own.collector.now in
        let made = IsContainerOf G.Out.is_value (C.content it) (C.empty it) (C.add it) in
        let values = values_of (F.image own.function.now) (G.expand own.stage.now) in
        let more = text_lines (string_bytes text) in
        (before : List G.Out.Content) → (lines : List (List ℕ)) → IsFlying made values (λ w. w.promise.passing.now ≡ own)
        (λ w. string_bytes w.promise.text.value) before lines flight.old.whole flight.old.at_work.items
        → IfOk result (λ over. MatchBool over (IsSettled made (C.gives it) values before (lines ++ more) flight.new.whole)
        (IsFlying made values (λ w. w.promise.passing.now ≡ own)
        (λ w. string_bytes w.promise.text.value) before (lines ++ more) flight.new.whole flight.new.at_work.items)) }
{
    let begun = begin(scope, engine, flight.lane, passing, text);
    flight.lane = flight.lane.wrapping_add(1) % engine.run.workers;
    match begun {
        Ok(handle) => flight.at_work.push_back(handle)?,
        Err(made) => {
            if land(engine, passing, ending, flight)? {
                return Ok(true);
            }
            let made = made?;
            engine.run.gate.goes_on()?;
            combine_containers(passing.collector, &mut flight.whole, made)?;
            return Ok(ending.is_over(passing.collector, &flight.whole));
        }
    }
    Ok(false)
}

/// The container of what the lines of a block and of all blocks behind it become, behind what is in it. As many are worked on at once as there are
/// workers, while the caller's thread reads the next one and takes in what the first becomes.
fn fly_in<
    's,
    V,
    R: Threads + Clock + Sync,
    H: Gate + Sync,
    I: Read + Drop,
    F: LineFunction + Sync,
    G: Stage<In = F::Out> + Sync,
    C: Collector<Item = G::Out> + Sync,
    E: Ending<C>,
>(
    scope: &Scope<'s, V>,
    engine: &'s Engine<'s, R, H>,
    passing: &'s Passing<'s, F, G, C>,
    ending: &E,
    ahead: (LineBlocks<I>, Block),
    whole: C::Acc,
) -> Result<C::Acc, LinesError>
where
    G::Out: Clone + Send + Sync,
    C::Acc: Send,
    C::Out: Send,
    requires function { F.ready passing.now.function.now }
    requires stage { G.ready passing.now.stage.now }
    requires collector { C.ready passing.now.collector.now }
    requires last { let left = prepend_known ahead.0.rest.items (I.remaining ahead.0.reader) in
        ahead.1.is_last ≡ true → IsAtEnd left }
    ensures faults { let left = prepend_known ahead.0.rest.items (I.remaining ahead.0.reader) in
        (all : Option (List ℕ)) → StandsAt all left ahead.0.place
        → IfErr result (IsFault ahead.0.longest all) }
    ensures value { let own = passing.now in
        let it = own.collector.now in
        let made = IsContainerOf G.Out.is_value (C.content it) (C.empty it) (C.add it) in
        let values = values_of (F.image own.function.now) (G.expand own.stage.now) in
        let left = prepend_known ahead.0.rest.items (I.remaining ahead.0.reader) in
        (before : List G.Out.Content) → made before whole
        → (known : Option (List ℕ)) → TakesBlock known (string_bytes ahead.1.text) left
        → IfOk result (λ acc. IfSome known
        (λ bytes. Settles made (C.gives it) (before ++ values (text_lines bytes)) acc)) }
{
    let (mut blocks, mut block) = ahead;
    let mut flight = Flight {
        at_work: VecDeque::new(engine.alloc),
        whole,
        lane: 0,
    };
    for _ in 0..u64::MAX {
        if make_room(engine, passing, ending, &mut flight)? {
            return Ok(flight.whole);
        }
        if set_off(scope, engine, passing, ending, &mut flight, block.text)? {
            return Ok(flight.whole);
        }
        if block.is_last {
            let _settled = land(engine, passing, ending, &mut flight)?;
            return Ok(flight.whole);
        }
        let room = blocks.room(engine.alloc)?;
        match read_ahead(blocks, room) {
            Ok((behind, next)) => {
                blocks = behind;
                block = next;
            }
            Err(fault) => {
                if land(engine, passing, ending, &mut flight)? {
                    return Ok(flight.whole);
                }
                return Err(fault);
            }
        }
    }
    Err(LinesError::TooLong)
}

/// The container of what the lines of a block and of all blocks behind it become, behind what is in it. What goes wrong in a block is told before what
/// goes wrong behind it, and nothing of that where the container settles the result.
pub(crate) fn fly<
    R: Threads + Clock + Wait + Sync,
    H: Gate + Sync,
    I: Read + Drop,
    F: LineFunction + Sync,
    G: Stage<In = F::Out> + Sync,
    C: Collector<Item = G::Out> + Sync,
    E: Ending<C>,
>(
    engine: &Engine<'_, R, H>,
    passing: &Passing<'_, F, G, C>,
    ending: &E,
    ahead: (LineBlocks<I>, Block),
    whole: C::Acc,
) -> Result<C::Acc, LinesError>
where
    G::Out: Clone + Send + Sync,
    C::Acc: Send,
    C::Out: Send,
    requires function { F.ready passing.now.function.now }
    requires stage { G.ready passing.now.stage.now }
    requires collector { C.ready passing.now.collector.now }
    requires last { let left = prepend_known ahead.0.rest.items (I.remaining ahead.0.reader) in
        ahead.1.is_last ≡ true → IsAtEnd left }
    ensures faults { let left = prepend_known ahead.0.rest.items (I.remaining ahead.0.reader) in
        (all : Option (List ℕ)) → StandsAt all left ahead.0.place
        → IfErr result (IsFault ahead.0.longest all) }
    ensures value { let own = passing.now in
        let it = own.collector.now in
        let made = IsContainerOf G.Out.is_value (C.content it) (C.empty it) (C.add it) in
        let values = values_of (F.image own.function.now) (G.expand own.stage.now) in
        let left = prepend_known ahead.0.rest.items (I.remaining ahead.0.reader) in
        (before : List G.Out.Content) → made before whole
        → (known : Option (List ℕ)) → TakesBlock known (string_bytes ahead.1.text) left
        → IfOk result (λ acc. IfSome known
        (λ bytes. Settles made (C.gives it) (before ++ values (text_lines bytes)) acc)) }
{
    thread::scope(
        thread::scope_env(),
        engine.rt,
        move |scope| -> Result<C::Acc, LinesError>
            requires { F.ready passing.now.function.now × G.ready passing.now.stage.now × C.ready passing.now.collector.now
                × (ahead.1.is_last ≡ true → IsAtEnd (prepend_known ahead.0.rest.items (I.remaining ahead.0.reader))) }
            ensures faults { let left = prepend_known ahead.0.rest.items (I.remaining ahead.0.reader) in
                (all : Option (List ℕ)) → StandsAt all left ahead.0.place
                → IfErr result (IsFault ahead.0.longest all) }
            ensures value { let own = passing.entry.now in
                let it = own.collector.now in
                let made = IsContainerOf G.Out.is_value (C.content it) (C.empty it) (C.add it) in
                let values = values_of (F.image own.function.now) (G.expand own.stage.now) in
                let left = prepend_known ahead.0.rest.items (I.remaining ahead.0.reader) in
                (before : List G.Out.Content) → made before whole
                → (known : Option (List ℕ)) → TakesBlock known (string_bytes ahead.1.text) left
                → IfOk result (λ acc. IfSome known
                (λ bytes. Settles made (C.gives it) (before ++ values (text_lines bytes)) acc)) }
        { fly_in(scope, engine, passing, ending, ahead, whole) },
    )
}
