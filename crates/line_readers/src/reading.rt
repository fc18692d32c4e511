//! One block is worked on while the next one is read.
ghost use Rattle.std.specs.Prelude.{◌≡◌, ◌<◌, ◌++◌, ℕ, List, [], All, Option, true, IfOk, IfErr, IfSome, OnOk, OnErr, flat_map, fold, map, string_bytes};
ghost use Rattle.std.specs.Io.KnownBytes.{IsAtEnd, prepend_known};
ghost use denote.Param.Send.{IsSend};
ghost use Rattle.spliterator.specs.Clones.{ClonesAlike};
ghost use Rattle.collectors.specs.Laws.{IsContainerOf};
ghost use Rattle.collectors.specs.NestedLaws.{push};
ghost use Rattle.sources.specs.Lines.{text_lines};
ghost use Rattle.line_blocks.specs.Blocks.{IsFolded, TakesBlock};
ghost use Rattle.line_blocks.specs.Faults.{StandsAt, IsFault};
ghost use Rattle.line_readers.specs.Flights.{Settles};
ghost use Rattle.line_readers.specs.Values.{values_of, line_values, IsTaken};

use crate::ending::Ending;
use crate::flight::{Passing, fly};
use crate::steps::work;
use crate::{Between, LineFunction, LineSteps};
use collectors::{Collector, Pieces, ToList, new_container};
use line_blocks::{Block, LineBlocks, LinesError};
use parallel_streams::{Engine, finish_on};
use spliterator::{NoMemory, Value};
use stages::{Sink, Stage, Then};
use std::alloc::Global;
use std::io::Read;
use std::sync::Wait;
use std::thread::{Threads, join};
use std::time::Clock;
use stealing_pool::Gate;

/// The next block, and the reader behind it.
pub(crate) fn read_ahead<I: Read + Drop>(
    blocks: LineBlocks<I>,
    room: Vec<u8>,
) -> Result<(LineBlocks<I>, Block), LinesError>
    ensures block { let before = prepend_known blocks.rest.items (I.remaining blocks.reader) in
        IfOk result (λ r. TakesBlock before (string_bytes r.1.text)
        (prepend_known r.0.rest.items (I.remaining r.0.reader))) }
    ensures last { IfOk result (λ r. r.1.is_last ≡ true
        → IsAtEnd (prepend_known r.0.rest.items (I.remaining r.0.reader))) }
    ensures longest { IfOk result (λ r. r.0.longest ≡ blocks.longest) }
    ensures stands { let before = prepend_known blocks.rest.items (I.remaining blocks.reader) in
        (all : Option (List ℕ)) → StandsAt all before blocks.place
        → IfOk result (λ r. StandsAt all (prepend_known r.0.rest.items (I.remaining r.0.reader)) r.0.place) }
    ensures faults { let before = prepend_known blocks.rest.items (I.remaining blocks.reader) in
        (all : Option (List ℕ)) → StandsAt all before blocks.place
        → IfErr result (IsFault blocks.longest all) }
{
    let mut blocks = blocks;
    let block = blocks.next_block(room)?;
    Ok((blocks, block))
}

/// Takes a block into a container, while another thread reads the next one, which may go wrong.
fn work_and_read<
    R: Threads + Clock + Sync,
    H: Gate + Sync,
    I: Read + Send + Drop,
    F: LineFunction + Sync,
    A: Stage<In = F::Out> + Sync,
    Q: Between<In = A::Out>,
    Z: Stage<In = Q::Out> + Sync,
    C: Collector<Item = Z::Out> + Sync,
>(
    engine: &Engine<'_, R, H>,
    blocks: LineBlocks<I>,
    steps: &LineSteps<F, A, Q, Q::Stages, Z>,
    collector: &C,
    taken: (C::Acc, Q::State),
    text: String,
) -> Result<
    (
        (C::Acc, Q::State),
        Result<(LineBlocks<I>, Block), LinesError>,
    ),
    NoMemory,
>
where
    A::Out: Clone + Send + Sync,
    Z::Out: Clone + Send + Sync,
    C::Acc: Send,
    C::Out: Send,
    requires function { F.ready steps.now.function }
    requires first { A.ready steps.now.first }
    requires between { Q.ready steps.now.barriers steps.now.between }
    requires last { Z.ready steps.now.last }
    requires collector { C.ready collector.now }
    ensures worked { let it = collector.now in
        let own = steps.now in
        let made = IsContainerOf Z.Out.is_value (C.content it) (C.empty it) (C.add it) in
        let behind = Q.value_behind own.barriers own.between in
        let items = values_of (F.image own.function) (A.expand own.first) in
        (whole : List A.Out.Content → List Q.Out.Content) → (l : List (List ℕ))
        → IsTaken made (Z.expand own.last) whole behind (items l) taken → IfOk result (λ r.
        IsTaken made (Z.expand own.last) whole behind (items (l ++ text_lines (string_bytes text))) r.0) }
    ensures block { let before = prepend_known blocks.rest.items (I.remaining blocks.reader) in
        IfOk result (λ r. IfOk r.1 (λ a. TakesBlock before (string_bytes a.1.text)
        (prepend_known a.0.rest.items (I.remaining a.0.reader)))) }
    ensures last { IfOk result (λ r. IfOk r.1 (λ a. a.1.is_last ≡ true
        → IsAtEnd (prepend_known a.0.rest.items (I.remaining a.0.reader)))) }
    ensures longest { IfOk result (λ r. IfOk r.1 (λ a. a.0.longest ≡ blocks.longest)) }
    ensures stands { let before = prepend_known blocks.rest.items (I.remaining blocks.reader) in
        (all : Option (List ℕ)) → StandsAt all before blocks.place → IfOk result (λ r. IfOk r.1
        (λ a. StandsAt all (prepend_known a.0.rest.items (I.remaining a.0.reader)) a.0.place)) }
    ensures faults { let before = prepend_known blocks.rest.items (I.remaining blocks.reader) in
        (all : Option (List ℕ)) → StandsAt all before blocks.place
        → IfOk result (λ r. IfErr r.1 (IsFault blocks.longest all)) }
{
    let room = blocks.room(engine.alloc)?;
    let reading = move || -> Result<(LineBlocks<I>, Block), LinesError>
        requires { IsSend I.row }
        ensures block { let before = prepend_known blocks.rest.items (I.remaining blocks.reader) in
            IfOk result (λ r. TakesBlock before (string_bytes r.1.text)
            (prepend_known r.0.rest.items (I.remaining r.0.reader))) }
        ensures last { IfOk result (λ r. r.1.is_last ≡ true
            → IsAtEnd (prepend_known r.0.rest.items (I.remaining r.0.reader))) }
        ensures longest { IfOk result (λ r. r.0.longest ≡ blocks.longest) }
        ensures stands { let before = prepend_known blocks.rest.items (I.remaining blocks.reader) in
            (all : Option (List ℕ)) → StandsAt all before blocks.place → IfOk result
            (λ r. StandsAt all (prepend_known r.0.rest.items (I.remaining r.0.reader)) r.0.place) }
        ensures faults { let before = prepend_known blocks.rest.items (I.remaining blocks.reader) in
            (all : Option (List ℕ)) → StandsAt all before blocks.place
            → IfErr result (IsFault blocks.longest all) }
    { read_ahead(blocks, room) };
    let working = move || -> Result<(C::Acc, Q::State), NoMemory>
        requires { F.ready steps.now.function × A.ready steps.now.first × Q.ready steps.now.barriers steps.now.between
            × Z.ready steps.now.last × C.ready collector.now }
        ensures { let it = collector.entry.now in
            let own = steps.entry.now in
            let made = IsContainerOf Z.Out.is_value (C.content it) (C.empty it) (C.add it) in
            let behind = Q.value_behind own.barriers own.between in
            let items = values_of (F.image own.function) (A.expand own.first) in
            (whole : List A.Out.Content → List Q.Out.Content) → (l : List (List ℕ))
            → IsTaken made (Z.expand own.last) whole behind (items l) taken → IfOk result
            (IsTaken made (Z.expand own.last) whole behind (items (l ++ text_lines (string_bytes text)))) }
    { work(engine, steps, collector, taken, text) };
    let (ahead, taken) = join(engine.rt, reading, working);
    Ok((taken?, ahead))
}

/// The first block, and the reader behind it.
fn read_first<I: Read + Drop>(
    alloc: Global,
    reader: I,
    size: usize,
    longest: usize,
) -> Result<(LineBlocks<I>, Block), LinesError>
    requires { 0 < size }
    ensures block { IfOk result (λ r. TakesBlock (I.remaining reader) (string_bytes r.1.text)
        (prepend_known r.0.rest.items (I.remaining r.0.reader))) }
    ensures last { IfOk result (λ r. r.1.is_last ≡ true
        → IsAtEnd (prepend_known r.0.rest.items (I.remaining r.0.reader))) }
    ensures longest { IfOk result (λ r. r.0.longest ≡ longest) }
    ensures stands { IfOk result (λ r.
        StandsAt (I.remaining reader) (prepend_known r.0.rest.items (I.remaining r.0.reader)) r.0.place) }
    ensures faults { IfErr result (IsFault longest (I.remaining reader)) }
{
    let blocks = LineBlocks::new(alloc, reader, size, longest);
    let room = blocks.room(alloc)?;
    read_ahead(blocks, room)
}

/// The result on the lines whose container this is.
fn finish_lines<R, H: Gate, C: Collector>(
    engine: &Engine<'_, R, H>,
    collector: &C,
    acc: C::Acc,
) -> Result<C::Out, LinesError>
    requires { C.ready collector.now }
    ensures faults { (longest : ℕ) (all : Option (List ℕ)) → IfErr result (IsFault longest all) }
    ensures value { let it = collector.now in
        let made = IsContainerOf C.Item.is_value (C.content it) (C.empty it) (C.add it) in
        (l : List C.Item.Content) → made l acc → IfOk result (C.gives it l) }
{
    Ok(finish_on(engine, collector, acc)?)
}

/// The container of what the lines of a block and of all blocks behind it become, behind what is in it, where no operation looks at more than one item.
fn fly_through<
    R: Threads + Clock + Wait + Sync,
    H: Gate + Sync,
    I: Read + Drop,
    F: LineFunction + Sync,
    A: Stage<In = F::Out> + Sync,
    Q: Between<In = A::Out>,
    Z: Stage<In = Q::Out> + Sync,
    C: Collector<Item = Z::Out> + Sync,
    E: Ending<C>,
>(
    engine: &Engine<'_, R, H>,
    steps: &LineSteps<F, A, Q, Q::Stages, Z>,
    collector: &C,
    ending: &E,
    ahead: (LineBlocks<I>, Block),
    whole: C::Acc,
) -> Result<C::Acc, LinesError>
where
    A::Out: Clone + Send + Sync,
    Z::Out: Clone + Send + Sync,
    C::Acc: Send,
    C::Out: Send,
    requires function { F.ready steps.now.function }
    requires first { A.ready steps.now.first }
    requires between { Q.Stages.ready steps.now.between }
    requires last { Z.ready steps.now.last }
    requires collector { C.ready collector.now }
    requires ended { let left = prepend_known ahead.0.rest.items (I.remaining ahead.0.reader) in
        ahead.1.is_last ≡ true → IsAtEnd left }
    ensures faults { let left = prepend_known ahead.0.rest.items (I.remaining ahead.0.reader) in
        (all : Option (List ℕ)) → StandsAt all left ahead.0.place
        → IfErr result (IsFault ahead.0.longest all) }
    ensures value { let it = collector.now in
        let own = steps.now in
        let made = IsContainerOf Z.Out.is_value (C.content it) (C.empty it) (C.add it) in
        let items = line_values (F.image own.function) (A.expand own.first) in
        let passed = λ (bytes : List ℕ). flat_map (Q.Stages.expand own.between) (items bytes) in
        let left = prepend_known ahead.0.rest.items (I.remaining ahead.0.reader) in
        (before : List Z.Out.Content) → made before whole
        → (known : Option (List ℕ)) → TakesBlock known (string_bytes ahead.1.text) left
        → IfOk result (λ acc. IfSome known (λ bytes.
        Settles made (C.gives it) (before ++ flat_map (Z.expand own.last) (passed bytes)) acc)) }
{
    let stage = Then::new(Then::new(&steps.first, &steps.between), &steps.last);
    let passing = Passing {
        function: &steps.function,
        stage: &stage,
        collector,
    };
    fly(engine, &passing, ending, ahead, whole)
}

/// The result of a collector on what was taken in and on what the lines of a block and of all blocks behind it become, where of these no operation looks at
/// more than one item.
fn pass_on<
    R: Threads + Clock + Wait + Sync,
    H: Gate + Sync,
    I: Read + Drop,
    F: LineFunction + Sync,
    A: Stage<In = F::Out> + Sync,
    Q: Between<In = A::Out>,
    Z: Stage<In = Q::Out> + Sync,
    C: Collector<Item = Z::Out> + Sync,
    E: Ending<C>,
>(
    engine: &Engine<'_, R, H>,
    steps: &LineSteps<F, A, Q, Q::Stages, Z>,
    collector: &C,
    ending: &E,
    ahead: (LineBlocks<I>, Block),
    taken: (C::Acc, Q::State),
) -> Result<C::Out, LinesError>
where
    A::Out: Clone + Send + Sync,
    Z::Out: Clone + Send + Sync,
    C::Acc: Send,
    C::Out: Send,
    requires function { F.ready steps.now.function }
    requires first { A.ready steps.now.first }
    requires between { Q.Stages.ready steps.now.between }
    requires passes { let own = steps.now in
        (more : List A.Out.Content) → Q.value_behind own.barriers own.between taken.1 more
        ≡ flat_map (Q.Stages.expand own.between) more }
    requires last { Z.ready steps.now.last }
    requires collector { C.ready collector.now }
    requires ended { let left = prepend_known ahead.0.rest.items (I.remaining ahead.0.reader) in
        ahead.1.is_last ≡ true → IsAtEnd left }
    ensures faults { let left = prepend_known ahead.0.rest.items (I.remaining ahead.0.reader) in
        (all : Option (List ℕ)) → StandsAt all left ahead.0.place
        → IfErr result (IsFault ahead.0.longest all) }
    ensures value { let it = collector.now in
        let own = steps.now in
        let made = IsContainerOf Z.Out.is_value (C.content it) (C.empty it) (C.add it) in
        let behind = Q.value_behind own.barriers own.between in
        let items = values_of (F.image own.function) (A.expand own.first) in
        let left = prepend_known ahead.0.rest.items (I.remaining ahead.0.reader) in
        (whole : List A.Out.Content → List Q.Out.Content) → (all known : Option (List ℕ))
        → IsFolded (λ lines t. IsTaken made (Z.expand own.last) whole behind (items lines) t) all taken known
        → TakesBlock known (string_bytes ahead.1.text) left → IfOk result (λ out. IfSome all
        (λ bytes. C.gives it (flat_map (Z.expand own.last) (whole (items (text_lines bytes)))) out)) }
{
    let whole = fly_through(engine, steps, collector, ending, ahead, taken.0)?;
    finish_lines(engine, collector, whole)
}

/// Whether a thread is to work on each block that follows: there are to be several, and no operation looks at more than one item of what is still to come.
fn may_fly<R, H, Q: Between>(engine: &Engine<'_, R, H>, barriers: &Q, state: &Q::State) -> bool
    ensures passes { result ≡ true → (stages : Q.Stages) → (more : List Q.In.Content)
        → Q.value_behind barriers.now stages state.now more ≡ flat_map (Q.Stages.expand stages) more }
    ensures ready { result ≡ true → (stages : Q.Stages) → Q.ready barriers.now stages
        → Q.Stages.ready stages }
{
    engine.run.workers > 1 && barriers.lets_pass(state)
}

/// The result of a collector on what becomes of the lines that a reader has left. Where no operation looks at more than one item several blocks are worked
/// on at once by as many threads, and else, or by one worker, one while another thread reads the next one. What goes wrong in a block is told before what goes wrong behind it, and nothing of
/// that where the reading is over.
pub(crate) fn collect_lines<
    R: Threads + Clock + Wait + Sync,
    H: Gate + Sync,
    I: Read + Send + Drop,
    F: LineFunction + Sync,
    A: Stage<In = F::Out> + Sync,
    Q: Between<In = A::Out>,
    Z: Stage<In = Q::Out> + Sync,
    C: Collector<Item = Z::Out> + Sync,
    E: Ending<C>,
>(
    engine: &Engine<'_, R, H>,
    reader: I,
    size: usize,
    longest: usize,
    steps: &LineSteps<F, A, Q, Q::Stages, Z>,
    collector: &C,
    ending: &E,
) -> Result<C::Out, LinesError>
where
    A::Out: Clone + Send + Sync,
    Z::Out: Clone + Send + Sync,
    C::Acc: Send,
    C::Out: Send,
    requires size { 0 < size }
    requires function { F.ready steps.now.function }
    requires first { A.ready steps.now.first }
    requires between { Q.ready steps.now.barriers steps.now.between }
    requires last { Z.ready steps.now.last }
    requires collector { C.ready collector.now }
    ensures faults { IfErr result (IsFault longest (I.remaining reader)) }
    ensures value { let own = steps.now in
        let items = line_values (F.image own.function) (A.expand own.first) in
        let value = λ (bytes : List ℕ). Q.value own.barriers own.between (items bytes) in
        IfOk result (λ out. IfSome (I.remaining reader)
        (λ bytes. C.gives collector.now (flat_map (Z.expand own.last) (value bytes)) out)) }
{
    let (mut blocks, mut block) = read_first(engine.alloc, reader, size, longest)?;
    let mut taken = (
        new_container(collector)?,
        steps.barriers.fresh(engine.alloc),
    );
    for _ in 0..u64::MAX {
        if may_fly(engine, &steps.barriers, &taken.1) {
            return pass_on(engine, steps, collector, ending, (blocks, block), taken);
        }
        if block.is_last {
            let (whole, _state) = work(engine, steps, collector, taken, block.text)?;
            return finish_lines(engine, collector, whole);
        }
        let (more, ahead) = work_and_read(engine, blocks, steps, collector, taken, block.text)?;
        if steps.barriers.is_over(&steps.between, &more.1) {
            return finish_lines(engine, collector, more.0);
        }
        if ending.is_over(collector, &more.0) {
            return finish_lines(engine, collector, more.0);
        }
        let (behind, next) = ahead?;
        blocks = behind;
        block = next;
        taken = more;
    }
    Err(LinesError::TooLong)
}

/// Hands the items of a container to a sink.
fn hand_list<R, H: Gate, T: Value + Clone + Drop, K: Sink<T>>(
    engine: &Engine<'_, R, H>,
    list: &ToList<T>,
    acc: Pieces<T>,
    action: &mut K,
) -> Result<(), NoMemory>
    requires { K.ready action.old }
    ensures taken { (l : List T.Content) → All T.is_value l → map T.content acc ≡ fold push [] l
        → OnOk result (K.takes action.old l action.new) }
    ensures spoilt { OnErr result (K.spoils action.old action.new) }
{
    let mut items = finish_on(engine, list, acc)?;
    action.take_all(&mut items)
}

/// Hands what becomes of the lines that a reader has left to a sink, block after block, while another thread reads the next one. The reading is over where
/// the sink is full.
pub(crate) fn hand_lines<
    R: Threads + Clock + Sync,
    H: Gate + Sync,
    I: Read + Send + Drop,
    F: LineFunction + Sync,
    A: Stage<In = F::Out> + Sync,
    Q: Between<In = A::Out>,
    Z: Stage<In = Q::Out> + Sync,
    K: Sink<Z::Out>,
>(
    engine: &Engine<'_, R, H>,
    reader: I,
    size: usize,
    longest: usize,
    steps: &LineSteps<F, A, Q, Q::Stages, Z>,
    action: &mut K,
) -> Result<(), LinesError>
where
    A::Out: Clone + Send + Sync,
    Z::Out: Clone + Send + Sync,
    requires size { 0 < size }
    requires function { F.ready steps.now.function }
    requires first { A.ready steps.now.first }
    requires between { Q.ready steps.now.barriers steps.now.between }
    requires last { Z.ready steps.now.last }
    requires action { K.ready action.old }
    requires clones { ClonesAlike Z.Out.is_clone Z.Out.content }
    ensures faults { IfErr result (IsFault longest (I.remaining reader)) }
    ensures taken { let own = steps.now in
        let items = line_values (F.image own.function) (A.expand own.first) in
        let value = λ (bytes : List ℕ). Q.value own.barriers own.between (items bytes) in
        OnOk result (IfSome (I.remaining reader)
        (λ bytes. K.takes action.old (flat_map (Z.expand own.last) (value bytes)) action.new)) }
    ensures spoilt { OnErr result (K.spoils action.old action.new) }
{
    let list = ToList::new(engine.alloc);
    let (mut blocks, mut block) = read_first(engine.alloc, reader, size, longest)?;
    let mut state = steps.barriers.fresh(engine.alloc);
    for _ in 0..u64::MAX {
        let taken = (new_container(&list)?, state);
        if block.is_last {
            let (whole, _state) = work(engine, steps, &list, taken, block.text)?;
            hand_list(engine, &list, whole, action)?;
            return Ok(());
        }
        let (more, ahead) = work_and_read(engine, blocks, steps, &list, taken, block.text)?;
        let (kept, later) = more;
        hand_list(engine, &list, kept, action)?;
        if steps.barriers.is_over(&steps.between, &later) {
            return Ok(());
        }
        if action.is_full() {
            return Ok(());
        }
        let (behind, next) = ahead?;
        blocks = behind;
        block = next;
        state = later;
    }
    Err(LinesError::TooLong)
}
