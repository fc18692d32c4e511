//! What one thread does of a stream's runs.
ghost use Rattle.std.specs.Prelude.{◌≡◌, ◌≢◌, ◌<◌, ◌≤◌, ◌^◌, ◌++◌, ◌∷◌, [], ℕ, Bool, true, false, List, Option, fold, None, IfSome, IfNone, IfOk, OnOk, flat_map, map, length, slice_index_or, ⊤};
ghost use Rattle.barriers.specs.Needs.{need_of, IsBelow};
ghost use Rattle.leaf_board.specs.Statuses.{SameFrom, StaysSeat};
ghost use Rattle.split_tree.specs.SplitTree.{leaf_numbers, numbers_from};
ghost use Rattle.stages.specs.declared.flags.StreamFlags.{StreamFlags};
ghost use Rattle.stages.specs.Flags.{IsSound};
ghost use Rattle.stealing_pool.specs.Jobs.{Work, EndsLeaf, Combines, StandsForRun};
ghost use Rattle.leaf_board.specs.Closing.{Outcome, count_of, cut_of};
ghost use Rattle.stealing_pool.specs.Reports.{Reports};
ghost use Rattle.stealing_pool.specs.Spans.{joined, work_of};
ghost use Rattle.leaf_reading.specs.Fronts.{folding};
ghost use Rattle.leaf_reading.specs.Stretches.{TakesOn};
ghost use Rattle.parallel_streams.specs.Cuts.{cut_at};
ghost use Rattle.parallel_streams.specs.Ends.{ends_of};
ghost use Rattle.parallel_streams.specs.Progress.{IsCut};
ghost use Rattle.parallel_streams.specs.Reading.{first_segment, most_read};
ghost use Rattle.parallel_streams.specs.Runs.{IsLawfulRun};

use crate::Engine;
use crate::kept::Listed;
use barriers::{Demand, Need};
use collectors::Collector;
use leaf_board::Handout;
use leaf_reading::{LeafEnd, Patience, Pause, Reading};
use split_tree::Tree;
use spliterator::{NoMemory, OrderedValue};
use stages::{Sink, Stage, StreamFlags};
use std::alloc::Global;
use stealing_pool::{Gate, RunEntry};

/// What one thread does of a stream's runs. No caller needs it: the terminal operations start the threads.
///
/// A stream with barriers runs over one segment of its source after another: in each once for each barrier, and once for the terminal operation.
pub trait Plumbing: Sync {
    type Item: OrderedValue + Clone + Drop + Send + Sync;

    /// The lists that the barriers left so far of the present segment, how the next run's list is cut into leaves, and what stands behind the
    /// segment.
    type Progress: Drop + Send + Sync;

    /// What is kept of leaves in a barrier's run.
    type Kept: Drop + Send;

    // what the methods rely on: stored closures meet their definitions, and behind a barrier an item's clone has its content
    ghost ready: { Self → Type 0 } = { λ _. ⊤ };

    // the contents of all the items, in encounter order
    ghost value: { Self → List Self.Item.Content };

    // the number of items, where it is known
    ghost size: { Self → Option ℕ };

    ghost told: { Self → StreamFlags };

    // the progress is one of this stream's
    ghost holds: { Self → Self.Progress → Type 0 };

    // the items of the present segment and of those behind it, and of those behind it alone
    ghost left: { Self → Self.Progress → List Self.Item.Content };

    ghost behind: { Self → Self.Progress → List Self.Item.Content };

    // falls with each segment, and is 0 where none is behind the present one
    ghost still: { Self → Self.Progress → ℕ };

    // whether all barriers have run or let pass what comes, and how many have not
    ghost done: { Self → Self.Progress → Bool };

    ghost waiting: { Self → Self.Progress → ℕ };

    // what the stream gives of the first so many items of its source, and whether these decide: some barrier needs no more than comes of them
    ghost front: { Self → ℕ → List Self.Item.Content };

    ghost decided: { Self → ℕ → Type 0 };

    // whether some operation looks at more than one item
    ghost barred: { Self → Bool };

    // the source splits finely
    ghost fine: { Self → Type 0 };

    // so many items of the source are in the segments up to the present one, and the barriers' states stand behind what comes of them
    ghost read: { Self → Self.Progress → ℕ → Type 0 };

    // so many are in the segments before the present one, and with it; the states of the barriers that have run stand behind what comes of the latter,
    // the others' behind what comes of the former
    ghost reads: { Self → Self.Progress → ℕ → ℕ → Type 0 };

    // the number of leaves of the next run
    ghost leaves_next: { Self → Self.Progress → ℕ };

    // what there is to do in the run of the next barrier; once all have run, of the last one again. A source has no barrier, and keeps nothing of its leaves.
    ghost work: { Self → Self.Progress → Work Self.Kept };

    // the lists of the leaves of the last run
    ghost parts: { Self → Self.Progress → List (List Self.Item.Content) };

    // with so many workers and this target: into which lists the stream's items are cut for the leaves of a run
    ghost leaf_lists: { Self → ℕ → ℕ → List (List Self.Item.Content) → Type 0 };

    // .. the present segment is the whole, and the leaves of the next run are cut so
    ghost planned: { Self → ℕ → ℕ → Self.Progress → Type 0 };

    // .. the entries are those of the barriers' runs, in order; and those of the runs so far
    ghost reported: { Self → ℕ → ℕ → List Outcome → Type 0 };

    ghost told_so_far: { Self → ℕ → ℕ → Self.Progress → List Outcome → Type 0 };

    /// The number of items, where it is known before any of them is read.
    fn known_size(&self) -> Option<u64>
        ensures { result ≡ size self.now };

    /// What the stream tells of its items before any of them is read.
    fn flags(&self) -> StreamFlags
        ensures { result ≡ told self.now };

    /// Whether some operation looks at more than one item, so that the stream had better run by segments. Else nothing decides but all items.
    fn has_barrier(&self) -> bool
        ensures is { result ≡ barred self.now }
        ensures undecided { result ≡ false → (n : ℕ) → decided self.now n → ⊥ };

    /// About how many items come of one of the source's. It is no promise: a segment is as much shorter.
    fn growth(&self) -> u64 {
        1
    }

    /// Nothing has run. The source is cut into leaves: all of it, or a first segment that it estimates at most `most` items, and 4,096, as far as it
    /// splits.
    fn start(
        &self,
        alloc: Global,
        workers: u32,
        target: u64,
        most: Option<u64>,
    ) -> Result<Self::Progress, NoMemory>
        requires { IsLawfulRun workers target }
        ensures holds { IfOk result (holds self.now) }
        ensures left { IfOk result (λ progress. left self.now progress ≡ value self.now) }
        ensures planned { most ≡ None → IfOk result (planned self.now workers target) }
        ensures whole { most ≡ None → IfOk result (λ progress. still self.now progress ≡ 0) }
        ensures entries { IfOk result (λ progress. told_so_far self.now workers target progress []) }
        ensures nothing { IfOk result (λ _. front self.now 0 ≡ []) }
        ensures reads { IfOk result (λ progress. (to : ℕ) × reads self.now progress 0 to
            × (fine self.now → most ≢ None → to ≤ first_segment)) };

    /// About how many items the source has: 2^64 - 1 where it can't tell. It is no promise.
    fn source_estimate(&self) -> u64;

    /// Feeds the first items through a stage to a sink in this thread, until patience is over. Answers what stands behind them, as one segment: nothing where
    /// they are all. A stream with a barrier feeds none.
    fn feed_front<R, H, P: Patience, G: Stage<In = Self::Item>, K: Sink<G::Out>>(
        &self,
        engine: &Engine<'_, R, H>,
        _patience: &P,
        _stage: &G,
        _sink: &mut K,
    ) -> Result<Option<Self::Progress>, NoMemory>
        requires ready { ready self.now }
        requires stage { G.ready _stage.now }
        requires sink { K.ready _sink.old }
        ensures ready { OnOk result (K.ready _sink.new) }
        ensures holds { IfOk result (λ rest. IfSome rest (holds self.now)) }
        ensures last { IfOk result (λ rest. IfSome rest (λ progress. still self.now progress ≡ 0)) }
        ensures all { let images = flat_map (G.expand _stage.now) in
            IfOk result (λ rest. IfNone rest (K.takes _sink.old (images (value self.now)) _sink.new)) }
        ensures front { let images = flat_map (G.expand _stage.now) in
            IfOk result (λ rest. IfSome rest (λ progress. TakesOn K.takes images
            (value self.now) _sink.old (left self.now progress) _sink.new)) }
    {
        let whole = self.start(engine.alloc, engine.run.workers, engine.run.target, None)?;
        Ok(Some(whole))
    }

    /// Whether no item comes behind the present segment.
    fn is_last(&self, progress: &Self::Progress) -> bool
        requires { ready self.now }
        ensures last { result ≡ true → behind self.now progress.now ≡ [] }
        ensures later { result ≡ false → 0 < still self.now progress.now }
        ensures undecided { result ≡ false → (n : ℕ) → read self.now progress.now n
            → decided self.now n → ⊥ };

    /// The segment behind the present one, cut into leaves. Its source estimates it at most `most` items, as far as it splits. Where it tells exact
    /// sizes, it has at most twice as many as were read, or 4,096.
    fn go_on(
        &self,
        alloc: Global,
        progress: Self::Progress,
        workers: u32,
        target: u64,
        most: u64,
    ) -> Result<Self::Progress, NoMemory>
        requires settings { IsLawfulRun workers target }
        requires holds { holds self.now progress }
        requires later { 0 < still self.now progress }
        ensures holds { IfOk result (holds self.now) }
        ensures left { IfOk result (λ next. left self.now next ≡ behind self.now progress) }
        ensures still { IfOk result (λ next. still self.now next < still self.now progress) }
        ensures reads { (n : ℕ) → read self.now progress n → IfOk result (λ next. (to : ℕ)
            × reads self.now next n to × (fine self.now → to ≤ most_read n)) };

    /// How many items the longest list of the present segment's barriers had, before its barrier cut it. It is no promise.
    fn longest_list(&self, _progress: &Self::Progress) -> u64 {
        0
    }

    /// Whether all barriers have run, or let pass what comes.
    fn is_through(&self, progress: &Self::Progress) -> bool
        ensures { result ≡ done self.now progress.now };

    /// The number of leaves of the next run.
    fn leaves(&self, progress: &Self::Progress) -> usize
        ensures { result ≡ leaves_next self.now progress.now };

    /// How the list of the next run is cut into leaves.
    fn tree<'p>(&self, progress: &'p Self::Progress) -> &'p Tree
        ensures numbered { leaf_numbers result.now ≡ numbers_from 0 (leaves_next self.now progress.now) }
        ensures few { leaves_next self.now progress.now ≤ 65536 };

    /// How much the next barrier needs.
    fn need(&self, progress: &Self::Progress) -> Need
        requires { ready self.now }
        ensures is { need_of result ≡ (work self.now progress.now).needed }
        ensures fits { IsBelow (work self.now progress.now).needed (2 ^ 63) };

    /// Runs a leaf of the next barrier's run.
    fn run_barrier_leaf<L: Handout>(
        &self,
        alloc: Global,
        progress: &Self::Progress,
        board: &L,
        seat: &mut L::Seat,
        leaf: usize,
    ) -> Result<LeafEnd<Self::Kept>, NoMemory>
        requires ready { ready self.now }
        requires holds { holds self.now progress.now }
        requires board { L.leaves board.now ≡ (work self.now progress.now).leaves }
        requires of { L.is_of board.now seat.old }
        requires within { leaf < (work self.now progress.now).leaves }
        ensures seat { StaysSeat (L.is_of board.now) L.number L.draws_left L.made_cut seat.old seat.new }
        ensures same { SameFrom (L.status seat.old) (L.status seat.new) }
        ensures end { IfOk result (EndsLeaf (work self.now progress.now) (L.cut seat.new) leaf) };

    /// Takes what is kept of leaves of the next barrier's run into what is kept of those before.
    fn combine(
        &self,
        alloc: Global,
        progress: &Self::Progress,
        kept: &mut Self::Kept,
        following: Self::Kept,
    ) -> Result<(), NoMemory>
        requires { ready self.now }
        ensures { OnOk result (Combines (work self.now progress.now) kept.old following kept.new) };

    /// Gathers what the run of the next barrier kept into the barrier's list. The gate may halt it.
    fn make_list<R, H: Gate>(
        &self,
        engine: &Engine<'_, R, H>,
        progress: Self::Progress,
        part: Self::Kept,
        entry: &RunEntry,
    ) -> Result<Self::Progress, NoMemory>
        requires ready { ready self.now }
        requires holds { holds self.now progress }
        requires part { StandsForRun (work self.now progress) part }
        requires entry { Reports (work self.now progress).needed (work self.now progress).leaves (work self.now progress).full entry.now.leaves (count_of entry.now) (cut_of entry.now) }
        ensures holds { IfOk result (holds self.now) }
        ensures left { done self.now progress ≡ false
            → IfOk result (λ after. left self.now after ≡ left self.now progress) }
        ensures still { IfOk result (λ after. still self.now after ≡ still self.now progress) }
        ensures reads { done self.now progress ≡ false
            → (from to : ℕ) → reads self.now progress from to
            → IfOk result (λ after. reads self.now after from to) }
        ensures planned { done self.now progress ≡ false → planned self.now engine.now.run.workers engine.now.run.target progress
            → IfOk result (planned self.now engine.now.run.workers engine.now.run.target) }
        ensures entries { done self.now progress ≡ false → planned self.now engine.now.run.workers engine.now.run.target progress
            → (entries : List Outcome) → told_so_far self.now engine.now.run.workers engine.now.run.target progress entries
            → IfOk result (λ after. told_so_far self.now engine.now.run.workers engine.now.run.target after (entries ++ entry.now ∷ [])) }
        ensures fewer { done self.now progress ≡ false → IfOk result (λ after. waiting self.now after < waiting self.now progress) };

    /// Takes the last barrier's list, where its items are all of the segment's as they are. The segment is read then.
    fn take_listed(&self, progress: &mut Self::Progress) -> Option<Listed<Self::Item>>
        ensures cut { holds self.now progress.old → IfSome result IsCut }
        ensures parts { IfSome result (λ listed. parts self.now progress.old ≡ cut_at 0 (ends_of listed.places) (map Self.Item.content listed.items.items)) }
        ensures none { IfNone result (progress.new ≡ progress.old) }
        ensures holds { holds self.now progress.old → holds self.now progress.new }
        ensures behind { behind self.now progress.new ≡ behind self.now progress.old }
        ensures still { still self.now progress.new ≡ still self.now progress.old }
        ensures read { (n : ℕ) → read self.now progress.old n → read self.now progress.new n }
    {
        None
    }

    /// Feeds a leaf of the last run through a stage to a sink.
    fn feed_last_leaf<P: Pause, G: Stage<In = Self::Item>, K: Sink<G::Out>>(
        &self,
        alloc: Global,
        pause: &P,
        progress: &Self::Progress,
        stage: &G,
        leaf: usize,
        sink: &mut K,
    ) -> Result<(), NoMemory>
        requires ready { ready self.now }
        requires stage { G.ready stage.now }
        requires sink { K.ready sink.old }
        requires holds { holds self.now progress.now }
        requires done { done self.now progress.now ≡ true }
        requires within { leaf < leaves_next self.now progress.now }
        ensures { let lists = map (flat_map (G.expand stage.now)) (parts self.now progress.now) in
            OnOk result (K.takes sink.old (slice_index_or lists leaf []) sink.new) };

    /// Runs a leaf of the last run, through a stage into a collector.
    fn run_last_leaf<
        G: Stage<In = Self::Item>,
        D: Demand<G::Out>,
        C: Collector<Item = G::Out>,
        L: Handout,
    >(
        &self,
        alloc: Global,
        progress: &Self::Progress,
        reading: &Reading<'_, G, D, C>,
        board: &L,
        seat: &mut L::Seat,
        leaf: usize,
    ) -> Result<LeafEnd<C::Acc>, NoMemory>
        requires ready { ready self.now }
        requires stage { G.ready reading.now.stage.now }
        requires demand { D.ready reading.now.demand.now }
        requires collector { C.ready reading.now.collector.now }
        requires holds { holds self.now progress.now }
        requires done { done self.now progress.now ≡ true }
        requires board { L.leaves board.now ≡ leaves_next self.now progress.now }
        requires of { L.is_of board.now seat.old }
        requires within { leaf < leaves_next self.now progress.now }
        ensures seat { StaysSeat (L.is_of board.now) L.number L.draws_left L.made_cut seat.old seat.new }
        ensures same { SameFrom (L.status seat.old) (L.status seat.new) }
        ensures end { let needs = folding (D.needed reading.now.demand.now) (D.counted reading.now.demand.now) G.Out.is_value in
            let fold = needs (C.empty reading.now.collector.now) (C.add reading.now.collector.now) in
            let lists = map (flat_map (G.expand reading.now.stage.now)) (parts self.now progress.now) in
            IfOk result (EndsLeaf (work_of fold (C.content reading.now.collector.now) lists) (L.cut seat.new) leaf) };

    // the flags and the known size are sound
    ghost flag_law: { (s : Self) → IsSound Self.Item.order (told s) (size s) (value s) };

    // the next barrier's run has the leaves that are told
    ghost work_law: { (s : Self) (p : Self.Progress) → done s p ≡ false → (work s p).leaves ≡ leaves_next s p };

    // once all barriers have run, all entries are there
    ghost reported_law: { (s : Self) (workers target : ℕ) (p : Self.Progress) (entries : List Outcome)
        → done s p ≡ true → told_so_far s workers target p entries
        → reported s workers target entries };

    // the lists of the last run's leaves are the segment's, cut
    ghost parts_law: { (s : Self) (p : Self.Progress) → holds s p → done s p ≡ true
        → left s p ≡ joined (parts s p) ++ behind s p };

    // they are what the segment gives more, and all states stand behind it
    ghost read_law: { (s : Self) (p : Self.Progress) (from to : ℕ) → holds s p → done s p ≡ true → reads s p from to
        → read s p to × (front s to ≡ front s from ++ joined (parts s p)) };

    // where the segment is the whole, they are the stream's
    ghost whole_law: { (s : Self) (workers target : ℕ) (p : Self.Progress)
        → holds s p → planned s workers target p → done s p ≡ true
        → joined (parts s p) ≡ value s };

    // and they are cut as the settings say
    ghost cut_law: { (s : Self) (workers target : ℕ) (p : Self.Progress)
        → holds s p → planned s workers target p → done s p ≡ true
        → leaf_lists s workers target (parts s p) };

    ghost parts_count: { (s : Self) (p : Self.Progress) → done s p ≡ true → length (parts s p) ≡ leaves_next s p };
}
