//! A chain of barriers behind a stream.
ghost use Rattle.std.specs.Prelude.{◌≡◌, ◌&&◌, ◌||◌, ◌==◌, ◌<◌, ◌≤◌, ◌⊎◌, ℕ, [], not, false, List, None, Ok, true, All, IfOk, flat_map, length, map, slice_get, ⊤};
ghost use Rattle.std.proofs.lemmas.List.{length-map};
ghost use Rattle.leaf_board.specs.Statuses.{SameFrom, StaysSeat};
ghost use Rattle.leaf_reading.specs.Fronts.{folding};
ghost use Rattle.leaf_reading.specs.declared.leaf_end.LeafEnd.TheVariants.{Done};
ghost use Rattle.parallel_streams.specs.declared.kept.Kept.TheVariants.{Own};
ghost use Rattle.spliterator.specs.Clones.{ClonesAlike};
ghost use Rattle.stages.specs.Flags.{after};
ghost use Rattle.stealing_pool.specs.Jobs.{EndsLeaf};
ghost use Rattle.stealing_pool.specs.Spans.{work_of};
ghost use Rattle.parallel_streams.specs.Progress.{barred_work, next_leaves};
ghost use Rattle.chained_streams.specs.Chains.{AreFresh, HoldsChain, IsFirstRun, IsPlannedChain, behind_links, is_own_turn, left_of_chain, link_behind, link_value, link_work, links_waiting, lists_of, through_links, told_through};
ghost use Rattle.chained_streams.specs.ChainReading.{EnoughLink, FirstLets, LetsPass, ReadsChain, SomeEnough, StandLinks, StandsLink};
ghost use Rattle.chained_streams.specs.ChainReadingLaws.{links-read};
ghost use Rattle.chained_streams.specs.ChainLaws.{KeepsSound-links, chain-leaves, chain-parts, chain-whole, count-lists};

use barriers::{Barrier, Behind, Demand, Need};
use collectors::{Collector, ToList};
use leaf_board::Handout;
use leaf_reading::{LeafEnd, Patience, Pause, Portion, Reading, feed_whole, read_leaf};
use parallel_streams::{Engine, Kept, Listed, Plumbing, end_before, end_own, list_kept};
use sources::SliceSplit;
use split_tree::Tree;
use spliterator::{NoMemory, OrderedValue, Value};
use stages::{Sink, Stage, StreamFlags, Then};
use std::alloc::Global;
use stealing_pool::{Gate, RunEntry};

/// Stages that look at one item at a time, and the barrier behind them.
#[derive(Drop)]
pub struct Link<A, B> {
    pub stage: A,
    pub barrier: B,
}

/// A stream's items through links, one after another. A clone of an item must have the item's content: that is part of what the stream
/// relies on.
///
/// The number of barriers is that of a list, which a program may make while it runs. A report says nothing of how the leaves of its runs were
/// cut.
#[derive(Drop)]
pub struct Chain<U, A, B> {
    pub upstream: U,
    pub links: Vec<Link<A, B>>,
}

/// How far a chain has come: the stream before it, a state a link, how many links have run over the present segment, the list that the last of
/// these left, and how many items the longest list had that came to one of them.
#[derive(Drop)]
pub struct ChainProgress<P, S, T> {
    pub before: P,
    pub states: Vec<S>,
    pub run: usize,
    pub listed: Option<Listed<T>>,
    pub longest_list: u64,
}

// What is kept of a leaf of which nothing is listed.
fn nothing_kept<P: Drop, T: Value + Clone + Drop>(
    alloc: Global,
) -> Result<LeafEnd<Kept<P, T>>, NoMemory>
    requires { ClonesAlike T.is_clone T.content }
    ensures { IfOk result (λ end. end ≡ Done (record { count = 0; kept = Own [] })) }
{
    let kept = ToList::new(alloc).supply()?;
    Ok(LeafEnd::Done(Portion {
        count: 0,
        kept: Kept::Own(kept),
    }))
}

// The states before any item.
fn fresh_states<T: OrderedValue, A: Stage<In = T, Out = T>, B: Barrier<T>>(
    alloc: Global,
    links: &Vec<Link<A, B>>,
) -> Result<Vec<B::State>, NoMemory>
    ensures fresh { let step = link_behind A.expand B.value_behind in
        IfOk result (λ states. AreFresh step (link_value A.expand B.value) links.now.items states.items) }
    ensures stand { let value = link_value A.expand B.value in
        let stands = StandsLink A.expand B.Demand.needed B.Demand.counted B.value B.needed_behind B.value_behind in
        IfOk result (λ states. StandLinks stands value links.now.items states.items []
        × (through_links value links.now.items [] ≡ [])) }
{
    let mut states = Vec::with_capacity(alloc, links.len())?;
    for at in 0..links.len() {
        states.push(links[at].barrier.fresh(alloc))?;
    }
    Ok(states)
}

// Whether nothing that is still to come matters to some link.
fn some_is_over<T: OrderedValue, A: Stage<In = T, Out = T>, B: Barrier<T>>(
    links: &Vec<Link<A, B>>,
    states: &[B::State],
) -> bool
    requires { All (λ link. B.Demand.ready link.barrier) links.now.items }
    ensures over { let step = link_behind A.expand B.value_behind in
        result ≡ true → (items : List _) → behind_links step links.now.items states.now items ≡ [] }
    ensures undecided { let value = link_value A.expand B.value in
        let stands = StandsLink A.expand B.Demand.needed B.Demand.counted B.value B.needed_behind B.value_behind in
        result ≡ false → (items : List _) → StandLinks stands value links.now.items states.now items
        → SomeEnough (EnoughLink A.expand B.Demand.needed B.Demand.counted) value links.now.items items → ⊥ }
{
    let count = links.len().min(states.len());
    for at in 0..count {
        if links[at].barrier.is_over(&states[at]) {
            return true;
        }
    }
    false
}

// How many links need no run over a segment: the first, where it lets all pass.
fn first_run<T: OrderedValue, A: Stage<In = T, Out = T>, B: Barrier<T>>(
    links: &Vec<Link<A, B>>,
    states: &[B::State],
) -> usize
    ensures start { let first = IsFirstRun (link_behind A.expand B.value_behind) (λ link. A.expand link.stage) in
        first links.now.items states.now result }
    ensures within { result ≤ length links.now.items }
    ensures lets { FirstLets (LetsPass B.needed_behind B.value_behind) links.now.items states.now result }
{
    if links.is_empty() {
        return 0;
    }
    if states.is_empty() {
        return 0;
    }
    if links[0].barrier.lets_pass(&states[0]) {
        1
    } else {
        0
    }
}

// The number of items behind links, where it follows from the number before.
fn size_through<T: OrderedValue, A: Stage<In = T, Out = T>, B: Barrier<T>>(
    links: &[Link<A, B>],
    size: Option<u64>,
) -> Option<u64>
    ensures { result ≡ told_through (λ link size. B.size_after link.barrier (A.size_after link.stage size)) links.now size }
{
    match links.split_first() {
        None => size,
        Some((link, later)) => {
            let size = link.barrier.size_after(link.stage.size_after(size));
            size_through(later, size)
        }
    }
}

// The flags of items behind links.
fn flags_through<T: OrderedValue, A: Stage<In = T, Out = T>, B: Barrier<T>>(
    links: &[Link<A, B>],
    flags: StreamFlags,
) -> StreamFlags
    ensures { result ≡ told_through (λ link flags. after (after flags (A.operation link.stage)) (B.operation link.barrier)) links.now flags }
{
    match links.split_first() {
        None => flags,
        Some((link, later)) => {
            let flags = flags.after(link.stage.operation());
            flags_through(later, flags.after(link.barrier.operation()))
        }
    }
}

// Whether the barriers of the stream before have run.
fn own_turn<T>(is_through: bool, listed: &Option<Listed<T>>) -> bool
    ensures { result ≡ is_own_turn is_through listed.now }
{
    listed.is_some() || is_through
}

impl<U: Plumbing, A: Stage<In = U::Item, Out = U::Item> + Sync, B: Barrier<U::Item> + Sync> Plumbing
    for Chain<U, A, B>
where
    B::State: Send + Sync,
{
    type Item = U::Item;

    type Progress = ChainProgress<U::Progress, B::State, U::Item>;

    type Kept = Kept<U::Kept, U::Item>;

    ghost ready = { λ s. U.ready s.upstream × ClonesAlike U.Item.is_clone U.Item.content
        × All (λ link. A.ready link.stage × B.Demand.ready link.barrier × B.can_carry link.barrier) s.links.items };

    ghost value = { λ s. through_links (link_value A.expand B.value) s.links.items (U.value s.upstream) };

    ghost size = { λ s. told_through (λ link size. B.size_after link.barrier (A.size_after link.stage size)) s.links.items (U.size s.upstream) };

    ghost told = { λ s. told_through (λ link flags. after (after flags (A.operation link.stage)) (B.operation link.barrier)) s.links.items (U.told s.upstream) };

    ghost holds = { λ s p. let holds = HoldsChain (link_behind A.expand B.value_behind) (λ link. A.expand link.stage) in
        U.holds s.upstream p.before × holds s.links.items p.states.items p.run p.listed };

    ghost left = { λ s p. let step = link_behind A.expand B.value_behind in
        left_of_chain step U.Item.content p.run s.links.items p.states.items (U.left s.upstream p.before) (U.behind s.upstream p.before) p.listed };

    ghost behind = { λ s p. let step = link_behind A.expand B.value_behind in
        behind_links step s.links.items p.states.items (U.behind s.upstream p.before) };

    ghost still = { λ s p. U.still s.upstream p.before };

    ghost done = { λ s p. is_own_turn (U.done s.upstream p.before) p.listed && (p.run == length s.links.items) };

    ghost waiting = { λ s p. links_waiting (U.waiting s.upstream p.before) (length s.links.items) p.run p.listed };

    ghost front = { λ s n. through_links (link_value A.expand B.value) s.links.items (U.front s.upstream n) };

    ghost decided = { λ s n. let enough = EnoughLink A.expand B.Demand.needed B.Demand.counted in
        U.decided s.upstream n ⊎ SomeEnough enough (link_value A.expand B.value) s.links.items (U.front s.upstream n) };

    ghost barred = { λ s. not (length s.links.items == 0) || U.barred s.upstream };

    ghost fine = { λ s. U.fine s.upstream };

    ghost read = { λ s p n. let stands = StandsLink A.expand B.Demand.needed B.Demand.counted B.value B.needed_behind B.value_behind in
        U.read s.upstream p.before n
        × StandLinks stands (link_value A.expand B.value) s.links.items p.states.items (U.front s.upstream n) };

    ghost reads = { λ s p from to. let stands = StandsLink A.expand B.Demand.needed B.Demand.counted B.value B.needed_behind B.value_behind in
        let reads = ReadsChain (U.reads s.upstream p.before from to) (U.read s.upstream p.before to) stands (LetsPass B.needed_behind B.value_behind) in
        let links = reads (link_value A.expand B.value) U.Item.content s.links.items p.states.items p.run in
        links (U.front s.upstream from) (U.front s.upstream to) p.listed };

    ghost leaves_next = { λ s p. next_leaves (U.leaves_next s.upstream p.before) p.listed };

    ghost work = { λ s p.
        let own = link_work (λ link state. B.needed_behind link.barrier state) (λ link. B.Demand.counted link.barrier) (λ link state. B.value_behind link.barrier state) (λ link. A.expand link.stage) in
        let next = own U.Item.is_value U.Item.content (slice_get s.links.items p.run) (slice_get p.states.items p.run) in
        let lists = lists_of (λ link. A.expand link.stage) U.Item.content s.links.items p.run (U.parts s.upstream p.before) p.listed in
        barred_work (is_own_turn (U.done s.upstream p.before) p.listed) (U.work s.upstream p.before) (next lists) };

    ghost parts = { λ s p. lists_of (λ link. A.expand link.stage) U.Item.content s.links.items p.run (U.parts s.upstream p.before) p.listed };

    ghost leaf_lists = { λ _ _ _ _. ⊤ };

    ghost planned = { λ s workers target p.
        let step = link_behind A.expand B.value_behind in
        let value = link_value A.expand B.value in
        U.planned s.upstream workers target p.before
        × IsPlannedChain step value U.Item.content (U.value s.upstream) s.links.items p.run p.states.items p.listed };

    ghost reported = { λ _ _ _ _. ⊤ };

    ghost told_so_far = { λ _ _ _ _ _. ⊤ };

    ghost flag_law = { λ s.
        let links = KeepsSound-links U.Item.order A.expand B.value A.operation A.size_after B.operation B.size_after A.flag_law B.flag_law s.links.items in
        links (U.told s.upstream) (U.size s.upstream) (U.value s.upstream) (U.flag_law s.upstream) };

    ghost work_law = { λ s p unrun.
        let own = link_work (λ link state. B.needed_behind link.barrier state) (λ link. B.Demand.counted link.barrier) (λ link state. B.value_behind link.barrier state) (λ link. A.expand link.stage) in
        let next = own U.Item.is_value U.Item.content (slice_get s.links.items p.run) (slice_get p.states.items p.run) in
        let lists = lists_of (λ link. A.expand link.stage) U.Item.content s.links.items p.run (U.parts s.upstream p.before) p.listed in
        let leaves = chain-leaves (λ link. A.expand link.stage) U.Item.content s.links.items p.run (U.done s.upstream p.before) (U.work s.upstream p.before) (next lists) in
        leaves (U.parts s.upstream p.before) (U.leaves_next s.upstream p.before) p.listed (length-map lists _) (U.work_law s.upstream p.before) (U.parts_count s.upstream p.before) };

    ghost reported_law = { λ s workers target p entries done told. tt };

    ghost parts_law = { λ s p held done.
        let step = link_behind A.expand B.value_behind in
        let left = chain-parts step (λ link. A.expand link.stage) U.Item.content s.links.items p.states.items p.run p.listed (U.done s.upstream p.before) in
        left (U.left s.upstream p.before) (U.behind s.upstream p.before) (U.parts s.upstream p.before) held.1 done (U.parts_law s.upstream p.before held.0) };

    ghost read_law = { λ s p from to held done reads.
        let chain = links-read A.expand B.Demand.needed B.Demand.counted B.value B.needed_behind B.value_behind in
        let links = chain (U.reads s.upstream p.before from to) (U.read s.upstream p.before to) U.Item.content s.links.items p.states.items p.run in
        let now = links (U.done s.upstream p.before) p.listed (U.front s.upstream from) (U.front s.upstream to) (U.parts s.upstream p.before) in
        let all = now held.1 done reads (U.read_law s.upstream p.before from to held.0) in
        ((all.0, all.1), all.2) };

    ghost whole_law = { λ s workers target p held planned done.
        let step = link_behind A.expand B.value_behind in
        let value = link_value A.expand B.value in
        let whole = chain-whole step (λ link. A.expand link.stage) value U.Item.content s.links.items p.states.items p.run p.listed (U.done s.upstream p.before) in
        whole (U.value s.upstream) (U.parts s.upstream p.before) held.1.2 planned.1 done (U.whole_law s.upstream workers target p.before held.0 planned.0) };

    ghost cut_law = { λ s workers target p held planned done. tt };

    ghost parts_count = { λ s p done.
        let count = count-lists (λ link. A.expand link.stage) U.Item.content s.links.items p.run (U.done s.upstream p.before) in
        count (U.parts s.upstream p.before) (U.leaves_next s.upstream p.before) p.listed done (U.parts_count s.upstream p.before) };

    fn known_size(&self) -> Option<u64> {
        size_through(&self.links, self.upstream.known_size())
    }

    fn flags(&self) -> StreamFlags {
        flags_through(&self.links, self.upstream.flags())
    }

    fn has_barrier(&self) -> bool {
        !self.links.is_empty() || self.upstream.has_barrier()
    }

    fn growth(&self) -> u64 {
        let mut growth = self.upstream.growth();
        for link in self.links.iter() {
            growth = growth.saturating_mul(link.stage.growth());
        }
        growth
    }

    fn start(
        &self,
        alloc: Global,
        workers: u32,
        target: u64,
        most: Option<u64>,
    ) -> Result<ChainProgress<U::Progress, B::State, U::Item>, NoMemory> {
        let before = self.upstream.start(alloc, workers, target, most)?;
        let states = fresh_states(alloc, &self.links)?;
        Ok(ChainProgress {
            before,
            states,
            run: 0,
            listed: None,
            longest_list: 0,
        })
    }

    fn source_estimate(&self) -> u64 {
        self.upstream.source_estimate()
    }

    fn feed_front<R, H, P: Patience, G: Stage<In = U::Item>, K: Sink<G::Out>>(
        &self,
        engine: &Engine<'_, R, H>,
        patience: &P,
        stage: &G,
        sink: &mut K,
    ) -> Result<Option<ChainProgress<U::Progress, B::State, U::Item>>, NoMemory> {
        if !self.links.is_empty() {
            let whole = self.start(engine.alloc, engine.run.workers, engine.run.target, None)?;
            return Ok(Some(whole));
        }
        match self.upstream.feed_front(engine, patience, stage, sink)? {
            None => Ok(None),
            Some(before) => {
                let states = fresh_states(engine.alloc, &self.links)?;
                Ok(Some(ChainProgress {
                    before,
                    states,
                    run: 0,
                    listed: None,
                    longest_list: 0,
                }))
            }
        }
    }

    fn is_last(&self, progress: &ChainProgress<U::Progress, B::State, U::Item>) -> bool {
        self.upstream.is_last(&progress.before) || some_is_over(&self.links, &progress.states)
    }

    fn go_on(
        &self,
        alloc: Global,
        progress: ChainProgress<U::Progress, B::State, U::Item>,
        workers: u32,
        target: u64,
        most: u64,
    ) -> Result<ChainProgress<U::Progress, B::State, U::Item>, NoMemory> {
        let ChainProgress { before, states, .. } = progress;
        let before = self.upstream.go_on(alloc, before, workers, target, most)?;
        let run = first_run(&self.links, &states);
        Ok(ChainProgress {
            before,
            states,
            run,
            listed: None,
            longest_list: 0,
        })
    }

    fn longest_list(&self, progress: &ChainProgress<U::Progress, B::State, U::Item>) -> u64 {
        self.upstream
            .longest_list(&progress.before)
            .max(progress.longest_list)
    }

    fn is_through(&self, progress: &ChainProgress<U::Progress, B::State, U::Item>) -> bool {
        let is_through = self.upstream.is_through(&progress.before);
        own_turn(is_through, &progress.listed) && progress.run == self.links.len()
    }

    fn leaves(&self, progress: &ChainProgress<U::Progress, B::State, U::Item>) -> usize {
        match &progress.listed {
            Some(listed) => listed.places.leaves(),
            None => self.upstream.leaves(&progress.before),
        }
    }

    fn tree<'p>(&self, progress: &'p ChainProgress<U::Progress, B::State, U::Item>) -> &'p Tree {
        match &progress.listed {
            Some(listed) => listed.places.tree(),
            None => self.upstream.tree(&progress.before),
        }
    }

    fn need(&self, progress: &ChainProgress<U::Progress, B::State, U::Item>) -> Need {
        let is_through = self.upstream.is_through(&progress.before);
        if !own_turn(is_through, &progress.listed) {
            return self.upstream.need(&progress.before);
        }
        let Some(link) = self.links.get(progress.run) else {
            return Need::Never;
        };
        let Some(state) = progress.states.get(progress.run) else {
            return Need::Never;
        };
        link.barrier.need_behind(state)
    }

    fn run_barrier_leaf<L: Handout>(
        &self,
        alloc: Global,
        progress: &ChainProgress<U::Progress, B::State, U::Item>,
        board: &L,
        seat: &mut L::Seat,
        leaf: usize,
    ) -> Result<LeafEnd<Kept<U::Kept, U::Item>>, NoMemory> {
        let (upstream, before) = (&self.upstream, &progress.before);
        if !own_turn(upstream.is_through(before), &progress.listed) {
            let end = upstream.run_barrier_leaf(alloc, before, board, seat, leaf);
            return end_before(end);
        }
        let run = progress.run;
        if run >= self.links.len() {
            return nothing_kept(alloc);
        }
        let link = &self.links[run];
        let state = &progress.states[run];
        let demand = Behind {
            barrier: &link.barrier,
            state,
        };
        let reading = Reading {
            stage: &link.stage,
            demand: &demand,
            collector: &ToList::new(alloc),
        };
        let end = match &progress.listed {
            Some(listed) => {
                let items = listed.places.part(&listed.items, leaf);
                read_leaf(alloc, SliceSplit::new(items), &reading, board, seat, leaf)
            }
            None if run == 0 => {
                upstream.run_last_leaf(alloc, before, &reading, board, seat, leaf)
            }
            None => {
                let fused = Then::new(&self.links[0].stage, &link.stage);
                let reading = Reading {
                    stage: &fused,
                    demand: &demand,
                    collector: &ToList::new(alloc),
                };
                upstream.run_last_leaf(alloc, before, &reading, board, seat, leaf)
            }
        };
        end_own(&link.barrier, state, end)
    }

    // A run keeps parts of one kind, so that a mixture stands for no leaves.
    fn combine(
        &self,
        alloc: Global,
        progress: &ChainProgress<U::Progress, B::State, U::Item>,
        kept: &mut Kept<U::Kept, U::Item>,
        following: Kept<U::Kept, U::Item>,
    ) -> Result<(), NoMemory> {
        match kept {
            Kept::Before(kept) => match following {
                Kept::Before(following) => {
                    self.upstream
                        .combine(alloc, &progress.before, kept, following)
                }
                Kept::Own(_following) => Ok(()),
            },
            Kept::Own(kept) => match following {
                Kept::Before(_following) => Ok(()),
                Kept::Own(following) => Ok(kept.join(following)?),
            },
        }
    }

    fn make_list<R, H: Gate>(
        &self,
        engine: &Engine<'_, R, H>,
        progress: ChainProgress<U::Progress, B::State, U::Item>,
        part: Kept<U::Kept, U::Item>,
        entry: &RunEntry,
    ) -> Result<ChainProgress<U::Progress, B::State, U::Item>, NoMemory> {
        let mut progress = progress;
        match part {
            Kept::Before(part) => {
                let before = progress.before;
                progress.before = self.upstream.make_list(engine, before, part, entry)?;
                Ok(progress)
            }
            Kept::Own(pieces) => {
                let run = progress.run;
                if run >= self.links.len() {
                    return Ok(progress);
                }
                progress.listed = None;
                let barrier = &self.links[run].barrier;
                let state = &mut progress.states[run];
                let is_cut = entry.cut().is_some();
                let (listed, number) = list_kept(engine, barrier, state, pieces, is_cut)?;
                progress.longest_list = progress.longest_list.max(number);
                progress.listed = Some(listed);
                progress.run = run + 1;
                Ok(progress)
            }
        }
    }

    fn take_listed(
        &self,
        progress: &mut ChainProgress<U::Progress, B::State, U::Item>,
    ) -> Option<Listed<U::Item>> {
        match progress.listed.take() {
            Some(listed) => {
                progress.run = 0;
                Some(listed)
            }
            None => None,
        }
    }

    fn feed_last_leaf<P: Pause, G: Stage<In = U::Item>, K: Sink<G::Out>>(
        &self,
        alloc: Global,
        pause: &P,
        progress: &ChainProgress<U::Progress, B::State, U::Item>,
        stage: &G,
        leaf: usize,
        sink: &mut K,
    ) -> Result<(), NoMemory> {
        match &progress.listed {
            Some(listed) => {
                let items = listed.places.part(&listed.items, leaf);
                feed_whole(alloc, pause, stage, SliceSplit::new(items), sink)
            }
            None if progress.run == 0 => {
                self.upstream
                    .feed_last_leaf(alloc, pause, &progress.before, stage, leaf, sink)
            }
            None => {
                let fused = Then::new(&self.links[0].stage, stage);
                self.upstream
                    .feed_last_leaf(alloc, pause, &progress.before, &fused, leaf, sink)
            }
        }
    }

    fn run_last_leaf<
        G: Stage<In = U::Item>,
        D: Demand<G::Out>,
        C: Collector<Item = G::Out>,
        L: Handout,
    >(
        &self,
        alloc: Global,
        progress: &ChainProgress<U::Progress, B::State, U::Item>,
        reading: &Reading<'_, G, D, C>,
        board: &L,
        seat: &mut L::Seat,
        leaf: usize,
    ) -> Result<LeafEnd<C::Acc>, NoMemory> {
        match &progress.listed {
            Some(listed) => {
                let items = listed.places.part(&listed.items, leaf);
                read_leaf(alloc, SliceSplit::new(items), reading, board, seat, leaf)
            }
            None if progress.run == 0 => {
                self.upstream
                    .run_last_leaf(alloc, &progress.before, reading, board, seat, leaf)
            }
            None => {
                let fused = Then::new(&self.links[0].stage, reading.stage);
                let reading = Reading {
                    stage: &fused,
                    demand: reading.demand,
                    collector: reading.collector,
                };
                self.upstream
                    .run_last_leaf(alloc, &progress.before, &reading, board, seat, leaf)
            }
        }
    }
}
