//! One worker a seat, all at the same time.
ghost use Rattle.std.specs.Prelude.{◌≡◌, ◌<◌, ℕ, length, IfOk, All, slice_index_or, true, false, ◌∷◌};
ghost use Rattle.std.specs.Thread.{IsSync};
ghost use denote.Param.Send.{IsSend};

use std::alloc::{AllocError, Global};
use std::thread::{Threads, join};
use std::vec::IntoIter;

/// What one thread does with the seat that it is given, and what it hands back.
pub trait Worker: Sync {
    type Seat: Send + Drop;

    type Shift: Send + Drop;

    ghost accepts: { Self → Self.Seat → Type 0 };

    ghost gives: { Self → Self.Seat → Self.Shift → Type 0 };

    // no work is left behind it
    ghost ends: { Self → Self.Shift → Type 0 };

    fn run(&self, seat: Self::Seat) -> Self::Shift
        requires { accepts self.now seat }
        ensures gives { gives self.now seat result }
        ensures ends { ends self.now result };
}

/// Calls both in threads of their own, and waits for them: where a new thread comes to this one's processor, it need not wait for a share of this
/// one's. Where no thread can be made, the call is made here.
pub(crate) fn join_apart<
    R: Threads,
    F: FnOnce() -> A + Send,
    G: FnOnce() -> B + Send,
    A: Send,
    B: Send,
>(rt: &R, f: F, g: G) -> (A, B)
    requires { F.pre f × G.pre g }
    ensures first { F.post f result.0 }
    ensures second { G.post g result.1 }
{
    let others = move || -> B
        requires { G.pre g }
        ensures { G.post g result }
    {
        let (b, ()) = join(rt, g, || ());
        b
    };
    join(rt, f, others)
}

/// The shifts of a seat and of those behind it, in one list.
fn put_first<S: Drop>(first: S, mut others: Vec<S>) -> Result<Vec<S>, AllocError>
    ensures { IfOk result (λ v. v.items ≡ first ∷ others.items) }
{
    others.insert(0, first)?;
    Ok(others)
}

/// Gives each seat to a worker in a thread of its own, from the first on.
#[cycle(starts)]
fn start_workers<R: Threads + Sync, W: Worker>(
    rt: &R,
    alloc: Global,
    worker: &W,
    mut seats: IntoIter<W::Seat>,
) -> Result<Vec<W::Shift>, AllocError>
    requires { All (W.accepts worker.now) seats.rest.items }
    ensures len { IfOk result (λ v. length v.items ≡ length seats.rest.items) }
    ensures each { IfOk result (λ v. (k : ℕ) (d : W.Seat) (e : W.Shift) → k < length seats.rest.items → W.gives worker.now (slice_index_or seats.rest.items k d) (slice_index_or v.items k e)) }
    ensures first { 0 < length seats.rest.items → IfOk result (λ v. (e : W.Shift) → W.ends worker.now (slice_index_or v.items 0 e)) }
{
    let Some(seat) = seats.next() else {
        return Ok(Vec::new(alloc));
    };
    let first = move || -> W::Shift
        requires { IsSync W.row × W.accepts worker.now seat }
        ensures gives { W.gives worker.entry.now seat result }
        ensures ends { W.ends worker.entry.now result }
    { worker.run(seat) };
    let later = move || -> Result<Vec<W::Shift>, AllocError>
        requires { IsSync R.row × IsSync W.row × All (W.accepts worker.now) seats.rest.items }
        ensures len { IfOk result (λ v. length v.items ≡ length seats.rest.items) }
        ensures each { IfOk result (λ v. (k : ℕ) (d : W.Seat) (e : W.Shift) → k < length seats.rest.items → W.gives worker.entry.now (slice_index_or seats.rest.items k d) (slice_index_or v.items k e)) }
    { start_workers(rt, alloc, worker, seats) };
    let (shift, others) = join(rt, first, later);
    put_first(shift, others?)
}

/// Gives the only seat to the worker in this thread.
fn run_here<W: Worker>(
    alloc: Global,
    worker: &W,
    mut seats: IntoIter<W::Seat>,
) -> Result<Vec<W::Shift>, AllocError>
    requires accepted { All (W.accepts worker.now) seats.rest.items }
    requires alone { length seats.rest.items < 2 }
    ensures len { IfOk result (λ v. length v.items ≡ length seats.rest.items) }
    ensures each { IfOk result (λ v. (k : ℕ) (d : W.Seat) (e : W.Shift) → k < length seats.rest.items → W.gives worker.now (slice_index_or seats.rest.items k d) (slice_index_or v.items k e)) }
    ensures first { 0 < length seats.rest.items → IfOk result (λ v. (e : W.Shift) → W.ends worker.now (slice_index_or v.items 0 e)) }
{
    let others = Vec::new(alloc);
    let Some(seat) = seats.next() else {
        return Ok(others);
    };
    put_first(worker.run(seat), others)
}

/// Gives each seat to a worker of its own, and waits for all of them. The shifts stand in the order of the seats.
///
/// One worker runs in this thread. Of several each has a thread of its own, and this one waits: a system often puts a new thread on the
/// processor of the one that started it, where it would wait for that one's own share. A worker whose thread can't be made runs on another's.
pub fn run_workers<R: Threads + Sync, W: Worker>(
    rt: &R,
    alloc: Global,
    worker: &W,
    seats: Vec<W::Seat>,
) -> Result<Vec<W::Shift>, AllocError>
    requires { All (W.accepts worker.now) seats.items }
    ensures len { IfOk result (λ v. length v.items ≡ length seats.items) }
    ensures each { IfOk result (λ v. (k : ℕ) (d : W.Seat) (e : W.Shift) → k < length seats.items → W.gives worker.now (slice_index_or seats.items k d) (slice_index_or v.items k e)) }
    ensures first { 0 < length seats.items → IfOk result (λ v. (e : W.Shift) → W.ends worker.now (slice_index_or v.items 0 e)) }
{
    if seats.len() < 2 {
        return run_here(alloc, worker, seats.into_iter());
    }
    start_workers(rt, alloc, worker, seats.into_iter())
}
