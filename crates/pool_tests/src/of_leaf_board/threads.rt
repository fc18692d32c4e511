// The largest board, with each of its 64 seats in a thread.
ghost use Rattle.std.specs.Prelude.{◌≡◌, ◌+◌, ◌%◌, ◌^◌, ◌<◌};
ghost use Rattle.barriers.specs.Needs.{need_of, IsBelow};
ghost use Rattle.leaf_board.specs.Knowledge.{IsHeld};
ghost use Rattle.leaf_board.specs.Seats.{SameSeat};
ghost use Rattle.leaf_board.specs.Statuses.{AreSeats};
ghost use Rattle.leaf_board.specs.Hands.{IsOn, number_of};
ghost use Rattle.leaf_board.specs.Boards.{largest};

use barriers::Need;
use leaf_board::{Board, BoardSeat, Case, Draw, LeafBoard, LeafPass, Record};
use spliterator::NoMemory;
use std::alloc::{AllocError, Global};
use std::marker::Brand;
use std::process::Abort;
use std::sync::atomic::{AtomicU64, Ordering};
use std::thread;
use std::thread::Threads;

// A number that looks random and that each thread computes alike.
fn scramble(leaf: usize) -> u64 {
    let mixed = (leaf as u64).wrapping_mul(0x9e37_79b9_7f4a_7c15);
    mixed ^ (mixed >> 29)
}

// Every fifth leaf or so is refused memory.
fn is_refused(leaf: usize) -> bool {
    scramble(leaf) % 5 == 0
}

fn count_of(leaf: usize) -> u64
    ensures { result ≡ leaf % 8 }
{
    (leaf % 8) as u64
}

fn run_leaf<C: Case>(board: &Board<C>, seat: &mut BoardSeat<C>, pass: LeafPass)
    requires seat { (seat.old.board ≡ board.now) × IsHeld seat.old.knows pass }
    requires case { (pass < C.case.leaves) × (C.case ≡ largest C.case.need) }
    ensures { SameSeat seat.old seat.new }
{
    let leaf = pass.leaf();
    if is_refused(leaf) {
        board.give_up(seat, pass);
        return;
    }
    board.publish(seat, pass, count_of(leaf));
    if scramble(leaf) % 64 == 1 {
        board.settle(seat, leaf);
    }
}

// Draws until all leaves were given out, and counts at each how often it was drawn.
fn work<C: Case>(board: &Board<C>, seat: &mut BoardSeat<C>, drawn: &[AtomicU64])
    requires { (seat.old.board ≡ board.now) × (C.case ≡ largest C.case.need) }
    ensures { SameSeat seat.old seat.new }
{
    for _step in 0..65537 {
        match board.draw(seat) {
            Draw::Drained => return,
            Draw::Leaf(pass) => {
                if let Some(times) = drawn.get(pass.leaf()) {
                    times.fetch_add(1, Ordering::SeqCst);
                }
                match board.skip(seat, pass) {
                    Ok(()) => {}
                    Err(pass) => run_leaf(board, seat, pass),
                }
            }
        }
    }
}

// Each seat works in a thread. Then the first one settles once more, so that every count was looked at.
fn all_work<C: Case + Send + Sync, R: Threads + Sync>(
    rt: &R,
    board: &Board<C>,
    seats: &mut [BoardSeat<C>],
    drawn: &[AtomicU64],
)
    requires seats { AreSeats (IsOn board.now) number_of C.case.seats seats.old }
    requires case { (C.case.seats ≡ 64) × (C.case ≡ largest C.case.need) }
    ensures { AreSeats (IsOn board.now) number_of C.case.seats seats.new }
{
    thread::for_each_mut(
        rt,
        seats,
        64,
        &|_number, seat: &mut BoardSeat<C>|
            requires { (seat.now.board ≡ board.now) × (C.case ≡ largest C.case.need) }
            ensures { SameSeat seat.entry.now seat.exit.now }
        { work(board, seat, drawn) },
    );
    board.settle(&mut seats[0], 65535);
}

// A zero for each leaf.
fn zeros(alloc: Global) -> Result<Vec<AtomicU64>, AllocError> {
    let mut zeros = Vec::new(alloc);
    for _leaf in 0..65536 {
        zeros.push(AtomicU64::new(0))?;
    }
    Ok(zeros)
}

// The record after all threads are joined, each leaf drawn once.
fn in_threads<C: Case + Send + Sync, R: Threads + Abort + Sync>(
    rt: &R,
    alloc: Global,
    need: Need,
) -> Result<Record, NoMemory>
    requires { (C.case ≡ largest (need_of need)) × IsBelow (need_of need) (2 ^ 63) }
{
    let (board, mut seats) = Board::<C>::new(alloc, 65536, need, 64)?;
    let drawn = zeros(alloc)?;
    all_work(rt, &board, seats.as_mut_slice(), drawn.as_slice());
    for times in &drawn {
        assert!(rt; times.load(Ordering::SeqCst) == 1);
    }
    Ok(LeafBoard::close(board, seats))
}

#[test]
fn sixty_four_threads_publish_every_leaf(rt: HostRuntime) -> Result<(), NoMemory> {
    let record = in_threads::<Brand, HostRuntime>(&rt, rt.alloc(), Need::Never)?;
    assert!(rt; record.cut().is_none());
    for leaf in 0..record.leaves() {
        let expected = if is_refused(leaf) {
            None
        } else {
            Some(count_of(leaf))
        };
        assert!(rt; record.count(leaf) == expected);
    }
    Ok(())
}

// The first leaf up to which the counts add up to the need.
fn first_enough(need: u64, leaves: usize) -> Option<usize> {
    let mut sum: u64 = 0;
    for leaf in 0..leaves {
        if !is_refused(leaf) {
            sum = sum.saturating_add(count_of(leaf));
        }
        if sum >= need {
            return Some(leaf);
        }
    }
    None
}

#[test]
fn sixty_four_threads_skip_right_of_the_cut(rt: HostRuntime) -> Result<(), NoMemory> {
    let record = in_threads::<Brand, HostRuntime>(&rt, rt.alloc(), Need::Reach(50000))?;
    let expected = first_enough(50000, record.leaves());
    assert!(rt; record.cut() == expected);
    let cut = expected.expect(&rt, "a cut");
    for leaf in 0..record.leaves() {
        let planned = if is_refused(leaf) {
            None
        } else {
            Some(count_of(leaf))
        };
        let told = record.count(leaf);
        assert!(rt; told == planned || (leaf > cut && told.is_none()));
    }
    Ok(())
}
