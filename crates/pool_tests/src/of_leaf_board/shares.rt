// Which leaves lie in which share.
ghost use Rattle.std.specs.Prelude.{◌≡◌, ◌<◌, ◌≤◌, [], None};
ghost use Rattle.leaf_board.specs.Seats.{SameSeat};
ghost use Rattle.leaf_board.specs.Boards.{case_of};

use super::{drained, leaf};
use barriers::Need;
use leaf_board::{Board, BoardSeat, Case, LeafBoard};
use spliterator::NoMemory;
use std::alloc::Global;
use std::marker::Brand;
use std::process::Abort;

// The seat gets these leaves, in order.
fn gets<C: Case, R: Abort>(
    rt: &R,
    board: &Board<C>,
    seat: &mut BoardSeat<C>,
    from: usize,
    to: usize,
)
    requires { seat.old.board ≡ board.now }
    ensures { SameSeat seat.old seat.new }
{
    for expected in from..to {
        let pass = leaf(rt, board, seat, expected);
        board.give_up(seat, pass);
    }
}

fn start(starts: &[usize], share: usize) -> usize {
    starts.get(share).copied().unwrap_or(0)
}

// Each seat draws its own share, then all are told that all leaves were given out. Handed back in order, the seats close the board.
fn own_shares<C: Case, R: Abort>(
    rt: &R,
    alloc: Global,
    leaves: usize,
    seats: usize,
    starts: &[usize],
) -> Result<(), NoMemory>
    requires { (C.case ≡ case_of leaves [] None seats) × (0 < leaves) × (leaves ≤ 65536) × (0 < seats) × (seats ≤ 64) }
{
    let (board, mut all) = Board::<C>::new(alloc, leaves, Need::Never, seats)?;
    for number in 0..seats {
        gets(
            rt,
            &board,
            &mut all[number],
            start(starts, number),
            start(starts, number + 1),
        );
    }
    for number in 0..seats {
        assert!(rt; drained(&board, &mut all[number]));
    }
    let record = LeafBoard::close(board, all);
    assert!(rt; record.leaves() == leaves && record.cut().is_none());
    Ok(())
}

#[test]
fn ten_leaves_in_four_shares(rt: HostRuntime) -> Result<(), NoMemory> {
    own_shares::<Brand, HostRuntime>(&rt, rt.alloc(), 10, 4, &[0, 2, 5, 7, 10])
}

#[test]
fn two_leaves_in_seven_shares(rt: HostRuntime) -> Result<(), NoMemory> {
    own_shares::<Brand, HostRuntime>(&rt, rt.alloc(), 2, 7, &[0, 0, 0, 0, 1, 1, 1, 2])
}

#[test]
fn the_largest_board_in_shares_of_1024(rt: HostRuntime) -> Result<(), NoMemory> {
    let alloc = rt.alloc();
    let mut starts = Vec::new(alloc);
    for share in 0..65 {
        starts.push(1024 * share)?;
    }
    own_shares::<Brand, HostRuntime>(&rt, alloc, 65536, 64, starts.as_slice())
}

// All leaves that the seat of this number gets, where it alone draws.
fn alone<C: Case, R: Abort>(
    rt: &R,
    alloc: Global,
    leaves: usize,
    seats: usize,
    number: usize,
    expected: &[usize],
) -> Result<(), NoMemory>
    requires { (C.case ≡ case_of leaves [] None seats) × (0 < leaves) × (leaves ≤ 65536) × (number < seats) × (seats ≤ 64) }
{
    let (board, mut seats) = Board::<C>::new(alloc, leaves, Need::Never, seats)?;
    let mut seat = seats.swap_remove(number);
    for at in expected {
        let pass = leaf(rt, &board, &mut seat, *at);
        board.give_up(&mut seat, pass);
    }
    assert!(rt; drained(&board, &mut seat));
    Ok(())
}

#[test]
fn a_seat_alone_gets_all_leaves(rt: HostRuntime) -> Result<(), NoMemory> {
    let (alloc, last_first) = (rt.alloc(), [5, 6, 7, 8, 9, 0, 1, 2, 3, 4]);
    alone::<Brand, HostRuntime>(&rt, alloc, 10, 4, 0, &[0, 1, 2, 3, 4, 5, 6, 7, 8, 9])
        .and(alone::<Brand, HostRuntime>(&rt, alloc, 10, 4, 2, &last_first))
        .and(alone::<Brand, HostRuntime>(&rt, alloc, 2, 7, 3, &[0, 1]))
        .and(alone::<Brand, HostRuntime>(&rt, alloc, 2, 7, 6, &[1, 0]))
}
