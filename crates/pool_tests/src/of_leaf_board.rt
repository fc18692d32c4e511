// Boards, call by call.
ghost use Rattle.std.specs.Prelude.{◌≡◌, ◌<◌, ◌∷◌, []};
ghost use Rattle.leaf_board.specs.Seats.{SameSeat, Gained, OnlyDraws};
ghost use Rattle.leaf_board.specs.Boards.{case_of};
ghost use Rattle.std.specs.Prelude.{None};

mod plain;
mod shares;
mod simulation;
mod threads;

use barriers::Need;
use leaf_board::{Board, BoardSeat, Case, Draw, LeafBoard, LeafPass};
use spliterator::NoMemory;
use std::alloc::Global;
use std::marker::Brand;
use std::process::Abort;

// The next leaf, which is to be this one.
fn leaf<C: Case, R: Abort>(
    rt: &R,
    board: &Board<C>,
    seat: &mut BoardSeat<C>,
    expected: usize,
) -> LeafPass
    requires { seat.old.board ≡ board.now }
    ensures pass { (result ≡ expected) × Gained C.case seat.old.knows expected seat.new.knows }
    ensures seat { SameSeat seat.old seat.new × OnlyDraws seat.old.knows seat.new.knows }
{
    match board.draw(seat) {
        Draw::Leaf(pass) => {
            assert!(rt; pass.leaf() == expected);
            pass
        }
        Draw::Drained => panic!(rt; "drained"),
    }
}

fn drained<C: Case>(board: &Board<C>, seat: &mut BoardSeat<C>) -> bool
    requires { seat.old.board ≡ board.now }
    ensures { SameSeat seat.old seat.new }
{
    match board.draw(seat) {
        Draw::Leaf(pass) => {
            board.give_up(seat, pass);
            false
        }
        Draw::Drained => true,
    }
}

// One seat holds two passes at once.
fn two_leaves<C: Case, R: Abort>(rt: &R, alloc: Global) -> Result<(), NoMemory>
    requires { C.case ≡ case_of 2 (0 ∷ 0 ∷ []) None 1 }
{
    let (board, mut seats) = Board::<C>::new(alloc, 2, Need::Never, 1)?;
    let Some(mut seat) = seats.pop() else {
        unreachable!()
    };
    let first = leaf(rt, &board, &mut seat, 0);
    let second = leaf(rt, &board, &mut seat, 1);
    board.publish(&mut seat, second, 0);
    board.give_up(&mut seat, first);
    assert!(rt; drained(&board, &mut seat));
    seats.push(seat)?;
    let record = LeafBoard::close(board, seats);
    assert!(rt; record.count(0).is_none() && record.count(1) == Some(0) && record.cut().is_none());
    Ok(())
}

#[test]
fn a_leaf_given_up_has_no_count(rt: HostRuntime) -> Result<(), NoMemory> {
    two_leaves::<Brand, HostRuntime>(&rt, rt.alloc())
}
