//! The board as one that hands out leaves to workers.
ghost use Rattle.leaf_board.specs.Statuses.{AreSeats};
ghost use Rattle.leaf_board.specs.Records.{Closes};
ghost use Rattle.leaf_board.specs.Closing.{leaves_of, cut_of, count_of};
ghost use Rattle.leaf_board.specs.Hands.{IsOn, number_of, status_at, WasDrained, MadeCut};

use crate::board::{Board, BoardSeat, LeafPass};
use crate::handout::{Draw, Handout, LeafBoard};
use crate::record::Record;
use crate::rule::Case;

impl<C: Case> Handout for Board<C> {
    ghost use Rattle.leaf_board.specs.Hands.{IsOn, number_of, status_at, WasDrained, KnowsCount, MadeCut, least_cut, leaves_left};

    type Seat = BoardSeat<C>;

    type Pass = LeafPass;

    ghost leaves = { λ _. C.case.leaves };

    ghost full = { λ _. C.case.full };

    ghost need = { λ _. C.case.need };

    ghost is_of = { IsOn };

    ghost number = { number_of };

    ghost status = { status_at };

    ghost cut = { least_cut };

    ghost knows_count = { KnowsCount };

    ghost made_cut = { MadeCut };

    ghost drained = { WasDrained C.case };

    ghost draws_left = { leaves_left };

    ghost leaf_of = { λ p. p };

    fn seat_number(seat: &BoardSeat<C>) -> u32 {
        seat.number()
    }

    fn leaf(pass: &LeafPass) -> usize {
        pass.leaf()
    }

    fn draw(&self, seat: &mut BoardSeat<C>) -> Draw<LeafPass> {
        Board::draw(self, seat)
    }

    fn publish(&self, seat: &mut BoardSeat<C>, pass: LeafPass, count: u64) {
        Board::publish(self, seat, pass, count);
    }

    fn settle(&self, seat: &mut BoardSeat<C>, i: usize) {
        Board::settle(self, seat, i);
    }

    fn is_cut(&self, seat: &mut BoardSeat<C>, j: usize) -> bool {
        Board::is_cut(self, seat, j)
    }

    fn skip(&self, seat: &mut BoardSeat<C>, pass: LeafPass) -> Result<(), LeafPass> {
        Board::skip(self, seat, pass)
    }

    fn give_up(&self, seat: &mut BoardSeat<C>, pass: LeafPass) {
        Board::give_up(self, seat, pass);
    }
}

impl<C: Case> LeafBoard for Board<C> {
    ghost use Rattle.leaf_board.specs.Closing.{leaves_of, cut_of, count_of};

    type Record = Record;

    ghost seat_count = { λ _. C.case.seats };

    ghost recorded = { leaves_of };

    ghost count_of = { count_of };

    ghost cut_of = { cut_of };

    fn close(self, seats: Vec<BoardSeat<C>>) -> Record
        requires all { AreSeats (IsOn self) number_of C.case.seats seats.items }
        ensures { Closes C.case.leaves C.case.full C.case.need status_at (WasDrained C.case) MadeCut seats.items (leaves_of result) (count_of result) (cut_of result) }
    {
        Board::close(self, seats)
    }
}
