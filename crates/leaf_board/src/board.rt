//! The board, its seats and the passes that it hands out.
ghost use Rattle.std.specs.Prelude.{◌≡◌, ◌≢◌, ℕ, ◌+◌, ◌-◌, ◌*◌, ◌/◌, ◌^◌, ◌<◌, ◌≤◌, ◌↔◌, min, slice_index, [], ◌∷◌, ◌++◌, IsTrue, IfOk, IfSome, IfNone, MatchResult};
ghost use Rattle.barriers.specs.Needs.{need_of, IsBelow};
ghost use Rattle.leaf_board.specs.Case.{share_end, ring, IsJustified, IsLawful};
ghost use Rattle.leaf_board.specs.Statuses.{Unknown};
ghost use Rattle.leaf_board.specs.Knowledge.{status_of, IsHeld, IsDrained, KnowsEnough, FirstEnough, known_count, KnowsCutLeftOf, after_leaf, after_empty, after_publish, after_look, after_cut, after_read, after_skip};
ghost use Rattle.leaf_board.specs.Seats.{SameSeat, Answered, OnlyDraws, OnlyLooks, Settles, HasCutLeftOf};
ghost use Rattle.leaf_board.specs.Rule.{IsOpening};
ghost use Rattle.leaf_board.specs.Closing.{AreOf, AreAll, AreNew, Shows, IsRecordOf};

use crate::handout::Draw;
use crate::record::Record;
use crate::rule::{
    Case, Cuts, Deal, Draws, JoinSeats, Looks, OneLeaf, Order, Publishes, Reads, Skips,
};
use crate::view::View;
use atomic_table::{Seat, Shared, Table};
use barriers::Need;
use spliterator::NoMemory;
use std::alloc::Global;
use std::marker::{Brand, Model, PhantomData};

/// The right to run one leaf, and the duty to end it: by [`Board::publish`], [`Board::skip`] or [`Board::give_up`].
///
/// It has no `Drop`, so a program that lets it go is refused. Contracts see the leaf's number.
pub struct LeafPass {
    leaf: usize,
}

impl Model for LeafPass {
    ghost use Rattle.std.specs.Prelude.{ℕ};

    ghost Value = { ℕ };

    ghost view = { λ p. p.leaf };
}

impl LeafPass {
    /// Leaves are numbered from 0, in encounter order.
    pub fn leaf(&self) -> usize
        ensures { result ≡ self.now }
    {
        let LeafPass { leaf } = self;
        *leaf
    }
}

/// What one thread steps with.
///
/// Contracts see its board, its number and what it knows, as plain data. It may go to another thread.
#[derive(Drop)]
pub struct BoardSeat<C: Case> {
    seat: Seat<(), View>,
    number: u32,
    passed: usize,
    case: PhantomData<C>,
}

impl<C: Case> Model for BoardSeat<C> {
    ghost use Rattle.leaf_board.specs.Seats.{Holder, knowledge_in, IsInUse};

    ghost Value = { Holder };

    ghost view = { λ s. record { board = s.seat.table_id; number = s.number; knows = knowledge_in s.seat.me.0 } };

    ghost invariant = { λ s. IsInUse C.case s.seat.me s.number s.passed };
}

impl<C: Case> BoardSeat<C> {
    /// Seats are numbered from 0, so a number is at most 63.
    pub fn number(&self) -> u32
        ensures { result ≡ self.now.number }
    {
        self.number
    }

    // How many shares it found empty.
    fn passed(&self) -> usize
        ensures value { result ≡ self.now.knows.passed }
        ensures within { result ≤ C.case.seats }
        ensures few { self.now.knows.draws ≤ C.case.leaves + C.case.seats }
    {
        self.passed
    }
}

/// Hands out leaves, keeps their counts, and cuts off the leaves that can no longer matter.
///
/// Its words, in one table: the cut, which is the number of leaves where there is none; a ticket for each seat's share of the
/// leaves; and a word for each leaf, which is 0, or 1 more than its count. Each call of a seat is made of single atomic steps on one
/// word. It takes no lock and no memory, tries no step again and waits for nobody. Only `new` asks for memory, the table's.
///
/// ```text
/// let (board, mut seats) = Board::<C>::new(alloc, 1000, Need::Reach(10), 4)?;
/// // in a thread of its own for each seat:
/// while let Draw::Leaf(pass) = board.draw(seat) {
///     match board.skip(seat, pass) {
///         Ok(()) => {}
///         Err(pass) => {
///             let leaf = pass.leaf();
///             let count = run(leaf);
///             board.publish(seat, pass, count);
///             board.settle(seat, leaf);
///         }
///     }
/// }
/// // and once all of them have ended:
/// let record = board.close(seats);
/// ```
#[derive(Drop)]
pub struct Board<C: Case> {
    table: Table<(), View, (), Order<C>, Global>,
    leaves: usize,
    seats: usize,
    need: Need,
}

impl<C: Case> Model for Board<C> {
    ghost use Rattle.atomic_table.specs.Seated.{TableId, table_id_coded};
    ghost use Rattle.leaf_board.specs.Seats.{IsFor};

    ghost Value = { TableId };

    ghost coded = { table_id_coded };

    ghost view = { λ b. b.table.shared.table_id };

    ghost invariant = { λ b. IsFor C.case b.table.shared.table_id b.leaves b.seats b.need };
}

// The count that a leaf's word shows.
fn count_of(word: u64) -> u64
    ensures { result ≡ word - 1 }
{
    word.saturating_sub(1)
}

fn add(sum: u64, count: u64) -> u64
    ensures { result ≡ min (sum + count) u64.MAX }
{
    sum.saturating_add(count)
}

// The cut and the tickets lie on cache lines of their own, since each is changed by many threads or often.
const WORDS_A_LINE: usize = 8;

// The words at the start.
fn opening_words<C: Case>(alloc: Global, leaves: usize, seats: usize) -> Result<Vec<u64>, NoMemory>
    requires case { (leaves ≡ C.case.leaves) × (seats ≡ C.case.seats) }
    requires limits { (leaves ≤ 65536) × (0 < seats) × (seats ≤ 64) }
    ensures { IfOk result (λ words. IsOpening C.case words.items) }
{
    let mut words = vec![in alloc; 0; WORDS_A_LINE * (1 + seats) + leaves]?;
    words[0] = leaves as u64;
    for share in 0..seats {
        words[WORDS_A_LINE * (1 + share)] = (share * leaves / seats) as u64;
    }
    Ok(words)
}

// The views of all seats, in one.
fn join_seats<C: Case>(
    shared: &Shared<(), View, (), Order<C>>,
    first: BoardSeat<C>,
    mut others: Vec<BoardSeat<C>>,
) -> Seat<(), View>
    requires table { 0 < shared.now.table_id.words }
    requires first { first.board ≡ shared.now.table_id }
    requires others { AreOf shared.now.table_id others.items }
    ensures table { result.table_id ≡ shared.now.table_id }
    ensures shows { Shows result.me.0 (others.items ++ first ∷ []) }
{
    let BoardSeat {
        seat: mut joined,
        number: _,
        passed: _,
        case: _,
    } = first;
    while let Some(other) = others.pop() {
        let BoardSeat {
            seat,
            number: _,
            passed: _,
            case: _,
        } = other;
        shared.join_seat::<JoinSeats>(&mut joined, seat);
    }
    joined
}

impl<C: Case> Board<C> {
    /// A board of 1 to 65,536 leaves of which none is given out, and its 1 to 64 seats, which know nothing.
    ///
    /// The need is below 2^63. Refused by `NoMemory` where the words or the seats find no memory.
    pub fn new(
        alloc: Global,
        leaves: usize,
        need: Need,
        seats: usize,
    ) -> Result<(Board<C>, Vec<BoardSeat<C>>), NoMemory>
        requires case { (leaves ≡ C.case.leaves) × (need_of need ≡ C.case.need) × (seats ≡ C.case.seats) }
        requires limits { (0 < leaves) × (leaves ≤ 65536) × (0 < seats) × (seats ≤ 64) × IsBelow (need_of need) (2 ^ 63) }
        ensures { IfOk result (λ made. AreNew C.case made.0 made.1.items) }
    {
        let words = opening_words::<C>(alloc, leaves, seats)?;
        let (table, mut rest) = Table::of_words(alloc, words.as_slice(), &())?;
        let mut dealt = Vec::with_capacity(alloc, seats)?;
        for number in 0..seats {
            let seat = table.shared.split_seat::<Deal>(&mut rest);
            dealt.push_reserved(BoardSeat {
                seat,
                number: number as u32,
                passed: 0,
                case: PhantomData,
            });
        }
        let board = Board {
            table,
            leaves,
            seats,
            need,
        };
        Ok((board, dealt))
    }

    /// Ends the board, with all its seats in any order, and keeps what they did.
    pub fn close(self, mut seats: Vec<BoardSeat<C>>) -> Record
        requires own { AreOf self seats.items }
        requires all { AreAll C.case seats.items }
        ensures { IsRecordOf C.case seats.items result }
    {
        let Board {
            table,
            leaves,
            seats: count,
            need: _,
        } = self;
        let Some(first) = seats.pop() else {
            unreachable!()
        };
        let joined = join_seats(&table.shared, first, seats);
        let closed = table.close_with(joined);
        Record::new(closed, leaves, count)
    }

    // The first leaf past the share.
    fn share_end(&self, share: usize) -> usize
        requires { share < C.case.seats }
        ensures { result ≡ share_end C.case share }
    {
        let seats = self.seats;
        (share + 1) * self.leaves / seats
    }

    // The share that lies `steps` steps round the ring from this one.
    fn share_after(&self, number: usize, steps: usize) -> usize
        requires { (number < C.case.seats) × (steps < C.case.seats) }
        ensures { result ≡ ring C.case number steps }
    {
        let seats = self.seats;
        let ahead = number + steps;
        if ahead < seats { ahead } else { ahead - seats }
    }

    // One draw step, on the ticket of the share at which the seat stands.
    fn draw_once(&self, seat: &mut BoardSeat<C>) -> Option<usize>
        requires { (seat.old.board ≡ self.now) × (seat.old.knows.passed < C.case.seats) }
        ensures seat { SameSeat seat.old seat.new }
        ensures some { IfSome result (λ leaf. (leaf < C.case.leaves) × (status_of seat.old.knows leaf ≡ Unknown) × (seat.new.knows ≡ after_leaf seat.old.knows leaf) × IsHeld seat.new.knows leaf) }
        ensures none { IfNone result (seat.new.knows ≡ after_empty seat.old.knows) }
        ensures few { seat.new.knows.draws ≤ C.case.leaves + C.case.seats }
    {
        let share = self.share_after(seat.number as usize, seat.passed);
        let end = self.share_end(share) as u64;
        let found = self
            .table
            .shared
            .fetch_add::<Draws<C>>(&mut seat.seat, WORDS_A_LINE * (1 + share), 1);
        if found < end {
            return Some(found as usize);
        }
        seat.passed += 1;
        None
    }

    /// A leaf that no one else gets: the next one of the seat's own share, and where that is empty, of the next shares round the
    /// ring. `Drained` where all leaves were given out; from then on the seat is told so without a step.
    pub fn draw(&self, seat: &mut BoardSeat<C>) -> Draw<LeafPass>
        requires { seat.old.board ≡ self.now }
        ensures seat { SameSeat seat.old seat.new }
        ensures told { Answered C.case seat.old.knows result seat.new.knows }
        ensures others { OnlyDraws seat.old.knows seat.new.knows }
        ensures steps { seat.new.knows.draws ≤ seat.old.knows.draws + C.case.seats }
        ensures drained { IsDrained C.case seat.old.knows → seat.new.knows ≡ seat.old.knows }
        ensures few { seat.new.knows.draws ≤ C.case.leaves + C.case.seats }
    {
        let seats = self.seats;
        for _passed in seat.passed()..seats {
            if let Some(leaf) = self.draw_once(seat) {
                return Draw::Leaf(LeafPass { leaf });
            }
        }
        Draw::Drained
    }

    /// Spends the pass, and makes the leaf's count known for good.
    ///
    /// The count is the leaf's full one, or a smaller one that is enough by itself. It is below 2^63.
    pub fn publish(&self, seat: &mut BoardSeat<C>, pass: LeafPass, count: u64)
        requires own { seat.old.board ≡ self.now }
        requires held { IsHeld seat.old.knows pass }
        requires count { IsLawful C.case.need (C.case.full pass) count × (count < 2 ^ 63) }
        ensures seat { SameSeat seat.old seat.new }
        ensures knows { seat.new.knows ≡ after_publish seat.old.knows pass count }
        ensures counts { slice_index seat.new.knows.counts pass ≡ count + 1 }
    {
        let LeafPass { leaf } = pass;
        let seat = &mut seat.seat;
        let place = WORDS_A_LINE * (1 + self.seats) + leaf;
        self.table
            .shared
            .swap::<Publishes<C>>(seat, place, count + 1);
    }

    /// Spends the pass of a leaf that was refused memory, which stays without a count. It makes no step.
    pub fn give_up(&self, seat: &mut BoardSeat<C>, pass: LeafPass)
        requires { (seat.old.board ≡ self.now) × IsHeld seat.old.knows pass }
        ensures { seat.new ≡ seat.old }
    {
        let LeafPass { leaf: _given_up } = pass;
    }

    // One look at a leaf's word.
    fn look(&self, seat: &mut BoardSeat<C>, leaf: usize) -> u64
        requires { (seat.old.board ≡ self.now) × (leaf < C.case.leaves) }
        ensures seat { SameSeat seat.old seat.new }
        ensures knows { seat.new.knows ≡ after_look seat.old.knows leaf result }
        ensures count { known_count seat.new.knows leaf ≡ result - 1 }
        ensures stays { slice_index seat.old.knows.counts leaf ≢ 0 → result ≡ slice_index seat.old.knows.counts leaf }
    {
        let place = WORDS_A_LINE * (1 + self.seats) + leaf;
        self.table.shared.load::<Looks<C>>(&mut seat.seat, place)
    }

    // One cut.
    fn cut(&self, seat: &mut BoardSeat<C>, leaf: usize)
        requires own { seat.old.board ≡ self.now }
        requires enough { (leaf < C.case.leaves) × KnowsEnough C.case seat.old.knows leaf }
        ensures seat { SameSeat seat.old seat.new }
        ensures knows { (found : ℕ) × (seat.new.knows ≡ after_cut seat.old.knows leaf found) }
        ensures justified { IsJustified C.case leaf }
    {
        self.table
            .shared
            .fetch_min::<Cuts<C>>(&mut seat.seat, 0, leaf as u64);
    }

    /// Looks at the counts of leaves 0 to this one, in order, and cuts at the first place where those so far reach the need.
    ///
    /// A leaf without a count adds nothing and is no bar to a cut. With `Need::Never` it makes no step.
    pub fn settle(&self, seat: &mut BoardSeat<C>, leaf: usize)
        requires { (seat.old.board ≡ self.now) × (leaf < C.case.leaves) }
        ensures seat { SameSeat seat.old seat.new }
        ensures others { OnlyLooks seat.old.knows seat.new.knows }
        ensures settles { Settles C.case.need C.case seat.old.knows leaf seat.new.knows }
        ensures first { (p : ℕ) → p ≤ leaf → FirstEnough C.case seat.new.knows p → seat.new.knows.least ≤ p }
    {
        let Need::Reach(need) = self.need else {
            return;
        };
        let mut sum = 0;
        for at in 0..leaf + 1 {
            let word = self.look(seat, at);
            sum = add(sum, count_of(word));
            if sum >= need {
                self.cut(seat, at);
                return;
            }
        }
    }

    // One read of the cut word.
    fn read(&self, seat: &mut BoardSeat<C>) -> u64
        requires { seat.old.board ≡ self.now }
        ensures seat { SameSeat seat.old seat.new }
        ensures knows { seat.new.knows ≡ after_read seat.old.knows result }
        ensures falls { result ≤ seat.old.knows.least }
        ensures justified { result < C.case.leaves → IsJustified C.case result }
    {
        self.table.shared.load::<Reads<C>>(&mut seat.seat, 0)
    }

    /// Whether a cut left of the leaf is found, by one read.
    pub fn is_cut(&self, seat: &mut BoardSeat<C>, leaf: usize) -> bool
        requires { (seat.old.board ≡ self.now) × (leaf < C.case.leaves) }
        ensures seat { SameSeat seat.old seat.new }
        ensures knows { seat.new.knows ≡ after_read seat.old.knows seat.new.knows.least }
        ensures falls { seat.new.knows.least ≤ seat.old.knows.least }
        ensures told { IsTrue result ↔ KnowsCutLeftOf seat.new.knows leaf }
        ensures justified { IsTrue result → HasCutLeftOf C.case leaf }
    {
        self.read(seat) < leaf as u64
    }

    /// Spends the pass where a cut left of its leaf is found, by one read; else gives it back.
    pub fn skip(&self, seat: &mut BoardSeat<C>, pass: LeafPass) -> Result<(), LeafPass>
        requires { (seat.old.board ≡ self.now) × IsHeld seat.old.knows pass }
        ensures seat { SameSeat seat.old seat.new }
        ensures knows { seat.new.knows ≡ after_skip seat.old.knows pass seat.new.knows.least }
        ensures falls { seat.new.knows.least ≤ seat.old.knows.least }
        ensures told { MatchResult result (λ _. KnowsCutLeftOf seat.new.knows pass × HasCutLeftOf C.case pass) (λ back. (back ≡ pass) × IsHeld seat.new.knows pass × ¬ KnowsCutLeftOf seat.new.knows pass) }
    {
        let found = self.read_leaf(seat, pass.leaf);
        if found < pass.leaf as u64 {
            let LeafPass { leaf: _ } = pass;
            return Ok(());
        }
        Err(pass)
    }

    // The read of a skip.
    fn read_leaf(&self, seat: &mut BoardSeat<C>, leaf: usize) -> u64
        requires { (seat.old.board ≡ self.now) × IsHeld seat.old.knows leaf }
        ensures seat { SameSeat seat.old seat.new }
        ensures knows { seat.new.knows ≡ after_skip seat.old.knows leaf result }
        ensures falls { result ≤ seat.old.knows.least }
        ensures justified { result < leaf → HasCutLeftOf C.case leaf }
    {
        self.read_named::<Brand>(seat, leaf)
    }

    // L names the leaf, since the step itself doesn't.
    fn read_named<L: OneLeaf>(&self, seat: &mut BoardSeat<C>, leaf: usize) -> u64
        requires { (seat.old.board ≡ self.now) × IsHeld seat.old.knows leaf × (leaf ≡ L.leaf) }
        ensures seat { SameSeat seat.old seat.new }
        ensures knows { seat.new.knows ≡ after_skip seat.old.knows leaf result }
        ensures falls { result ≤ seat.old.knows.least }
        ensures justified { result < leaf → HasCutLeftOf C.case leaf }
    {
        self.table.shared.load::<Skips<C, L>>(&mut seat.seat, 0)
    }
}
