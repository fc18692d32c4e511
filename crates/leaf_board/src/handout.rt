//! The calls of a board that hands out leaves and cuts, as two traits: what a pool of workers stands on.
ghost use Rattle.std.specs.Prelude.{◌≡◌, ◌<◌, ◌≤◌, ◌^◌, ◌↔◌, ℕ, Option, IsTrue};
ghost use Rattle.barriers.specs.Needs.{Reaches};
ghost use Rattle.leaf_board.specs.Case.{IsLawful};
ghost use Rattle.leaf_board.specs.Statuses.{Status, Given, Published, Turns, SameFrom, Draws, SkipsLeaf, StaysSeat, AreSeats};
ghost use Rattle.leaf_board.specs.Records.{Closes};

/// The answer of a draw.
pub enum Draw<P> {
    /// A leaf that no other seat gets.
    Leaf(P),
    /// All leaves were given out. The seat is told so from then on.
    Drained,
}

/// Hands out each leaf once, keeps the leaves' counts, and tells of cuts.
///
/// Leaves and seats are numbered from 0. Each call leaves a seat with its board and its number.
pub trait Handout {
    /// What one thread steps with.
    type Seat: Drop;

    /// The right to run one leaf, which has to be spent.
    type Pass;

    // the number of leaves, the full count of each, and how many counting items are needed
    ghost leaves: { Self → ℕ };

    ghost full: { Self → ℕ → ℕ };

    ghost need: { Self → Option ℕ };

    // whether the seat is one of the board
    ghost is_of: { Self → Self.Seat → Type 0 };

    ghost number: { Self.Seat → ℕ };

    // what each leaf is to the seat, and the least cut that it knows
    ghost status: { Self.Seat → ℕ → Status };

    ghost cut: { Self.Seat → ℕ };

    // whether the seat knows this count of the leaf, and whether it cut at this leaf or left of it
    ghost knows_count: { Self.Seat → ℕ → ℕ → Type 0 };

    ghost made_cut: { Self.Seat → ℕ → Type 0 };

    // whether it was told that all leaves were given out, and how many leaves it may still draw
    ghost drained: { Self.Seat → Type 0 };

    ghost draws_left: { Self.Seat → ℕ };

    ghost leaf_of: { Self.Pass → ℕ };

    /// The seat's number.
    fn seat_number(seat: &Self::Seat) -> u32
        ensures { result ≡ number seat.now };

    /// The number of the pass's leaf.
    fn leaf(pass: &Self::Pass) -> usize
        ensures { result ≡ leaf_of pass.now };

    /// A leaf that no other seat gets, or the news that all leaves were given out.
    fn draw(&self, seat: &mut Self::Seat) -> Draw<Self::Pass>
        requires { is_of self.now seat.old }
        ensures of { is_of self.now seat.new }
        ensures number { number seat.new ≡ number seat.old }
        ensures cuts { (i : ℕ) → made_cut seat.old i → made_cut seat.new i }
        ensures draws { Draws (leaves self.now) leaf_of (status seat.old) (draws_left seat.old) result (status seat.new) (draws_left seat.new) (drained seat.new) };

    /// Spends the pass, and makes the leaf's count known for good: the full one, or a smaller one that is enough.
    fn publish(&self, seat: &mut Self::Seat, pass: Self::Pass, count: u64)
        requires of { is_of self.now seat.old }
        requires given { status seat.old (leaf_of pass) ≡ Given }
        requires lawful { IsLawful (need self.now) (full self.now (leaf_of pass)) count }
        requires small { count < 2 ^ 63 }
        ensures seat { StaysSeat (is_of self.now) number draws_left made_cut seat.old seat.new }
        ensures counts { knows_count seat.new (leaf_of pass) count }
        ensures publishes { Turns (status seat.old) (leaf_of pass) (Published count) (status seat.new) };

    /// Looks at the counts of leaves 0 to `i`, and cuts at the first place where those so far reach the need.
    fn settle(&self, seat: &mut Self::Seat, i: usize)
        requires of { is_of self.now seat.old }
        requires within { i < leaves self.now }
        ensures enough { (n : ℕ) → knows_count seat.old i n → Reaches (need self.now) n → made_cut seat.new i }
        ensures seat { StaysSeat (is_of self.now) number draws_left made_cut seat.old seat.new }
        ensures same { SameFrom (status seat.old) (status seat.new) };

    /// Whether a cut left of leaf `j` is found.
    fn is_cut(&self, seat: &mut Self::Seat, j: usize) -> bool
        requires of { is_of self.now seat.old }
        requires within { j < leaves self.now }
        ensures seat { StaysSeat (is_of self.now) number draws_left made_cut seat.old seat.new }
        ensures same { SameFrom (status seat.old) (status seat.new) }
        ensures falls { cut seat.new ≤ cut seat.old }
        ensures tells { IsTrue result ↔ (cut seat.new < j) };

    /// Spends the pass where a cut left of its leaf is found, else gives it back.
    fn skip(&self, seat: &mut Self::Seat, pass: Self::Pass) -> Result<(), Self::Pass>
        requires of { is_of self.now seat.old }
        requires given { status seat.old (leaf_of pass) ≡ Given }
        ensures seat { StaysSeat (is_of self.now) number draws_left made_cut seat.old seat.new }
        ensures falls { cut seat.new ≤ cut seat.old }
        ensures skips { SkipsLeaf (status seat.old) (leaf_of pass) (cut seat.new) result leaf_of (status seat.new) };

    /// Whether the run is to end with no value. No answer depends on it but the one that memory was refused.
    fn is_halted(&self) -> bool {
        false
    }

    /// Spends the pass of a leaf that was refused memory, which stays without a count.
    fn give_up(&self, seat: &mut Self::Seat, pass: Self::Pass)
        requires of { is_of self.now seat.old }
        requires given { status seat.old (leaf_of pass) ≡ Given }
        ensures seat { StaysSeat (is_of self.now) number draws_left made_cut seat.old seat.new }
        ensures same { SameFrom (status seat.old) (status seat.new) };
}

/// A board that can be closed.
pub trait LeafBoard: Handout + Drop + Sized {
    /// The counts and the cut of a run that has ended.
    type Record: Drop;

    // how many seats it has
    ghost seat_count: { Self → ℕ };

    // the number of leaves, the count that was published for each, and the least cut
    ghost recorded: { Self.Record → ℕ };

    ghost count_of: { Self.Record → ℕ → Option ℕ };

    ghost cut_of: { Self.Record → Option ℕ };

    /// Ends the board, and keeps what its seats did together. They are handed over in the order of their numbers.
    fn close(self, seats: Vec<Self::Seat>) -> Self::Record
        requires all { AreSeats (Self.is_of self) Self.number (seat_count self) seats.items }
        ensures { Closes (Self.leaves self) (Self.full self) (Self.need self) Self.status Self.drained Self.made_cut seats.items (recorded result) (count_of result) (cut_of result) };
}
