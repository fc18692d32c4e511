//! What one thread does with a leaf, and how two results are combined.
ghost use Rattle.std.specs.Prelude.{◌≡◌, ◌<◌, ◌^◌, IfOk, OnOk, ⊤};
ghost use Rattle.barriers.specs.Needs.{need_of, IsBelow};
ghost use Rattle.leaf_board.specs.Statuses.{SameFrom, StaysSeat};
ghost use Rattle.stealing_pool.specs.Jobs.{Work, EndsLeaf, Combines};

use barriers::Need;
use leaf_board::Handout;
use leaf_reading::LeafEnd;
use spliterator::NoMemory;

/// The work of one run: what a thread does with a leaf, and how two results are combined.
///
/// No method starts a thread. The workers share the job by reference, so where threads start it is `Sync`, and what it keeps `Send`.
pub trait LeafJob {
    /// What is kept of a leaf, or of several that stand side by side.
    type Kept: Drop;

    // What the methods may rely on. By default nothing.
    ghost ready: { Self → Type 0 } = { λ _. ⊤ };

    ghost work: { Self → Work Self.Kept };

    /// The number of leaves.
    fn leaves(&self) -> usize
        requires { ready self.now }
        ensures { result ≡ (work self.now).leaves };

    /// How many counting items are needed.
    fn need(&self) -> Need
        requires { ready self.now }
        ensures is { need_of result ≡ (work self.now).needed }
        ensures fits { IsBelow (work self.now).needed (2 ^ 63) };

    /// Runs a leaf until it ends, until enough of it is kept, or until the board says that it was cut.
    fn run_leaf<B: Handout>(
        &self,
        board: &B,
        seat: &mut B::Seat,
        leaf: usize,
    ) -> Result<LeafEnd<Self::Kept>, NoMemory>
        requires ready { ready self.now }
        requires board { B.leaves board.now ≡ (work self.now).leaves }
        requires of { B.is_of board.now seat.old }
        requires within { leaf < (work self.now).leaves }
        ensures seat { StaysSeat (B.is_of board.now) B.number B.draws_left B.made_cut seat.old seat.new }
        ensures same { SameFrom (B.status seat.old) (B.status seat.new) }
        ensures end { IfOk result (EndsLeaf (work self.now) (B.cut seat.new) leaf) };

    /// Takes what is kept of the leaves that follow into what is kept of those before.
    fn combine(&self, left: &mut Self::Kept, right: Self::Kept) -> Result<(), NoMemory>
        requires { ready self.now }
        ensures { OnOk result (Combines (work self.now) left.old right left.new) };

    /// Whether a combination takes in what is kept sooner than a thread starts. No result depends on it.
    fn is_light(&self, _kept: &Self::Kept) -> bool {
        false
    }
}
