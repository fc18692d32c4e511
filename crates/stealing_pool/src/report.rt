//! What a run of leaves tells of its leaves.
ghost use Rattle.std.specs.Prelude.{◌≡◌, ◌<◌, ◌↔◌, IsTrue, None};
ghost use Rattle.leaf_board.specs.Closing.{cut_of, count_of};

use leaf_board::Record;
use std::marker::Model;

/// The leaves of one run: which were counted and which were skipped.
#[derive(Drop)]
pub struct RunEntry {
    closed: Record,
}

impl Model for RunEntry {
    ghost use Rattle.leaf_board.specs.Closing.{Outcome};

    ghost Value = { Outcome };

    ghost view = { λ e. e.closed };
}

impl RunEntry {
    pub(crate) fn of(closed: Record) -> RunEntry
        ensures { result ≡ closed }
    {
        RunEntry { closed }
    }

    /// How many leaves there were to run.
    pub fn leaves(&self) -> usize
        ensures { result ≡ self.now.leaves }
    {
        self.closed.leaves()
    }

    /// The leaf up to which the leaves were found to be enough, if one was found. The leaves right of it don't matter.
    pub fn cut(&self) -> Option<usize>
        ensures { result ≡ cut_of self.now }
    {
        self.closed.cut()
    }

    /// The number of counting items that were kept of the leaf, or nothing where it was skipped.
    pub fn count(&self, leaf: usize) -> Option<u64>
        requires { leaf < self.now.leaves }
        ensures { result ≡ count_of self.now leaf }
    {
        self.closed.count(leaf)
    }

    /// Whether the leaf was skipped: it has no count.
    pub fn was_skipped(&self, leaf: usize) -> bool
        requires { leaf < self.now.leaves }
        ensures { IsTrue result ↔ (count_of self.now leaf ≡ None) }
    {
        self.count(leaf).is_none()
    }
}

/// The entries of a terminal operation's runs of leaves, the source's first.
#[derive(Drop)]
pub struct RunReport {
    entries: Vec<RunEntry>,
}

impl Model for RunReport {
    ghost use Rattle.std.specs.Prelude.{List};
    ghost use Rattle.leaf_board.specs.Closing.{Outcome};

    ghost Value = { List Outcome };

    ghost view = { λ r. r.entries.items };
}

impl RunReport {
    pub fn of(entries: Vec<RunEntry>) -> RunReport
        ensures { result ≡ entries.items }
    {
        RunReport { entries }
    }

    /// One entry a run of leaves.
    pub fn entries(&self) -> &[RunEntry]
        ensures { result.now ≡ self.now }
    {
        self.entries.as_slice()
    }
}
