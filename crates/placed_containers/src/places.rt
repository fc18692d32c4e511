//! Places in a list.
ghost use Rattle.std.specs.Prelude.{◌≡◌, ◌≤◌, ◌↔◌, IsTrue};

use std::fmt::{Display, Formatter, Result, Write};

/// A part's places: from one to another, of a whole with so many.
///
/// What a place is, the source says: an item's number, or a byte's at the begin of a line.
#[derive(Clone, Copy, Debug, PartialEq, Eq, Drop)]
pub struct Places {
    pub from: u64,
    pub to: u64,
    pub of: u64,
}

impl Places {
    /// Whether a part can have them.
    pub fn are_in_order(&self) -> bool
        ensures { IsTrue result ↔ ((self.now.from ≤ self.now.to) × (self.now.to ≤ self.now.of)) }
    {
        self.from <= self.to && self.to <= self.of
    }
}

impl Display for Places {
    fn fmt<W: Write>(&self, f: &mut Formatter<W>) -> Result {
        write!(f, "{} to {} of {}", self.from, self.to, self.of)
    }
}

/// The places that no part has.
#[derive(Debug, Drop)]
pub struct Gaps {
    pub gaps: Vec<Places>,
}

impl Display for Gaps {
    fn fmt<W: Write>(&self, f: &mut Formatter<W>) -> Result {
        for (at, gap) in self.gaps.iter().enumerate() {
            if at > 0 {
                write!(f, ", ")?;
            }
            write!(f, "{gap}")?;
        }
        Ok(())
    }
}
