//! Texts in segments.
ghost use Rattle.std.specs.Prelude.{◌≡◌, ◌++◌, ℕ, List, IfOk, OnOk, flat_map, string_bytes};

use crate::Written;
use crate::written::write_behind;
use spliterator::NoMemory;
use std::alloc::{AllocError, Global};
use std::marker::Model;
use std::mem;

/// The most bytes of a text that is copied.
const SHORT: usize = 4096;

/// A text in segments. What follows it is put behind it as it stands, so that a long text is written once and never moved.
#[derive(Drop)]
pub struct Rope {
    // those before the last
    before: Vec<String>,
    last: String,
}

impl Model for Rope {
    ghost Value = { List ℕ };

    ghost view = { λ r. flat_map string_bytes r.before.items ++ string_bytes r.last };
}

impl Rope {
    /// A text as one segment.
    pub fn of(alloc: Global, text: String) -> Rope
        ensures { result ≡ string_bytes text }
    {
        Rope {
            before: Vec::new(alloc),
            last: text,
        }
    }

    /// Writes a text behind the last segment.
    pub fn push_str(&mut self, text: &str) -> Result<(), AllocError>
        ensures { OnOk result (self.new ≡ self.old ++ text.now) }
    {
        self.last.push_str(text)
    }

    /// Writes a value behind the last segment and a text that stands between them.
    pub fn write_behind<V: Written>(&mut self, between: &str, value: &V) -> Result<(), NoMemory>
        ensures { OnOk result (self.new ≡ self.old ++ between.now ++ V.text value.now) }
    {
        write_behind(between, value, &mut self.last)
    }

    /// Puts another text behind this one. A short one is copied, so that many of these make no segment each.
    pub fn append(&mut self, later: Rope) -> Result<(), AllocError>
        ensures { OnOk result (self.new ≡ self.old ++ later) }
    {
        let Rope { mut before, last } = later;
        if before.is_empty() && last.len() <= SHORT {
            return self.last.push_str(&last);
        }
        self.before.push(mem::replace(&mut self.last, last))?;
        self.before.append(&mut before)
    }

    /// Writes the whole text behind what `out` holds.
    pub fn copy_to(&self, out: &mut String) -> Result<(), AllocError>
        ensures { OnOk result (string_bytes out.new ≡ string_bytes out.old ++ self.now) }
    {
        for segment in &self.before {
            out.push_str(segment)?;
        }
        out.push_str(&self.last)
    }

    /// The segments, in order.
    pub fn into_segments(self) -> Result<Vec<String>, AllocError>
        ensures { IfOk result (λ segments. flat_map string_bytes segments.items ≡ self) }
    {
        let Rope { mut before, last } = self;
        before.push(last)?;
        Ok(before)
    }
}
