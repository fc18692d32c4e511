//! A row of leaves for each run, as text.
ghost use Rattle.std.specs.Prelude.{◌≡◌, ◌≤◌, ◌<◌, Some};
ghost use Rattle.std.specs.Fmt.{DisplaysOnOk};
ghost use Rattle.leaf_board.specs.Closing.{cut_of};
ghost use Rattle.gates.specs.Pictures.{bar, leaves_word, line, lines, mark, row, size_told};

use std::fmt::{self, Display, Formatter, Write};
use stealing_pool::{RunEntry, RunReport};

/// The most characters of a row of leaves.
const MOST: usize = 64;

/// A report as a picture, a line a run: `#` for a leaf that was counted, `.` for one that was skipped, and `|` behind the leaf at which the run was
/// cut. Where there are more than 64 leaves a character is several, as the line says, and `+` those of which some were counted.
///
/// ```text
/// let (found, report) = numbers.limit(5).collect_reported(&rt, alloc, &run, &ToList::new(alloc))?;
/// print!(rt; "{}", Picture(&report))?;    // run 1, 16 leaves: ##|#............
/// ```
#[derive(Clone, Copy)]
pub struct Picture<'a>(pub &'a RunReport);

impl Display for Picture<'_> {
    ghost output = { λ p. Some (lines 1 p.0.now) };

    fn fmt<W: Write>(&self, f: &mut Formatter<W>) -> fmt::Result {
        let entries = self.0.entries();
        for place in 0..entries.len() {
            write_line(f, place + 1, &entries[place])?;
        }
        Ok(())
    }
}

/// Writes the line of a run.
fn write_line<W: Write>(f: &mut Formatter<W>, number: usize, entry: &RunEntry) -> fmt::Result
    ensures { DisplaysOnOk W.write_str_gives f.old result (Some (line number entry.now)) f.new }
{
    let leaves = entry.leaves();
    let size = leaves.div_ceil(MOST).max(1);
    write!(f, "run {number}, {leaves}")?;
    f.write_str(word_of(leaves))?;
    write_size(f, size)?;
    f.write_str(": ")?;
    write_marks(f, entry, size)?;
    f.write_str("\n")
}

fn word_of(leaves: usize) -> &'static str
    ensures { result.now ≡ leaves_word leaves }
{
    if leaves == 1 { " leaf" } else { " leaves" }
}

/// Writes how many leaves a character stands for, where it isn't one.
fn write_size<W: Write>(f: &mut Formatter<W>, size: usize) -> fmt::Result
    ensures { DisplaysOnOk W.write_str_gives f.old result (Some (size_told size)) f.new }
{
    if size > 1 {
        write!(f, " by {size}")?;
    }
    Ok(())
}

/// Writes the leaves of a run, a character so many.
fn write_marks<W: Write>(f: &mut Formatter<W>, entry: &RunEntry, size: usize) -> fmt::Result
    requires { 0 < size }
    ensures { DisplaysOnOk W.write_str_gives f.old result (Some (row entry.now size)) f.new }
{
    let leaves = entry.leaves();
    let mut begin = 0;
    while begin < leaves {
        let end = begin.saturating_add(size).min(leaves);
        f.write_str(mark_of(entry, begin, end))?;
        f.write_str(bar_of(entry, begin, end))?;
        begin = end;
    }
    Ok(())
}

/// The character of the leaves from one up to another.
fn mark_of(entry: &RunEntry, begin: usize, end: usize) -> &'static str
    requires { (begin ≤ end) × (end ≤ entry.now.leaves) }
    ensures { result.now ≡ mark entry.now begin end }
{
    let mut all = true;
    let mut none = true;
    for leaf in begin..end {
        let is_counted = entry.count(leaf).is_some();
        all &= is_counted;
        none &= !is_counted;
    }
    match (all, none) {
        (true, _) => "#",
        (false, true) => ".",
        (false, false) => "+",
    }
}

/// What stands behind these leaves: a bar, where the run was cut at one of them.
fn bar_of(entry: &RunEntry, begin: usize, end: usize) -> &'static str
    ensures { result.now ≡ bar (cut_of entry.now) begin end }
{
    match entry.cut() {
        Some(cut) if begin <= cut && cut < end => "|",
        _ => "",
    }
}
