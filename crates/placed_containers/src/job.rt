//! A job over the parts of a list.
ghost use Rattle.std.specs.Prelude.{◌≡◌, ◌<◌, ◌≤◌, ℕ, List, All, Some, IfOk, IfErr, IsTrue, length, string_bytes};
ghost use Rattle.std.specs.List.{AllZip};
ghost use Rattle.collectors.specs.Laws.{IsContainerOf};
ghost use Rattle.wire_form.specs.Forms.{IsFormOf};
ghost use Rattle.placed_containers.specs.OneLine.{is_one_line};
ghost use Rattle.placed_containers.specs.Parts.{IsAt, IsForMore, IsOfJob, IsPart, IsPartLine, Joins, Told};
ghost use Rattle.placed_containers.specs.Ways.{IsLongestWay, IsWay, begin_of, end_of};
ghost use Rattle.placed_containers.specs.declared.error.PartsError.{PartsError};
ghost use Rattle.wire_form.specs.declared.error.WireError.{WireError};

use crate::line::{part_value, told_by};
use crate::pieces::{Part, join_parts};
use crate::ways::finish_whole;
use crate::{PartsError, Places};
use std::alloc::Global;
use wire_form::{FromWire, WireError, WireForm};

/// A job over the parts of a list: the name that each of its lines bears, and the collector that folds each part.
///
/// ```text
/// let job = Job { name: "words", collector: &counts };
/// let line = job.part_line(alloc, places, container)?;    // where a part is folded
/// let fewer = job.combine_parts(alloc, &lines)?;          // on the way, as often as you like
/// let result = job.finish_parts(alloc, &lines)?;          // at the end
/// ```
#[derive(Drop)]
pub struct Job<'a, C> {
    pub name: &'a str,
    pub collector: &'a C,
}

impl<'a, C: WireForm> Job<'a, C> {
    /// The line of a part, from its container. It has no line feed.
    ///
    /// `Misplaced` where the places aren't in order.
    pub fn part_line(
        &self,
        alloc: Global,
        places: Places,
        container: C::Acc,
    ) -> Result<String, PartsError>
        requires { C.levels self.now.collector.now ≤ 126 }
        ensures one_line { IfOk result (λ line. IsTrue (is_one_line (string_bytes line))) }
        ensures told { let c = self.now.collector.now in
            let made = IsContainerOf C.Item.is_value (C.content c) (C.empty c) (C.add c) in
            let tells = IsFormOf C.Item.is_value (C.content c) (C.empty c) (C.add c) (C.form c) in
            (between : ℕ → ℕ → List C.Item.Content) → made (between places.from places.to) container
            → IfOk result (λ line.
            IsPartLine tells self.now.name.now between places.of (string_bytes line)) }
        ensures places { let name = self.now.name.now in
            IfOk result (λ line. IsAt name places.from places.to places.of (string_bytes line)) }
        ensures known { places.from ≤ places.to → places.to ≤ places.of
            → IfErr result (λ e. e ≡ PartsError.NoMemory) }
    {
        if !places.are_in_order() {
            return Err(PartsError::Misplaced(places));
        }
        let container = self.collector.write(alloc, container)?;
        let value = part_value(alloc, self.name, places, container)?;
        Ok(value.to_string(alloc)?)
    }
}

// Why a line's last member is no container.
fn container_fault(error: WireError, line: usize) -> PartsError
    ensures { error ≡ WireError.NoMemory → result ≡ PartsError.NoMemory }
{
    match error {
        WireError::NoMemory => PartsError::NoMemory,
        WireError::OtherForm => PartsError::OtherContainer { line },
    }
}

// The part that a line tells of.
fn read_part<C: FromWire>(
    job: &Job<'_, C>,
    alloc: Global,
    line: usize,
    text: &str,
) -> Result<Part<C::Acc>, PartsError>
    requires { C.ready job.now.collector.now }
    ensures places { let name = job.now.name.now in
        IfOk result (λ part. IsAt name (begin_of part) (end_of part) part.places.of text.now) }
    ensures part { let c = job.now.collector.now in
        let made = IsContainerOf C.Item.is_value (C.content c) (C.empty c) (C.add c) in
        let tells = IsFormOf C.Item.is_value (C.content c) (C.empty c) (C.add c) (C.form c) in
        (between : ℕ → ℕ → List C.Item.Content) (n : ℕ)
        → IsPartLine tells job.now.name.now between n text.now
        → IfOk result (IsPart made between n) }
    ensures known { let c = job.now.collector.now in
        let tells = IsFormOf C.Item.is_value (C.content c) (C.empty c) (C.add c) (C.form c) in
        (between : ℕ → ℕ → List C.Item.Content) (n : ℕ)
        → IsPartLine tells job.now.name.now between n text.now
        → IfErr result (λ e. e ≡ PartsError.NoMemory) }
{
    let (places, container) = told_by(alloc, job.name, line, text)?;
    match job.collector.read(alloc, container) {
        Ok(container) => Ok(Part { places, container }),
        Err(error) => Err(container_fault(error, line)),
    }
}

// Whether a part is one of the whole of those before it.
fn is_of_whole<A>(parts: &[Part<A>], part: &Part<A>) -> bool
    ensures { (n : ℕ) → All (λ before. before.places.of ≡ n) parts.now → part.now.places.of ≡ n
        → IsTrue result }
{
    match parts.first() {
        Some(first) => first.places.of == part.places.of,
        None => true,
    }
}

// The parts that lines tell of.
fn read_parts<C: FromWire>(
    job: &Job<'_, C>,
    alloc: Global,
    lines: &[&str],
) -> Result<Vec<Part<C::Acc>>, PartsError>
    requires { C.ready job.now.collector.now }
    ensures own { let name = job.now.name.now in
        IfOk result (λ _. All (λ line. IsOfJob name line.now) lines.now) }
    ensures places { let name = job.now.name.now in
        IfOk result (λ parts. AllZip (λ part line.
        IsAt name (begin_of part) (end_of part) part.places.of line.now) parts.items lines.now) }
    ensures parts { let c = job.now.collector.now in
        let made = IsContainerOf C.Item.is_value (C.content c) (C.empty c) (C.add c) in
        let tells = IsFormOf C.Item.is_value (C.content c) (C.empty c) (C.add c) (C.form c) in
        (between : ℕ → ℕ → List C.Item.Content) (n : ℕ)
        → All (λ line. IsPartLine tells job.now.name.now between n line.now) lines.now
        → IfOk result (λ parts. All (IsPart made between n) parts.items) }
    ensures known { let c = job.now.collector.now in
        let tells = IsFormOf C.Item.is_value (C.content c) (C.empty c) (C.add c) (C.form c) in
        (between : ℕ → ℕ → List C.Item.Content) (n : ℕ)
        → All (λ line. IsPartLine tells job.now.name.now between n line.now) lines.now
        → IfErr result (λ e. e ≡ PartsError.NoMemory) }
{
    let mut parts = Vec::with_capacity(alloc, lines.len())?;
    for (at, text) in lines.iter().enumerate() {
        let line = at + 1;
        let part = read_part(job, alloc, line, text)?;
        if !is_of_whole(parts.as_slice(), &part) {
            let places = part.places;
            return Err(PartsError::OtherWhole { line, places });
        }
        parts.push(part)?;
    }
    Ok(parts)
}

// The lines of parts.
fn write_parts<C: WireForm>(
    job: &Job<'_, C>,
    alloc: Global,
    parts: Vec<Part<C::Acc>>,
) -> Result<Vec<String>, PartsError>
    requires { C.levels job.now.collector.now ≤ 126 }
    ensures one_line { IfOk result (λ lines.
        All (λ line. IsTrue (is_one_line (string_bytes line))) lines.items) }
    ensures places { let name = job.now.name.now in
        IfOk result (λ lines. AllZip (λ part line.
        IsAt name (begin_of part) (end_of part) part.places.of (string_bytes line))
        parts.items lines.items) }
    ensures lines { let c = job.now.collector.now in
        let name = job.now.name.now in
        let made = IsContainerOf C.Item.is_value (C.content c) (C.empty c) (C.add c) in
        let tells = IsFormOf C.Item.is_value (C.content c) (C.empty c) (C.add c) (C.form c) in
        (between : ℕ → ℕ → List C.Item.Content) (n : ℕ) → All (IsPart made between n) parts.items
        → IfOk result (λ lines.
        All (λ line. IsPartLine tells name between n (string_bytes line)) lines.items) }
    ensures known { let c = job.now.collector.now in
        let made = IsContainerOf C.Item.is_value (C.content c) (C.empty c) (C.add c) in
        (between : ℕ → ℕ → List C.Item.Content) (n : ℕ) → All (IsPart made between n) parts.items
        → IfErr result (λ e. e ≡ PartsError.NoMemory) }
{
    let mut lines = Vec::with_capacity(alloc, parts.len())?;
    for part in parts {
        lines.push(job.part_line(alloc, part.places, part.container)?)?;
    }
    Ok(lines)
}

impl<'a, C: FromWire> Job<'a, C> {
    /// The result on the whole list, from lines that tell of its parts, in any order.
    ///
    /// `Missing` where no lines lead from 0 to the whole's end, each from where another ends. Any other line than one of this job's
    /// parts is an error.
    pub fn finish_parts(&self, alloc: Global, lines: &[&str]) -> Result<C::Out, PartsError>
        requires { C.ready self.now.collector.now }
        ensures own { let name = self.now.name.now in
            IfOk result (λ _. All (λ line. IsOfJob name line.now) lines.now) }
        ensures result { let c = self.now.collector.now in
            let tells = IsFormOf C.Item.is_value (C.content c) (C.empty c) (C.add c) (C.form c) in
            (between : ℕ → ℕ → List C.Item.Content) (n : ℕ) → Joins between
            → All (λ line. IsPartLine tells self.now.name.now between n line.now) lines.now
            → IfOk result (C.gives c (between 0 n)) }
        ensures known { let c = self.now.collector.now in
            let tells = IsFormOf C.Item.is_value (C.content c) (C.empty c) (C.add c) (C.form c) in
            (between : ℕ → ℕ → List C.Item.Content) (n : ℕ)
            → All (λ line. IsPartLine tells self.now.name.now between n line.now) lines.now
            → IfErr result IsForMore }
        ensures complete { let c = self.now.collector.now in
            let name = self.now.name.now in
            let tells = IsFormOf C.Item.is_value (C.content c) (C.empty c) (C.add c) (C.form c) in
            (between : ℕ → ℕ → List C.Item.Content) (n : ℕ)
            → All (λ line. IsPartLine tells name between n line.now) lines.now
            → 0 < length lines.now → (stops : List ℕ)
            → IsWay (Told (λ line. line.now) name n lines.now) 0 stops n
            → IfErr result (λ e. e ≡ PartsError.NoMemory) }
    {
        let parts = read_parts(self, alloc, lines)?;
        finish_whole(alloc, self.collector, parts)
    }

    /// The lines of the parts, neighbours joined, from lines that tell of parts, in any order.
    ///
    /// A part that is told twice is told once. Two are joined where nothing else ends or begins. Any other line than one of this job's
    /// parts is an error.
    pub fn combine_parts(&self, alloc: Global, lines: &[&str]) -> Result<Vec<String>, PartsError>
        requires ready { C.ready self.now.collector.now }
        requires levels { C.levels self.now.collector.now ≤ 126 }
        ensures own { let name = self.now.name.now in
            IfOk result (λ _. All (λ line. IsOfJob name line.now) lines.now) }
        ensures one_line { IfOk result (λ joined.
            All (λ line. IsTrue (is_one_line (string_bytes line))) joined.items) }
        ensures joined { let c = self.now.collector.now in
            let name = self.now.name.now in
            let tells = IsFormOf C.Item.is_value (C.content c) (C.empty c) (C.add c) (C.form c) in
            (between : ℕ → ℕ → List C.Item.Content) (n : ℕ) → Joins between
            → All (λ line. IsPartLine tells name between n line.now) lines.now
            → IfOk result (λ joined.
            All (λ line. IsPartLine tells name between n (string_bytes line)) joined.items) }
        ensures known { let c = self.now.collector.now in
            let tells = IsFormOf C.Item.is_value (C.content c) (C.empty c) (C.add c) (C.form c) in
            (between : ℕ → ℕ → List C.Item.Content) (n : ℕ) → Joins between
            → All (λ line. IsPartLine tells self.now.name.now between n line.now) lines.now
            → IfErr result (λ e. e ≡ PartsError.NoMemory) }
        ensures longest { let c = self.now.collector.now in
            let name = self.now.name.now in
            let tells = IsFormOf C.Item.is_value (C.content c) (C.empty c) (C.add c) (C.form c) in
            (between : ℕ → ℕ → List C.Item.Content) (n : ℕ) → Joins between
            → All (λ line. IsPartLine tells name between n line.now) lines.now
            → (p q : ℕ) → IsLongestWay (Told (λ line. line.now) name n lines.now) p q
            → IfOk result (λ joined. IsLongestWay (Told string_bytes name n joined.items) p q) }
        ensures some { 0 < length lines.now → IfOk result (λ joined. 0 < length joined.items) }
    {
        let parts = read_parts(self, alloc, lines)?;
        let pieces = join_parts(alloc, self.collector, parts)?;
        write_parts(self, alloc, pieces)
    }
}
