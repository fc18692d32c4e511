//! Lines of a reader, lazily.
ghost use Rattle.std.specs.Prelude.{◌≡◌, ◌<◌};
ghost use Rattle.line_readers.specs.Values.{line_values};

use crate::{Flatten, LineFunction, LineParts, LineSteps, LineStream, NoBarrier};
use spliterator::OrderedValue;
use stages::{Filter, FlatMap, ListValue, Map, Mapping, Nothing, Stage, Test, Then};
use std::io::Read;

/// How many bytes a block has, where nothing else is said.
pub const BLOCK: usize = 2_097_152;

/// The length in bytes that every line has to fall short of, where nothing else is said.
pub const LONGEST: usize = 8_388_608;

/// The lines of a reader, in blocks of text.
#[derive(Drop)]
pub struct LinesOf<I> {
    reader: I,
    size: usize,
    longest: usize,
    ghost sized: { 0 < size },
}

/// The lines that a reader has left. Nothing is read before a terminal operation.
///
/// ```text
/// let numbers = lines_of(File::open(&rt, "numbers")?).map_lines(Number).filter(such(..));
/// ```
// java.nio.file.Files, lines
pub fn lines_of<I: Read>(reader: I) -> LinesOf<I>
    ensures reader { result.reader ≡ reader }
    ensures size { result.size ≡ BLOCK }
    ensures longest { result.longest ≡ LONGEST }
{
    LinesOf {
        reader,
        size: BLOCK,
        longest: LONGEST,
    }
}

impl<I: Read> LinesOf<I> {
    /// Blocks of so many bytes, at least one. A line has to be shorter than a block.
    pub fn in_blocks_of(self, size: usize) -> LinesOf<I>
        requires { 0 < size }
        ensures reader { result.reader ≡ self.reader }
        ensures size { result.size ≡ size }
        ensures longest { result.longest ≡ size }
    {
        LinesOf {
            reader: self.reader,
            size,
            longest: size,
        }
    }

    /// Lines of fewer bytes than this may be longer than a block, which then grows.
    ///
    /// ```text
    /// lines_of(file).with_lines_below(67_108_864)    // a text of JSON, an object a line
    /// ```
    pub fn with_lines_below(self, longest: usize) -> LinesOf<I>
        ensures reader { result.reader ≡ self.reader }
        ensures size { result.size ≡ self.size }
        ensures longest { result.longest ≡ longest }
    {
        LinesOf {
            reader: self.reader,
            size: self.size,
            longest,
        }
    }

    /// What a function makes of each line.
    pub fn map_lines<F: LineFunction>(self, function: F) -> ReadLines<I, F, Nothing<F::Out>>
        ensures reader { result.reader ≡ self.reader }
        ensures size { result.size ≡ self.size }
        ensures longest { result.longest ≡ self.longest }
        ensures function { result.function ≡ function }
    {
        ReadLines {
            reader: self.reader,
            size: self.size,
            longest: self.longest,
            function,
            stage: Nothing::new(),
        }
    }

    /// The members of the lists that a function makes of the lines, one line after another. No member is cloned.
    ///
    /// ```text
    /// let pieces = lines_of(File::open(&rt, "text")?).flat_map_lines(Pieces::new(rt.alloc(), ' '));
    /// let words = pieces.filter(Composed(Length, Above(0))).count_on(&engine)?;
    /// ```
    pub fn flat_map_lines<F: LineFunction>(self, function: F) -> ReadLines<I, F, Flatten<F::Out>>
    where
        F::Out: ListValue,
        ensures reader { result.reader ≡ self.reader }
        ensures size { result.size ≡ self.size }
        ensures longest { result.longest ≡ self.longest }
        ensures function { result.function ≡ function }
    {
        ReadLines {
            reader: self.reader,
            size: self.size,
            longest: self.longest,
            function,
            stage: Flatten::new(),
        }
    }
}

/// What becomes of the lines of a reader.
#[derive(Drop)]
pub struct ReadLines<I, F, A> {
    pub reader: I,
    pub size: usize,
    pub longest: usize,
    pub function: F,
    pub stage: A,
    ghost sized: { 0 < size },
}

impl<I: Read, F: LineFunction, A: Stage<In = F::Out>> ReadLines<I, F, A> {
    /// The items through one stage more.
    pub fn then<B: Stage<In = A::Out>>(self, stage: B) -> ReadLines<I, F, Then<A, B>>
        ensures reader { result.reader ≡ self.reader }
        ensures size { result.size ≡ self.size }
        ensures longest { result.longest ≡ self.longest }
        ensures function { result.function ≡ self.function }
        ensures first { result.stage.first ≡ self.stage }
        ensures second { result.stage.second ≡ stage }
    {
        ReadLines {
            reader: self.reader,
            size: self.size,
            longest: self.longest,
            function: self.function,
            stage: Then::new(self.stage, stage),
        }
    }

    /// One image an item.
    // java.util.stream.Stream, map
    pub fn map<M: Mapping<A::Out>>(self, mapping: M) -> ReadLines<I, F, Then<A, Map<A::Out, M>>>
    where
        M::Out: OrderedValue + Drop,
        ensures reader { result.reader ≡ self.reader }
        ensures size { result.size ≡ self.size }
        ensures longest { result.longest ≡ self.longest }
        ensures function { result.function ≡ self.function }
        ensures first { result.stage.first ≡ self.stage }
        ensures mapping { result.stage.second.mapping ≡ mapping }
    {
        self.then(Map::new(mapping))
    }

    /// The items that meet a test.
    // java.util.stream.Stream, filter
    pub fn filter<P: Test<A::Out>>(self, test: P) -> ReadLines<I, F, Then<A, Filter<A::Out, P>>>
        ensures reader { result.reader ≡ self.reader }
        ensures size { result.size ≡ self.size }
        ensures longest { result.longest ≡ self.longest }
        ensures function { result.function ≡ self.function }
        ensures first { result.stage.first ≡ self.stage }
        ensures test { result.stage.second.test ≡ test }
    {
        self.then(Filter::new(test))
    }

    /// In the place of each item, the items of the list that the mapping makes of it.
    // java.util.stream.Stream, flatMap
    pub fn flat_map<M: Mapping<A::Out>>(
        self,
        mapping: M,
    ) -> ReadLines<I, F, Then<A, FlatMap<A::Out, M>>>
    where
        M::Out: ListValue,
        ensures reader { result.reader ≡ self.reader }
        ensures size { result.size ≡ self.size }
        ensures longest { result.longest ≡ self.longest }
        ensures function { result.function ≡ self.function }
        ensures first { result.stage.first ≡ self.stage }
        ensures mapping { result.stage.second.mapping ≡ mapping }
    {
        self.then(FlatMap::new(mapping))
    }
}

impl<
    I: Read + Send + Drop,
    F: LineFunction + Sync + Drop,
    A: Stage<In = F::Out> + Sync + Drop,
> LineStream for ReadLines<I, F, A>
where
    A::Out: Clone + Send + Sync,
{
    type Item = A::Out;

    type Reader = I;

    type Function = F;

    type Lead = A::Out;

    type First = A;

    type Barriers = NoBarrier<A::Out>;

    type Last = Nothing<A::Out>;

    ghost ready = { λ s. F.ready s.function × A.ready s.stage };

    ghost known = { λ s. I.remaining s.reader };

    ghost longest = { λ s. s.longest };

    ghost value = { λ s. line_values (F.image s.function) (A.expand s.stage) };

    fn into_lines(self) -> LineParts<I, F, A, NoBarrier<A::Out>, Nothing<A::Out>, Nothing<A::Out>> {
        LineParts {
            reader: self.reader,
            size: self.size,
            longest: self.longest,
            steps: LineSteps {
                function: self.function,
                first: self.stage,
                barriers: NoBarrier::new(),
                between: Nothing::new(),
                last: Nothing::new(),
            },
        }
    }
}
