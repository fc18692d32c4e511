//! Blocks of whole lines.
ghost use Rattle.std.specs.Prelude.{◌≡◌, ◌<◌, ◌≤◌, ◌+◌, ◌++◌, ℕ, List, Option, [], true, false, length, IfOk, IfErr, IfSome, IfNone, OnOk, string_bytes};
ghost use Rattle.std.specs.Str.{IsUtf8, IsValidUpTo};
ghost use Rattle.std.specs.Io.KnownBytes.{Keeps, IsAtEnd, prepend_known};
ghost use Rattle.sources.specs.Lines.{LacksLineFeed};
ghost use Rattle.line_blocks.specs.Blocks.{TakesBlock, EndsLine};
ghost use Rattle.line_blocks.specs.Faults.{StandsAt, IsFault, IsBadBlock, IsLongFront, IsNoFault};

use crate::LinesError;
use memchr::memrchr;
use std::alloc::{AllocError, Global};
use std::io::{ErrorKind, Read};

/// How many bytes are read at once.
const CHUNK: usize = 65_536;

/// Some whole lines of a reader, and whether they are its last.
#[derive(Drop)]
pub struct Block {
    pub text: String,
    pub is_last: bool,
}

/// Reads on until there are so many bytes, or no more come. Answers whether no more come.
fn fill<I: Read>(reader: &mut I, bytes: &mut Vec<u8>, size: usize) -> Result<bool, LinesError>
    ensures kept { let before = prepend_known bytes.old.items (I.remaining reader.old) in
        OnOk result (Keeps before (prepend_known bytes.new.items (I.remaining reader.new))) }
    ensures end { IfOk result (λ ended. ended ≡ true → IsAtEnd (I.remaining reader.new)) }
    ensures full { IfOk result (λ ended. ended ≡ false → size ≤ length bytes.new.items) }
    ensures errors { IfErr result IsNoFault }
{
    let mut buffer = [0; CHUNK];
    for _ in 0..u64::MAX {
        if size <= bytes.len() {
            return Ok(false);
        }
        let room = CHUNK.min(size - bytes.len());
        match reader.read(&mut buffer[..room]) {
            Ok(0) => return Ok(true),
            Ok(count) => bytes.extend_from_slice(&buffer[..count])?,
            Err(error) if error.kind() == ErrorKind::Interrupted => {}
            Err(error) => return Err(LinesError::Read(error)),
        }
    }
    Err(LinesError::TooLong)
}

/// Takes off what stands behind the last line feed. There is none where one line is all.
fn split_lines(bytes: &mut Vec<u8>) -> Result<Option<Vec<u8>>, LinesError>
    ensures cut { IfOk result (λ behind. IfSome behind (λ rest. bytes.old.items ≡ bytes.new.items ++ rest.items)) }
    ensures ends { IfOk result (λ behind. IfSome behind (λ _. EndsLine bytes.new.items)) }
    ensures one { IfOk result (λ behind. IfNone behind (bytes.new.items ≡ bytes.old.items)) }
    ensures unbroken { IfOk result (λ behind. IfNone behind (LacksLineFeed bytes.old.items 0 (length bytes.old.items))) }
    ensures errors { IfErr result IsNoFault }
{
    let Some(last) = memrchr(b'\n', bytes.as_slice()) else {
        return Ok(None);
    };
    Ok(Some(bytes.split_off(last + 1)?))
}

/// A reader, whose lines are taken in blocks.
#[derive(Drop)]
pub struct LineBlocks<I> {
    reader: I,
    // what was read behind the last line feed of the blocks so far
    rest: Vec<u8>,
    // where it stands
    place: u64,
    size: usize,
    longest: usize,
    ghost sized: { 0 < size },
}

impl<I: Read> LineBlocks<I> {
    /// Blocks of `size` bytes, at least one; a block that has no line's end grows up to `longest`. So a line has to be shorter than the greater of
    /// both.
    pub fn new(alloc: Global, reader: I, size: usize, longest: usize) -> LineBlocks<I>
        requires { 0 < size }
        ensures reader { result.reader ≡ reader }
        ensures rest { result.rest.items ≡ [] }
        ensures place { result.place ≡ 0 }
        ensures size { result.size ≡ size }
        ensures longest { result.longest ≡ longest }
    {
        LineBlocks {
            reader,
            rest: Vec::new(alloc),
            place: 0,
            size,
            longest,
        }
    }

    /// Memory for a block. Where the thread that takes it also gives the blocks back, it serves for one after another.
    pub fn room(&self, alloc: Global) -> Result<Vec<u8>, AllocError>
        ensures empty { IfOk result (λ room. room.items ≡ []) }
    {
        Vec::with_capacity(alloc, self.size)
    }

    /// The bytes of the next block.
    fn next_bytes(&mut self, room: Vec<u8>) -> Result<(Vec<u8>, bool), LinesError>
        ensures block { let before = prepend_known self.old.rest.items (I.remaining self.old.reader) in
            let after = prepend_known self.new.rest.items (I.remaining self.new.reader) in
            IfOk result (λ b. TakesBlock before b.0.items after) }
        ensures last { let after = prepend_known self.new.rest.items (I.remaining self.new.reader) in
            IfOk result (λ b. b.1 ≡ true → IsAtEnd after) }
        ensures place { self.new.place ≡ self.old.place }
        ensures longest { self.new.longest ≡ self.old.longest }
        ensures errors { let before = prepend_known self.old.rest.items (I.remaining self.old.reader) in
            IfErr result (IsLongFront self.old.longest before self.old.place) }
    {
        let mut bytes = room;
        bytes.clear();
        bytes.append(&mut self.rest)?;
        let mut size = self.size;
        for _ in 0..u64::MAX {
            if fill(&mut self.reader, &mut bytes, size)? {
                return Ok((bytes, true));
            }
            if let Some(rest) = split_lines(&mut bytes)? {
                self.rest = rest;
                return Ok((bytes, false));
            }
            if size >= self.longest {
                return Err(LinesError::LongLine(self.place));
            }
            size = size.saturating_mul(2).min(self.longest);
        }
        Err(LinesError::TooLong)
    }

    /// The next block: all whole lines of so many bytes, a longer line, or what is left. It takes the room, and none of what is in it.
    pub fn next_block(&mut self, room: Vec<u8>) -> Result<Block, LinesError>
        ensures block { let before = prepend_known self.old.rest.items (I.remaining self.old.reader) in
            let after = prepend_known self.new.rest.items (I.remaining self.new.reader) in
            IfOk result (λ b. TakesBlock before (string_bytes b.text) after) }
        ensures last { let after = prepend_known self.new.rest.items (I.remaining self.new.reader) in
            IfOk result (λ b. b.is_last ≡ true → IsAtEnd after) }
        ensures longest { self.new.longest ≡ self.old.longest }
        ensures stands { let before = prepend_known self.old.rest.items (I.remaining self.old.reader) in
            let after = prepend_known self.new.rest.items (I.remaining self.new.reader) in
            (all : Option (List ℕ)) → StandsAt all before self.old.place → OnOk result (StandsAt all after self.new.place) }
        ensures faults { let before = prepend_known self.old.rest.items (I.remaining self.old.reader) in
            (all : Option (List ℕ)) → StandsAt all before self.old.place → IfErr result (IsFault self.old.longest all) }
    {
        let (bytes, is_last) = self.next_bytes(room)?;
        let place = self.place;
        self.place = place_behind(place, bytes.len())?;
        let text = text_of(bytes, place)?;
        Ok(Block { text, is_last })
    }
}

/// The place behind so many bytes.
fn place_behind(place: u64, count: usize) -> Result<u64, LinesError>
    ensures place { IfOk result (λ behind. behind ≡ place + count) }
    ensures errors { IfErr result IsNoFault }
{
    match place.checked_add(count as u64) {
        Some(behind) => Ok(behind),
        None => Err(LinesError::TooLong),
    }
}

/// Where bytes stop being text.
fn valid_length(bytes: &[u8]) -> usize
    requires { ¬ (IsUtf8 bytes.now) }
    ensures { IsValidUpTo bytes.now result }
{
    match str::from_utf8(bytes) {
        Ok(text) => text.len(),
        Err(error) => error.valid_up_to(),
    }
}

/// A block as text.
fn text_of(bytes: Vec<u8>, place: u64) -> Result<String, LinesError>
    ensures text { IfOk result (λ text. string_bytes text ≡ bytes.items) }
    ensures errors { IfErr result (IsBadBlock bytes.items place) }
{
    match String::from_utf8(bytes) {
        Ok(text) => Ok(text),
        Err(error) => {
            let within = valid_length(error.as_bytes());
            Err(LinesError::NotUtf8(place_behind(place, within)?))
        }
    }
}
