//! The lines that begin between two places.
ghost use Rattle.std.specs.Prelude.{◌≡◌, ◌≤◌, ◌+◌, ℕ, List, Option, None, Some, drop, length, IfOk, IfSome};
ghost use Rattle.std.specs.Io.BufRead.{take_through};
ghost use Rattle.std.specs.Io.Take.{take_remaining};
ghost use Rattle.file_parts.specs.Between.{IsLineBegin, bytes_between};

use placed_containers::Places;
use std::alloc::Global;
use std::fs;
use std::io::{self, BufRead, BufReader, Error, ErrorKind, Read, Seek, SeekFrom, Take};
use std::rt::Files;

/// Bytes that are read from any place on.
pub trait PlacedBytes {
    type Reader: Read + Drop;

    // all the bytes, where they are known
    ghost bytes: { Self → Option (List ℕ) } = { λ _. None };

    /// A reader of what stands from a place on.
    fn read_from(&self, place: u64) -> io::Result<Self::Reader>
        ensures { IfOk result (λ reader. IfSome (bytes self.now)
            (λ all. Self.Reader.remaining reader ≡ Some (drop place all))) };
}

impl<'a> PlacedBytes for &'a [u8] {
    type Reader = &'a [u8];

    ghost bytes = { λ text. Some text.now };

    fn read_from(&self, place: u64) -> io::Result<&'a [u8]> {
        let behind = usize::try_from(place).unwrap_or(usize::MAX).min(self.len());
        Ok(&self[behind..])
    }
}

/// The bytes of a file, which is opened anew for each reader. Nothing is known of them.
#[derive(Clone, Copy)]
pub struct FileBytes<'a, R> {
    pub files: &'a R,
    pub name: &'a str,
}

impl<'a, R: Files> PlacedBytes for FileBytes<'a, R> {
    type Reader = R::File;

    fn read_from(&self, place: u64) -> io::Result<R::File> {
        let mut file = fs::open(self.files, self.name)?;
        file.seek(SeekFrom::Start(place))?;
        Ok(file)
    }
}

// How long the first line is that a reader has left, with its line feed.
fn line_length<I: Read + Drop>(alloc: Global, reader: I) -> io::Result<u64>
    ensures { IfOk result (λ count. IfSome (I.remaining reader)
        (λ all. count ≡ length (take_through 10 all))) }
{
    match BufReader::new(alloc, reader)?.skip_until(b'\n')? {
        usize::MAX => Err(Error::from(ErrorKind::FileTooLarge)),
        count => Ok(count as u64),
    }
}

/// Where the first line begins that begins at a place or behind it; the end, or a place behind it, where none does.
pub fn line_begin<P: PlacedBytes>(alloc: Global, bytes: &P, place: u64) -> io::Result<u64>
    ensures { IfOk result (λ found. IfSome (P.bytes bytes.now)
        (λ all. IsLineBegin place all found)) }
{
    let Some(before) = place.checked_sub(1) else {
        return Ok(0);
    };
    let count = line_length(alloc, bytes.read_from(before)?)?;
    match before.checked_add(count) {
        Some(found) => Ok(found),
        None => Err(Error::from(ErrorKind::FileTooLarge)),
    }
}

/// A reader of the lines that begin between two places: at the first or behind it, and before the second. So parts have each line
/// once, wherever their places are.
///
/// ```text
/// let part = lines_between(alloc, &FileBytes { files: rt, name }, places)?;
/// let container = lines_of(part).map_lines(Words).collect_on(&engine, &Unfinished { collector: &counts })?;
/// let line = job.part_line(alloc, places, container)?;
/// ```
pub fn lines_between<P: PlacedBytes>(
    alloc: Global,
    bytes: &P,
    places: Places,
) -> io::Result<Take<P::Reader>>
    ensures { places.from ≤ places.to → IfOk result (λ part. IfSome (P.bytes bytes.now)
        (λ all. take_remaining P.Reader.remaining part
        ≡ Some (bytes_between places.from places.to all))) }
{
    let from = line_begin(alloc, bytes, places.from)?;
    let to = line_begin(alloc, bytes, places.to)?;
    Ok(bytes.read_from(from)?.take(to.saturating_sub(from)))
}
