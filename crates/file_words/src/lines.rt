//! Lines of a file and words of a line.

ghost use Rattle.std.specs.Prelude.{◌≡◌, ◌<◌, ◌≤◌, ◌+◌, ◌∷◌, ℕ, List, length, All, IfSome, IsSome, IsUtf8};
ghost use Rattle.memchr.specs.Find.{IsFirstByte, is_byte};
ghost use Rattle.file_words.specs.Pieces.{CutsLine, IsTextOf, TakesLine, piece_bytes};
ghost use Rattle.file_words.specs.Words.{lines_of, words_left, words_of};

use crate::fault::FileError;
use memchr::memchr;
use simdutf8::basic;
use std::marker::Model;
use std::simd::prelude::*;
use std::str;

/// Some bytes of a file, as text where the whole file is text.
#[derive(Clone, Copy)]
pub enum Piece<'a> {
    Text(&'a str),
    Bytes(&'a [u8]),
}

impl<'a> Piece<'a> {
    /// A whole file. Its test for UTF-8 takes a tenth of the time that tests of its lines would; where it isn't text, they are tested.
    fn of(file: &'a [u8]) -> Piece<'a>
        ensures { piece_bytes result ≡ file.now }
    {
        match basic::from_utf8(file) {
            Ok(text) => Piece::Text(text),
            Err(_) => Piece::Bytes(file),
        }
    }

    /// The piece as text.
    pub fn text(self) -> Result<&'a str, FileError>
        ensures { IsTextOf (piece_bytes self.entry) result }
    {
        match self {
            Piece::Text(text) => known_text(text),
            Piece::Bytes(bytes) => text_of(bytes),
        }
    }
}

/// What is text already isn't tested again.
fn known_text(text: &str) -> Result<&str, FileError>
    ensures { IsTextOf text.now result }
{
    Ok(text)
}

/// Bytes as text, where they are UTF-8.
fn text_of(bytes: &[u8]) -> Result<&str, FileError>
    ensures { IsTextOf bytes.now result }
{
    match str::from_utf8(bytes) {
        Ok(text) => Ok(text),
        Err(_) => Err(FileError::BadText),
    }
}

/// The lines that are left of a file: the pieces between its line ends, and the last one only where it isn't empty.
#[derive(Drop)]
pub struct Lines<'a> {
    rest: Piece<'a>,
}

impl<'a> Model for Lines<'a> {
    ghost Value = { List (List ℕ) };

    ghost view = { λ lines. lines_of (piece_bytes lines.rest) };
}

impl<'a> Lines<'a> {
    /// All the lines of a file.
    #[tactic(auto, using(crate::proofs::LineLemmas::line_count))]
    pub fn new(file: &'a [u8]) -> Lines<'a>
        ensures lines { result ≡ lines_of file.now }
        ensures count { length result ≤ length file.now + 1 }
    {
        Lines {
            rest: Piece::of(file),
        }
    }

    /// The lines of a text.
    pub fn of_text(text: &'a str) -> Lines<'a>
        ensures { result ≡ lines_of text.now }
    {
        Lines {
            rest: Piece::Text(text),
        }
    }

    /// What is left, where it is text.
    pub fn text(&self) -> Option<&'a str>
        ensures lines { IfSome result (λ text. lines_of text.now ≡ self.now) }
        ensures given { All IsUtf8 self.now → IsSome result }
    {
        self.rest.text().ok()
    }

    /// The next line, which is taken away.
    pub fn next(&mut self) -> Option<Piece<'a>>
        ensures { TakesLine self.old result self.new }
    {
        match self.rest {
            Piece::Text(text) => {
                let (line, rest) = first_of_text(text)?;
                self.rest = Piece::Text(rest);
                Some(Piece::Text(line))
            }
            Piece::Bytes(bytes) => {
                let (line, rest) = first_of_bytes(bytes)?;
                self.rest = Piece::Bytes(rest);
                Some(Piece::Bytes(line))
            }
        }
    }
}

/// How many bytes are compared at once.
const LANES: usize = 32;

/// Where a byte stands first. Most lines and words are shorter than the bytes that are compared here, which saves a call.
#[inline(always)]
fn first_near(byte: u8, bytes: &[u8]) -> Option<usize>
    ensures { IsFirstByte (is_byte byte) bytes.now result }
{
    if bytes.len() >= LANES {
        let marks = u8x32::from_slice(bytes)
            .simd_eq(u8x32::splat(byte))
            .to_bitmask();
        if marks != 0 {
            return Some(marks.trailing_zeros() as usize);
        }
    }
    memchr(byte, bytes)
}

/// The first line of a text, and what stands behind its end.
pub fn first_of_text(text: &str) -> Option<(&str, &str)>
    ensures text { IfSome result (λ p. IsUtf8 p.0.now × IsUtf8 p.1.now) }
    ensures line { CutsLine text.now result }
{
    if text.is_empty() {
        return None;
    }
    match first_near(b'\n', text.as_bytes()) {
        Some(end) => {
            let (line, behind) = text.split_at(end);
            Some((line, &behind[1..]))
        }
        None => Some((text, "")),
    }
}

/// The same of bytes.
fn first_of_bytes(bytes: &[u8]) -> Option<(&[u8], &[u8])>
    ensures { CutsLine bytes.now result }
{
    if bytes.is_empty() {
        return None;
    }
    match memchr(b'\n', bytes) {
        Some(end) => {
            let (line, behind) = bytes.split_at(end);
            Some((line, &behind[1..]))
        }
        None => Some((bytes, &[])),
    }
}

/// The first word of a line, and what stands behind the space that ends it, where one does.
pub fn first_word(line: &str) -> (&str, Option<&str>)
    ensures text { IsUtf8 result.0.now × IfSome result.1 (λ left. IsUtf8 left.now) }
    ensures word { words_of line.now ≡ result.0.now ∷ words_left result.1 }
    ensures shorter { IfSome result.1 (λ left. length left.now < length line.now) }
{
    match first_near(b' ', line.as_bytes()) {
        Some(end) => {
            let (word, behind) = line.split_at(end);
            (word, Some(&behind[1..]))
        }
        None => (line, None),
    }
}

/// The same of bytes.
pub(crate) fn first_word_bytes(line: &[u8]) -> (&[u8], Option<&[u8]>)
    ensures { words_of line.now ≡ result.0.now ∷ words_left result.1 }
{
    match first_near(b' ', line) {
        Some(end) => (&line[..end], Some(&line[end + 1..])),
        None => (line, None),
    }
}
