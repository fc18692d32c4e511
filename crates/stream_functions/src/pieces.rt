//! Pieces of texts, and the numbers that texts write.
ghost use Rattle.std.specs.Prelude.{◌≡◌, ◌<◌, ◌==◌, IfOk, map};
ghost use Rattle.spliterator.specs.Bounded.{wrapped-value};
ghost use Rattle.stream_functions.specs.Pieces.{piece, pieces, number_in, number_or, number-value};

use crate::PlainMapping;
use spliterator::{NoMemory, Text};
use stages::Mapping;
use std::alloc::{AllocError, Global};

/// The piece of a text at a place, from 0 on, between separators of one byte; an empty one where there are fewer.
pub fn piece_of(text: &str, separator: char, at: usize) -> &str
    requires { separator < 128 }
    ensures { result.now ≡ piece (λ b. b == separator) at text.now }
{
    match (text.split_once(separator), at) {
        (Some((before, _)), 0) => before,
        (None, 0) => text,
        (Some((_, after)), _) => piece_of(after, separator, at - 1),
        (None, _) => "",
    }
}

/// The piece of a text at a place, from 0 on, between separators; an empty one where there are fewer. Of `ann;7;` the piece at 1 is `7`.
#[derive(Clone, Copy)]
pub struct Piece {
    pub separator: char,
    pub at: usize,
    ghost ascii: { separator < 128 },
}

impl Piece {
    /// Between separators of one byte: an ASCII character.
    ///
    /// ```text
    /// of(LinesSplit::new("ann;7\nbob;9")).map(Piece::new(';', 1))    // "7", "9"
    /// ```
    // java.lang.String, split
    pub fn new(separator: char, at: usize) -> Piece
        requires { separator < 128 }
        ensures separator { result.separator ≡ separator }
        ensures at { result.at ≡ at }
    {
        Piece { separator, at }
    }

    /// Between spaces.
    pub fn word(at: usize) -> Piece
        ensures separator { result.separator ≡ 32 }
        ensures at { result.at ≡ at }
    {
        Piece { separator: ' ', at }
    }
}

impl<'a> Mapping<&'a str> for Piece {
    type Out = &'a str;

    ghost image = { λ p text. piece (λ b. b == p.separator) p.at text };

    ghost images_are_values = { λ _ _ value. value };

    fn image(&self, x: &&'a str) -> Result<&'a str, NoMemory> {
        Ok(self.image_of(x))
    }
}

impl<'a> PlainMapping<&'a str> for Piece {
    fn image_of(&self, x: &&'a str) -> &'a str {
        piece_of(*x, self.separator, self.at)
    }
}

/// The list of the pieces of a text between separators.
fn list_pieces(alloc: Global, text: &str, separator: char) -> Result<Vec<&str>, AllocError>
    requires { separator < 128 }
    ensures { IfOk result (λ list. map (λ piece. piece.now) list.items ≡ pieces (λ b. b == separator) text.now) }
{
    let mut list = Vec::new(alloc);
    let mut rest = text;
    while let Some((piece, behind)) = rest.split_once(separator) {
        list.push(piece)?;
        rest = behind;
    }
    list.push(rest)?;
    Ok(list)
}

/// All pieces of a text between separators, for a `flat_map`: of `to,,be` they are `to`, an empty one and `be`, and of an empty text an empty one.
#[derive(Clone, Copy)]
pub struct Pieces {
    pub alloc: Global,
    pub separator: char,
    ghost ascii: { separator < 128 },
}

impl Pieces {
    /// Between separators of one byte: an ASCII character.
    ///
    /// ```text
    /// let words = lines.flat_map(Pieces::new(rt.alloc(), ' ')).filter(Not(Equal("")));
    /// ```
    // java.lang.String, split (with a negative limit)
    pub fn new(alloc: Global, separator: char) -> Pieces
        requires { separator < 128 }
        ensures { result.separator ≡ separator }
    {
        Pieces { alloc, separator }
    }
}

impl<'a> Mapping<&'a str> for Pieces {
    type Out = Vec<&'a str>;

    ghost image = { λ p text. pieces (λ b. b == p.separator) text };

    ghost images_are_values = { λ _ _ _ _ _ _. tt };

    fn image(&self, x: &&'a str) -> Result<Vec<&'a str>, NoMemory> {
        Ok(list_pieces(self.alloc, *x, self.separator)?)
    }
}

/// The number that a text writes in decimal digits behind a sign or none, or none where it writes no `i64`.
// java.lang.Long, parseLong
#[derive(Clone, Copy)]
pub struct Number;

impl<T: Text> Mapping<T> for Number {
    type Out = Option<i64>;

    ghost image = { λ _ text. number_in text };

    ghost images_are_values = { λ _ text _. number-value text };

    fn image(&self, x: &T) -> Result<Option<i64>, NoMemory> {
        Ok(self.image_of(x))
    }
}

impl<T: Text> PlainMapping<T> for Number {
    fn image_of(&self, x: &T) -> Option<i64> {
        x.text().parse::<i64>().ok()
    }
}

/// The number that a text writes, or another where it writes no `i64`.
// java.lang.Long, parseLong
#[derive(Clone, Copy)]
pub struct NumberOr(pub i64);

impl<T: Text> Mapping<T> for NumberOr {
    type Out = i64;

    ghost image = { λ f text. number_or f.0 text };

    ghost images_are_values = { λ f text _. wrapped-value _ };

    fn image(&self, x: &T) -> Result<i64, NoMemory> {
        Ok(self.image_of(x))
    }
}

impl<T: Text> PlainMapping<T> for NumberOr {
    fn image_of(&self, x: &T) -> i64 {
        x.text().parse().ok().unwrap_or(self.0)
    }
}
