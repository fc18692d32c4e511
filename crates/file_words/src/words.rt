//! Words.

ghost use Rattle.std.specs.Prelude.{◌≡◌, ◌<◌, ◌^◌, ◌≤◌, ◌≤ℤ◌, Bool, Result, Ok, IfOk, length, true};
ghost use Rattle.file_words.specs.WordReading.{Left, Gets, behind, GetsAs, next_word, next_number, next_natural, all_numbers, numbers_from, ended, is_done};
ghost use Rattle.file_words.specs.Words.{words_left, words_of};

use crate::fault::FileError;
use crate::lines::{first_word, first_word_bytes};
use crate::number::{near_number, parse_number};
use std::alloc::{AllocError, Global};
use std::marker::Model;

/// What is left of a line, where anything is, and whether each number before it is one and in its range.
#[derive(Drop)]
pub struct Words<'a> {
    rest: Option<&'a str>,
    good: bool,
}

impl<'a> Model for Words<'a> {
    ghost Value = { Left };

    ghost view = { λ w. record { words = words_left w.rest; good = w.good } };
}

impl<'a> Words<'a> {
    /// All the words of a line.
    pub fn new(line: &'a str) -> Self
        ensures { result ≡ record { words = words_of line.now; good = true } }
    {
        Words {
            rest: Some(line),
            good: true,
        }
    }

    /// The next word.
    #[tactic(auto, unfolding(crate::specs::WordReading::next_word))]
    pub fn any(&mut self) -> Result<&'a str, FileError>
        ensures { GetsAs (λ word. word.now) (next_word self.old) result self.new }
    {
        let Some(rest) = self.rest else {
            return Err(FileError::BadArity);
        };
        let (word, behind) = first_word(rest);
        self.rest = behind;
        Ok(word)
    }

    /// The next number, and the lowest one where no number from `low` to `high` stands there.
    #[tactic(auto, unfolding(crate::specs::WordReading::next_number))]
    pub fn number(&mut self, low: i64, high: i64) -> Result<i64, FileError>
        ensures read { Gets (next_number low high self.old) result self.new }
        ensures least { IfOk result (λ n. low ≤ℤ n) }
    {
        let word = self.any()?;
        match parse_number(word.as_bytes()) {
            Some(n) if low <= n && n <= high => Ok(n),
            _ => {
                self.good = false;
                Ok(low)
            }
        }
    }

    /// The next number, which isn't negative.
    #[tactic(auto, unfolding(crate::specs::WordReading::next_natural))]
    pub fn natural(&mut self, high: i64) -> Result<u64, FileError>
        ensures read { Gets (next_natural high self.old) result self.new }
        ensures most { IfOk result (λ n. n < 2 ^ 63) }
    {
        Ok(self.number(0, high)?.unsigned_abs())
    }

    /// All the numbers that are left.
    #[tactic(auto, unfolding(crate::specs::WordReading::all_numbers))]
    pub fn numbers(&mut self, alloc: Global) -> Result<Vec<i64>, AllocError>
        ensures { IfOk result (λ numbers. all_numbers self.old ≡ Ok (numbers.items, self.new)) }
    {
        let Some(rest) = self.rest else {
            return Ok(Vec::new(alloc));
        };
        let (numbers, behind) = numbers_of(alloc, rest.as_bytes(), self.good)?;
        *self = behind;
        Ok(numbers)
    }

    /// Whether no word is left.
    pub fn is_empty(&self) -> bool
        ensures { result ≡ is_done self.now.words }
    {
        self.rest.is_none()
    }

    /// The end of the line.
    #[tactic(auto, using(crate::proofs::LineLemmas::left_over))]
    pub fn end(self) -> Result<(), FileError>
        ensures { result ≡ ended self.entry.words self.entry.good }
    {
        if self.rest.is_some() {
            Err(FileError::BadArity)
        } else if self.good {
            Ok(())
        } else {
            Err(FileError::BadNumber)
        }
    }
}

/// Takes the numbers in front of a line as long as each is short and a space stands behind it, and answers what is left.
///
/// It isn't inlined, which leaves its loop registers enough.
#[inline(never)]
fn near_numbers<'a>(numbers: &mut Vec<i64>, line: &'a [u8]) -> Result<&'a [u8], AllocError>
    ensures read { let before = numbers_from (words_of line.now) in
        IfOk result (λ left. (good : Bool) → behind numbers.old.items (before good) ≡ behind numbers.new.items (numbers_from (words_of left.now) good)) }
    ensures fewer { IfOk result (λ left. length (words_of left.now) ≤ length (words_of line.now)) }
{
    let mut left = line;
    while let Some((Some(number), rest)) = near_number(left) {
        numbers.push(number)?;
        left = rest;
    }
    Ok(left)
}

/// The numbers of a line, read in one pass, and what is left: nothing, and whether each word so far is one. A number and the space behind it
/// have two bytes at least, so that the room is for no more than the line can hold.
fn numbers_of<'a>(
    alloc: Global,
    line: &'a [u8],
    before: bool,
) -> Result<(Vec<i64>, Words<'a>), AllocError>
    ensures { IfOk result (λ r. numbers_from (words_of line.now) before ≡ (r.0.items, r.1)) }
{
    let mut numbers = Vec::with_capacity(alloc, line.len() / 2 + 1)?;
    let mut good = before;
    let mut left = Some(line);
    while let Some(rest) = left {
        let rest = near_numbers(&mut numbers, rest)?;
        let (word, behind) = first_word_bytes(rest);
        match parse_number(word) {
            Some(n) => numbers.push(n)?,
            None => {
                good = false;
                numbers.push(i64::MIN)?;
            }
        }
        left = behind;
    }
    Ok((numbers, Words { rest: None, good }))
}
