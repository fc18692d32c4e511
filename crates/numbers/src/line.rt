//! What a line of a file is read as.
ghost use Rattle.numbers.specs.Line.{number, number_or_line};

use mohairjade::{LineFunction, NoMemory, Number, PlainMapping};
use std::alloc::Global;

/// No number reaches this, so that the square of each is an `i64`.
const BOUND: i64 = 1 << 31;

/// The number that a line writes, or the line.
#[derive(Drop)]
pub struct NumberOrLine(pub Global);

impl LineFunction for NumberOrLine {
    type Out = Result<i64, String>;

    ghost image = { λ _. number };

    ghost images_are_values = { λ _. number_or_line };

    fn read(&self, line: &str) -> Result<Result<i64, String>, NoMemory> {
        match Number.image_of(&line) {
            Some(number) if -BOUND < number && number < BOUND => Ok(Ok(number)),
            _ => Ok(Err(String::from_str(self.0, line)?)),
        }
    }
}
