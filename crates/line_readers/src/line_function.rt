//! Functions of a line.
ghost use Rattle.std.specs.Prelude.{◌≡◌, ◌==◌, ℕ, List, IfOk, length, map, pos, string_bytes, ⊤};
ghost use Rattle.spliterator.specs.Bounded.{wrapped-value};
ghost use Rattle.stages.specs.Wrapping.{wrapped};
ghost use Rattle.stream_functions.specs.Pieces.{pieces, number_in, number_or, number-value};

use spliterator::{NoMemory, OrderedValue};
use stages::Mapping;
use std::alloc::Global;
use stream_functions::{Length, Number, NumberOr, Pieces, PlainMapping};

/// What a line is read as: a value that holds nothing of the line, so that one function serves the lines of each block.
pub trait LineFunction {
    type Out: OrderedValue + Clone + Drop + Send + Sync;

    ghost ready: { Self → Type 0 } = { λ _. ⊤ };

    // The content of what a line is read as.
    ghost image: { Self → List ℕ → Self.Out.Content };

    fn read(&self, line: &str) -> Result<Self::Out, NoMemory>
        requires { ready self.now }
        ensures { IfOk result (λ out. Self.Out.content out ≡ image self.now line.now) };

    ghost images_are_values: { (f : Self) (line : List ℕ) → Self.Out.is_value (image f line) };
}

/// A function of a line as a mapping of the lines of one text.
#[derive(Drop)]
pub struct OfLine<'f, F> {
    pub function: &'f F,
}

impl<'a, 'f, F: LineFunction> Mapping<&'a str> for OfLine<'f, F> {
    type Out = F::Out;

    ghost ready = { λ m. F.ready m.function.now };

    ghost image = { λ m line. F.image m.function.now line };

    ghost images_are_values = { λ m line _. F.images_are_values m.function.now line };

    fn image(&self, x: &&'a str) -> Result<F::Out, NoMemory> {
        self.function.read(*x)
    }
}

/// The line as a text of its own.
#[derive(Clone, Copy, Drop)]
pub struct OwnLine {
    pub alloc: Global,
}

impl LineFunction for OwnLine {
    type Out = String;

    ghost image = { λ _ line. line };

    ghost images_are_values = { λ _ _. tt };

    fn read(&self, line: &str) -> Result<String, NoMemory> {
        Ok(String::from_str(self.alloc, line)?)
    }
}

impl LineFunction for Length {
    type Out = i64;

    ghost image = { λ _ line. wrapped (pos (length line)) };

    ghost images_are_values = { λ _ line. wrapped-value _ };

    fn read(&self, line: &str) -> Result<i64, NoMemory> {
        Ok(self.image_of(&line))
    }
}

impl LineFunction for Number {
    type Out = Option<i64>;

    ghost image = { λ _ line. number_in line };

    ghost images_are_values = { λ _ line. number-value line };

    fn read(&self, line: &str) -> Result<Option<i64>, NoMemory> {
        Ok(self.image_of(&line))
    }
}

impl LineFunction for NumberOr {
    type Out = i64;

    ghost image = { λ f line. number_or f.0 line };

    ghost images_are_values = { λ _ line. wrapped-value _ };

    fn read(&self, line: &str) -> Result<i64, NoMemory> {
        Ok(self.image_of(&line))
    }
}

/// Each text as one of its own.
fn owned(alloc: Global, texts: &[&str]) -> Result<Vec<String>, NoMemory>
    ensures { IfOk result (λ list. map string_bytes list.items ≡ map (λ text. text.now) texts.now) }
{
    let mut list = Vec::with_capacity(alloc, texts.len())?;
    for text in texts {
        list.push(String::from_str(alloc, text)?)?;
    }
    Ok(list)
}

impl LineFunction for Pieces {
    type Out = Vec<String>;

    ghost image = { λ p line. pieces (λ b. b == p.separator) line };

    ghost images_are_values = { λ _ _ _ _ _. tt };

    fn read(&self, line: &str) -> Result<Vec<String>, NoMemory> {
        let texts = self.image(&line)?;
        owned(self.alloc, texts.as_slice())
    }
}
