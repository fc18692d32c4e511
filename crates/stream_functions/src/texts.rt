//! Functions and tests of texts, by their bytes.
ghost use Rattle.std.specs.Prelude.{◌==◌, length, map, pos};
ghost use Rattle.std.specs.Char.{to_ascii_lowercase};
ghost use Rattle.std.specs.List.{starts_with, ends_with};
ghost use Rattle.stages.specs.Wrapping.{wrapped, wrapped-value};
ghost use Rattle.stream_functions.specs.Texts.{contains, trimmed};

use crate::PlainMapping;
use spliterator::{NoMemory, Text};
use stages::{Mapping, Test};
use std::alloc::Global;

/// A text's length in bytes.
#[derive(Clone, Copy)]
pub struct Length;

impl<T: Text> Mapping<T> for Length {
    type Out = i64;

    ghost image = { λ _ text. wrapped (pos (length text)) };

    ghost images_are_values = { λ _ x _. wrapped-value _ };

    fn image(&self, x: &T) -> Result<i64, NoMemory> {
        Ok(self.image_of(x))
    }
}

impl<T: Text> PlainMapping<T> for Length {
    fn image_of(&self, x: &T) -> i64 {
        (x.text().len() as u64).cast_signed()
    }
}

/// Whether a text begins with this one.
#[derive(Clone, Copy)]
pub struct StartsWith<'a>(pub &'a str);

impl<T: Text> Test<T> for StartsWith<'_> {
    ghost holds = { λ t text. starts_with ◌==◌ text t.0.now };

    fn holds(&self, x: &T) -> bool {
        x.text().starts_with(self.0)
    }
}

/// Whether a text ends with this one.
#[derive(Clone, Copy)]
pub struct EndsWith<'a>(pub &'a str);

impl<T: Text> Test<T> for EndsWith<'_> {
    ghost holds = { λ t text. ends_with ◌==◌ text t.0.now };

    fn holds(&self, x: &T) -> bool {
        x.text().ends_with(self.0)
    }
}

/// Whether this text stands somewhere in a text. The empty one stands in each.
#[derive(Clone, Copy)]
pub struct Contains<'a>(pub &'a str);

impl<T: Text> Test<T> for Contains<'_> {
    ghost holds = { λ t text. contains t.0.now text };

    fn holds(&self, x: &T) -> bool {
        x.text().contains(self.0)
    }
}

/// A text without the white space of ASCII at both its ends: spaces, tabs, line feeds, form feeds and carriage returns. `strip` of
/// `java.lang.String` takes that of Unicode, and the control characters 11 and 28 to 31.
#[derive(Clone, Copy)]
pub struct Trimmed;

impl<'a> Mapping<&'a str> for Trimmed {
    type Out = &'a str;

    ghost image = { λ _ text. trimmed text };

    ghost images_are_values = { λ _ _ value. value };

    fn image(&self, x: &&'a str) -> Result<&'a str, NoMemory> {
        Ok(self.image_of(x))
    }
}

impl<'a> PlainMapping<&'a str> for Trimmed {
    fn image_of(&self, x: &&'a str) -> &'a str {
        (*x).trim_ascii()
    }
}

/// A text with the letters `A` to `Z` as small ones, and all else as it is: a text of its own, for which memory is asked.
///
/// ```text
/// lines.map(LowerCase(rt.alloc()))
/// ```
#[derive(Clone, Copy)]
pub struct LowerCase(pub Global);

impl<T: Text> Mapping<T> for LowerCase {
    type Out = String;

    ghost image = { λ _ text. map to_ascii_lowercase text };

    ghost images_are_values = { λ _ _ _. tt };

    fn image(&self, x: &T) -> Result<String, NoMemory> {
        Ok(x.text().to_ascii_lowercase(self.0)?)
    }
}
