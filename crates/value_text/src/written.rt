//! The texts of values, written behind one another into one text.

ghost use Rattle.either.specs.Either.{either};
ghost use Rattle.std.specs.Prelude.{◌≡◌, ◌++◌, ℕ, List, IfOk, OnOk, string_bytes, refl};
ghost use Rattle.std.specs.Fmt.{signed_decimal};
ghost use Rattle.value_text.specs.Texts.{truth_text, optional_text, entry_text, map_text, partition_text, pair_text};

use crate::Rope;
use collectors::Partition;
use either::{Either, Left, Right};
use indexmap::IndexMap;
use itoa::Buffer;
use spliterator::{NoMemory, Value};
use std::alloc::Global;
use std::hash::{BuildHasher, Hash};

/// A value that has a text, as a pipeline's answer is written.
///
///     [Some(5), None].write_to(&mut out)?;      // [Optional[5], Optional.empty]
pub trait Written {
    // the bytes of the value's text
    ghost text: { Self → List ℕ };

    /// Writes the value's text behind what `out` holds. After a want of memory some of it may stand there.
    fn write_to(&self, out: &mut String) -> Result<(), NoMemory>
        ensures { OnOk result (string_bytes out.new ≡ string_bytes out.old ++ text self.now) };
}

/// Decimal, with `-` before a negative number.
impl Written for i64 {
    ghost text = { signed_decimal };

    fn write_to(&self, out: &mut String) -> Result<(), NoMemory> {
        let mut digits = Buffer::new();
        digits.format(*self).write_to(out)
    }
}

/// `true` or `false`.
impl Written for bool {
    ghost text = { truth_text };

    fn write_to(&self, out: &mut String) -> Result<(), NoMemory> {
        let text = if *self { "true" } else { "false" };
        text.write_to(out)
    }
}

/// The text as it stands.
impl Written for &str {
    ghost text = { λ t. t.now };

    fn write_to(&self, out: &mut String) -> Result<(), NoMemory> {
        out.push_str(self)?;
        Ok(())
    }
}

/// The text as it stands.
impl Written for Rope {
    ghost text = { λ text. text };

    fn write_to(&self, out: &mut String) -> Result<(), NoMemory> {
        self.copy_to(out)?;
        Ok(())
    }
}

/// A value's text.
pub fn text_of<V: Written>(alloc: Global, value: &V) -> Result<String, NoMemory>
    ensures { IfOk result (λ text. string_bytes text ≡ V.text value.now) }
{
    let mut text = String::new(alloc);
    value.write_to(&mut text)?;
    Ok(text)
}

/// Writes a value behind a text that stands before it.
pub(crate) fn write_behind<T: Written>(
    front: &str,
    value: &T,
    out: &mut String,
) -> Result<(), NoMemory>
    ensures { OnOk result (string_bytes out.new ≡ string_bytes out.old ++ front.now ++ T.text value.now) }
{
    out.push_str(front)?;
    value.write_to(out)
}

/// `Optional[x]` or `Optional.empty`.
impl<T: Written> Written for Option<T> {
    ghost text = { optional_text T.text };

    fn write_to(&self, out: &mut String) -> Result<(), NoMemory> {
        match self {
            Some(value) => {
                write_behind("Optional[", value, out)?;
                "]".write_to(out)
            }
            None => "Optional.empty".write_to(out),
        }
    }
}

// Writes an entry of a map behind what separates it from the last.
fn write_entry<K: Written, V: Written>(
    separator: &str,
    key: &K,
    value: &V,
    out: &mut String,
) -> Result<(), NoMemory>
    ensures { OnOk result (string_bytes out.new ≡ string_bytes out.old
        ++ separator.now ++ entry_text K.text V.text (key.now, value.now)) }
{
    write_behind(separator, key, out)?;
    write_behind("=", value, out)
}

/// `{k=v, k=v}`, in the order of the entries.
impl<K: Written + Eq + Hash, V: Written, S: BuildHasher> Written for IndexMap<K, V, S> {
    ghost text = { λ m. map_text K.text V.text m.entries };

    fn write_to(&self, out: &mut String) -> Result<(), NoMemory> {
        "{".write_to(out)?;
        let mut separator = "";
        for (key, value) in self.iter() {
            write_entry(separator, key, value, out)?;
            separator = ", ";
        }
        "}".write_to(out)
    }
}

// Writes two values with what stands before, between and behind them.
fn write_two<A: Written, B: Written>(
    front: &str,
    first: &A,
    between: &str,
    second: &B,
    end: &str,
    out: &mut String,
) -> Result<(), NoMemory>
    ensures { OnOk result (string_bytes out.new ≡ string_bytes out.old
        ++ front.now ++ A.text first.now ++ between.now ++ B.text second.now ++ end.now) }
{
    write_behind(front, first, out)?;
    write_behind(between, second, out)?;
    end.write_to(out)
}

/// `{false=x, true=y}`.
impl<R: Written> Written for Partition<R> {
    ghost text = { λ p. partition_text (R.text p.no) (R.text p.yes) };

    fn write_to(&self, out: &mut String) -> Result<(), NoMemory> {
        write_two("{false=", &self.no, ", true=", &self.yes, "}", out)
    }
}

/// The list of the two: `[x, y]`.
impl<A: Written, B: Written> Written for (A, B) {
    ghost text = { λ p. pair_text (A.text p.0) (B.text p.1) };

    fn write_to(&self, out: &mut String) -> Result<(), NoMemory> {
        write_two("[", &self.0, ", ", &self.1, "]", out)
    }
}

/// The text of the one that is there.
impl<A: Written, B: Written> Written for Either<A, B> {
    ghost text = { either A.text B.text };

    fn write_to(&self, out: &mut String) -> Result<(), NoMemory> {
        match self {
            Left(value) => value.write_to(out),
            Right(value) => value.write_to(out),
        }
    }
}

/// A value whose text follows from its content.
pub trait Spelled: Value + Written {
    // the text of a content
    ghost spelling: { Self.Content → List ℕ };

    ghost spelled: { (x : Self) → Self.text x ≡ spelling (Self.content x) };
}

impl Spelled for i64 {
    ghost spelling = { signed_decimal };

    ghost spelled = { λ _. refl };
}

impl Spelled for &str {
    ghost spelling = { λ text. text };

    ghost spelled = { λ _. refl };
}
