//! Results as Java prints them.
use collectors::{DuplicateKey, Partition};
use either::{Either, Left, Right};
use indexmap::IndexMap;
use spliterator::NoMemory;
use std::alloc::Global;
use std::hash::{BuildHasher, Hash};

/// A result that has a text.
pub trait Shown {
    fn show(&self, alloc: Global, text: &mut String) -> Result<(), NoMemory>;
}

/// The text of a result.
pub fn text_of<R: Shown>(alloc: Global, value: &R) -> Result<String, NoMemory> {
    let mut text = String::new(alloc);
    value.show(alloc, &mut text)?;
    Ok(text)
}

impl Shown for i64 {
    fn show(&self, alloc: Global, text: &mut String) -> Result<(), NoMemory> {
        let digits = format!(in alloc; "{self}")?;
        text.push_str(digits.as_str())?;
        Ok(())
    }
}

impl Shown for &str {
    fn show(&self, _alloc: Global, text: &mut String) -> Result<(), NoMemory> {
        text.push_str(self)?;
        Ok(())
    }
}

impl Shown for String {
    fn show(&self, _alloc: Global, text: &mut String) -> Result<(), NoMemory> {
        text.push_str(self.as_str())?;
        Ok(())
    }
}

/// Appends the text of a value between two texts.
fn append<R: Shown>(
    alloc: Global,
    text: &mut String,
    before: &str,
    value: &R,
    after: &str,
) -> Result<(), NoMemory> {
    text.push_str(before)?;
    value.show(alloc, text)?;
    text.push_str(after)?;
    Ok(())
}

impl<A: Shown, B: Shown> Shown for (A, B) {
    fn show(&self, alloc: Global, text: &mut String) -> Result<(), NoMemory> {
        append(alloc, text, "(", &self.0, ", ")?;
        append(alloc, text, "", &self.1, ")")
    }
}

impl<R: Shown> Shown for Option<R> {
    fn show(&self, alloc: Global, text: &mut String) -> Result<(), NoMemory> {
        match self {
            Some(value) => append(alloc, text, "Optional[", value, "]"),
            None => "Optional.empty".show(alloc, text),
        }
    }
}

impl<R: Shown> Shown for Vec<R> {
    fn show(&self, alloc: Global, text: &mut String) -> Result<(), NoMemory> {
        let mut between = "[";
        for item in self {
            append(alloc, text, between, item, "")?;
            between = ", ";
        }
        (if self.is_empty() { "[]" } else { "]" }).show(alloc, text)
    }
}

impl<R: Shown> Shown for Partition<R> {
    fn show(&self, alloc: Global, text: &mut String) -> Result<(), NoMemory> {
        append(alloc, text, "{false=", &self.no, ", true=")?;
        append(alloc, text, "", &self.yes, "}")
    }
}

impl<K: Shown + Eq + Hash, V: Shown, S: BuildHasher> Shown for IndexMap<K, V, S> {
    fn show(&self, alloc: Global, text: &mut String) -> Result<(), NoMemory> {
        let mut between = "{";
        for (key, value) in self.iter() {
            append(alloc, text, between, key, "=")?;
            value.show(alloc, text)?;
            between = ", ";
        }
        (if self.is_empty() { "{}" } else { "}" }).show(alloc, text)
    }
}

impl<M: Shown, K: Shown> Shown for Result<M, DuplicateKey<K>> {
    fn show(&self, alloc: Global, text: &mut String) -> Result<(), NoMemory> {
        match self {
            Ok(map) => map.show(alloc, text),
            Err(duplicate) => append(alloc, text, "duplicate key ", &duplicate.key, ""),
        }
    }
}

impl<A: Shown, B: Shown> Shown for Either<A, B> {
    fn show(&self, alloc: Global, text: &mut String) -> Result<(), NoMemory> {
        match self {
            Left(value) => value.show(alloc, text),
            Right(value) => value.show(alloc, text),
        }
    }
}
