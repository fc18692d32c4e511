//! Versions of the language.

/// A version of the language. The second has all forms of the first, and some more.
#[derive(Clone, Copy)]
pub enum Version {
    One,
    Two,
}
