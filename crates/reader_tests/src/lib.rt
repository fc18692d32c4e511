//! The tests of the lines of readers.
#![tactic(auto)]

#[cfg(test)]
mod of_line_readers;
#[cfg(test)]
mod slow;
