//! The tests of `terminals`.
#![tactic(auto)]

#[cfg(test)]
mod of_terminals;
#[cfg(test)]
mod settings;
