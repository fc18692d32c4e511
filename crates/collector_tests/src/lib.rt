//! The tests of `collectors` and `derived_collectors`.
#![tactic(auto)]

#[cfg(test)]
mod of_collectors;
#[cfg(test)]
mod of_derived_collectors;
