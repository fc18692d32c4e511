//! The tests of `gates`.
#![tactic(auto)]

#[cfg(test)]
mod of_gates;
