//! The tests of `parallel_streams`.
#![tactic(auto)]

#[cfg(test)]
mod of_parallel_streams;
