//! The tests of the runs of terminal operations: their workers, leaves and memory.
#![tactic(auto)]

#[cfg(test)]
mod each_terminal;
