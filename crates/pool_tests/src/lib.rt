//! The tests of `leaf_board` and `stealing_pool`.
#![tactic(auto)]

#[cfg(test)]
mod of_leaf_board;
#[cfg(test)]
mod of_stealing_pool;
