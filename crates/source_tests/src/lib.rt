//! The tests of `spliterator`, `sources`, `placed_sources` and `split_tree`.
#![tactic(auto)]

#[cfg(test)]
mod of_placed_sources;
#[cfg(test)]
mod of_sources;
#[cfg(test)]
mod of_split_tree;
#[cfg(test)]
mod of_spliterator;
#[cfg(test)]
mod parcel;
#[cfg(test)]
mod reading;
