//! The terminal operations that Java has as methods of a stream, on an engine, and collectors of sorted lists.
//!
//! ```text
//! let engine = Engine::new(&rt, rt.alloc(), &Run::new(4))?;
//! let numbers = of(SliceSplit::new(&[3, 1, 2]));
//! let total = numbers.sum(&engine)?;           // 6
//! let ascending = numbers.sorted(&engine)?;    // 1, 2, 3
//! ```
#![tactic(auto)]

mod descending;
mod first_pairs;
mod first_sorted;
mod keys;
mod numbers;
mod ordering;
mod sorted_list;
mod terminals;

pub use descending::{Descending, Reversed};
pub use first_sorted::FirstSorted;
pub use numbers::Numbers;
pub use sorted_list::{Sorting, SortingBy, to_sorted_list, to_sorted_list_by_key};
pub use terminals::Terminals;
