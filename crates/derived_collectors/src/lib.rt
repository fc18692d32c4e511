//! More of Java's collectors: what is done with a result, lists of images, the best item by a key, sets, groups of lists, deques, exact
//! sums and averages, running totals, places of items, count, sum, least and greatest of numbers in one pass, and what is made of items
//! that may have failed.
#![tactic(auto)]

mod best;
mod best_by_key;
mod checked;
mod collecting_and_then;
mod deciding;
mod deques;
mod first_places;
mod flat_mapping;
mod fractions;
mod keyed;
mod lists;
mod scanning;
mod summarizing;
mod summing_exact;
mod to_set;
mod trying;
mod up_to_error;
mod whole;

pub use best::Best;
pub use best_by_key::BestByKey;
pub use checked::{IntoLong, summing_checked};
pub use collecting_and_then::{CollectingAndThen, Finisher};
pub use deciding::{Decides, Deciding};
pub use deques::{IntoDeque, to_deque};
pub use first_places::{FirstPlaces, Places};
pub use flat_mapping::{FlatMappingTo, ListOfValues};
pub use fractions::{Fraction, IntoFraction, averaging};
pub use lists::{grouping_by, partitioning_by};
pub use scanning::Scanning;
pub use summarizing::{Summarizing, Summary};
pub use summing_exact::SummingExact;
pub use to_set::ToSet;
pub use trying::Trying;
pub use up_to_error::UpToError;
pub use whole::Whole;
