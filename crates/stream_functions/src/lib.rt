//! Ready-made functions of streams and collectors, and constructors that check a closure where it stands.
//!
//! ```text
//! of(RangeSplit::range(0, 100)?).filter(Divisible::by(3)).map(Times(2))
//! ```
#![tactic(auto)]

mod as_long;
mod blocks;
mod closures;
mod comparisons;
mod composed;
mod divisor;
mod itself;
mod logic;
mod numbers;
mod pairs;
mod pieces;
mod small_divisor;
mod texts;

pub use as_long::AsLong;
pub use blocks::{copy_each, keep_all, keep_runs, map_all, remainders};
pub use closures::{Gives, JoinedBy, Joins, MadeBy, SuchThat, Tells, joined_by, made_by, such};
pub use comparisons::{Above, Below, Divisible, Equal, Even};
pub use composed::{Composed, PlainMapping};
pub use divisor::Divisor;
pub use itself::{Cloned, Copied, Itself};
pub use logic::{And, Not, Or};
pub use numbers::{Divided, Modulo, Negated, Plus, Times};
pub use pairs::{OnFirst, OnSecond};
pub use pieces::{Number, NumberOr, Piece, Pieces, piece_of};
pub use texts::{Contains, EndsWith, Length, LowerCase, StartsWith, Trimmed};
