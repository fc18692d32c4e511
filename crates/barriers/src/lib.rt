//! How much of a list is enough, and the operations that look at a whole list.
#![tactic(auto)]

mod any_barrier;
mod barrier;
mod behind;
mod demand;
mod distinct;
mod limit;
mod skip;
mod whiles;

pub use any_barrier::{AnyBarrier, AnyState};
pub use barrier::Barrier;
pub use behind::Behind;
pub use demand::{Demand, FirstHit, Need, Total, Whole};
pub use distinct::Distinct;
pub use limit::Limit;
pub use skip::Skip;
pub use whiles::{DropWhile, TakeWhile};
