//! The plan of a pipeline, and the rules that make it simpler before anything runs. Each rule keeps what the plan means.
#![tactic(auto)]

mod flags;
mod kind;
mod neighbours;
mod numbers;
mod plan;
mod sections;
mod sums;

pub use kind::{Kind, Numbers, StageOf, Texts};
pub use numbers::NumberRange;
pub use plan::{Plan, PlanSource, optimised};
pub use sections::Section;
pub use sums::known_sum;
