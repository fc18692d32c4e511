//! Runs the leaves of a plan on several threads, and combines what they kept.
#![tactic(auto)]

mod combine;
mod crew;
mod gate;
mod gather;
mod halting;
mod job;
mod job_run;
mod plan_run;
mod report;
mod run;
mod worker;

pub use gate::{Gate, NoGate};
pub use job::LeafJob;
pub use job_run::{Gathered, run_job};
pub use plan_run::run_leaves;
pub use report::{RunEntry, RunReport};
