//! The tests of `pipeline_runner`.
#![tactic(auto)]

#[cfg(test)]
mod of_pipeline_runner;
