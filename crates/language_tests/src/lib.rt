//! The tests of `pipeline_reader`, `pipeline_meaning` and `pipeline_plan`.
#![tactic(auto)]

#[cfg(test)]
mod of_pipeline_meaning;
#[cfg(test)]
mod of_pipeline_plan;
#[cfg(test)]
mod of_pipeline_reader;
