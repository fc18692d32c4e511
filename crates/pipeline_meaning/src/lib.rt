//! What the parts of a pipeline mean: functions, steps and collectors.
#![tactic(auto)]

mod adapted;
mod functions;
mod number_bases;
mod number_copies;
mod number_steps;
mod number_summaries;
mod seeded_hashes;
mod text_bases;
mod text_steps;
mod text_summaries;

pub use adapted::{Adapted, Adapting};
pub use functions::{
    NumberCheck, NumberComparison, NumberJoining, NumberMapping, NumberMerging, TextCheck,
    TextMerging,
};
pub use number_bases::{NumberBaseCollector, NumberBaseContainer, NumberBaseResult, number_base};
pub use number_steps::NumberSteps;
pub use number_summaries::{
    NumberInnerCollector, NumberSummaryCollector, NumberSummaryContainer, NumberSummaryResult,
    number_inner, number_summary,
};
pub use seeded_hashes::{Seed, SeededHashes};
pub use text_bases::{TextBaseCollector, TextBaseContainer, TextBaseResult, text_base};
pub use text_steps::TextSteps;
pub use text_summaries::{
    TextInnerCollector, TextSummaryCollector, TextSummaryContainer, TextSummaryResult, text_summary,
};
