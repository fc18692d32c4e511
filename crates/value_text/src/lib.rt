//! The texts of values and of collectors' results, as an answer is written.
#![tactic(auto)]

mod joined_text;
mod rope;
mod summarizes;
mod written;

pub use joined_text::{JoinedText, ListText};
pub use rope::Rope;
pub use summarizes::{Both, Summarizes, grouped, write_result};
pub use written::{Spelled, Written, text_of};
