//! The value of a pipeline, over the library's streams and pool.
#![tactic(auto)]

mod arranged;
mod known;
mod linked;
mod maps;
mod number_end;
mod numbers;
mod ranges;
mod text_end;
mod texts;
mod told;
mod value;

pub use ranges::source_size;
pub use told::ValueError;
pub use value::{one_value, pipeline_value};
