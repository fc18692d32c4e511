//! The language of pipeline files: what a file means, and the reading of its lines.
#![tactic(auto)]

mod grammar;
mod item_count;
mod kinds;
mod line;
mod meaning;
mod pipeline;
mod ranges;
mod syntax;
mod version;

pub use grammar::{
    AllItems, Barrier, Base, Expansion, Function, Inner, Joint, Line, Merge, NumberChange,
    NumberOnly, NumberTest, NumberTotal, OfKind, Part, Quantifier, Stage, Summary, Terminal,
    TextCondition,
};
pub use item_count::ItemCount;
pub use kinds::{MOST_STAGES, NumberLine, TextLine};
pub use line::{Source, read_number_line, read_source, read_text_line, read_version};
pub use meaning::one_reading;
pub use pipeline::{
    Mapped, NumberBase, NumberBody, NumberFunction, NumberInner, NumberSource, NumberStage,
    NumberSummary, NumberTerminal, Pipeline, TextBase, TextBody, TextEnd, TextFunction, TextInner,
    TextMerge, TextStage, TextSummary, TextTerminal, TextTest, TextValue,
};
pub use ranges::{ClosedRange, OpenRange};
pub use version::Version;
