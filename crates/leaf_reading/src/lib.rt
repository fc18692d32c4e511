//! Reads one leaf: its source's items pass a stage, and are kept until they are enough or the leaf is cut.
#![tactic(auto)]

mod filling;
mod keeper;
mod leaf;
mod leaf_end;
mod reading;
mod stretch;

pub use filling::Filling;
pub use keeper::is_enough;
pub use leaf::read_leaf;
pub use leaf_end::{LeafEnd, Portion};
pub use reading::Reading;
pub use stretch::{Patience, Pause, feed_front, feed_whole};
