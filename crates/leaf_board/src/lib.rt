//! A lock-free board that hands out leaves, keeps their counts and cuts what can no longer matter.
#![tactic(auto)]

mod board;
mod board_handout;
mod handout;
mod record;
mod rule;
mod view;

pub use board::{Board, BoardSeat, LeafPass};
pub use handout::{Draw, Handout, LeafBoard};
pub use record::Record;
pub use rule::Case;
