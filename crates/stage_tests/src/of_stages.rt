//! Stages, operators and flags at concrete types, through their bounds.
mod feeding;
mod functions;
mod telling;
