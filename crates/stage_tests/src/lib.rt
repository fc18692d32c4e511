//! The tests of `stages`, `stream_functions` and `barriers`.
#![tactic(auto)]

#[cfg(test)]
mod of_barriers;
#[cfg(test)]
mod of_stages;
#[cfg(test)]
mod of_stream_functions;
