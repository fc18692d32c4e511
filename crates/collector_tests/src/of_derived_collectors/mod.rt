//! Each collector at concrete types, over a list that is cut in two at each place.

mod best;
mod cuts;
mod exact;
mod functions;
mod lists;
mod nested;
mod places;
mod scanned;
mod sets;
mod summarized;
mod tried;
