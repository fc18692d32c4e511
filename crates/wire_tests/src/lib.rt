//! The tests of containers as JSON values, of parts, and of those of files.
#![tactic(auto)]

#[cfg(test)]
mod of_file_parts;
#[cfg(test)]
mod of_placed_containers;
#[cfg(test)]
mod of_wire_form;
#[cfg(test)]
mod pair;
