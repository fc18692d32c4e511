//! Each collector at concrete types: folded on one thread, and folded in every two and every three parts that are then combined.

mod asked_once;
mod chosen;
mod cuts;
mod functions;
mod joined;
mod light;
mod long_lists;
mod nested;
mod parted;
mod plain;
mod shown;
mod strict;
