//! What the language's functions, stages and collectors give, at concrete types through their bounds.
mod full_sinks;
mod functions;
mod seeds;
mod steps;
mod summaries;
