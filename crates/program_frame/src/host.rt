//! What a program takes of the system beside its files, its threads and the clock.
use std::random::RandomSource;
use std::rt::Env;

/// The words of the command line, random numbers, memory, and the standard streams that are written.
pub trait Host: AllocGlobal + Env + Eprint + Print + RandomSource {}

impl<R: AllocGlobal + Env + Eprint + Print + RandomSource> Host for R {}
