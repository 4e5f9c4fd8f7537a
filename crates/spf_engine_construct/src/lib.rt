//! One construct of an accepted program, run by blocks from guesses on many threads.
#![tactic(auto)]

pub mod construct;
pub mod counts;
pub mod guesses;
mod pieces;
pub mod telling;
