//! Guesses, and how good those of a run are.
#![tactic(auto)]

pub mod guess;
pub mod stats;
