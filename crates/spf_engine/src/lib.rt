//! Whole runs of accepted programs, by blocks from guesses.
#![tactic(auto)]

mod account;
mod construct;
pub mod error;
pub mod run;
mod runner;
pub mod step;
