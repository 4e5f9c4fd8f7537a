//! The printer: a program's canonical text, line by line.
#![tactic(auto)]

mod lines;
mod programs;
mod statements;

pub use programs::print;
