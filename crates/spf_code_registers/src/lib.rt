//! How many registers a program's code needs.
//!
//! They are counted form by form, in one pass: `program::rooms` counts for all functions of a
//! program, each once, and `program::program_needs` adds up what `main` needs.
#![tactic(auto)]

pub mod needs;
pub mod program;
