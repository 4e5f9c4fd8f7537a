//! Programs, the words that they compute with, and what they mean.
#![tactic(auto)]

pub mod construct;
pub mod laws;
pub mod outcome;
pub mod raw;
pub mod row;
pub mod syntax;
pub mod word;
