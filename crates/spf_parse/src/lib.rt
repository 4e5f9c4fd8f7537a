//! The parser: from the bytes of a text to the program that it says.
#![tactic(auto)]

pub mod laws;
mod lexemes;
mod program;

pub use program::{ParseError, parse};
