//! The scanner: from the bytes of a text to its tokens.
#![tactic(auto)]

mod bytes;
mod front;
pub mod laws;
mod scanner;
mod signs;
pub mod token;
mod words;

pub use scanner::{ScanError, scan};
