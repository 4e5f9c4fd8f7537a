//! Batches: one program is run on one file after another, and its predictors learn from file to
//! file.
//!
//! The answer of a file is a line, the bytes that the program emitted, and byte 0A. The line is
//! `NAME done length L`, or `NAME trap KIND line N length L` where the program trapped; L is the
//! number of bytes.
#![tactic(auto)]

pub mod batch;
pub mod error;
pub mod laws;
mod one;
mod text;

pub use batch::{Totals, run_batch};
pub use error::BatchError;
