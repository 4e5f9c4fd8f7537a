//! Bounds of numbers at a block, and ranges of cells.
#![tactic(auto)]

pub mod bound;
mod cells;
pub mod laws;
pub mod list;
mod merge;
mod query;
pub mod range;
pub mod span;
