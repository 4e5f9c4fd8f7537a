//! Cells that several threads share: one atomic word for each cell of a plan's spans, and one flag
//! for each block.
#![tactic(auto)]

pub mod cells;
pub mod finish;
pub mod lane;
pub mod laws;
mod make;
mod rule;
mod segment;
pub mod view;
pub mod warden;
