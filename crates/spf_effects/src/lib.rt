//! What the parts of top constructs read and write, as far as their text shows.
#![tactic(auto)]

pub mod analysis;
pub mod effects;
pub mod laws;
