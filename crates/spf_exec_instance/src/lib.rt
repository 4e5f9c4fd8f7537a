//! Programs with an input that they run on: where their arrays lie, and how large their frames are.
#![tactic(auto)]

pub mod arrays;
pub mod instance;
pub mod layout;
