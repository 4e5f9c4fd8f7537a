//! Speculative runs of top constructs, and that they mean the plain run.
#![tactic(auto)]

pub mod laws;
