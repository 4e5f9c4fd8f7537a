//! Canonical texts: what they are, and names, numbers and expressions in them.
#![tactic(auto)]

pub mod expressions;
pub mod pieces;
