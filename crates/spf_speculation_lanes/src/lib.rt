//! Lanes and speculative runs: the logs of a construct's lanes are what the laws of speculative
//! runs ask for.
#![tactic(auto)]

pub mod laws;
