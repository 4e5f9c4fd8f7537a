//! Entries of top constructs: what is fixed when a run reaches one, and what an attempt of one of
//! its blocks is.
#![tactic(auto)]

pub mod site;
