//! That a top construct which keeps the seven rules is rollback free, and what that gives.
#![tactic(auto)]

pub mod laws;
