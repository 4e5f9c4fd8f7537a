//! Keys that only clauses see: plain data that several values of a run agree on, without a byte at
//! run time.
#![tactic(auto)]

pub mod key;
