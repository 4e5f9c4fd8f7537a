//! That the program's answers are determined: each text has one verdict, and each list of words one
//! answer.
#![tactic(auto)]

pub mod laws;
