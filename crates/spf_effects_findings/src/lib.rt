//! What is found in the forms of a part: the definitions, and the lists of ranges in which an
//! analysis keeps it.
#![tactic(auto)]

pub mod findings;
