//! The round trip from programs to texts and back: the canonical text of a program reads as that
//! program, and as no other. Each law is the contract of a function that does nothing.
#![tactic(auto)]

pub mod laws;
