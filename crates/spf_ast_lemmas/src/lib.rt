//! Small facts about tests and lists that proofs of several crates use. It has no code.
#![tactic(auto)]
