//! What names stand for: the tables of arrays, functions and locals, and what is wrong with a name
//! at a point of the program.
#![tactic(auto)]

pub mod fault;
pub mod globals;
pub mod locals;
pub mod names;
