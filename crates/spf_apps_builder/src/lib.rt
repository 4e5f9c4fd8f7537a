//! Builds programs form by form. Each function says what its form is as plain data.
//!
//! Parts are taken as results and given as results. Where there was no memory for a part, the whole
//! fails too, so a caller composes calls without an early return.
#![tactic(auto)]

pub mod expression;
pub mod name;
pub mod program;
pub mod statement;
