//! The seven rules, by which a program is accepted or refused.
#![tactic(auto)]

mod breach;
pub mod check;
pub mod checked;
mod construct;
pub mod explain;
pub mod laws;
pub mod plan;
pub mod rule;
pub mod text;
