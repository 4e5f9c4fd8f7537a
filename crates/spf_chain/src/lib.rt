//! The validation chain of a construct over shared cells: tickets come home with their reports, and
//! the blocks are validated in order.
#![tactic(auto)]

pub mod block;
mod cells;
pub mod chain;
pub mod file;
pub mod finish;
pub mod history;
mod home;
pub mod laws;
pub mod start;
mod validation;
