//! From raw programs to resolved ones: names get the numbers of what they stand for, and kinds are
//! checked.
#![tactic(auto)]

pub mod laws;
mod limits;
mod program;

pub use program::resolve;
pub use spf_types_names::fault::{TypeError, TypeFault};
