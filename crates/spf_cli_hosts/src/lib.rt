//! The predictors that the command line asks for.
#![tactic(auto)]

mod host;

pub use host::Host;
