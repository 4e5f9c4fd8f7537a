//! The whole program, over files and sinks that are supplied.
#![tactic(auto)]

mod batch;
mod bytes;
mod putting;
mod top;

pub use bytes::run_file;
pub use top::spf_main;
