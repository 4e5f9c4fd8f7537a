//! The words of the command line that ask for predictors to be supplied.
#![tactic(auto)]

pub mod host_words;

pub use host_words::{HostKind, HostWords, read_hosts};
