//! The help of the program and of its commands, and its version.
#![tactic(auto)]

pub mod help;
mod texts;

pub use help::{Page, read_page, usage};
