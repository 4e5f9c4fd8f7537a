//! Texts of LEX1 machines, which can be read and edited. `show_machine` gives a machine's text, and
//! `build_machine` the machine of a text; each is the inverse of the other.
//!
//! Here is the text of a machine of two states that marks words of `A`. Each line ends with byte
//! 0A.
//!
//! ```text
//! states 2 classes 2
//! class 1 41
//! state 0 0/0 1/7
//! state 1 0/0 1/0
//! ```
//!
//! The first line has the numbers of states and of classes. A line for each class but class 0 has
//! the bytes of the class in ascending order, each as two hexadecimal digits; all other bytes are
//! of class 0. A line for each state has an entry for each class: the next state, and the mark
//! after a slash. In state 0, byte 41 (`A`) leads to state 1 and begins a token of kind 7; in state
//! 1 it begins none. Numbers are decimal without leading zeros, and nothing else is in a text.
#![tactic(auto)]

pub mod build;
pub mod laws;
mod reading;
pub mod show;

pub use build::{BuildError, build_machine};
pub use show::show_machine;
