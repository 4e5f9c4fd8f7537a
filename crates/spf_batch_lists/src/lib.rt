//! Lists of file names.
//!
//! A list is a text with one name on each line. A line ends with byte 0A, which the last line may
//! lack; a byte 0D is part of its line. A name is in UTF-8, isn't empty and doesn't begin with `-`.
//! A list has at most 1,000 names, and an empty text has none.
//!
//! ```text
//! a.txt
//! b.txt
//! ```
#![tactic(auto)]

pub mod laws;
pub mod names;

pub use names::{ListError, read_names};
