//! The format SPL1: logs of speculative runs, as bytes.
//!
//! A log is a list of sections, one for each construct that ran by blocks, and a section is a list
//! of steps: the events of its blocks in the order in which they happened. The bytes are `SPL1`,
//! and then the sections, one after another. A section is the number of its steps in 8 bytes, and
//! then its steps in 19 bytes each:
//!
//! | Offset | Bytes | Field |
//! |---|---|---|
//! | 0 | 1 | the kind: 1 a load, 2 a store, 3 a turn |
//! | 1 | 2 | the block, below 4,096 |
//! | 3 | 8 | the cell; 0 for a turn |
//! | 11 | 8 | the word in two's complement, or the turn's number |
//!
//! The highest byte of a number comes first. A log has one spelling, and bytes have one reading.
#![tactic(auto)]

pub mod laws;
pub mod log;
mod number;
pub mod reader;
#[cfg(test)]
mod tests;
pub mod writer;
