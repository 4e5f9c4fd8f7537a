//! How output is put on a sink: in pieces of 4,096 bytes, of which only the last may be shorter.
#![tactic(auto)]

pub mod pieces;

pub use pieces::put_pieces;
