//! Decoders as built programs: PackBits, HUF1 and LEX1, each lawful and accepted by the rules for
//! every block size.
#![tactic(auto)]

mod decoders;
pub mod laws;

pub use decoders::{huffman, lexer, packbits};
