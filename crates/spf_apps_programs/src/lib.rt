//! The decoders as programs of the language, each for every block size.
#![tactic(auto)]

mod blocks;
pub mod huffman;
pub mod laws;
pub mod lexer;
pub mod packbits;
