//! Byte formats of the decoders: Huffman coded texts, lexers' machines, and a generator of large
//! inputs.
#![tactic(auto)]

mod bits;
pub mod encoder;
pub mod generate;
pub mod huf1;
pub mod laws;
pub mod lex1;
mod signature;
pub mod toy;
mod writer;
