//! The grammar of the language: which texts say which programs.
#![tactic(auto)]

use spf_text::token::TokenKind;

/// A token as the grammar reads it: what it is, its bytes, the offset of its first byte, and its
/// line.
#[derive(Clone, Copy, Debug)]
pub struct Lexeme<'a> {
    /// What it is.
    pub kind: TokenKind,
    /// Its slice of the text.
    pub bytes: &'a [u8],
    /// The offset of its first byte.
    pub from: usize,
    /// Its line, counted from 1.
    pub line: u32,
}
