//! What stands at the start of the bytes that are left of a text.

ghost use Rattle.std.specs.Prelude.{◌<◌, length, slice_index};
ghost use Rattle.spf_text.specs.Tokens.{IsLetter, IsDigit};
ghost use Rattle.spf_text.specs.Fronts.{IsFront};

use crate::bytes::{digits_length, is_blank, is_digit, is_letter, line_length, word_length};
use crate::signs::sign_at;
use crate::token::TokenKind;
use crate::words::{keyword_of, number_of};

/// What stands at the start of some bytes.
#[derive(Clone, Copy)]
pub enum Front {
    /// A blank, of one byte.
    Blank,
    /// A comment, and how many bytes it has.
    Comment(usize),
    /// A token, and how many bytes it has.
    Lexeme(TokenKind, usize),
    /// A number over `i64::MAX`.
    TooLarge,
    /// A byte that begins none of these.
    Nothing,
}

/// Returns what stands at the start of these bytes.
pub fn front_of(bytes: &[u8]) -> Front
    requires { 0 < length bytes.now }
    ensures { IsFront bytes.now result }
{
    let first = bytes[0];
    if is_blank(first) {
        Front::Blank
    } else if first == b'#' {
        Front::Comment(line_length(bytes))
    } else if is_letter(first) {
        word_front(bytes)
    } else if is_digit(first) {
        number_front(bytes)
    } else if let Some((sign, length)) = sign_at(bytes) {
        Front::Lexeme(TokenKind::Sign(sign), length)
    } else {
        Front::Nothing
    }
}

/// The name or reserved word at the start of bytes that begin with a letter.
fn word_front(bytes: &[u8]) -> Front
    requires some { 0 < length bytes.now }
    requires letter { IsLetter (slice_index bytes.now 0) }
    ensures { IsFront bytes.now result }
{
    let length = word_length(bytes);
    match keyword_of(&bytes[..length]) {
        Some(keyword) => Front::Lexeme(TokenKind::Keyword(keyword), length),
        None => Front::Lexeme(TokenKind::Name, length),
    }
}

/// The number at the start of bytes that begin with a digit.
fn number_front(bytes: &[u8]) -> Front
    requires some { 0 < length bytes.now }
    requires digit { IsDigit (slice_index bytes.now 0) }
    ensures { IsFront bytes.now result }
{
    let length = digits_length(bytes);
    match number_of(&bytes[..length]) {
        Some(value) => Front::Lexeme(TokenKind::Number(value), length),
        None => Front::TooLarge,
    }
}
