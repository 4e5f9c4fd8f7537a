//! From a text to its tokens.

ghost use Rattle.std.specs.Prelude.{All, ◌≡◌, ℕ, ◌<◌, ◌≤◌, ◌⊎◌, List, length, IfOk, MatchResult};
ghost use Rattle.std.specs.Prelude.{IsOkUnless};
ghost use Rattle.spf_text.specs.declared.token.Token.{Token};
ghost use Rattle.spf_text.specs.Tokens.{AreTokensOf, AreInOrder, IsSpelledIn, IsFaultyAt};
ghost use Rattle.spf_text.specs.Tokens.{BeginsNothing, BeginsTooLarge, max_text};
ghost use Rattle.spf_text.specs.Refusals.{IsRefusedWith};

use crate::front::{Front, front_of};
use crate::token::Token;
use std::alloc::Global;
use thiserror::Error;

/// How many bytes a text may have.
const MAX_TEXT: usize = 1_048_576;

/// Why a text has no tokens.
#[derive(Clone, Copy, PartialEq, Eq, Debug, Error)]
pub enum ScanError {
    /// At byte `at`, outside every comment, stands a byte that begins no token.
    #[error("text byte {at}: bad byte")]
    BadByte { at: usize },
    /// The number whose first digit is byte `at` is over 9,223,372,036,854,775,807.
    #[error("text byte {at}: number too large")]
    NumberTooLarge { at: usize },
    /// The text has more than 1,048,576 bytes, and `at` is that number.
    #[error("text byte {at}: text too long")]
    TooLong { at: usize },
    /// There was no memory for the tokens.
    #[error("out of memory")]
    OutOfMemory,
}

/// Returns the tokens of a text, in order, each with its slice of the text.
///
/// # Errors
///
/// `TooLong` comes first. Otherwise the first offset decides at which a byte begins no blank, no
/// comment and no token, or a number is too large; there `OutOfMemory` may come instead.
pub fn scan(alloc: Global, text: &[u8]) -> Result<Vec<Token>, ScanError>
    // What is given are the text's tokens, and a text has no others.
    ensures tokens { IfOk result (λ v. AreTokensOf text.now v.items) }
    ensures only { IfOk result
        (λ v. (ts : List Token) → AreTokensOf text.now ts → ts ≡ v.items) }
    ensures in_order { IfOk result (λ v. AreInOrder 0 (length text.now) v.items) }
    ensures slices { IfOk result (λ v. All (IsSpelledIn text.now) v.items) }
    ensures short { IfOk result (λ v. length text.now ≤ max_text) }
    // When each error comes.
    ensures too_long { (at : ℕ) → result ≡ Err (ScanError.TooLong at)
        → (max_text < length text.now) × (at ≡ max_text) }
    ensures bad_byte { (at : ℕ) → result ≡ Err (ScanError.BadByte at)
        → (length text.now ≤ max_text) × IsFaultyAt BeginsNothing text.now at }
    ensures too_large { (at : ℕ) → result ≡ Err (ScanError.NumberTooLarge at)
        → (length text.now ≤ max_text) × IsFaultyAt BeginsTooLarge text.now at }
    // No other text is refused for this, and no other text is accepted.
    ensures accepted { (ts : List Token) → length text.now ≤ max_text → AreTokensOf text.now ts
        → IsOkUnless result ScanError.OutOfMemory }
    ensures too_long_refused { max_text < length text.now
        → result ≡ Err (ScanError.TooLong max_text) }
    ensures bad_byte_refused { (at : ℕ) → length text.now ≤ max_text
        → IsFaultyAt BeginsNothing text.now at
        → (result ≡ Err (ScanError.BadByte at)) ⊎ (result ≡ Err ScanError.OutOfMemory) }
    ensures too_large_refused { (at : ℕ) → length text.now ≤ max_text
        → IsFaultyAt BeginsTooLarge text.now at
        → (result ≡ Err (ScanError.NumberTooLarge at)) ⊎ (result ≡ Err ScanError.OutOfMemory) }
{
    if text.len() > MAX_TEXT {
        return Err(ScanError::TooLong { at: MAX_TEXT });
    }
    tokens_of(alloc, text)
}

/// The tokens of a text of any length.
fn tokens_of(alloc: Global, text: &[u8]) -> Result<Vec<Token>, ScanError>
    ensures { MatchResult result (λ v. AreTokensOf text.now v.items)
        (λ e. IsRefusedWith text.now e) }
{
    let mut tokens = Vec::new(alloc);
    let mut at = 0;
    while at < text.len() {
        match front_of(&text[at..]) {
            Front::Blank => at += 1,
            Front::Comment(length) => at += length,
            Front::Lexeme(kind, length) => {
                let to = at + length;
                tokens
                    .push(Token { kind, from: at, to })
                    .map_err(|_| ScanError::OutOfMemory)?;
                at = to;
            }
            Front::TooLarge => return Err(ScanError::NumberTooLarge { at }),
            Front::Nothing => return Err(ScanError::BadByte { at }),
        }
    }
    Ok(tokens)
}
