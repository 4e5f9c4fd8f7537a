//! Signs.

ghost use Rattle.std.specs.Prelude.{◌≡◌, ◌<◌, ◌≤◌, MatchOption, [], ◌∷◌};
ghost use Rattle.spf_text.specs.declared.token.Sign.{Sign};
ghost use Rattle.spf_text.specs.Tokens.{sign_spelling, BeginsWith};
ghost use Rattle.spf_text.specs.Runs.{IsLongestSign};

use crate::token::Sign;

/// The sign of one byte, if it is one.
fn short_sign(byte: u8) -> Option<Sign>
    ensures { MatchOption result
        ((s : Sign) → sign_spelling s ≡ byte ∷ [] → ⊥)
        (λ s. sign_spelling s ≡ byte ∷ []) }
{
    match byte {
        b'+' => Some(Sign::Plus),
        b'-' => Some(Sign::Minus),
        b'*' => Some(Sign::Star),
        b'/' => Some(Sign::Slash),
        b'%' => Some(Sign::Percent),
        b'&' => Some(Sign::And),
        b'|' => Some(Sign::Or),
        b'^' => Some(Sign::Xor),
        b'<' => Some(Sign::Less),
        b'>' => Some(Sign::Greater),
        b'!' => Some(Sign::Not),
        b'=' => Some(Sign::Assign),
        b'(' => Some(Sign::OpenParen),
        b')' => Some(Sign::CloseParen),
        b'[' => Some(Sign::OpenBracket),
        b']' => Some(Sign::CloseBracket),
        b'{' => Some(Sign::OpenBrace),
        b'}' => Some(Sign::CloseBrace),
        b',' => Some(Sign::Comma),
        b';' => Some(Sign::Semicolon),
        _ => None,
    }
}

/// The sign of two bytes, if they are one.
fn long_sign(first: u8, second: u8) -> Option<Sign>
    ensures { MatchOption result
        ((s : Sign) → sign_spelling s ≡ first ∷ second ∷ [] → ⊥)
        (λ s. sign_spelling s ≡ first ∷ second ∷ []) }
{
    match (first, second) {
        (b'<', b'<') => Some(Sign::ShiftLeft),
        (b'>', b'>') => Some(Sign::ShiftRight),
        (b'=', b'=') => Some(Sign::Equal),
        (b'!', b'=') => Some(Sign::NotEqual),
        (b'<', b'=') => Some(Sign::LessEqual),
        (b'>', b'=') => Some(Sign::GreaterEqual),
        (b'&', b'&') => Some(Sign::AndAnd),
        (b'|', b'|') => Some(Sign::OrOr),
        (b'.', b'.') => Some(Sign::DotDot),
        _ => None,
    }
}

/// Returns the longest sign at the front, if one stands there, and its length.
pub fn sign_at(bytes: &[u8]) -> Option<(Sign, usize)>
    ensures { MatchOption result
        ((s : Sign) → BeginsWith (sign_spelling s) bytes.now → ⊥)
        (λ found. IsLongestSign found.0 found.1 bytes.now) }
{
    match bytes {
        [first, second, ..] if let Some(sign) = long_sign(*first, *second) => Some((sign, 2)),
        [first, ..] => Some((short_sign(*first)?, 1)),
        [] => None,
    }
}
