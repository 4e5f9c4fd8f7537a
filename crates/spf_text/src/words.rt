//! Reserved words and numbers.

ghost use Rattle.std.specs.Prelude.{◌≡◌, ◌<◌, ◌≤◌, MatchOption, pos, All};
ghost use Rattle.spf_text.specs.declared.token.Keyword.{Keyword};
ghost use Rattle.spf_text.specs.Tokens.{word_spelling, IsDigit, number_from, max_number};

use crate::token::Keyword;

/// Returns the reserved word that is spelled so, if one is.
pub fn keyword_of(word: &[u8]) -> Option<Keyword>
    ensures { MatchOption result
        ((w : Keyword) → word.now ≡ word_spelling w → ⊥)
        (λ w. word.now ≡ word_spelling w) }
{
    match word {
        b"array" => Some(Keyword::Array),
        b"fn" => Some(Keyword::Fn),
        b"main" => Some(Keyword::Main),
        b"let" => Some(Keyword::Let),
        b"fill" => Some(Keyword::Fill),
        b"emit" => Some(Keyword::Emit),
        b"fail" => Some(Keyword::Fail),
        b"if" => Some(Keyword::If),
        b"else" => Some(Keyword::Else),
        b"for" => Some(Keyword::For),
        b"in" => Some(Keyword::In),
        b"while" => Some(Keyword::While),
        b"max" => Some(Keyword::Max),
        b"specfold" => Some(Keyword::Specfold),
        b"spec" => Some(Keyword::Spec),
        b"predict" => Some(Keyword::Predict),
        b"host" => Some(Keyword::Host),
        b"give" => Some(Keyword::Give),
        b"next" => Some(Keyword::Next),
        b"return" => Some(Keyword::Return),
        b"len" => Some(Keyword::Len),
        b"input" => Some(Keyword::Input),
        b"break" => Some(Keyword::Break),
        b"version" => Some(Keyword::Version),
        _ => None,
    }
}

/// Returns the number that digits spell, if it is not over `i64::MAX`.
pub fn number_of(digits: &[u8]) -> Option<i64>
    requires { All IsDigit digits.now }
    ensures { let number = number_from 0 digits.now in MatchOption result
        (max_number < number)
        (λ n. (n ≡ pos number) × (number ≤ max_number)) }
{
    let mut value: u64 = 0;
    for digit in digits {
        value = value
            .checked_mul(10)?
            .checked_add(u64::from(*digit - b'0'))?;
    }
    i64::try_from(value).ok()
}
