//! The kinds of bytes, and how far each kind goes on.

ghost use Rattle.std.specs.Prelude.{◌≡◌, ◌↔◌, IsTrue, length, ◌≢◌};
ghost use Rattle.spf_text.specs.Tokens.{IsBlank, IsDigit, IsLetter, IsWordByte};
ghost use Rattle.spf_text.specs.Runs.{IsLongestRun};

/// Returns whether a byte is a space, a tab or a part of a line end.
pub fn is_blank(byte: u8) -> bool
    ensures { IsTrue result ↔ IsBlank byte }
{
    matches!(byte, b' ' | b'\t' | b'\n' | b'\r')
}

/// Returns whether a byte is a decimal digit.
pub fn is_digit(byte: u8) -> bool
    ensures { IsTrue result ↔ IsDigit byte }
{
    byte.is_ascii_digit()
}

/// Returns whether a name may begin with this byte.
pub fn is_letter(byte: u8) -> bool
    ensures { IsTrue result ↔ IsLetter byte }
{
    byte.is_ascii_alphabetic() || byte == b'_'
}

/// Returns whether a name may go on with this byte.
pub fn is_word_byte(byte: u8) -> bool
    ensures { IsTrue result ↔ IsWordByte byte }
{
    is_letter(byte) || is_digit(byte)
}

/// Returns how many bytes at the front a name may have.
pub fn word_length(bytes: &[u8]) -> usize
    ensures { IsLongestRun IsWordByte bytes.now result }
{
    bytes.iter().take_while(|byte| is_word_byte(**byte)).count()
}

/// Returns how many digits stand at the front.
pub fn digits_length(bytes: &[u8]) -> usize
    ensures { IsLongestRun IsDigit bytes.now result }
{
    bytes.iter().take_while(|byte| is_digit(**byte)).count()
}

/// Returns how many bytes stand before the first byte 0A.
pub fn line_length(bytes: &[u8]) -> usize
    ensures { IsLongestRun (λ b. b ≢ 10) bytes.now result }
{
    bytes.iter().take_while(|byte| **byte != b'\n').count()
}
