//! The format HUF1: `HUF1`, the code lengths of 256 symbols, a count of symbols, and their code
//! words.
//!
//! Byte 4 + y is the length of symbol y in bits, 0 where it has no code word. Bytes 260 to 263 are
//! the count, the highest byte first. The code words follow from byte 264 on, the highest bit of
//! each byte first. They are canonical: by length, and within a length by symbol, they ascend.
ghost use Rattle.std.specs.Prelude.{◌≡◌, ◌≤◌, ◌^◌, MatchOption, MatchResult, length};
ghost use Rattle.spf_apps_formats.specs.Huffman.{share as share_of, space, AreShort};
ghost use Rattle.spf_apps_formats.specs.Huffman.{AreCodeLengths, AreRefusedAt, IsTooLongAt};
ghost use Rattle.spf_apps_formats.specs.Huffman.{IsOversubscribedAt};
ghost use Rattle.spf_apps_formats.specs.Huf1.{IsHuf1, IsNoHuf1At};

use crate::signature::departure;

/// The bytes that a HUF1 file begins with.
pub(crate) const SIGNATURE: &[u8] = b"HUF1";

/// Where the code words begin.
const HEADER: usize = 264;

/// The length of the longest code words.
const LONGEST: u8 = 15;

/// How many strings of 15 bits there are.
const WHOLE: u32 = 1 << 15;

/// Of the strings of 15 bits, how many begin with a code word of this length.
fn share(length: u8) -> u32
    requires { length ≤ 15 }
    ensures { result ≡ share_of length }
{
    if length == 0 {
        return 0;
    }
    1 << (LONGEST - length)
}

/// The first symbol whose length is over 15.
fn first_too_long(lengths: &[u8]) -> Option<usize>
    ensures { MatchOption result (AreShort (length lengths.now) lengths.now)
        (IsTooLongAt lengths.now) }
{
    for (symbol, length) in lengths.iter().enumerate() {
        if *length > LONGEST {
            return Some(symbol);
        }
    }
    None
}

/// The first symbol for whose code word the ones before it leave no room.
fn first_oversubscribed(lengths: &[u8]) -> Option<usize>
    requires short { AreShort (length lengths.now) lengths.now }
    ensures { MatchOption result (space lengths.now ≤ 2 ^ 15) (IsOversubscribedAt lengths.now) }
{
    let mut taken = 0;
    for (symbol, length) in lengths.iter().enumerate() {
        taken += share(*length);
        if taken > WHOLE {
            return Some(symbol);
        }
    }
    None
}

/// Tells whether a code has these lengths; if not, the first symbol at which none can.
pub(crate) fn check_lengths(lengths: &[u8]) -> Result<(), usize>
    ensures { MatchResult result (λ _. AreCodeLengths lengths.now) (AreRefusedAt lengths.now) }
{
    if let Some(symbol) = first_too_long(lengths) {
        return Err(symbol);
    }
    if let Some(symbol) = first_oversubscribed(lengths) {
        return Err(symbol);
    }
    Ok(())
}

/// Tells whether a file begins with a HUF1 header.
///
/// # Errors
///
/// The offset of the first fault: the first byte of the signature that differs or is missing;
/// otherwise the file's length where it ends within the header; otherwise the first length over 15;
/// otherwise the first length for whose code word the ones before it leave no room.
pub fn huf1_check(file: &[u8]) -> Result<(), u64>
    ensures { MatchResult result (λ _. IsHuf1 file.now) (IsNoHuf1At file.now) }
{
    if let Some(offset) = departure(SIGNATURE, file) {
        return Err(offset as u64);
    }
    if file.len() < HEADER {
        return Err(file.len() as u64);
    }
    match check_lengths(&file[4..260]) {
        Ok(()) => Ok(()),
        Err(symbol) => Err(4 + symbol as u64),
    }
}
