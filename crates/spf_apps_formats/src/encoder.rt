//! Encodes symbols as HUF1 files, with code lengths that are given.
ghost use Rattle.std.specs.Prelude.{◌≡◌, ◌≤◌, ◌<◌, ◌^◌, ◌+◌, ◌==◌, ◌++◌, length, map, MatchOption};
ghost use Rattle.std.specs.Prelude.{MatchResult, IfOk, OnOk};
ghost use Rattle.std.specs.List.{count_by, range_with_len};
ghost use Rattle.spf_apps_formats.specs.Huffman.{AreCodeLengths, HaveWords, LacksWordAt};
ghost use Rattle.spf_apps_formats.specs.Huffman.{words_of_length as words_with};
ghost use Rattle.spf_apps_formats.specs.Huffman.{first_word as first_word_of};
ghost use Rattle.spf_apps_formats.specs.Huffman.{word_number as number_of, code_words};
ghost use Rattle.spf_apps_formats.specs.Huf1.{Encodes, Holds};
ghost use Rattle.spf_apps_formats.specs.Decoded.{IsWhollyDecoded};
ghost use Rattle.spf_apps_formats.specs.Refusals.{IsRefusedWith};

use crate::bits::BitWriter;
use crate::huf1::{SIGNATURE, check_lengths};
use std::alloc::{AllocError, Global};
use thiserror::Error;

/// Why symbols can't be encoded.
#[derive(Clone, Copy, PartialEq, Eq, Debug, Error)]
pub enum EncodeError {
    /// No code has these lengths, and the file would be refused at this byte.
    #[error("no code has these lengths: byte {place} of the file")]
    BadLengths { place: u64 },
    /// The symbol at this index has no code word.
    #[error("symbol {at} has no code word")]
    NoCode { at: u64 },
    /// There was no memory for the file.
    #[error("out of memory")]
    OutOfMemory,
}

/// How many symbols have this length.
fn count_of(lengths: &[u8], width: u8) -> usize
    ensures count { result ≡ count_by (λ n. n == width) lengths.now }
    ensures few { result ≤ length lengths.now }
{
    lengths.iter().filter(|n| **n == width).count()
}

/// How many symbols have code words of this length; none has the empty one.
fn words_of_length(lengths: &[u8], width: u8) -> u32
    requires { length lengths.now ≡ 256 }
    ensures count { result ≡ words_with lengths.now width }
    ensures few { result ≤ 256 }
{
    if width == 0 {
        return 0;
    }
    count_of(lengths, width) as u32
}

/// The first code word of this length, as a number.
fn first_word(lengths: &[u8], width: u8) -> u32
    requires count { length lengths.now ≡ 256 }
    requires short { width ≤ 15 }
    ensures word { result ≡ first_word_of lengths.now width }
    ensures fits { result < 2 ^ 25 }
{
    let mut word = 0;
    for shorter in 0..width {
        word = 2 * (word + words_of_length(lengths, shorter));
    }
    word
}

/// The code word of a symbol, as a number.
fn word_number(lengths: &[u8], symbol: usize) -> u32
    requires count { length lengths.now ≡ 256 }
    requires lengths { AreCodeLengths lengths.now }
    requires symbol { symbol < 256 }
    ensures { result ≡ number_of lengths.now symbol }
{
    let width = lengths[symbol];
    first_word(lengths, width) + count_of(&lengths[..symbol], width) as u32
}

/// The code words of all symbols, as numbers.
fn code_table(alloc: Global, lengths: &[u8]) -> Result<Vec<u32>, AllocError>
    requires count { length lengths.now ≡ 256 }
    requires lengths { AreCodeLengths lengths.now }
    ensures words { IfOk result
        (λ words. words.items ≡ map (number_of lengths.now) (range_with_len 0 256)) }
    ensures count { IfOk result (λ words. length words.items ≡ 256) }
{
    let mut words = Vec::new(alloc);
    for symbol in 0..256usize {
        words.push(word_number(lengths, symbol))?;
    }
    Ok(words)
}

/// The index of the first symbol that has no code word.
fn first_without_word(lengths: &[u8], symbols: &[u8]) -> Option<usize>
    requires count { length lengths.now ≡ 256 }
    ensures { MatchOption result (HaveWords lengths.now (length symbols.now) symbols.now)
        (LacksWordAt lengths.now symbols.now) }
{
    for (index, symbol) in symbols.iter().enumerate() {
        if lengths[*symbol as usize] == 0 {
            return Some(index);
        }
    }
    None
}

/// The code words of symbols, in bytes.
fn code_words(alloc: Global, lengths: &[u8], symbols: &[u8]) -> Result<Vec<u8>, AllocError>
    requires count { length lengths.now ≡ 256 }
    requires lengths { AreCodeLengths lengths.now }
    ensures { IfOk result (λ bytes. Holds (code_words lengths.now symbols.now) bytes.items) }
{
    let words = code_table(alloc, lengths)?;
    let mut writer = BitWriter::new(alloc);
    for symbol in symbols {
        let symbol = *symbol as usize;
        writer.push_bits(words[symbol], u32::from(lengths[symbol]))?;
    }
    writer.finish()
}

/// Encodes symbols that have code words.
pub(crate) fn encode(alloc: Global, lengths: &[u8], symbols: &[u8]) -> Result<Vec<u8>, AllocError>
    requires count { length lengths.now ≡ 256 }
    requires few { length symbols.now < 2 ^ 32 }
    requires lengths { AreCodeLengths lengths.now }
    requires words { HaveWords lengths.now (length symbols.now) symbols.now }
    ensures { IfOk result (λ file. Encodes lengths.now symbols.now file.items) }
{
    let words = code_words(alloc, lengths, symbols)?;
    let mut file = Vec::new(alloc);
    file.extend_from_slice(SIGNATURE)?;
    file.extend_from_slice(lengths)?;
    file.extend_from_slice(&(symbols.len() as u32).to_be_bytes())?;
    file.extend_from_slice(&words)?;
    Ok(file)
}

/// Encodes symbols as a HUF1 file, each by the canonical code word of its length.
///
/// # Errors
///
/// `BadLengths` comes first, exactly where `huf1_check` would refuse a file for these lengths, with
/// the offset in the file. Otherwise `NoCode` comes exactly where a symbol has length 0, with the
/// index of the first such symbol.
pub fn encode_huf1(alloc: Global, lengths: &[u8], symbols: &[u8]) -> Result<Vec<u8>, EncodeError>
    requires lengths { length lengths.now ≡ 256 }
    requires symbols { length symbols.now < 2 ^ 32 }
    ensures encodes { MatchResult result (λ file. Encodes lengths.now symbols.now file.items)
        (IsRefusedWith lengths.now symbols.now) }
    ensures decodes { IfOk result (λ file. IsWhollyDecoded file.items symbols.now) }
{
    if let Err(symbol) = check_lengths(lengths) {
        return Err(EncodeError::BadLengths {
            place: 4 + symbol as u64,
        });
    }
    if let Some(at) = first_without_word(lengths, symbols) {
        return Err(EncodeError::NoCode { at: at as u64 });
    }
    match encode(alloc, lengths, symbols) {
        Ok(file) => Ok(file),
        Err(AllocError) => Err(EncodeError::OutOfMemory),
    }
}
