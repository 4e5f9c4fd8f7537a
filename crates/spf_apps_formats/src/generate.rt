//! Inputs of any size that are drawn from a number, for trials.
ghost use Rattle.std.specs.Prelude.{◌≡◌, ◌≤◌, ◌<◌, ◌+◌, ◌++◌, length, IfOk, OnOk};
ghost use Rattle.spf_apps_formats.specs.Draws.{next_state, given_by, state_after, drawn_bytes};
ghost use Rattle.spf_apps_formats.specs.Draws.{picked_bytes, literal, repeat, packet_from};
ghost use Rattle.spf_apps_formats.specs.Draws.{IsPacked, IsGenerated, five_lengths, five_symbols};
ghost use Rattle.spf_apps_formats.specs.Draws.{letters};
ghost use Rattle.spf_apps_formats.specs.Huf1.{Encodes};

use crate::encoder::encode;
use std::alloc::{AllocError, Global};

/// The decoder that an input is for.
#[derive(Clone, Copy, PartialEq, Eq, Debug)]
pub enum Kind {
    /// A PackBits file.
    Unpack,
    /// A HUF1 file.
    Unhuff,
    /// The content for a lexer, without its machine.
    Lex,
}

/// The bytes that letters are picked from.
const LETTERS: [u8; 16] = *b"abcdefgh  \n\"/*1+";

/// The symbols that are picked from: half of them 0, a quarter 1, an eighth 2, and then 3 and 4.
const FIVE_SYMBOLS: [u8; 16] = [0, 0, 0, 0, 0, 0, 0, 0, 1, 1, 1, 1, 2, 2, 3, 4];

/// A linear congruential generator with 64 bits of state, of which a draw gives the highest 32.
#[derive(Drop)]
pub struct Draws {
    /// The state after the last draw; the seed before the first.
    pub state: u64,
}

impl Draws {
    /// Returns the next draw.
    pub fn next(&mut self) -> u32
        ensures state { self.new.state ≡ next_state self.old.state }
        ensures draw { result ≡ given_by (next_state self.old.state) }
    {
        self.state = self
            .state
            .wrapping_mul(6364136223846793005)
            .wrapping_add(1442695040888963407);
        (self.state >> 32) as u32
    }
}

/// Adds bytes that are drawn.
fn push_drawn(file: &mut Vec<u8>, draws: &mut Draws, count: u32) -> Result<(), AllocError>
    ensures file { OnOk result
        (file.new.items ≡ file.old.items ++ drawn_bytes count draws.old.state) }
    ensures state { OnOk result (draws.new.state ≡ state_after count draws.old.state) }
{
    for _ in 0..count {
        file.push((draws.next() % 256) as u8)?;
    }
    Ok(())
}

/// Adds a packet of PackBits that is drawn: bytes to be copied where the draw is even, otherwise a
/// byte to be repeated.
fn push_packet(file: &mut Vec<u8>, draws: &mut Draws) -> Result<(), AllocError>
    ensures file { OnOk result
        (file.new.items ≡ file.old.items ++ (packet_from draws.old.state).0) }
    ensures state { OnOk result (draws.new.state ≡ (packet_from draws.old.state).1) }
{
    let draw = draws.next();
    if draw % 2 == 0 {
        let more = draw / 2 % 128;
        file.push(more as u8)?;
        push_drawn(file, draws, more + 1)
    } else {
        let times = 2 + draw / 2 % 127;
        file.push((257 - times) as u8)?;
        push_drawn(file, draws, 1)
    }
}

/// Packets of PackBits: the fewest that together have the size.
fn packets(alloc: Global, seed: u64, size: u64) -> Result<Vec<u8>, AllocError>
    ensures { IfOk result (λ file. IsPacked seed size file.items) }
{
    let mut file = Vec::new(alloc);
    let mut draws = Draws { state: seed };
    while (file.len() as u64) < size {
        push_packet(&mut file, &mut draws)?;
    }
    Ok(file)
}

/// Bytes of a table, each picked by a draw.
fn drawn_bytes(alloc: Global, seed: u64, size: u64, table: &[u8]) -> Result<Vec<u8>, AllocError>
    requires { length table.now ≡ 16 }
    ensures bytes { IfOk result (λ bytes. bytes.items ≡ picked_bytes table.now size seed) }
    ensures count { IfOk result (λ bytes. length bytes.items ≡ size) }
{
    let mut bytes = Vec::new(alloc);
    let mut draws = Draws { state: seed };
    for _ in 0..size {
        bytes.push(table[(draws.next() % 16) as usize])?;
    }
    Ok(bytes)
}

/// The code lengths of symbols 0 to 4; no other symbol has one.
fn five_lengths_array() -> [u8; 256]
    ensures { result ≡ five_lengths }
{
    let mut lengths = [0; 256];
    lengths[0] = 1;
    lengths[1] = 2;
    lengths[2] = 3;
    lengths[3] = 4;
    lengths[4] = 4;
    lengths
}

/// A HUF1 file of symbols 0 to 4.
fn huffman_coded(alloc: Global, seed: u64, size: u64) -> Result<Vec<u8>, AllocError>
    requires { size ≤ 1000000 }
    ensures { IfOk result
        (λ file. Encodes five_lengths (picked_bytes five_symbols size seed) file.items) }
{
    let symbols = drawn_bytes(alloc, seed, size, &FIVE_SYMBOLS)?;
    encode(alloc, &five_lengths_array(), &symbols)
}

/// Generates an input for a decoder, drawn from a seed: for `Unpack` packets that have together at
/// least `size` bytes, for `Unhuff` a file of `size` symbols, for `Lex` `size` bytes.
pub fn generate(alloc: Global, kind: Kind, seed: u64, size: u64) -> Result<Vec<u8>, AllocError>
    requires some { 1 ≤ size }
    requires few { size ≤ 1000000 }
    ensures { IfOk result (λ file. IsGenerated kind seed size file.items) }
{
    match kind {
        Kind::Unpack => packets(alloc, seed, size),
        Kind::Unhuff => huffman_coded(alloc, seed, size),
        Kind::Lex => drawn_bytes(alloc, seed, size, &LETTERS),
    }
}
