//! The format LEX1: a machine that reads bytes by their classes and marks where tokens begin.
//!
//! Bytes 0 to 3 are `LEX1`, byte 4 is the number of states, byte 5 the number of classes. Byte 6 +
//! b is the class of byte b. For state q and class c the two bytes at 262 + 2 * (q * classes + c)
//! are the next state and the mark: 0 where no token begins, otherwise the kind of the token that
//! begins there. A machine starts in state 0.
ghost use Rattle.std.specs.Prelude.{◌≡◌, ◌≤◌, ◌<◌, ◌+◌, ◌*◌, ◌++◌, length, MatchOption};
ghost use Rattle.std.specs.Prelude.{MatchResult, IfOk};
ghost use Rattle.spf_apps_formats.specs.Signatures.{AreBelow, IsFirstPast};
ghost use Rattle.spf_apps_formats.specs.Lex1.{IsLex1, IsNoLex1At, HasCount, HasNoCount, HasSize};
ghost use Rattle.spf_apps_formats.specs.Lex1.{class_at, next_at, size_of};

use crate::signature::departure;
use std::alloc::{AllocError, Global};

/// The bytes that a LEX1 file begins with.
const SIGNATURE: &[u8] = b"LEX1";

/// The most states, and the most classes, that a machine can have.
const MOST: u8 = 64;

/// How long the two counts and the classes are, with the signature.
const HEADER: usize = 262;

/// The count of 1 to 64 at an offset.
fn count_at(file: &[u8], offset: usize) -> Option<usize>
    ensures { MatchOption result (HasNoCount file.now offset) (HasCount file.now offset) }
{
    if offset >= file.len() {
        return None;
    }
    let count = file[offset];
    if count == 0 || count > MOST {
        return None;
    }
    Some(count as usize)
}

/// The offset of the first byte whose class doesn't exist.
fn bad_class(file: &[u8], classes: usize) -> Option<usize>
    requires header { 262 ≤ length file.now }
    ensures { MatchOption result (AreBelow class_at 256 classes file.now)
        (IsFirstPast class_at 256 classes file.now) }
{
    for byte in 0..256 {
        let offset = 6 + byte;
        if file[offset] as usize >= classes {
            return Some(offset);
        }
    }
    None
}

/// The offset of the first next state that isn't one of the states.
fn bad_next(file: &[u8], entries: usize, states: usize) -> Option<usize>
    requires size { length file.now ≡ 262 + 2 * entries }
    ensures { MatchOption result (AreBelow next_at entries states file.now)
        (IsFirstPast next_at entries states file.now) }
{
    for entry in 0..entries {
        let offset = HEADER + 2 * entry;
        if file[offset] as usize >= states {
            return Some(offset);
        }
    }
    None
}

/// Checks the classes and the next states of a file that has the size given by its counts.
fn check_entries(file: &[u8], states: usize, classes: usize) -> Result<(), usize>
    requires sized { HasSize file.now states classes }
    ensures { MatchResult result (λ _. IsLex1 file.now states classes) (IsNoLex1At file.now) }
{
    if let Some(offset) = bad_class(file, classes) {
        return Err(offset);
    }
    if let Some(offset) = bad_next(file, states * classes, states) {
        return Err(offset);
    }
    Ok(())
}

/// Tells whether a file is a LEX1 machine, and then its numbers of states and of classes.
///
/// # Errors
///
/// The offset of the first fault: the first byte of the signature that differs or is missing;
/// otherwise byte 4, and then byte 5, where it is missing or isn't 1 to 64; otherwise the end of
/// the file where it is too short, or the end that it should have where it is too long; otherwise
/// the first class that doesn't exist; otherwise the first next state that doesn't exist.
pub fn lex1_check(file: &[u8]) -> Result<(u64, u64), u64>
    ensures { MatchResult result (λ counts. IsLex1 file.now counts.0 counts.1)
        (IsNoLex1At file.now) }
{
    if let Some(offset) = departure(SIGNATURE, file) {
        return Err(offset as u64);
    }
    let Some(states) = count_at(file, 4) else {
        return Err(4);
    };
    let Some(classes) = count_at(file, 5) else {
        return Err(5);
    };
    let size = HEADER + 2 * (states * classes);
    if file.len() != size {
        return Err(file.len().min(size) as u64);
    }
    match check_entries(file, states, classes) {
        Ok(()) => Ok((states as u64, classes as u64)),
        Err(offset) => Err(offset as u64),
    }
}

/// Returns the input of a lexer: its machine, followed by the content that it reads.
pub fn lex_input(alloc: Global, machine: &[u8], content: &[u8]) -> Result<Vec<u8>, AllocError>
    ensures joined { IfOk result (λ input. input.items ≡ machine.now ++ content.now) }
{
    let mut input = Vec::new(alloc);
    input.extend_from_slice(machine)?;
    input.extend_from_slice(content)?;
    Ok(input)
}
