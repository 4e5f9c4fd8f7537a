//! Reads the names of a list.
ghost use Rattle.std.specs.Prelude.{◌≡◌, ◌≢◌, ◌<◌, ◌≤◌, ◌∷◌, length, map, take, drop};
ghost use Rattle.std.specs.Prelude.{string_bytes, All, MatchOption, MatchResult};
ghost use Rattle.spf_batch_lists.specs.Lists.{IsName, EndsLine, AreNames};
ghost use Rattle.spf_batch_lists.specs.Causes.{IsRefusedWith};
ghost use Rattle.spf_batch_lists.specs.declared.names.ListError.TheVariants.{OutOfMemory};

use std::alloc::{AllocError, AllocFailed, Global};
use thiserror::Error;

/// How many names a list may have.
const MAX_NAMES: usize = 1000;

/// Why bytes are not a list of names.
#[derive(Clone, Copy, PartialEq, Eq, Debug, Error)]
pub enum ListError {
    /// This line, counted from 1, isn't a name, or comes after 1,000 names.
    #[error("list line {line}: not a name")]
    NotAName { line: u64 },
    /// Memory ran out.
    #[error("out of memory")]
    OutOfMemory,
}

impl From<AllocError> for ListError {
    ghost from_gives = { λ _ error. error ≡ OutOfMemory };

    fn from(_: AllocError) -> Self {
        ListError::OutOfMemory
    }
}

impl<T: Drop> From<AllocFailed<T>> for ListError {
    ghost from_gives = { λ _ error. error ≡ OutOfMemory };

    fn from(_: AllocFailed<T>) -> Self {
        ListError::OutOfMemory
    }
}

/// The name that a line is, if it is one.
fn name_of(line: &[u8]) -> Option<&str>
    ensures { MatchOption result (IsName line.now → ⊥)
        (λ name. (name.now ≡ line.now) × IsName line.now) }
{
    match line.first() {
        None | Some(b'-') => None,
        Some(_) => match str::from_utf8(line) {
            Ok(name) => Some(name),
            Err(_) => None,
        },
    }
}

/// The length of the first line, without its end.
fn line_length(text: &[u8]) -> usize
    ensures within { result ≤ length text.now }
    ensures line { All (λ b. b ≢ 10) (take result text.now) }
    ensures ends { EndsLine (drop result text.now) }
{
    text.iter().take_while(|byte| **byte != b'\n').count()
}

/// The text after the end of a line.
fn after_end(text: &[u8]) -> &[u8]
    ensures { result.now ≡ drop 1 text.now }
{
    match text.split_first() {
        Some((_, others)) => others,
        None => text,
    }
}

/// Reads the names of a list.
///
/// # Errors
///
/// `NotAName` with the number of the first line, counted from 1, that isn't a name or is the
/// 1,001st; `OutOfMemory`.
pub fn read_names(alloc: Global, list: &[u8]) -> Result<Vec<String>, ListError>
    ensures { MatchResult result (λ names. AreNames list.now (map string_bytes names.items))
        (IsRefusedWith list.now) }
{
    let mut names = Vec::new(alloc);
    let mut rest = list;
    while !rest.is_empty() {
        let length = line_length(rest);
        let (line, others) = rest.split_at(length);
        let Some(name) = name_of(line) else {
            return Err(ListError::NotAName {
                line: names.len() as u64 + 1,
            });
        };
        if names.len() >= MAX_NAMES {
            return Err(ListError::NotAName {
                line: names.len() as u64 + 1,
            });
        }
        names.push(String::from_str(alloc, name)?)?;
        rest = after_end(others);
    }
    Ok(names)
}
