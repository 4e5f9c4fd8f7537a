//! Pairs of words `--host KIND`, which stand before the command.
ghost use Rattle.std.specs.Prelude.{◌≡◌, ◌≤◌, ◌++◌, ℕ, List, length, codes, Err, map, drop};
ghost use Rattle.std.specs.Prelude.{string_bytes, ℤ, MatchOption, IfOk, IfErr};
ghost use Rattle.spf_cli_words.specs.declared.command.WordsError.TheVariants.{NotUnderstood};
ghost use Rattle.spf_cli_host_words.specs.HostWords.{Kind, IsNumber, IsWord, Names, EndPairs};
ghost use Rattle.spf_cli_host_words.specs.HostWords.{NextPair, IsBroken, SayOnly, SayNothing};
ghost use Rattle.spf_cli_host_words.specs.Seen.{seen_kind, seen};

use spf_cli_words::WordsError;
use std::alloc::Global;

/// A kind of predictor.
#[derive(Clone, Copy, PartialEq, Eq, Debug)]
pub enum HostKind {
    /// It guesses this value.
    Fixed(i64),
    /// It guesses the value that it was told last.
    Last,
    /// It guesses the value that it was told most often.
    Most,
    /// It guesses for each block the value that it was told last for a block of this number.
    Table,
    /// It guesses for each block the value that it was told most often for a block of this number.
    Vote,
}

/// The predictors that words ask for; host 0 is the first.
#[derive(Drop)]
pub struct HostWords {
    /// Their kinds.
    pub kinds: Vec<HostKind>,
    /// How many words the pairs take. The words after them are those of the command.
    pub rest: u64,
}

/// The number that a text is: decimal digits, optionally after a minus.
fn read_number(text: &str) -> Option<i64>
    ensures { MatchOption result
        ((n : ℤ) → IsNumber text.now n → IsWord n → ⊥)
        (λ n. IsNumber text.now n) }
{
    match text.as_bytes().first() {
        Some(first) if *first != b'+' => text.parse().ok(),
        _ => None,
    }
}

/// What stands after `fixed:` in a text that begins with it.
fn after_fixed(text: &str) -> Option<&str>
    ensures { MatchOption result
        ((number : List ℕ) → text.now ≡ codes "fixed:" ++ number → ⊥)
        (λ number. text.now ≡ codes "fixed:" ++ number.now) }
{
    text.strip_prefix("fixed:")
}

/// The kind that a text names.
fn read_kind(text: &str) -> Option<HostKind>
    ensures { MatchOption result
        ((kind : Kind) → Names text.now kind → ⊥)
        (λ kind. Names text.now (seen_kind kind)) }
{
    match text {
        "last" => return Some(HostKind::Last),
        "most" => return Some(HostKind::Most),
        "table" => return Some(HostKind::Table),
        "vote" => return Some(HostKind::Vote),
        _ => {}
    }
    let value = read_number(after_fixed(text)?)?;
    Some(HostKind::Fixed(value))
}

/// The kind that the next pair of words asks for, or none where the words begin otherwise.
fn next_kind(words: &[String]) -> Result<Option<HostKind>, WordsError>
    ensures next { IfOk result (λ next. MatchOption next
        (EndPairs (map string_bytes words.now))
        (λ kind. NextPair (map string_bytes words.now) (seen_kind kind))) }
    ensures broken { IfErr result (λ error. IsBroken (map string_bytes words.now)) }
{
    let Some((word, others)) = words.split_first() else {
        return Ok(None);
    };
    if word.as_str() != "--host" {
        return Ok(None);
    }
    let Some((text, _)) = others.split_first() else {
        return Err(WordsError::NotUnderstood);
    };
    match read_kind(text.as_str()) {
        Some(kind) => Ok(Some(kind)),
        None => Err(WordsError::NotUnderstood),
    }
}

/// The words from an index on.
fn words_from(words: &[String], index: usize) -> &[String]
    requires { index ≤ length words.now }
    ensures { result.now ≡ drop index words.now }
{
    &words[index..]
}

/// Reads the pairs `--host KIND` with which the words begin, where KIND is `fixed:V` with a decimal
/// number of 64 bits, `last`, `most`, `table` or `vote`.
///
/// # Errors
///
/// `NotUnderstood` where a pair has no second word, or one that names no kind, and `OutOfMemory`.
pub fn read_hosts(alloc: Global, words: &[String]) -> Result<HostWords, WordsError>
    ensures says { IfOk result (λ found. SayOnly (map string_bytes words.now) (seen found)) }
    ensures refused { result ≡ Err NotUnderstood → SayNothing (map string_bytes words.now) }
{
    let mut kinds = Vec::new(alloc);
    let mut rest = 0;
    while let Some(kind) = next_kind(words_from(words, rest))? {
        kinds.push(kind)?;
        rest += 2;
    }
    Ok(HostWords {
        kinds,
        rest: rest as u64,
    })
}
