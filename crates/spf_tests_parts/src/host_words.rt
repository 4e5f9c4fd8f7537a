//! Words that ask for hosts, and words whose pairs are broken.
use crate::usage::words_of;
use spf_cli_host_words::{HostKind, read_hosts};
use spf_cli_words::WordsError;
use std::alloc::Global;

/// How many kinds words ask for, the first two of them, and how many words their pairs take.
type Asked = (usize, [Option<HostKind>; 2], u64);

/// What words ask for.
fn ask(alloc: Global, texts: &[&str]) -> Result<Asked, WordsError> {
    let words = words_of(alloc, texts)?;
    let found = read_hosts(alloc, &words)?;
    let kinds = found.kinds.as_slice();
    let first_two = [kinds.get(0).copied(), kinds.get(1).copied()];
    Ok((kinds.len(), first_two, found.rest))
}

/// Words, and what they ask for.
const PAIRS: [(&[&str], Result<Asked, WordsError>); 5] = [
    (
        &["--host", "fixed:-7", "--host", "last", "run", "P"],
        Ok((2, [Some(HostKind::Fixed(-7)), Some(HostKind::Last)], 4)),
    ),
    (&["run", "--host", "last"], Ok((0, [None, None], 0))),
    // pairs without a kind
    (&["--host"], Err(WordsError::NotUnderstood)),
    (
        &["--host", "table", "--host", "run", "P"],
        Err(WordsError::NotUnderstood),
    ),
    (
        &["--host", "table", "--host"],
        Err(WordsError::NotUnderstood),
    ),
];

#[test]
fn pairs_are_read_up_to_the_command(rt: HostRuntime) {
    for (number, (words, wanted)) in PAIRS.iter().enumerate() {
        assert!(rt; ask(rt.alloc(), words) == *wanted, "row {number}");
    }
}

/// Returns whether a text names this kind.
fn is_named(alloc: Global, text: &str, kind: Option<HostKind>) -> bool {
    let wanted = match kind {
        Some(_) => Ok((1, [kind, None], 2)),
        None => Err(WordsError::NotUnderstood),
    };
    ask(alloc, &["--host", text]) == wanted
}

/// Texts, and the kinds that they name; `None` stands for a text that isn't understood.
const TEXTS: [(&str, Option<HostKind>); 20] = [
    ("last", Some(HostKind::Last)),
    ("most", Some(HostKind::Most)),
    ("table", Some(HostKind::Table)),
    ("vote", Some(HostKind::Vote)),
    ("fixed:0", Some(HostKind::Fixed(0))),
    ("fixed:-0", Some(HostKind::Fixed(0))),
    ("fixed:007", Some(HostKind::Fixed(7))),
    ("fixed:9223372036854775807", Some(HostKind::Fixed(i64::MAX))),
    (
        "fixed:-9223372036854775808",
        Some(HostKind::Fixed(i64::MIN)),
    ),
    ("fixed:9223372036854775808", None),
    ("fixed:-9223372036854775809", None),
    ("fixed:+1", None),
    ("fixed:--1", None),
    ("fixed:-", None),
    ("fixed: 1", None),
    ("fixed:", None),
    ("fixed", None),
    ("Last", None),
    ("best", None),
    ("", None),
];

#[test]
fn each_text_names_its_kind(rt: HostRuntime) {
    for (text, kind) in &TEXTS {
        assert!(rt; is_named(rt.alloc(), text, *kind), "{text}");
    }
}
