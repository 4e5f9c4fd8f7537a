//! Words that ask for a text, and words that don't.
use spf_cli_help::usage;
use std::alloc::{AllocError, Global};

/// Words of these texts.
pub(crate) fn words_of(alloc: Global, texts: &[&str]) -> Result<Vec<String>, AllocError> {
    let mut words = Vec::new(alloc);
    for text in texts {
        words.push(String::from_str(alloc, text)?)?;
    }
    Ok(words)
}

/// The text that words ask for.
fn answer(alloc: Global, texts: &[&str]) -> Result<Option<&'static str>, AllocError> {
    let words = words_of(alloc, texts)?;
    Ok(usage(&words))
}

/// The text that words ask for; an empty one where they ask for none.
fn text_of(alloc: Global, texts: &[&str]) -> &'static str {
    match answer(alloc, texts) {
        Ok(Some(text)) => text,
        Ok(None) | Err(_) => "",
    }
}

#[test]
fn help_names_the_commands(rt: HostRuntime) {
    let text = text_of(rt.alloc(), &["--help"]);
    assert!(rt; text.starts_with("spf 0.1.0\n"));
    assert!(rt; text.contains("\nUsage: spf [--host KIND]... COMMAND\n"));
    assert!(rt;
        text.contains("\n  demo KIND SEED SIZE WORKERS  Run a decoder on a generated input\n")
    );
    assert!(rt; text.ends_with("\n  spf run examples/doubling.spf examples/empty --stats\n"));
}

/// Returns whether a command's help begins so.
fn has_help(alloc: Global, name: &str, begin: &str) -> bool {
    text_of(alloc, &[name, "--help"]).starts_with(begin)
}

/// Commands, and how their helps begin.
const COMMANDS: [(&str, &str); 10] = [
    ("run", "Usage: spf run PROGRAM INPUT ["),
    ("check", "Usage: spf check PROGRAM\n"),
    ("explain", "Usage: spf explain PROGRAM\n"),
    ("print", "Usage: spf print PROGRAM\n"),
    ("unpack", "Usage: spf unpack INPUT ["),
    ("unhuff", "Usage: spf unhuff INPUT ["),
    ("lex", "Usage: spf lex MACHINE INPUT ["),
    ("sim", "Usage: spf sim PROGRAM INPUT SEED\n"),
    ("replay", "Usage: spf replay PROGRAM INPUT LOG\n"),
    ("demo", "Usage: spf demo KIND SEED SIZE WORKERS\n"),
];

#[test]
fn each_command_has_its_help(rt: HostRuntime) {
    for &(name, begin) in &COMMANDS {
        assert!(rt; has_help(rt.alloc(), name, begin), "of {name}");
    }
}

/// Words, and the texts that they ask for.
const OTHERS: [(&[&str], Option<&'static str>); 7] = [
    (&["--version"], Some("spf 0.1.0\n")),
    (&[], None),
    (&["-h"], None),
    (&["help"], None),
    (&["--help", "run"], None),
    (&["run", "P", "--help"], None),
    (&["runs", "--help"], None),
];

#[test]
fn version_is_one_line_and_other_words_have_no_text(rt: HostRuntime) {
    for (number, (words, text)) in OTHERS.iter().enumerate() {
        assert!(rt; answer(rt.alloc(), words) == Ok(*text), "row {number}");
    }
}
