//! The words that ask for help or for the version, and the texts that answer them.
ghost use Rattle.std.specs.Prelude.{◌≡◌, ◌∷◌, List, [], ℕ, map, string_bytes, MatchOption};
ghost use Rattle.spf_cli_help.specs.Pages.{words_of, text_of, IsAnswer};

use crate::texts;

/// A text that is shown instead of a command's work.
#[derive(Clone, Copy, PartialEq, Eq, Debug)]
pub enum Page {
    /// The help of the program.
    Help,
    /// The version.
    Version,
    /// The help of `run`.
    Run,
    /// The help of `check`.
    Check,
    /// The help of `explain`.
    Explain,
    /// The help of `print`.
    Print,
    /// The help of `unpack`.
    Unpack,
    /// The help of `unhuff`.
    Unhuff,
    /// The help of `lex`.
    Lex,
    /// The help of `show`.
    Show,
    /// The help of `build`.
    Build,
    /// The help of `batch`.
    Batch,
    /// The help of `sim`.
    Sim,
    /// The help of `replay`.
    Replay,
    /// The help of `demo`.
    Demo,
}

impl Page {
    /// Returns the text of the page.
    pub fn text(self) -> &'static str
        ensures { result.now ≡ text_of self }
    {
        match self {
            Page::Help => texts::HELP,
            Page::Version => texts::VERSION,
            Page::Run => texts::RUN,
            Page::Check => texts::CHECK,
            Page::Explain => texts::EXPLAIN,
            Page::Print => texts::PRINT,
            Page::Unpack => texts::UNPACK,
            Page::Unhuff => texts::UNHUFF,
            Page::Lex => texts::LEX,
            Page::Show => texts::SHOW,
            Page::Build => texts::BUILD,
            Page::Batch => texts::BATCH,
            Page::Sim => texts::SIM,
            Page::Replay => texts::REPLAY,
            Page::Demo => texts::DEMO,
        }
    }
}

/// The page that one word alone asks for.
fn program_page(word: &str) -> Option<Page>
    ensures { MatchOption result
        ((page : Page) → word.now ∷ [] ≡ words_of page → ⊥)
        (λ page. word.now ∷ [] ≡ words_of page) }
{
    match word {
        "--help" => Some(Page::Help),
        "--version" => Some(Page::Version),
        _ => None,
    }
}

/// The page on the command with this name, where the word after it asks for help.
fn command_page(name: &str, word: &str) -> Option<Page>
    ensures { MatchOption result
        ((page : Page) → name.now ∷ word.now ∷ [] ≡ words_of page → ⊥)
        (λ page. name.now ∷ word.now ∷ [] ≡ words_of page) }
{
    if word != "--help" {
        return None;
    }
    match name {
        "run" => Some(Page::Run),
        "check" => Some(Page::Check),
        "explain" => Some(Page::Explain),
        "print" => Some(Page::Print),
        "unpack" => Some(Page::Unpack),
        "unhuff" => Some(Page::Unhuff),
        "lex" => Some(Page::Lex),
        "show" => Some(Page::Show),
        "build" => Some(Page::Build),
        "batch" => Some(Page::Batch),
        "sim" => Some(Page::Sim),
        "replay" => Some(Page::Replay),
        "demo" => Some(Page::Demo),
        _ => None,
    }
}

/// Returns the page that words ask for, where they ask for one: `--help`, `--version`, or the name
/// of a command and `--help`.
pub fn read_page(words: &[String]) -> Option<Page>
    ensures { MatchOption result
        ((page : Page) → map string_bytes words.now ≡ words_of page → ⊥)
        (λ page. map string_bytes words.now ≡ words_of page) }
{
    match words {
        [word] => program_page(word.as_str()),
        [name, word] => command_page(name.as_str(), word.as_str()),
        _ => None,
    }
}

/// Returns the text that words ask for, where they are exactly `--help`, `--version`, or the name
/// of a command and `--help`. It goes to standard output, and the status is 0.
pub fn usage(words: &[String]) -> Option<&'static str>
    ensures { MatchOption result
        ((text : List ℕ) → IsAnswer (map string_bytes words.now) text → ⊥)
        (λ text. IsAnswer (map string_bytes words.now) text.now) }
{
    let page = read_page(words)?;
    Some(page.text())
}
