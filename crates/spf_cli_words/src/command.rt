//! The words of a command line.

ghost use Rattle.std.specs.Prelude.{◌≡◌, map, string_bytes, IfOk, Err};
ghost use Rattle.clap.specs.Words.{kind_of};
ghost use Rattle.clap.specs.declared.error.kind.ErrorKind.TheVariants as kind;
ghost use Rattle.spf_cli_words.specs.Only.{IsOnly};
ghost use Rattle.spf_cli_words.specs.Command.{Asks, Command as Wish};
ghost use Rattle.spf_cli_words.specs.Asked.{seen_command};
ghost use Rattle.spf_cli_words.specs.declared.command.WordsError.TheVariants.{NotUnderstood};
ghost use Rattle.spf_cli_words.specs.declared.command.WordsError.TheVariants.{OutOfMemory};

use crate::line::command_line;
use crate::matched::read_command;
use crate::written::write_words;
use clap::error::ErrorKind;
use spf_apps_formats::generate::Kind;
use std::alloc::{AllocError, AllocFailed, Global};
use thiserror::Error;

/// The options of a run.
#[derive(Clone, Copy, Debug)]
pub struct Options {
    /// How many workers run the blocks, from 1 to 64, where that is given.
    pub workers: Option<u64>,
    /// Whether the statistics are shown.
    pub stats: bool,
    /// Whether the cells of the arrays are shown.
    pub cells: bool,
    /// Whether the program runs by the plain meaning alone.
    pub plain: bool,
}

/// The options of a decoder.
#[derive(Clone, Copy, Debug)]
pub struct DecodeOptions {
    /// How large the blocks are, from 1 to 65,536, where that is given.
    pub block: Option<u64>,
    /// How many workers run the blocks, from 1 to 64, where that is given.
    pub workers: Option<u64>,
    /// Whether the statistics are shown.
    pub stats: bool,
}

/// A command, with the names of its files.
#[derive(Clone, Copy, Debug)]
pub enum Command<'a> {
    /// A program is run on an input.
    Run {
        program: &'a str,
        input: &'a str,
        options: Options,
    },
    /// A program is checked by the rules.
    Check {
        program: &'a str,
    },
    /// What each construct of a program reads and writes is explained.
    Explain {
        program: &'a str,
    },
    /// A program is printed in its canonical form.
    Print {
        program: &'a str,
    },
    /// A PackBits file is unpacked.
    Unpack {
        input: &'a str,
        options: DecodeOptions,
    },
    /// A HUF1 file is decoded.
    Unhuff {
        input: &'a str,
        options: DecodeOptions,
    },
    /// A text is cut into tokens by a machine.
    Lex {
        machine: &'a str,
        input: &'a str,
        options: DecodeOptions,
    },
    /// The text of a machine is shown.
    Show {
        machine: &'a str,
    },
    /// The machine of a text is built.
    Build {
        text: &'a str,
    },
    /// A program is run on each file of a list.
    Batch {
        program: &'a str,
        list: &'a str,
        workers: Option<u64>,
    },
    /// A run by blocks is simulated, on a schedule that is drawn from a seed.
    Sim {
        program: &'a str,
        input: &'a str,
        seed: u64,
    },
    /// The log of a run by blocks is checked.
    Replay {
        program: &'a str,
        input: &'a str,
        log: &'a str,
    },
    /// A decoder runs on an input that is generated from a seed.
    Demo {
        kind: Kind,
        seed: u64,
        /// How large the input is, from 1 to 1,000,000.
        size: u64,
        /// How many workers run the blocks, from 1 to 64.
        workers: u64,
    },
}

/// Why words aren't read.
#[derive(Clone, Copy, PartialEq, Eq, Debug, Error)]
pub enum WordsError {
    /// They ask for no command.
    #[error("words not understood")]
    NotUnderstood,
    /// There is no memory for reading them.
    #[error("out of memory")]
    OutOfMemory,
}

impl From<AllocError> for WordsError {
    ghost from_gives = { λ _ error. error ≡ OutOfMemory };

    fn from(_: AllocError) -> Self {
        WordsError::OutOfMemory
    }
}

impl<T: Drop> From<AllocFailed<T>> for WordsError {
    ghost from_gives = { λ _ error. error ≡ OutOfMemory };

    fn from(_: AllocFailed<T>) -> Self {
        WordsError::OutOfMemory
    }
}

impl From<clap::Error> for WordsError {
    ghost from_gives = { λ from error. kind_of from ≡ kind.OutOfMemory → error ≡ OutOfMemory };

    fn from(error: clap::Error) -> Self {
        match error.kind() {
            ErrorKind::OutOfMemory => WordsError::OutOfMemory,
            _ => WordsError::NotUnderstood,
        }
    }
}

/// Reads the words of a command, or tells that they aren't those of one.
///
/// `clap` finds the command and its arguments, also in another order or spelling. What it found is
/// then compared with the words: they have to be those that the command is written as.
///
/// They are one of these lists, with the options in this order and each at most once:
///
/// - `run PROGRAM INPUT [--workers N] [--stats] [--cells] [--plain]`,
/// - `check PROGRAM`, `explain PROGRAM` or `print PROGRAM`,
/// - `unpack INPUT [--block B] [--workers N] [--stats]` or
///   `unhuff INPUT [--block B] [--workers N] [--stats]`,
/// - `lex MACHINE INPUT [--block B] [--workers N] [--stats]`,
/// - `show MACHINE` or `build TEXT`,
/// - `batch PROGRAM LIST [--workers N]`,
/// - `sim PROGRAM INPUT SEED` or `replay PROGRAM INPUT LOG`,
/// - `demo KIND SEED SIZE WORKERS`, where KIND is `unpack`, `unhuff` or `lex`.
///
/// The name of a file isn't empty and doesn't begin with `-`. Numbers are decimal, without a sign
/// or a leading zero: N and WORKERS from 1 to 64, B from 1 to 65,536, SIZE from 1 to 1,000,000, and
/// SEED below 2^64.
pub fn read_words<'a>(alloc: Global, words: &'a [String]) -> Result<Command<'a>, WordsError>
    ensures asked { IfOk result
        (λ command. IsOnly (Asks (map string_bytes words.now)) (seen_command command)) }
    ensures none { result ≡ Err NotUnderstood → (command : Wish)
        → Asks (map string_bytes words.now) command → ⊥ }
{
    let matches = command_line(alloc)?.try_get_matches_from(words)?;
    let command = read_command(&matches).ok_or(WordsError::NotUnderstood)?;
    let canonical = write_words(alloc, command)?;
    if canonical.as_slice() == words {
        Ok(command)
    } else {
        Err(WordsError::NotUnderstood)
    }
}
