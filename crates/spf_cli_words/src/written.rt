//! The words that a command is written as.
ghost use Rattle.std.specs.Prelude.{◌≡◌, ◌++◌, ◌∷◌, [], codes, map, string_bytes, IfOk, OnOk};
ghost use Rattle.std.specs.Fmt.{decimal};
ghost use Rattle.spf_cli_words.specs.Command.{option, number_words, option_words, decode_words};
ghost use Rattle.spf_cli_words.specs.Command.{kind_word, words_of, Run, Lex, Batch, Sim};
ghost use Rattle.spf_cli_words.specs.Command.{Replay, Demo};
ghost use Rattle.spf_cli_words.specs.Asked.{seen_command, seen_options, seen_decode_options};

use crate::command::{Command, DecodeOptions, Options};
use spf_apps_formats::generate::Kind;
use std::alloc::{AllocError, Global};

/// Adds a word.
fn push_word(alloc: Global, words: &mut Vec<String>, word: &str) -> Result<(), AllocError>
    ensures { OnOk result
        (map string_bytes words.new.items ≡ map string_bytes words.old.items ++ word.now ∷ []) }
{
    words.push(String::from_str(alloc, word)?)?;
    Ok(())
}

/// Adds a number.
fn push_number(alloc: Global, words: &mut Vec<String>, number: u64) -> Result<(), AllocError>
    ensures { OnOk result (map string_bytes words.new.items
        ≡ map string_bytes words.old.items ++ decimal number ∷ []) }
{
    words.push(format!(in alloc; "{number}")?)?;
    Ok(())
}

/// Adds an option with its number, where it has one.
fn push_option(
    alloc: Global,
    words: &mut Vec<String>,
    name: &str,
    number: Option<u64>,
) -> Result<(), AllocError>
    ensures { OnOk result (map string_bytes words.new.items
        ≡ map string_bytes words.old.items ++ number_words name.now number) }
{
    if let Some(number) = number {
        push_word(alloc, words, name)?;
        push_number(alloc, words, number)?;
    }
    Ok(())
}

/// Adds a flag, where it is given.
fn push_flag(
    alloc: Global,
    words: &mut Vec<String>,
    name: &str,
    is_given: bool,
) -> Result<(), AllocError>
    ensures { OnOk result (map string_bytes words.new.items
        ≡ map string_bytes words.old.items ++ option is_given name.now) }
{
    if is_given {
        push_word(alloc, words, name)?;
    }
    Ok(())
}

/// Adds the options of a run.
fn push_options(alloc: Global, words: &mut Vec<String>, options: Options) -> Result<(), AllocError>
    ensures { OnOk result (map string_bytes words.new.items
        ≡ map string_bytes words.old.items ++ option_words (seen_options options)) }
{
    push_option(alloc, words, "--workers", options.workers)?;
    push_flag(alloc, words, "--stats", options.stats)?;
    push_flag(alloc, words, "--cells", options.cells)?;
    push_flag(alloc, words, "--plain", options.plain)
}

/// Adds the options of a decoder.
fn push_decode_options(
    alloc: Global,
    words: &mut Vec<String>,
    options: DecodeOptions,
) -> Result<(), AllocError>
    ensures { OnOk result (map string_bytes words.new.items
        ≡ map string_bytes words.old.items ++ decode_words (seen_decode_options options)) }
{
    push_option(alloc, words, "--block", options.block)?;
    push_option(alloc, words, "--workers", options.workers)?;
    push_flag(alloc, words, "--stats", options.stats)
}

/// A command on one program.
fn write_program(alloc: Global, name: &str, program: &str) -> Result<Vec<String>, AllocError>
    ensures { IfOk result (λ words. map string_bytes words.items ≡ name.now ∷ program.now ∷ []) }
{
    let mut words = Vec::new(alloc);
    push_word(alloc, &mut words, name)?;
    push_word(alloc, &mut words, program)?;
    Ok(words)
}

/// A run.
fn write_run(
    alloc: Global,
    program: &str,
    input: &str,
    options: Options,
) -> Result<Vec<String>, AllocError>
    ensures { IfOk result (λ words. map string_bytes words.items
        ≡ words_of (Run program.now input.now (seen_options options))) }
{
    let mut words = write_program(alloc, "run", program)?;
    push_word(alloc, &mut words, input)?;
    push_options(alloc, &mut words, options)?;
    Ok(words)
}

/// A batch.
fn write_batch(
    alloc: Global,
    program: &str,
    list: &str,
    workers: Option<u64>,
) -> Result<Vec<String>, AllocError>
    ensures { IfOk result (λ words. map string_bytes words.items
        ≡ words_of (Batch program.now list.now workers)) }
{
    let mut words = write_program(alloc, "batch", program)?;
    push_word(alloc, &mut words, list)?;
    push_option(alloc, &mut words, "--workers", workers)?;
    Ok(words)
}

/// A simulation.
fn write_sim(
    alloc: Global,
    program: &str,
    input: &str,
    seed: u64,
) -> Result<Vec<String>, AllocError>
    ensures { IfOk result
        (λ words. map string_bytes words.items ≡ words_of (Sim program.now input.now seed)) }
{
    let mut words = write_program(alloc, "sim", program)?;
    push_word(alloc, &mut words, input)?;
    push_number(alloc, &mut words, seed)?;
    Ok(words)
}

/// The check of a log.
fn write_replay(
    alloc: Global,
    program: &str,
    input: &str,
    log: &str,
) -> Result<Vec<String>, AllocError>
    ensures { IfOk result
        (λ words. map string_bytes words.items ≡ words_of (Replay program.now input.now log.now)) }
{
    let mut words = write_program(alloc, "replay", program)?;
    push_word(alloc, &mut words, input)?;
    push_word(alloc, &mut words, log)?;
    Ok(words)
}

/// A decoder's command on one input.
fn write_decoding(
    alloc: Global,
    name: &str,
    input: &str,
    options: DecodeOptions,
) -> Result<Vec<String>, AllocError>
    ensures { IfOk result (λ words. map string_bytes words.items
        ≡ name.now ∷ input.now ∷ decode_words (seen_decode_options options)) }
{
    let mut words = Vec::new(alloc);
    push_word(alloc, &mut words, name)?;
    push_word(alloc, &mut words, input)?;
    push_decode_options(alloc, &mut words, options)?;
    Ok(words)
}

/// The cutting of a text into tokens.
fn write_lex(
    alloc: Global,
    machine: &str,
    input: &str,
    options: DecodeOptions,
) -> Result<Vec<String>, AllocError>
    ensures { IfOk result (λ words. map string_bytes words.items
        ≡ words_of (Lex machine.now input.now (seen_decode_options options))) }
{
    let mut words = Vec::new(alloc);
    push_word(alloc, &mut words, "lex")?;
    push_word(alloc, &mut words, machine)?;
    push_word(alloc, &mut words, input)?;
    push_decode_options(alloc, &mut words, options)?;
    Ok(words)
}

/// The word of a decoder.
fn word_of_kind(kind: Kind) -> &'static str
    ensures { result.now ≡ kind_word kind }
{
    match kind {
        Kind::Unpack => "unpack",
        Kind::Unhuff => "unhuff",
        Kind::Lex => "lex",
    }
}

/// A trial of a decoder.
fn write_demo(
    alloc: Global,
    kind: Kind,
    seed: u64,
    size: u64,
    workers: u64,
) -> Result<Vec<String>, AllocError>
    ensures { IfOk result
        (λ words. map string_bytes words.items ≡ words_of (Demo kind seed size workers)) }
{
    let mut words = Vec::new(alloc);
    push_word(alloc, &mut words, "demo")?;
    push_word(alloc, &mut words, word_of_kind(kind))?;
    push_number(alloc, &mut words, seed)?;
    push_number(alloc, &mut words, size)?;
    push_number(alloc, &mut words, workers)?;
    Ok(words)
}

/// The words that a command is written as, in their order.
pub(crate) fn write_words(alloc: Global, command: Command) -> Result<Vec<String>, AllocError>
    ensures { IfOk result
        (λ words. map string_bytes words.items ≡ words_of (seen_command command.entry)) }
{
    match command {
        Command::Run {
            program,
            input,
            options,
        } => write_run(alloc, program, input, options),
        Command::Check { program } => write_program(alloc, "check", program),
        Command::Explain { program } => write_program(alloc, "explain", program),
        Command::Print { program } => write_program(alloc, "print", program),
        Command::Unpack { input, options } => write_decoding(alloc, "unpack", input, options),
        Command::Unhuff { input, options } => write_decoding(alloc, "unhuff", input, options),
        Command::Lex {
            machine,
            input,
            options,
        } => write_lex(alloc, machine, input, options),
        Command::Show { machine } => write_program(alloc, "show", machine),
        Command::Build { text } => write_program(alloc, "build", text),
        Command::Batch {
            program,
            list,
            workers,
        } => write_batch(alloc, program, list, workers),
        Command::Sim {
            program,
            input,
            seed,
        } => write_sim(alloc, program, input, seed),
        Command::Replay {
            program,
            input,
            log,
        } => write_replay(alloc, program, input, log),
        Command::Demo {
            kind,
            seed,
            size,
            workers,
        } => write_demo(alloc, kind, seed, size, workers),
    }
}
