//! The command that the matches of `clap` give.
ghost use Rattle.std.specs.Prelude.{◌≡◌, ◌∷◌, ◌^◌, ◌-◌, ◌↔◌, [], Some, None, option_map, IsTrue};
ghost use Rattle.std.specs.Prelude.{MatchOption};
ghost use Rattle.clap.specs.Words.{first_of, found_of, rows_of, subcommand_rows_of};
ghost use Rattle.spf_cli_words.specs.Command.{IsFileName};
ghost use Rattle.spf_cli_words.specs.Asked.{seen_command, seen_options, seen_decode_options};
ghost use Rattle.spf_cli_words.specs.Matched.{number_in, kind_in, name_of as name_from};
ghost use Rattle.spf_cli_words.specs.Matched.{number_of as number_from, option_of as option_from};
ghost use Rattle.spf_cli_words.specs.Matched.{flag_of as flag_from, options_of as options_from};
ghost use Rattle.spf_cli_words.specs.Matched.{seed_of as seed_from};
ghost use Rattle.spf_cli_words.specs.Matched.{decode_options_of as decode_options_from, run_of};
ghost use Rattle.spf_cli_words.specs.Matched.{program_of, decoding_of, lex_of, demo_of, named};
ghost use Rattle.spf_cli_words.specs.Matched.{command_in, file_of, batch_of, sim_of, replay_of};

use crate::command::{Command, DecodeOptions, Options};
use clap::ArgMatches;
use spf_apps_formats::generate::Kind;

/// The most workers that run the blocks.
const MOST_WORKERS: u64 = 64;

/// The most input bytes that a block of a decoder has.
const MOST_BLOCK: u64 = 65_536;

/// The greatest size of an input that is generated.
const MOST_SIZE: u64 = 1_000_000;

/// Returns whether a word is a file's name: it isn't empty and doesn't begin with `-`.
fn is_file_name(word: &str) -> bool
    ensures { IsTrue result ↔ IsFileName word.now }
{
    match word.as_bytes().first() {
        Some(first) => *first != b'-',
        None => false,
    }
}

/// The number from 1 to `most` that a word is, in decimal digits without a sign or a leading zero.
fn read_number(word: &str, most: u64) -> Option<u64>
    ensures { result ≡ number_in 1 most word.now }
{
    let Some(b'1'..=b'9') = word.as_bytes().first() else {
        return None;
    };
    let number = word.parse::<u64>().ok()?;
    if number <= most { Some(number) } else { None }
}

/// The number below 2^64 that a word is, in decimal digits without a sign or a leading zero.
fn read_seed(word: &str) -> Option<u64>
    ensures { result ≡ number_in 0 (2 ^ 64 - 1) word.now }
{
    if word == "0" {
        Some(0)
    } else {
        read_number(word, u64::MAX)
    }
}

/// The decoder that a word names.
fn read_kind(word: &str) -> Option<Kind>
    ensures { result ≡ kind_in word.now }
{
    match word {
        "unpack" => Some(Kind::Unpack),
        "unhuff" => Some(Kind::Unhuff),
        "lex" => Some(Kind::Lex),
        _ => None,
    }
}

/// The word that an argument has.
fn word_of<'a>(matches: &ArgMatches<'a>, argument: &str) -> Option<&'a str>
    ensures { MatchOption result
        (first_of argument.now (rows_of (found_of matches.now)) ≡ None)
        (λ word. first_of argument.now (rows_of (found_of matches.now)) ≡ Some word.now) }
{
    matches.get_str(argument)
}

/// The file's name that an argument has.
fn name_of<'a>(matches: &ArgMatches<'a>, argument: &str) -> Option<&'a str>
    ensures { MatchOption result
        (name_from argument.now (rows_of (found_of matches.now)) ≡ None)
        (λ name. name_from argument.now (rows_of (found_of matches.now)) ≡ Some name.now) }
{
    let word = word_of(matches, argument)?;
    if is_file_name(word) { Some(word) } else { None }
}

/// The number from 1 to `most` that an argument has.
fn number_of(matches: &ArgMatches, argument: &str, most: u64) -> Option<u64>
    ensures { result ≡ number_from argument.now 1 most (rows_of (found_of matches.now)) }
{
    read_number(word_of(matches, argument)?, most)
}

/// The seed.
fn seed_of(matches: &ArgMatches) -> Option<u64>
    ensures { result ≡ seed_from (rows_of (found_of matches.now)) }
{
    read_seed(word_of(matches, "seed")?)
}

/// The number from 1 to `most` that an option has, where it is given.
fn option_of(matches: &ArgMatches, argument: &str, most: u64) -> Option<Option<u64>>
    ensures { result ≡ option_from argument.now most (rows_of (found_of matches.now)) }
{
    match word_of(matches, argument) {
        Some(word) => Some(Some(read_number(word, most)?)),
        None => Some(None),
    }
}

/// Returns whether a flag is given.
fn flag_of(matches: &ArgMatches, argument: &str) -> bool
    ensures { result ≡ flag_from argument.now (rows_of (found_of matches.now)) }
{
    matches.get_one::<bool>(argument).unwrap_or(false)
}

/// The options of a run.
fn read_options(matches: &ArgMatches) -> Option<Options>
    ensures { MatchOption result
        (options_from (rows_of (found_of matches.now)) ≡ None)
        (λ options. options_from (rows_of (found_of matches.now)) ≡ Some (seen_options options)) }
{
    let workers = option_of(matches, "workers", MOST_WORKERS)?;
    Some(Options {
        workers,
        stats: flag_of(matches, "stats"),
        cells: flag_of(matches, "cells"),
        plain: flag_of(matches, "plain"),
    })
}

/// The options of a decoder.
fn read_decode_options(matches: &ArgMatches) -> Option<DecodeOptions>
    ensures { MatchOption result (decode_options_from (rows_of (found_of matches.now)) ≡ None)
        (λ options.
        decode_options_from (rows_of (found_of matches.now)) ≡ Some (seen_decode_options options)) }
{
    let block = option_of(matches, "block", MOST_BLOCK)?;
    let workers = option_of(matches, "workers", MOST_WORKERS)?;
    Some(DecodeOptions {
        block,
        workers,
        stats: flag_of(matches, "stats"),
    })
}

/// A run.
fn read_run<'a>(matches: &ArgMatches<'a>) -> Option<Command<'a>>
    ensures { MatchOption result
        (run_of (rows_of (found_of matches.now)) ≡ None)
        (λ command. run_of (rows_of (found_of matches.now)) ≡ Some (seen_command command)) }
{
    let program = name_of(matches, "program")?;
    let input = name_of(matches, "input")?;
    let options = read_options(matches)?;
    Some(Command::Run {
        program,
        input,
        options,
    })
}

/// The cutting of a text into tokens.
fn read_lex<'a>(matches: &ArgMatches<'a>) -> Option<Command<'a>>
    ensures { MatchOption result
        (lex_of (rows_of (found_of matches.now)) ≡ None)
        (λ command. lex_of (rows_of (found_of matches.now)) ≡ Some (seen_command command)) }
{
    let machine = name_of(matches, "machine")?;
    let input = name_of(matches, "input")?;
    let options = read_decode_options(matches)?;
    Some(Command::Lex {
        machine,
        input,
        options,
    })
}

/// A trial of a decoder.
fn read_demo<'a>(matches: &ArgMatches<'a>) -> Option<Command<'a>>
    ensures { MatchOption result
        (demo_of (rows_of (found_of matches.now)) ≡ None)
        (λ command. demo_of (rows_of (found_of matches.now)) ≡ Some (seen_command command)) }
{
    let kind = read_kind(word_of(matches, "kind")?)?;
    let seed = seed_of(matches)?;
    let size = number_of(matches, "size", MOST_SIZE)?;
    let workers = number_of(matches, "workers", MOST_WORKERS)?;
    Some(Command::Demo {
        kind,
        seed,
        size,
        workers,
    })
}

/// A batch.
fn read_batch<'a>(matches: &ArgMatches<'a>) -> Option<Command<'a>>
    ensures { MatchOption result
        (batch_of (rows_of (found_of matches.now)) ≡ None)
        (λ command. batch_of (rows_of (found_of matches.now)) ≡ Some (seen_command command)) }
{
    let program = name_of(matches, "program")?;
    let list = name_of(matches, "list")?;
    let workers = option_of(matches, "workers", MOST_WORKERS)?;
    Some(Command::Batch {
        program,
        list,
        workers,
    })
}

/// A simulation.
fn read_sim<'a>(matches: &ArgMatches<'a>) -> Option<Command<'a>>
    ensures { MatchOption result
        (sim_of (rows_of (found_of matches.now)) ≡ None)
        (λ command. sim_of (rows_of (found_of matches.now)) ≡ Some (seen_command command)) }
{
    let program = name_of(matches, "program")?;
    let input = name_of(matches, "input")?;
    let seed = seed_of(matches)?;
    Some(Command::Sim {
        program,
        input,
        seed,
    })
}

/// The check of a log.
fn read_replay<'a>(matches: &ArgMatches<'a>) -> Option<Command<'a>>
    ensures { MatchOption result
        (replay_of (rows_of (found_of matches.now)) ≡ None)
        (λ command. replay_of (rows_of (found_of matches.now)) ≡ Some (seen_command command)) }
{
    let program = name_of(matches, "program")?;
    let input = name_of(matches, "input")?;
    let log = name_of(matches, "log")?;
    Some(Command::Replay {
        program,
        input,
        log,
    })
}

/// The command of this name, with the matches of its arguments.
fn read_named<'a>(name: &str, matches: &ArgMatches<'a>) -> Option<Command<'a>>
    ensures { MatchOption result
        (named name.now (rows_of (found_of matches.now)) ≡ None)
        (λ command. named name.now (rows_of (found_of matches.now)) ≡ Some (seen_command command)) }
{
    match name {
        "run" => read_run(matches),
        "check" => {
            let program = name_of(matches, "program")?;
            Some(Command::Check { program })
        }
        "explain" => {
            let program = name_of(matches, "program")?;
            Some(Command::Explain { program })
        }
        "print" => {
            let program = name_of(matches, "program")?;
            Some(Command::Print { program })
        }
        "unpack" => {
            let input = name_of(matches, "input")?;
            let options = read_decode_options(matches)?;
            Some(Command::Unpack { input, options })
        }
        "unhuff" => {
            let input = name_of(matches, "input")?;
            let options = read_decode_options(matches)?;
            Some(Command::Unhuff { input, options })
        }
        "lex" => read_lex(matches),
        "demo" => read_demo(matches),
        "show" => {
            let machine = name_of(matches, "machine")?;
            Some(Command::Show { machine })
        }
        "build" => {
            let text = name_of(matches, "text")?;
            Some(Command::Build { text })
        }
        "batch" => read_batch(matches),
        "sim" => read_sim(matches),
        "replay" => read_replay(matches),
        _ => None,
    }
}

/// The command that the matches of the whole line give.
pub(crate) fn read_command<'a>(matches: &ArgMatches<'a>) -> Option<Command<'a>>
    ensures { MatchOption result
        (command_in (subcommand_rows_of matches.now) ≡ None)
        (λ command. command_in (subcommand_rows_of matches.now) ≡ Some (seen_command command)) }
{
    let (name, matches) = matches.subcommand()?;
    read_named(name, matches)
}
