//! The command line, as `clap` reads it: a subcommand for each command.
ghost use Rattle.std.specs.Prelude.{◌≡◌, IfOk, codes};
ghost use Rattle.clap.specs.Words.{App, Rule, Text, with_rule, with_subcommand};
ghost use Rattle.spf_cli_words.specs.Line.{IsRule, IsLine, positional as positional_rule};
ghost use Rattle.spf_cli_words.specs.Line.{valued as valued_rule, flag as flag_rule};
ghost use Rattle.spf_cli_words.specs.Line.{with_run_options as with_run_rules};
ghost use Rattle.spf_cli_words.specs.Line.{with_decode_options as with_decode_rules, run_app};
ghost use Rattle.spf_cli_words.specs.Line.{program_app, decoder_app, lex_app, demo_app};
ghost use Rattle.spf_cli_words.specs.Line.{bare_line as bare_app, programs as programs_app};
ghost use Rattle.spf_cli_words.specs.Line.{file_app, batch_app, input_app};
ghost use Rattle.spf_cli_words.specs.Line.{decoders as decoders_app, texts as texts_app};
ghost use Rattle.spf_cli_words.specs.Line.{line as whole_line};

use clap::{Arg, ArgAction, Command};
use std::alloc::{AllocError, Global};

/// A word that has to be there.
fn positional<'a>(alloc: Global, name: &'a str) -> Arg<'a>
    ensures { IsRule (positional_rule name.now) result }
{
    Arg::new(alloc, name).required(true)
}

/// `--name VALUE`.
fn option_with_value<'a>(alloc: Global, name: &'a str) -> Arg<'a>
    ensures { IsRule (valued_rule name.now) result }
{
    Arg::new(alloc, name).long(name)
}

/// `--name`.
fn flag<'a>(alloc: Global, name: &'a str) -> Arg<'a>
    ensures { IsRule (flag_rule name.now) result }
{
    Arg::new(alloc, name).long(name).action(ArgAction::SetTrue)
}

/// Adds an argument to a command, unless memory ran out before.
fn add_argument<'a>(
    command: Result<Command<'a>, AllocError>,
    argument: Arg<'a>,
) -> Result<Command<'a>, AllocError>
    ensures { (app : App) (rule : Rule) → IfOk command.entry (IsLine app)
        → IsRule rule argument.entry → IfOk result (IsLine (with_rule app rule)) }
{
    command?.arg(argument)
}

/// Adds a subcommand to a command, unless memory ran out before.
fn add_command<'a>(
    command: Result<Command<'a>, AllocError>,
    other: Result<Command<'a>, AllocError>,
) -> Result<Command<'a>, AllocError>
    ensures { (app part : App) → IfOk command.entry (IsLine app) → IfOk other.entry (IsLine part)
        → IfOk result (IsLine (with_subcommand app part.top)) }
{
    let other = other?;
    command?.subcommand(other)
}

/// A command that has the options of a decoder beside its own arguments:
/// `[--block B] [--workers N] [--stats]`.
fn with_decode_options<'a>(
    alloc: Global,
    command: Result<Command<'a>, AllocError>,
) -> Result<Command<'a>, AllocError>
    ensures { (app : App) → IfOk command.entry (IsLine app)
        → IfOk result (IsLine (with_decode_rules app)) }
{
    let command = add_argument(command, option_with_value(alloc, "block"));
    let command = add_argument(command, option_with_value(alloc, "workers"));
    add_argument(command, flag(alloc, "stats"))
}

/// A command that has the options of a run beside its own arguments:
/// `[--workers N] [--stats] [--cells] [--plain]`.
fn with_run_options<'a>(
    alloc: Global,
    command: Result<Command<'a>, AllocError>,
) -> Result<Command<'a>, AllocError>
    ensures { (app : App) → IfOk command.entry (IsLine app)
        → IfOk result (IsLine (with_run_rules app)) }
{
    let command = add_argument(command, option_with_value(alloc, "workers"));
    let command = add_argument(command, flag(alloc, "stats"));
    let command = add_argument(command, flag(alloc, "cells"));
    add_argument(command, flag(alloc, "plain"))
}

/// `run PROGRAM INPUT`, and the options of a run.
fn run_line<'a>(alloc: Global) -> Result<Command<'a>, AllocError>
    ensures { IfOk result (IsLine run_app) }
{
    let command = Command::new(alloc, "run").arg(positional(alloc, "program"));
    let command = add_argument(command, positional(alloc, "input"));
    with_run_options(alloc, command)
}

/// `NAME PROGRAM`.
fn program_line<'a>(alloc: Global, name: &'a str) -> Result<Command<'a>, AllocError>
    ensures { IfOk result (IsLine (program_app name.now)) }
{
    Command::new(alloc, name).arg(positional(alloc, "program"))
}

/// `NAME INPUT`, and the options of a decoder.
fn decoder_line<'a>(alloc: Global, name: &'a str) -> Result<Command<'a>, AllocError>
    ensures { IfOk result (IsLine (decoder_app name.now)) }
{
    let command = Command::new(alloc, name).arg(positional(alloc, "input"));
    with_decode_options(alloc, command)
}

/// `lex MACHINE INPUT`, and the options of a decoder.
fn lex_line<'a>(alloc: Global) -> Result<Command<'a>, AllocError>
    ensures { IfOk result (IsLine lex_app) }
{
    let command = Command::new(alloc, "lex").arg(positional(alloc, "machine"));
    let command = add_argument(command, positional(alloc, "input"));
    with_decode_options(alloc, command)
}

/// `NAME FILE`, where the file has this name as an argument.
fn file_line<'a>(alloc: Global, name: &'a str, argument: &'a str) -> Result<Command<'a>, AllocError>
    ensures { IfOk result (IsLine (file_app name.now argument.now)) }
{
    Command::new(alloc, name).arg(positional(alloc, argument))
}

/// `batch PROGRAM LIST [--workers N]`.
fn batch_line<'a>(alloc: Global) -> Result<Command<'a>, AllocError>
    ensures { IfOk result (IsLine batch_app) }
{
    let command = Command::new(alloc, "batch").arg(positional(alloc, "program"));
    let command = add_argument(command, positional(alloc, "list"));
    add_argument(command, option_with_value(alloc, "workers"))
}

/// `NAME PROGRAM INPUT LAST`, where the last argument has this name.
fn input_line<'a>(alloc: Global, name: &'a str, last: &'a str) -> Result<Command<'a>, AllocError>
    ensures { IfOk result (IsLine (input_app name.now last.now)) }
{
    let command = Command::new(alloc, name).arg(positional(alloc, "program"));
    let command = add_argument(command, positional(alloc, "input"));
    add_argument(command, positional(alloc, last))
}

/// `demo KIND SEED SIZE WORKERS`.
fn demo_line<'a>(alloc: Global) -> Result<Command<'a>, AllocError>
    ensures { IfOk result (IsLine demo_app) }
{
    let command = Command::new(alloc, "demo").arg(positional(alloc, "kind"));
    let command = add_argument(command, positional(alloc, "seed"));
    let command = add_argument(command, positional(alloc, "size"));
    add_argument(command, positional(alloc, "workers"))
}

/// The line before it has subcommands. It gives no help of its own, and is called without the
/// program's name.
fn bare_line<'a>(alloc: Global) -> Command<'a>
    ensures { IsLine bare_app result }
{
    Command::new(alloc, "spf")
        .no_binary_name(true)
        .disable_help_flag(true)
        .disable_help_subcommand(true)
}

/// The line with the commands on programs.
fn program_lines<'a>(alloc: Global) -> Result<Command<'a>, AllocError>
    ensures { IfOk result (IsLine programs_app) }
{
    let line = add_command(Ok(bare_line(alloc)), run_line(alloc));
    let line = add_command(line, program_line(alloc, "check"));
    let line = add_command(line, program_line(alloc, "explain"));
    add_command(line, program_line(alloc, "print"))
}

/// The line with those, and the commands on decoders.
fn decoder_lines<'a>(alloc: Global) -> Result<Command<'a>, AllocError>
    ensures { IfOk result (IsLine decoders_app) }
{
    let line = add_command(program_lines(alloc), decoder_line(alloc, "unpack"));
    let line = add_command(line, decoder_line(alloc, "unhuff"));
    let line = add_command(line, lex_line(alloc));
    add_command(line, demo_line(alloc))
}

/// The line with those, and the commands on machines' texts.
fn text_lines<'a>(alloc: Global) -> Result<Command<'a>, AllocError>
    ensures { IfOk result (IsLine texts_app) }
{
    let line = add_command(decoder_lines(alloc), file_line(alloc, "show", "machine"));
    add_command(line, file_line(alloc, "build", "text"))
}

/// The whole command line: those, and the commands on lists and logs.
pub(crate) fn command_line<'a>(alloc: Global) -> Result<Command<'a>, AllocError>
    ensures { IfOk result (IsLine whole_line) }
{
    let line = add_command(text_lines(alloc), batch_line(alloc));
    let line = add_command(line, input_line(alloc, "sim", "seed"));
    add_command(line, input_line(alloc, "replay", "log"))
}
