//! The answers of `show` and `build`: machines as texts.

ghost use Rattle.std.specs.Prelude.{◌≡◌, IfOk};
ghost use Rattle.spf_cli_words.specs.Command.{Show as show_command, Build as build_command};
ghost use Rattle.spf_cli_answers.specs.Answer.{not_a_machine as not_a_machine_answer};
ghost use Rattle.spf_cli_answers.specs.Answer.{written as written_answer};
ghost use Rattle.spf_cli_answers.specs.Answering.{seen_answer};
ghost use Rattle.spf_cli_answers.specs.Following.{Follows};

use crate::answer::{Answer, Exit, fetch, refuse};
use crate::decoding::{MAX_MACHINE, not_lex1};
use crate::message::not_machine_line;
use crate::status::Status;
use spf_apps_formats::lex1::lex1_check;
use spf_apps_machine_text::{BuildError, build_machine, show_machine};
use spf_edge::Files;
use std::alloc::{AllocError, Global};

/// How many bytes the file of a machine's text may have.
const MAX_MACHINE_TEXT: u64 = 32_768;

/// The answer where a machine's text, or its file, is written.
fn written(alloc: Global, output: Vec<u8>) -> Answer
    ensures { seen_answer result ≡ written_answer output.items }
{
    Answer {
        status: Status::Done,
        output,
        messages: Vec::new(alloc),
    }
}

/// The answer where a text is that of no machine.
fn not_a_machine(alloc: Global) -> Result<Answer, AllocError>
    ensures { IfOk result (λ a. seen_answer a ≡ not_a_machine_answer) }
{
    refuse(alloc, Status::WrongFormat, not_machine_line(alloc)?)
}

/// The answer of `show` over a file.
pub(crate) fn show_file<F: Files>(
    alloc: Global,
    machine: &str,
    files: &mut F,
) -> Result<Answer, Exit>
    ensures { Follows (show_command machine.now) (F.state files.old) (F.state files.new) result }
{
    // Law: a file is of its format, or refused at one offset.
    spf_apps_formats::laws::files_have_one_verdict();
    let table = fetch(alloc, files, machine, MAX_MACHINE)?;
    match lex1_check(&table) {
        Ok(_) => Ok(written(alloc, show_machine(alloc, &table)?)),
        Err(offset) => Ok(not_lex1(alloc, offset)?),
    }
}

/// The answer of `build` over a file.
pub(crate) fn build_file<F: Files>(alloc: Global, text: &str, files: &mut F) -> Result<Answer, Exit>
    ensures { Follows (build_command text.now) (F.state files.old) (F.state files.new) result }
{
    // Law: a text belongs to one machine.
    spf_apps_machine_text::laws::machines_have_one_text();
    let content = fetch(alloc, files, text, MAX_MACHINE_TEXT)?;
    match build_machine(alloc, &content) {
        Ok(file) => Ok(written(alloc, file)),
        Err(BuildError::NotMachine) => Ok(not_a_machine(alloc)?),
        Err(BuildError::OutOfMemory) => Err(Exit::NoMemory),
    }
}
