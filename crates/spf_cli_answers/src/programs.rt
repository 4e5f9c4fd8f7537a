//! Programs in texts and files, where the rules accept them.

ghost use Rattle.std.specs.Prelude.{IfOk, IfErr};
ghost use Rattle.spf_ast.specs.View.{program as seen_program};
ghost use Rattle.spf_cli_answers.specs.Logs.{IsAcceptedText, IsFetchedAccepted};
ghost use Rattle.spf_cli_answers.specs.Logs.{IsTextExit, IsNoneAccepted};

use crate::answer::{Exit, MAX_PROGRAM, accept, fetch, read};
use spf_check::checked::Checked;
use spf_edge::Files;
use std::alloc::Global;

/// The program that a text says, where the rules accept it.
pub(crate) fn read_accepted(alloc: Global, text: &[u8]) -> Result<Checked, Exit>
    ensures program { IfOk result (λ checked. IsAcceptedText text.now (seen_program checked)) }
    ensures left { IfErr result (IsTextExit text.now) }
{
    let parsed = read(alloc, text)?;
    accept(alloc, parsed)
}

/// The program in a file, where the rules accept it.
pub(crate) fn fetch_accepted<F: Files>(
    alloc: Global,
    name: &str,
    files: &mut F,
) -> Result<Checked, Exit>
    ensures program { IfOk result (λ checked. IsFetchedAccepted (F.state files.old)
        (F.state files.new) name.now (seen_program checked)) }
    ensures left { IfErr result (IsNoneAccepted (F.state files.old) (F.state files.new) name.now) }
{
    let text = fetch(alloc, files, name, MAX_PROGRAM)?;
    read_accepted(alloc, &text)
}
