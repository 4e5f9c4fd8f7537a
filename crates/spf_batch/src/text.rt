//! The answer of a file.
ghost use Rattle.std.specs.Prelude.{◌≡◌, ◌++◌, ◌∷◌, [], string_bytes, IfOk};
ghost use Rattle.spf_ast.specs.Program.{seen_outcome};
ghost use Rattle.spf_batch.specs.Text.{kind_name as kind_name_of, done_line as done_line_of};
ghost use Rattle.spf_batch.specs.Text.{trap_line as trap_line_of, answer_of};

use spf_ast::outcome::{Outcome, Trap, TrapKind};
use std::alloc::{AllocError, Global};

/// The name of a kind of trap.
fn kind_name(alloc: Global, kind: TrapKind) -> Result<String, AllocError>
    ensures { IfOk result (λ name. string_bytes name ≡ kind_name_of kind) }
{
    match kind {
        TrapKind::Overflow => String::from_str(alloc, "overflow"),
        TrapKind::DivZero => String::from_str(alloc, "divide-by-zero"),
        TrapKind::Index => String::from_str(alloc, "index"),
        TrapKind::Shift => String::from_str(alloc, "shift"),
        TrapKind::Range => String::from_str(alloc, "range"),
        TrapKind::Turns => String::from_str(alloc, "turns"),
        TrapKind::Emit => String::from_str(alloc, "emit"),
        TrapKind::Blocks => String::from_str(alloc, "blocks"),
        TrapKind::Fail(number) => format!(in alloc; "fail {number}"),
    }
}

/// `NAME done length L`.
fn done_line(alloc: Global, name: &str, size: usize) -> Result<String, AllocError>
    ensures { IfOk result (λ line. string_bytes line ≡ done_line_of name.now size) }
{
    format!(in alloc; "{name} done length {size}\n")
}

/// `NAME trap KIND line N length L`.
fn trap_line(alloc: Global, name: &str, trap: Trap, size: usize) -> Result<String, AllocError>
    ensures { IfOk result (λ line. string_bytes line ≡ trap_line_of name.now trap size) }
{
    let kind = kind_name(alloc, trap.kind)?;
    let at = trap.line;
    format!(in alloc; "{name} trap {kind} line {at} length {size}\n")
}

/// A line, then an output and byte 0A.
fn join(line: String, output: &[u8]) -> Result<Vec<u8>, AllocError>
    ensures { IfOk result (λ bytes. bytes.items ≡ string_bytes line ++ (output.now ++ 10 ∷ [])) }
{
    let mut bytes = line.into_bytes();
    bytes.extend_from_slice(output)?;
    bytes.push(b'\n')?;
    Ok(bytes)
}

/// The answer of a file of this name whose run had this outcome.
pub(crate) fn answer(alloc: Global, name: &str, outcome: &Outcome) -> Result<Vec<u8>, AllocError>
    ensures { IfOk result (λ bytes. bytes.items ≡ answer_of name.now (seen_outcome outcome.now)) }
{
    match outcome {
        Outcome::Done { output, .. } => join(done_line(alloc, name, output.len())?, output),
        Outcome::Trapped { trap, output } => {
            join(trap_line(alloc, name, *trap, output.len())?, output)
        }
    }
}
