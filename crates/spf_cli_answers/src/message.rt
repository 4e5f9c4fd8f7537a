//! The lines that the program writes on the error stream.

ghost use Rattle.std.specs.Prelude.{◌≡◌, ◌++◌, codes, IfOk, map, string_bytes};
ghost use Rattle.std.specs.Fmt.{signed_decimal};
ghost use Rattle.spf_ast.specs.View.{name as seen_name, array as seen_array};
ghost use Rattle.spf_check.specs.Text.{perhaps_range};
ghost use Rattle.spf_batch.specs.Text.{kind_name as kind_name_of};
ghost use Rattle.spf_cli_answers.specs.Message.{trap_line as trap_line_of};
ghost use Rattle.spf_cli_answers.specs.Message.{words_line as words_line_of};
ghost use Rattle.spf_cli_answers.specs.Message.{failed_line as failed_line_of};
ghost use Rattle.spf_cli_answers.specs.Message.{long_line as long_line_of};
ghost use Rattle.spf_cli_answers.specs.Message.{too_many_line as too_many_line_of};
ghost use Rattle.spf_cli_answers.specs.Message.{host_line as host_line_of};
ghost use Rattle.spf_cli_answers.specs.Message.{not_huf1_line as not_huf1_line_of};
ghost use Rattle.spf_cli_answers.specs.Message.{not_lex1_line as not_lex1_line_of};
ghost use Rattle.spf_cli_answers.specs.Message.{not_machine_line as not_machine_line_of};
ghost use Rattle.spf_cli_answers.specs.Message.{not_name_line as not_name_line_of};
ghost use Rattle.spf_cli_answers.specs.Message.{not_log_line as not_log_line_of};
ghost use Rattle.spf_cli_answers.specs.Message.{steps_line as steps_line_of};
ghost use Rattle.spf_cli_answers.specs.Message.{verdict_line as verdict_line_of};
ghost use Rattle.spf_cli_answers.specs.Message.{files_line as files_line_of};
ghost use Rattle.spf_cli_answers.specs.Message.{sum_line as sum_line_of, byte_line as byte_line_of};
ghost use Rattle.spf_cli_answers.specs.Message.{fault_line as fault_line_of};
ghost use Rattle.spf_cli_answers.specs.Message.{fault_name as fault_name_of};
ghost use Rattle.spf_cli_answers.specs.Message.{stats_line as stats_line_of, numbers};
ghost use Rattle.spf_cli_answers.specs.Message.{array_line as array_line_of};
ghost use Rattle.spf_cli_answers.specs.Message.{rule_line as rule_line_of};

use spf_ast::outcome::{Trap, TrapKind};
use spf_ast::syntax::{Array, Name};
use spf_check::rule::Refusal;
use spf_check::text::{push_range, rule_name};
use spf_guess_statistics::stats::Stats;
use spf_region::range::Range;
use spf_replay::schedule::MAX_STEPS;
use spf_replay::verdict::Verdict;
use spf_types::TypeFault;
use std::alloc::{AllocError, Global};

/// The name of a kind of trap.
fn kind_name(alloc: Global, kind: TrapKind) -> Result<String, AllocError>
    ensures { IfOk result (λ name. string_bytes name ≡ kind_name_of kind) }
{
    match kind {
        TrapKind::Overflow => String::from_str(alloc, "overflow"),
        TrapKind::DivZero => String::from_str(alloc, "divide-by-zero"),
        TrapKind::Index => String::from_str(alloc, "index"),
        TrapKind::Shift => String::from_str(alloc, "shift"),
        TrapKind::Range => String::from_str(alloc, "range"),
        TrapKind::Turns => String::from_str(alloc, "turns"),
        TrapKind::Emit => String::from_str(alloc, "emit"),
        TrapKind::Blocks => String::from_str(alloc, "blocks"),
        TrapKind::Fail(number) => format!(in alloc; "fail {number}"),
    }
}

/// `trap KIND line N`.
pub(crate) fn trap_line(alloc: Global, trap: Trap) -> Result<String, AllocError>
    ensures { IfOk result (λ text. string_bytes text ≡ trap_line_of trap) }
{
    let kind = kind_name(alloc, trap.kind)?;
    let line = trap.line;
    format!(in alloc; "trap {kind} line {line}\n")
}

/// `words not understood`.
pub(crate) fn words_line(alloc: Global) -> Result<String, AllocError>
    ensures { IfOk result (λ text. string_bytes text ≡ words_line_of) }
{
    String::from_str(alloc, "words not understood\n")
}

/// `file NAME failed`.
pub(crate) fn failed_line(alloc: Global, name: &str) -> Result<String, AllocError>
    ensures { IfOk result (λ text. string_bytes text ≡ failed_line_of name.now) }
{
    format!(in alloc; "file {name} failed\n")
}

/// `file NAME over N bytes`.
pub(crate) fn long_line(alloc: Global, name: &str, limit: u64) -> Result<String, AllocError>
    ensures { IfOk result (λ text. string_bytes text ≡ long_line_of name.now limit) }
{
    format!(in alloc; "file {name} over {limit} bytes\n")
}

/// `cells N over LIMIT`.
pub(crate) fn too_many_line(alloc: Global, count: u128, limit: u32) -> Result<String, AllocError>
    ensures { IfOk result (λ text. string_bytes text ≡ too_many_line_of count limit) }
{
    format!(in alloc; "cells {count} over {limit}\n")
}

/// `host N not handed in`.
pub(crate) fn host_line(alloc: Global, host: u64) -> Result<String, AllocError>
    ensures { IfOk result (λ text. string_bytes text ≡ host_line_of host) }
{
    format!(in alloc; "host {host} not handed in\n")
}

/// `input byte N: not HUF1`.
pub(crate) fn not_huf1_line(alloc: Global, offset: u64) -> Result<String, AllocError>
    ensures { IfOk result (λ text. string_bytes text ≡ not_huf1_line_of offset) }
{
    format!(in alloc; "input byte {offset}: not HUF1\n")
}

/// `machine byte N: not LEX1`.
pub(crate) fn not_lex1_line(alloc: Global, offset: u64) -> Result<String, AllocError>
    ensures { IfOk result (λ text. string_bytes text ≡ not_lex1_line_of offset) }
{
    format!(in alloc; "machine byte {offset}: not LEX1\n")
}

/// `not a machine`.
pub(crate) fn not_machine_line(alloc: Global) -> Result<String, AllocError>
    ensures { IfOk result (λ text. string_bytes text ≡ not_machine_line_of) }
{
    String::from_str(alloc, "not a machine\n")
}

/// `list line N: not a name`.
pub(crate) fn not_name_line(alloc: Global, number: u64) -> Result<String, AllocError>
    ensures { IfOk result (λ text. string_bytes text ≡ not_name_line_of number) }
{
    format!(in alloc; "list line {number}: not a name\n")
}

/// `log byte N: not SPL1`.
pub(crate) fn not_log_line(alloc: Global, offset: u64) -> Result<String, AllocError>
    ensures { IfOk result (λ text. string_bytes text ≡ not_log_line_of offset) }
{
    format!(in alloc; "log byte {offset}: not SPL1\n")
}

/// `steps over LIMIT`.
pub(crate) fn steps_line(alloc: Global) -> Result<String, AllocError>
    ensures { IfOk result (λ text. string_bytes text ≡ steps_line_of) }
{
    format!(in alloc; "steps over {MAX_STEPS}\n")
}

/// `yes`, or `no section N`.
pub(crate) fn verdict_line(alloc: Global, verdict: Verdict) -> Result<String, AllocError>
    ensures { IfOk result (λ text. string_bytes text ≡ verdict_line_of verdict) }
{
    match verdict {
        Verdict::Yes => String::from_str(alloc, "yes\n"),
        Verdict::No { section } => format!(in alloc; "no section {section}\n"),
    }
}

/// `sum S blocks B hits H misses M`.
pub(crate) fn sum_line(
    alloc: Global,
    sum: u128,
    blocks: u64,
    hits: u64,
    misses: u64,
) -> Result<String, AllocError>
    ensures { IfOk result (λ text. string_bytes text ≡ sum_line_of sum blocks hits misses) }
{
    format!(in alloc; "sum {sum} blocks {blocks} hits {hits} misses {misses}\n")
}

/// `text byte N: FAULT`.
pub(crate) fn byte_line(alloc: Global, at: usize, what: &str) -> Result<String, AllocError>
    ensures { IfOk result (λ text. string_bytes text ≡ byte_line_of at what.now) }
{
    format!(in alloc; "text byte {at}: {what}\n")
}

/// The name of a fault of names and kinds.
fn fault_name(fault: TypeFault) -> &'static str
    ensures { result.now ≡ fault_name_of fault }
{
    match fault {
        TypeFault::UnknownName => "unknown name",
        TypeFault::Twice => "declared twice",
        TypeFault::Arity => "wrong number of arguments",
        TypeFault::Kind => "wrong kind",
        TypeFault::CallsLater => "calls later function",
        TypeFault::TooLarge => "too large",
        TypeFault::Misplaced => "misplaced emit",
        TypeFault::MisplacedBreak => "misplaced break",
    }
}

/// `line N: FAULT`.
pub(crate) fn fault_line(alloc: Global, fault: TypeFault, line: u32) -> Result<String, AllocError>
    ensures { IfOk result (λ text. string_bytes text ≡ fault_line_of fault line) }
{
    let name = fault_name(fault);
    format!(in alloc; "line {line}: {name}\n")
}

/// Adds a range to a line, after a space, where there is one.
fn push_perhaps_range(
    alloc: Global,
    line: &mut Vec<u8>,
    arrays: &[Array],
    range: Option<Range>,
) -> Result<(), AllocError>
    ensures { IfOk result
        (λ _. line.new.items ≡ line.old.items ++ perhaps_range (map seen_array arrays.now) range) }
{
    let Some(range) = range else {
        return Ok(());
    };
    line.push(b' ')?;
    push_range(alloc, arrays, range, line)
}

/// `refused RULE line N RANGE`, or without a range `refused RULE line N`.
pub(crate) fn rule_line(
    alloc: Global,
    arrays: &[Array],
    refusal: Refusal,
) -> Result<Vec<u8>, AllocError>
    ensures { IfOk result (λ line. line.items
        ≡ rule_line_of (map seen_array arrays.now) refusal.rule refusal.line refusal.range) }
{
    let (name, at) = (rule_name(refusal.rule), refusal.line);
    let mut line = format!(in alloc; "refused {name} line {at}")?.into_bytes();
    push_perhaps_range(alloc, &mut line, arrays, refusal.range)?;
    line.push(b'\n')?;
    Ok(line)
}

/// `blocks B hits H misses M blind D`.
pub(crate) fn stats_line(
    alloc: Global,
    blocks: u64,
    hits: u64,
    misses: u64,
    blind: u64,
) -> Result<String, AllocError>
    ensures { IfOk result (λ text. string_bytes text ≡ stats_line_of blocks hits misses blind) }
{
    format!(in alloc; "blocks {blocks} hits {hits} misses {misses} blind {blind}\n")
}

/// `files F blocks B hits H misses M blind D`.
pub(crate) fn files_line(alloc: Global, files: u64, stats: Stats) -> Result<String, AllocError>
    ensures { IfOk result (λ text. string_bytes text ≡ files_line_of files stats) }
{
    let (blocks, hits, misses, blind) = (stats.blocks, stats.hits, stats.misses, stats.blind);
    format!(in alloc; "files {files} blocks {blocks} hits {hits} misses {misses} blind {blind}\n")
}

/// Adds a number to a line, after a space.
fn push_number(alloc: Global, line: &mut Vec<u8>, word: i64) -> Result<(), AllocError>
    ensures { IfOk result
        (λ _. line.new.items ≡ line.old.items ++ (codes " " ++ signed_decimal word)) }
{
    let text = format!(in alloc; " {word}")?;
    line.extend_from_slice(text.as_bytes())
}

/// Adds numbers to a line, each after a space.
fn push_numbers(alloc: Global, line: &mut Vec<u8>, words: &[i64]) -> Result<(), AllocError>
    ensures { IfOk result (λ _. line.new.items ≡ line.old.items ++ numbers words.now) }
{
    for word in words {
        push_number(alloc, line, *word)?;
    }
    Ok(())
}

/// `cells NAME`, followed by the words of an array.
pub(crate) fn array_line(alloc: Global, name: &Name, words: &[i64]) -> Result<Vec<u8>, AllocError>
    ensures { IfOk result (λ line. line.items ≡ array_line_of (seen_name name.now) words.now) }
{
    let mut line = b"cells ".to_vec(alloc)?;
    line.extend_from_slice(&name.bytes)?;
    push_numbers(alloc, &mut line, words)?;
    line.push(b'\n')?;
    Ok(line)
}
