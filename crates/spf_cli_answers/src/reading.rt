//! From a text to its program, or to why it has none.

ghost use Rattle.std.specs.Prelude.{◌≡◌, IfOk, IfErr, string_bytes};
ghost use Rattle.spf_ast.specs.View.{program as seen_program};
ghost use Rattle.spf_ast.specs.RawView.{raw_program};
ghost use Rattle.spf_ast.specs.Spelling.{IsWellFormed};
ghost use Rattle.spf_parse_grammar.specs.Texts.{IsProgramOf};
ghost use Rattle.spf_cli_answers.specs.Reading.{IsTextVerdict, Says, refusal_line as refusal_line_of};
ghost use Rattle.spf_cli_answers.specs.Unread.{seen_refusal, IsUnread, HasNoByteFault, IsRefusalOf};
ghost use Rattle.spf_cli_words.specs.Only.{IsOnly};

use crate::message::{byte_line, fault_line};
use spf_ast::raw::RawProgram;
use spf_ast::syntax::Program;
use spf_parse::{ParseError, parse};
use spf_text::ScanError;
use spf_types::{TypeError, TypeFault, resolve};
use std::alloc::{AllocError, Global};

/// Why a text has no lawful program: a fault at a byte, or one of names, kinds or sizes on a line.
#[derive(Clone, Copy)]
pub(crate) enum TextRefusal {
    TextTooLong { at: usize },
    BadByte { at: usize },
    NumberTooLarge { at: usize },
    Unexpected { at: usize },
    TooDeep { at: usize },
    OnLine { fault: TypeFault, line: u32 },
}

/// Why there is no program of a text.
#[derive(Clone, Copy)]
pub(crate) enum Unread {
    Refused(TextRefusal),
    NoMemory,
}

/// What an error of the parser means for the text.
fn from_error(error: ParseError) -> Unread
    ensures { IsRefusalOf error result }
{
    match error {
        ParseError::Scan(ScanError::TooLong { at }) => Unread::Refused(TextRefusal::TextTooLong {
            at,
        }),
        ParseError::Scan(ScanError::BadByte { at }) => Unread::Refused(TextRefusal::BadByte { at }),
        ParseError::Scan(ScanError::NumberTooLarge { at }) => {
            Unread::Refused(TextRefusal::NumberTooLarge { at })
        }
        ParseError::Scan(ScanError::OutOfMemory) => Unread::NoMemory,
        ParseError::Unexpected { at } => Unread::Refused(TextRefusal::Unexpected { at }),
        ParseError::TooDeep { at } => Unread::Refused(TextRefusal::TooDeep { at }),
        ParseError::OutOfMemory => Unread::NoMemory,
    }
}

/// The raw program of a text.
fn read_raw(alloc: Global, text: &[u8]) -> Result<RawProgram, Unread>
    ensures program { IfOk result (λ raw. IsOnly (IsProgramOf text.now) (raw_program raw)) }
    ensures well_formed { IfOk result (λ raw. IsWellFormed (raw_program raw)) }
    ensures faultless { IfOk result (λ raw. HasNoByteFault text.now) }
    ensures unread { IfErr result (IsUnread text.now) }
{
    match parse(alloc, text) {
        Ok(raw) => Ok(raw),
        Err(error) => Err(from_error(error)),
    }
}

/// The program that a text says.
pub(crate) fn read_program(alloc: Global, text: &[u8]) -> Result<Program, Unread>
    ensures program { IfOk result (λ p. IsOnly (IsTextVerdict text.now) (Says (seen_program p))) }
    ensures unread { IfErr result (IsUnread text.now) }
{
    let raw = read_raw(alloc, text)?;
    match resolve(alloc, raw) {
        Ok(program) => Ok(program),
        Err(TypeError::Refused { fault, line }) => {
            Err(Unread::Refused(TextRefusal::OnLine { fault, line }))
        }
        Err(TypeError::OutOfMemory) => Err(Unread::NoMemory),
    }
}

/// The line of a refusal.
pub(crate) fn refusal_line(alloc: Global, refusal: TextRefusal) -> Result<String, AllocError>
    ensures { IfOk result (λ text. string_bytes text ≡ refusal_line_of (seen_refusal refusal)) }
{
    match refusal {
        TextRefusal::TextTooLong { at } => byte_line(alloc, at, "text too long"),
        TextRefusal::BadByte { at } => byte_line(alloc, at, "bad byte"),
        TextRefusal::NumberTooLarge { at } => byte_line(alloc, at, "number too large"),
        TextRefusal::Unexpected { at } => byte_line(alloc, at, "unexpected"),
        TextRefusal::TooDeep { at } => byte_line(alloc, at, "too deep"),
        TextRefusal::OnLine { fault, line } => fault_line(alloc, fault, line),
    }
}
