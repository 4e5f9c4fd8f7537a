//! Whole programs.

ghost use Rattle.std.specs.Prelude.{◌≡◌, ◌<◌, ◌≤◌, ◌-◌, ◌⊎◌, ℕ, [], length, drop, map, IfOk};
ghost use Rattle.std.specs.Prelude.{IsOkUnless, Err};
ghost use Rattle.spf_text.specs.declared.scanner.ScanError.{ScanError as scan_error};
ghost use Rattle.spf_text.specs.declared.scanner.ScanError.TheVariants.{TooLong};
ghost use Rattle.spf_text.specs.Tokens.{max_text};
ghost use Rattle.spf_ast.specs.View.{array as seen_array};
ghost use Rattle.spf_ast.specs.RawSyntax.{RawProgram as Program};
ghost use Rattle.spf_ast.specs.RawView.{raw_program, raw_function};
ghost use Rattle.spf_ast.specs.Spelling.{IsWellFormed, IsWritable};
ghost use Rattle.spf_parse_grammar.specs.Lexemes.{lexemes as seen_lexemes};
ghost use Rattle.spf_parse_grammar.specs.Parts.{many, header as header_part, array as array_part};
ghost use Rattle.spf_parse_grammar.specs.Parts.{function as function_part, program as program_part};
ghost use Rattle.spf_parse_grammar.specs.Rules.{all};
ghost use Rattle.spf_parse_grammar.specs.Texts.{IsProgramOf, IsUnexpectedAt, IsTooDeepAt};
ghost use Rattle.spf_parse_grammar.specs.Texts.{offset as index_of};
ghost use Rattle.spf_parse_parts.specs.Answers.{Answers, Answered};
ghost use Rattle.spf_parse.specs.Refusals.{IsNoTokenText, as_refusal};

use crate::lexemes::lexemes;
use spf_ast::raw::{RawFunction, RawProgram};
use spf_ast::syntax::Array;
use spf_parse_grammar::Lexeme;
use spf_parse_parts::fault::Fault;
use spf_parse_parts::function::{array, function};
use spf_parse_parts::statement::block;
use spf_parse_parts::step::{expect, is_next, line_of};
use spf_text::token::{Keyword, Sign, TokenKind};
use spf_text::{ScanError, scan};
use std::alloc::{AllocError, Global};
use thiserror::Error;

/// Why a text is no program.
#[derive(Clone, Copy, PartialEq, Eq, Debug, Error)]
pub enum ParseError {
    /// The text has no tokens.
    #[error(transparent)]
    Scan(ScanError),
    /// What stands before byte `at` is a prefix of a program, and with the token there it isn't. At
    /// the end of the text `at` is its length.
    #[error("text byte {at}: unexpected")]
    Unexpected { at: usize },
    /// The token at byte `at` is allowed there, but opens the 65th level of nesting, or is the 33rd
    /// binary operator of one expression outside its brackets.
    #[error("text byte {at}: too deep")]
    TooDeep { at: usize },
    /// There was no memory for the program.
    #[error("out of memory")]
    OutOfMemory,
}

/// The version in which `break` is a statement.
const WITH_BREAKS: u32 = 2;

/// Parses the version that a text is written in: 1 where it has no header.
fn header<'b, 'a>(tokens: &'b [Lexeme<'a>]) -> Result<(u32, &'b [Lexeme<'a>]), Fault>
    ensures { Answers header_part (seen_lexemes tokens.now) (λ x. x.0) (λ x. seen_lexemes x.1.now)
        result }
{
    if !is_next(tokens, TokenKind::Keyword(Keyword::Version)) {
        return Ok((1, tokens));
    }
    let number_at = expect(tokens, TokenKind::Keyword(Keyword::Version))?;
    if is_next(number_at, TokenKind::Number(1)) {
        let rest = expect(number_at, TokenKind::Number(1))?;
        let end = expect(rest, TokenKind::Sign(Sign::Semicolon))?;
        return Ok((1, end));
    }
    let rest = expect(number_at, TokenKind::Number(2))?;
    let end = expect(rest, TokenKind::Sign(Sign::Semicolon))?;
    Ok((2, end))
}

/// Parses the arrays, as long as one begins.
fn arrays<'b, 'a>(
    alloc: Global,
    tokens: &'b [Lexeme<'a>],
) -> Result<(Vec<Array>, &'b [Lexeme<'a>]), Fault>
    ensures { Answers (many array_part) (seen_lexemes tokens.now) (λ x. map seen_array x.0.items)
        (λ x. seen_lexemes x.1.now) result }
{
    let mut found = Vec::new(alloc);
    let (_, mut rest) = tokens.split_at(0);
    'found: while is_next(rest, TokenKind::Keyword(Keyword::Array)) {
        let (first, end) = array(alloc, rest)?;
        found.push(first)?;
        rest = end;
    }
    Ok((found, rest))
}

/// Parses the functions, as long as one begins. `break` is a statement in them where `breaks` says
/// so.
fn functions<'b, 'a>(
    alloc: Global,
    tokens: &'b [Lexeme<'a>],
    breaks: bool,
) -> Result<(Vec<RawFunction>, &'b [Lexeme<'a>]), Fault>
    ensures { Answers (many (function_part breaks)) (seen_lexemes tokens.now)
        (λ x. map raw_function x.0.items) (λ x. seen_lexemes x.1.now) result }
{
    let mut found = Vec::new(alloc);
    let (_, mut rest) = tokens.split_at(0);
    'found: while is_next(rest, TokenKind::Keyword(Keyword::Fn)) {
        let (first, end) = function(alloc, rest, breaks)?;
        found.push(first)?;
        rest = end;
    }
    Ok((found, rest))
}

/// Parses a program, and returns it with the tokens after it.
fn program<'b, 'a>(
    alloc: Global,
    tokens: &'b [Lexeme<'a>],
) -> Result<(RawProgram, &'b [Lexeme<'a>]), Fault>
    ensures { Answers program_part (seen_lexemes tokens.now) (λ x. raw_program x.0)
        (λ x. seen_lexemes x.1.now) result }
{
    let (version, after_header) = header(tokens)?;
    let breaks = version == WITH_BREAKS;
    let (arrays, after_arrays) = arrays(alloc, after_header)?;
    let (functions, after_functions) = functions(alloc, after_arrays, breaks)?;
    let main_line = line_of(after_functions);
    let rest = expect(after_functions, TokenKind::Keyword(Keyword::Main))?;
    let (main, end) = block(alloc, rest, 0, breaks)?;
    Ok((
        RawProgram {
            version,
            arrays,
            functions,
            main,
            main_line,
        },
        end,
    ))
}

/// Parses the program that all these tokens say.
fn whole(alloc: Global, tokens: &[Lexeme]) -> Result<RawProgram, Fault>
    ensures { Answered 14 (all program_part) (seen_lexemes tokens.now) (λ p. raw_program p)
        (λ p. []) result }
{
    let (found, end) = program(alloc, tokens)?;
    if end.len() != 0 {
        return Err(Fault::Unexpected(end.len()));
    }
    Ok(found)
}

/// The offset of the token from which `left` tokens are left. The text ends at `end`.
fn offset(tokens: &[Lexeme], end: usize, left: usize) -> usize
    requires { left ≤ length tokens.now }
    ensures { result ≡ index_of end (drop (length tokens.now - left) (seen_lexemes tokens.now)) }
{
    if left == 0 {
        end
    } else {
        tokens[tokens.len() - left].from
    }
}

/// What a refusal of the scanner is for the parser.
fn of_scan(e: ScanError) -> ParseError
    ensures { result ≡ as_refusal e }
{
    match e {
        ScanError::OutOfMemory => ParseError::OutOfMemory,
        ScanError::TooLong { at } => ParseError::Scan(ScanError::TooLong { at }),
        ScanError::BadByte { at } => ParseError::Scan(ScanError::BadByte { at }),
        ScanError::NumberTooLarge { at } => ParseError::Scan(ScanError::NumberTooLarge { at }),
    }
}

/// Parses the program that a text says.
///
/// # Errors
///
/// `Scan` comes first, where the text has no tokens. Otherwise the first token that can't stand
/// where it stands decides: `TooDeep` where the limits alone forbid it, and `Unexpected` where the
/// grammar does. `OutOfMemory` may come instead of each.
pub fn parse(alloc: Global, text: &[u8]) -> Result<RawProgram, ParseError>
    // What is given is the program of the text, which has no other.
    ensures program { IfOk result (λ p. IsProgramOf text.now (raw_program p)) }
    ensures only { IfOk result (λ p. (q : Program) → IsProgramOf text.now q → q ≡ raw_program p) }
    ensures writable { IfOk result (λ p. IsWritable (raw_program p)) }
    // So it is what resolving asks for.
    ensures well_formed { IfOk result (λ p. IsWellFormed (raw_program p)) }
    // A text that has a program is refused only when memory runs out.
    ensures accepted { (q : Program) → IsProgramOf text.now q
        → IsOkUnless result ParseError.OutOfMemory }
    // When each error comes, and that it comes there.
    ensures scan { (e : scan_error) → result ≡ Err (ParseError.Scan e) → IsNoTokenText text.now e }
    ensures scan_refused { (e : scan_error) → IsNoTokenText text.now e
        → (result ≡ Err (ParseError.Scan e)) ⊎ (result ≡ Err ParseError.OutOfMemory) }
    ensures too_long_refused { max_text < length text.now
        → result ≡ Err (ParseError.Scan (TooLong max_text)) }
    ensures unexpected { (at : ℕ) → result ≡ Err (ParseError.Unexpected at)
        → IsUnexpectedAt text.now at }
    ensures unexpected_refused { (at : ℕ) → IsUnexpectedAt text.now at
        → (result ≡ Err (ParseError.Unexpected at)) ⊎ (result ≡ Err ParseError.OutOfMemory) }
    ensures too_deep { (at : ℕ) → result ≡ Err (ParseError.TooDeep at) → IsTooDeepAt text.now at }
    ensures too_deep_refused { (at : ℕ) → IsTooDeepAt text.now at
        → (result ≡ Err (ParseError.TooDeep at)) ⊎ (result ≡ Err ParseError.OutOfMemory) }
{
    let tokens = match scan(alloc, text) {
        Ok(tokens) => tokens,
        Err(e) => return Err(of_scan(e)),
    };
    let Ok(found) = lexemes(alloc, text, &tokens) else {
        return Err(ParseError::OutOfMemory);
    };
    match whole(alloc, &found) {
        Ok(program) => Ok(program),
        Err(Fault::Unexpected(left)) => Err(ParseError::Unexpected {
            at: offset(&found, text.len(), left),
        }),
        Err(Fault::TooDeep(left)) => Err(ParseError::TooDeep {
            at: offset(&found, text.len(), left),
        }),
        Err(Fault::OutOfMemory) => Err(ParseError::OutOfMemory),
    }
}
