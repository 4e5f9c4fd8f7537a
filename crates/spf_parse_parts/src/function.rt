//! Arrays and functions.

ghost use Rattle.std.specs.Prelude.{map};
ghost use Rattle.spf_ast.specs.View.{name as seen_name, array as seen_array};
ghost use Rattle.spf_ast.specs.RawView.{raw_function};
ghost use Rattle.spf_parse_grammar.specs.Lexemes.{lexemes};
ghost use Rattle.spf_parse_grammar.specs.Parts.{size as size_part, array as array_part};
ghost use Rattle.spf_parse_grammar.specs.Parts.{parameters as parameters_part};
ghost use Rattle.spf_parse_grammar.specs.Parts.{function as function_part};
ghost use Rattle.spf_parse_parts.specs.Answers.{Answers};

use crate::expression::value;
use crate::fault::Fault;
use crate::statement::{CLOSE_BRACE, SEMICOLON, open_block};
use crate::step::{after, expect, followed_by, line_of, name, number, open};
use spf_ast::raw::RawFunction;
use spf_ast::syntax::{Array, Name};
use spf_parse_grammar::Lexeme;
use spf_text::token::{Keyword, Sign, TokenKind};
use std::alloc::Global;

/// Parses the factor and the offset of a size.
fn size<'b, 'a>(tokens: &'b [Lexeme<'a>]) -> Result<((i64, i64), &'b [Lexeme<'a>]), Fault>
    ensures { Answers size_part (lexemes tokens.now) (λ x. (x.0.0, x.0.1)) (λ x. lexemes x.1.now)
        result }
{
    let (first, rest) = number(tokens)?;
    let Some(after_star) = after(rest, TokenKind::Sign(Sign::Star)) else {
        return Ok(((0, first), rest));
    };
    let after_len = expect(after_star, TokenKind::Keyword(Keyword::Len))?;
    let Some(after_plus) = after(after_len, TokenKind::Sign(Sign::Plus)) else {
        return Ok(((first, 0), after_len));
    };
    let (second, end) = number(after_plus)?;
    Ok(((first, second), end))
}

/// Parses an array.
pub fn array<'b, 'a>(
    alloc: Global,
    tokens: &'b [Lexeme<'a>],
) -> Result<(Array, &'b [Lexeme<'a>]), Fault>
    ensures { Answers array_part (lexemes tokens.now) (λ x. seen_array x.0) (λ x. lexemes x.1.now)
        result }
{
    let line = line_of(tokens);
    let rest = expect(tokens, TokenKind::Keyword(Keyword::Array))?;
    let (name, after_name) = name(alloc, rest)?;
    let inner = open(after_name, Sign::OpenBracket, 0)?;
    let ((factor, offset), after_size) = size(inner)?;
    let closed = expect(after_size, TokenKind::Sign(Sign::CloseBracket))?;
    let end = expect(closed, TokenKind::Sign(Sign::Semicolon))?;
    Ok((
        Array {
            name,
            factor,
            offset,
            line,
        },
        end,
    ))
}

/// Parses what stands in the parentheses of a function, and the closing one.
fn parameters<'b, 'a>(
    alloc: Global,
    tokens: &'b [Lexeme<'a>],
) -> Result<(Vec<Name>, &'b [Lexeme<'a>]), Fault>
    ensures { Answers parameters_part (lexemes tokens.now) (λ x. map seen_name x.0.items)
        (λ x. lexemes x.1.now) result }
{
    let mut inside = Vec::new(alloc);
    if let Some(end) = after(tokens, TokenKind::Sign(Sign::CloseParen)) {
        return Ok((inside, end));
    }
    let (first, mut rest) = name(alloc, tokens)?;
    inside.push(first)?;
    'inside: while let Some(behind) = after(rest, TokenKind::Sign(Sign::Comma)) {
        let (x, end) = name(alloc, behind)?;
        inside.push(x)?;
        rest = end;
    }
    let end = expect(rest, TokenKind::Sign(Sign::CloseParen))?;
    Ok((inside, end))
}

/// Parses a function. `break` is a statement in it where `breaks` says so.
pub fn function<'b, 'a>(
    alloc: Global,
    tokens: &'b [Lexeme<'a>],
    breaks: bool,
) -> Result<(RawFunction, &'b [Lexeme<'a>]), Fault>
    ensures { Answers (function_part breaks) (lexemes tokens.now) (λ x. raw_function x.0)
        (λ x. lexemes x.1.now) result }
{
    let line = line_of(tokens);
    let rest = expect(tokens, TokenKind::Keyword(Keyword::Fn))?;
    let (name, after_name) = name(alloc, rest)?;
    let inner = open(after_name, Sign::OpenParen, 0)?;
    let (params, after_params) = parameters(alloc, inner)?;
    let (body, after_body) = open_block(alloc, after_params, 0, breaks)?;
    let answer_line = line_of(after_body);
    let answer_at = expect(after_body, TokenKind::Keyword(Keyword::Return))?;
    let (answer, end) = followed_by(value(alloc, answer_at, 1, SEMICOLON), CLOSE_BRACE)?;
    let function = RawFunction {
        name,
        params,
        body,
        answer: Box::into_inner(answer),
        answer_line,
        line,
    };
    Ok((function, end))
}
