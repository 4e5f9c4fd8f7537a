//! Rows: the names, expressions and predictors of what is carried.

ghost use Rattle.std.specs.Prelude.{◌≤◌, ◌<◌, map};
ghost use Rattle.spf_parse_grammar.specs.Reading.{max_nesting};
ghost use Rattle.spf_ast.specs.View.{name as seen_name};
ghost use Rattle.spf_ast.specs.RawSyntax.{By};
ghost use Rattle.spf_ast.specs.RawView.{raw_expression, raw_predictor};
ghost use Rattle.spf_parse_grammar.specs.Lexemes.{lexemes};
ghost use Rattle.spf_parse_grammar.specs.Parts.{names as names_part, row as row_part};
ghost use Rattle.spf_parse_grammar.specs.Parts.{guess as guess_part, predictor as predictor_part};
ghost use Rattle.spf_parse_parts.specs.Answers.{Answers, Answered, Continues, reach, row_before};
ghost use Rattle.spf_parse_parts.specs.Answers.{row_from, row_after, guess_from_bracket};
ghost use Rattle.spf_parse_parts.specs.Answers.{guess_from, guess_after};

use crate::expression::{LOOSEST, expr, rest_of_expression};
use crate::fault::Fault;
use crate::step::{after, count, expect, followed_by, is_next, name, open};
use spf_ast::raw::{RawExpr, RawPredict};
use spf_ast::syntax::Name;
use spf_parse_grammar::Lexeme;
use spf_text::token::{Keyword, Sign, TokenKind};
use std::alloc::Global;

const OPEN_PAREN: TokenKind = TokenKind::Sign(Sign::OpenParen);

const CLOSE_PAREN: TokenKind = TokenKind::Sign(Sign::CloseParen);

const COMMA: TokenKind = TokenKind::Sign(Sign::Comma);

/// How many parts a row may have after its second one.
const MORE_PARTS: u32 = 2;

/// Parses a name, or two to four in parentheses.
pub(crate) fn names<'b, 'a>(
    alloc: Global,
    tokens: &'b [Lexeme<'a>],
    nesting: u32,
) -> Result<(Vec<Name>, &'b [Lexeme<'a>]), Fault>
    requires { nesting ≤ max_nesting }
    ensures { Answers (names_part nesting) (lexemes tokens.now) (λ x. map seen_name x.0.items)
        (λ x. lexemes x.1.now) result }
{
    let mut found = Vec::new(alloc);
    if is_next(tokens, TokenKind::Name) {
        let (only, end) = name(alloc, tokens)?;
        found.push(only)?;
        return Ok((found, end));
    }
    let inner = open(tokens, Sign::OpenParen, nesting)?;
    let (first, second_at) = followed_by(name(alloc, inner), COMMA)?;
    found.push(first)?;
    let (second, mut rest) = name(alloc, second_at)?;
    found.push(second)?;
    let mut room = MORE_PARTS;
    'found: while let Some(behind) = after(rest, COMMA) {
        if room == 0 {
            return Err(Fault::Unexpected(rest.len()));
        }
        let (x, end) = name(alloc, behind)?;
        found.push(x)?;
        room -= 1;
        rest = end;
    }
    let end = expect(rest, CLOSE_PAREN)?;
    Ok((found, end))
}

/// Parses what comes after an opening parenthesis: an expression that goes on after its bracket, or
/// the first part of a row and its comma. Also tells whether it is a whole expression.
fn after_parenthesis<'b, 'a>(
    alloc: Global,
    tokens: &'b [Lexeme<'a>],
    nesting: u32,
) -> Result<((Box<RawExpr>, bool), &'b [Lexeme<'a>]), Fault>
    requires { nesting < max_nesting }
    ensures row { Continues 10 (row_from nesting) (lexemes tokens.now)
        (λ x. row_after nesting (raw_expression x.0.0.value) x.0.1) (λ x. lexemes x.1.now) result }
    ensures guess { Continues 10 (guess_from_bracket nesting) (lexemes tokens.now)
        (λ x. guess_after nesting (By (raw_expression x.0.0.value)) x.0.1) (λ x. lexemes x.1.now)
        result }
{
    let (first, rest) = expr(alloc, tokens, nesting + 1)?;
    let Some(closed) = after(rest, CLOSE_PAREN) else {
        let end = expect(rest, COMMA)?;
        return Ok(((first, false), end));
    };
    let (whole, _, end) = rest_of_expression(alloc, first, closed, LOOSEST, nesting, 0)?;
    Ok(((whole, true), end))
}

/// Parses an expression, or two to four in parentheses.
pub(crate) fn row<'b, 'a>(
    alloc: Global,
    tokens: &'b [Lexeme<'a>],
    nesting: u32,
) -> Result<(Vec<RawExpr>, &'b [Lexeme<'a>]), Fault>
    requires { nesting ≤ max_nesting }
    ensures { Answers (row_part nesting) (lexemes tokens.now) (λ x. map raw_expression x.0.items)
        (λ x. lexemes x.1.now) result }
{
    let mut found = Vec::new(alloc);
    if !is_next(tokens, OPEN_PAREN) {
        let (only, end) = expr(alloc, tokens, nesting)?;
        found.push(Box::into_inner(only))?;
        return Ok((found, end));
    }
    let inner = open(tokens, Sign::OpenParen, nesting)?;
    let ((first, is_whole), second_at) = after_parenthesis(alloc, inner, nesting)?;
    found.push(Box::into_inner(first))?;
    if is_whole {
        return Ok((found, second_at));
    }
    let (second, mut rest) = expr(alloc, second_at, nesting + 1)?;
    found.push(Box::into_inner(second))?;
    let mut room = MORE_PARTS;
    'found: while let Some(behind) = after(rest, COMMA) {
        if room == 0 {
            return Err(Fault::Unexpected(rest.len()));
        }
        let (a, end) = expr(alloc, behind, nesting + 1)?;
        found.push(Box::into_inner(a))?;
        room -= 1;
        rest = end;
    }
    let end = expect(rest, CLOSE_PAREN)?;
    Ok((found, end))
}

/// Parses a row, and the token after it.
pub(crate) fn row_up_to<'b, 'a>(
    alloc: Global,
    tokens: &'b [Lexeme<'a>],
    nesting: u32,
    end: TokenKind,
) -> Result<(Vec<RawExpr>, &'b [Lexeme<'a>]), Fault>
    requires nesting_in { nesting ≤ max_nesting }
    requires ends { 10 < reach end }
    ensures { Answered 0 (row_before nesting end) (lexemes tokens.now)
        (λ x. map raw_expression x.0.items) (λ x. lexemes x.1.now) result }
{
    followed_by(row(alloc, tokens, nesting), end)
}

/// Parses a predictor: the number of one that is supplied, or an expression.
fn predictor<'b, 'a>(
    alloc: Global,
    tokens: &'b [Lexeme<'a>],
    nesting: u32,
) -> Result<(RawPredict, &'b [Lexeme<'a>]), Fault>
    requires { nesting ≤ max_nesting }
    ensures { Answers (predictor_part nesting) (lexemes tokens.now) (λ x. raw_predictor x.0)
        (λ x. lexemes x.1.now) result }
{
    if let Some(rest) = after(tokens, TokenKind::Keyword(Keyword::Host)) {
        let (n, end) = count(rest)?;
        return Ok((RawPredict::Host(n), end));
    }
    let (g, end) = expr(alloc, tokens, nesting)?;
    Ok((RawPredict::Expr(Box::into_inner(g)), end))
}

/// Parses what comes after an opening parenthesis: a predictor that goes on after its bracket, or
/// the first one of a row and its comma. Also tells whether it is a whole predictor.
fn bracketed_predictor<'b, 'a>(
    alloc: Global,
    tokens: &'b [Lexeme<'a>],
    nesting: u32,
) -> Result<((RawPredict, bool), &'b [Lexeme<'a>]), Fault>
    requires { nesting < max_nesting }
    ensures { Continues 10 (guess_from nesting) (lexemes tokens.now)
        (λ x. guess_after nesting (raw_predictor x.0.0) x.0.1) (λ x. lexemes x.1.now) result }
{
    if let Some(rest) = after(tokens, TokenKind::Keyword(Keyword::Host)) {
        let (n, end) = followed_by(count(rest), COMMA)?;
        return Ok(((RawPredict::Host(n), false), end));
    }
    let ((g, is_whole), end) = after_parenthesis(alloc, tokens, nesting)?;
    Ok(((RawPredict::Expr(Box::into_inner(g)), is_whole), end))
}

/// Parses what comes after `predict`: a predictor, or two to four in parentheses.
pub(crate) fn guess<'b, 'a>(
    alloc: Global,
    tokens: &'b [Lexeme<'a>],
    nesting: u32,
) -> Result<(Vec<RawPredict>, &'b [Lexeme<'a>]), Fault>
    requires { nesting ≤ max_nesting }
    ensures { Answers (guess_part nesting) (lexemes tokens.now) (λ x. map raw_predictor x.0.items)
        (λ x. lexemes x.1.now) result }
{
    let mut found = Vec::new(alloc);
    if !is_next(tokens, OPEN_PAREN) {
        let (only, end) = predictor(alloc, tokens, nesting)?;
        found.push(only)?;
        return Ok((found, end));
    }
    let inner = open(tokens, Sign::OpenParen, nesting)?;
    let ((first, is_whole), second_at) = bracketed_predictor(alloc, inner, nesting)?;
    found.push(first)?;
    if is_whole {
        return Ok((found, second_at));
    }
    let (second, mut rest) = predictor(alloc, second_at, nesting + 1)?;
    found.push(second)?;
    let mut room = MORE_PARTS;
    'found: while let Some(behind) = after(rest, COMMA) {
        if room == 0 {
            return Err(Fault::Unexpected(rest.len()));
        }
        let (g, end) = predictor(alloc, behind, nesting + 1)?;
        found.push(g)?;
        room -= 1;
        rest = end;
    }
    let end = expect(rest, CLOSE_PAREN)?;
    Ok((found, end))
}
