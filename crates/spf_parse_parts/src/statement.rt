//! Statements.

ghost use Rattle.std.specs.Prelude.{◌≤◌, ◌<◌, map};
ghost use Rattle.spf_parse_grammar.specs.Reading.{max_nesting};
ghost use Rattle.spf_text.specs.declared.token.TokenKind.TheVariants.{Keyword as keyword_kind};
ghost use Rattle.spf_ast.specs.View.{name as seen_name};
ghost use Rattle.spf_ast.specs.RawView.{raw_expression, raw_statement, raw_block};
ghost use Rattle.spf_parse_grammar.specs.Lexemes.{lexemes};
ghost use Rattle.spf_parse_grammar.specs.Parts.{form as form_part, block as block_part};
ghost use Rattle.spf_parse_grammar.specs.Parts.{otherwise as otherwise_part};
ghost use Rattle.spf_parse_grammar.specs.Rules as grammar;
ghost use Rattle.spf_parse_parts.specs.Answers.{Answers, Answered, reach, stated};
ghost use Rattle.spf_parse_parts.specs.Answers.{opened_statements, ended_statements, fold_opening};
ghost use Rattle.spf_parse_parts.specs.Answers.{seen_head, IsBreakNext};

use crate::expression::{arguments, expr, value};
use crate::fault::Fault;
use crate::row::{guess, names, row_up_to};
use crate::step::{
    after, begins_statement, count, expect, followed_by, is_next, line_of, name, next, number, open,
};
use spf_ast::raw::{RawExpr, RawFold, RawPair, RawPredict, RawStmt, RawStmtKind};
use spf_ast::syntax::Name;
use spf_parse_grammar::Lexeme;
use spf_text::token::{Keyword, Sign, TokenKind};
use std::alloc::Global;

const ASSIGN: TokenKind = TokenKind::Sign(Sign::Assign);

pub(crate) const SEMICOLON: TokenKind = TokenKind::Sign(Sign::Semicolon);

const DOTS: TokenKind = TokenKind::Sign(Sign::DotDot);

const CLOSE_BRACKET: TokenKind = TokenKind::Sign(Sign::CloseBracket);

pub(crate) const CLOSE_BRACE: TokenKind = TokenKind::Sign(Sign::CloseBrace);

/// A statement, or a part of one, and the tokens after it.
pub type Read<'b, 'a, T> = Result<(T, &'b [Lexeme<'a>]), Fault>;

/// Parses an assignment, after its name.
fn assign_form<'b, 'a>(
    alloc: Global,
    tokens: &'b [Lexeme<'a>],
    nesting: u32,
    target: Name,
) -> Read<'b, 'a, RawStmtKind>
    requires { nesting ≤ max_nesting }
    ensures { Answered 11 (grammar.assign_form nesting (seen_name target)) (lexemes tokens.now)
        (λ x. raw_statement x.0) (λ x. lexemes x.1.now) result }
{
    let rest = expect(tokens, ASSIGN)?;
    let (a, end) = value(alloc, rest, nesting, SEMICOLON)?;
    Ok((RawStmtKind::Assign(target, Box::into_inner(a)), end))
}

/// Parses a store, after its name.
fn store_form<'b, 'a>(
    alloc: Global,
    tokens: &'b [Lexeme<'a>],
    nesting: u32,
    target: Name,
) -> Read<'b, 'a, RawStmtKind>
    requires { nesting ≤ max_nesting }
    ensures { Answered 11 (grammar.store_form nesting (seen_name target)) (lexemes tokens.now)
        (λ x. raw_statement x.0) (λ x. lexemes x.1.now) result }
{
    let inner = open(tokens, Sign::OpenBracket, nesting)?;
    let (index, rest) = followed_by(value(alloc, inner, nesting + 1, CLOSE_BRACKET), ASSIGN)?;
    let (a, end) = value(alloc, rest, nesting, SEMICOLON)?;
    let store = RawStmtKind::Store(target, Box::into_inner(index), Box::into_inner(a));
    Ok((store, end))
}

/// Parses a call, after its name.
fn call_form<'b, 'a>(
    alloc: Global,
    tokens: &'b [Lexeme<'a>],
    nesting: u32,
    function: Name,
) -> Read<'b, 'a, RawStmtKind>
    requires { nesting ≤ max_nesting }
    ensures { Answered 11 (grammar.call_form nesting (seen_name function)) (lexemes tokens.now)
        (λ x. raw_statement x.0) (λ x. lexemes x.1.now) result }
{
    let inner = open(tokens, Sign::OpenParen, nesting)?;
    let (given, end) = followed_by(arguments(alloc, inner, nesting + 1), SEMICOLON)?;
    Ok((RawStmtKind::Call(function, given), end))
}

/// Parses a statement that begins with a name.
fn named_form<'b, 'a>(
    alloc: Global,
    tokens: &'b [Lexeme<'a>],
    nesting: u32,
) -> Read<'b, 'a, RawStmtKind>
    requires { nesting ≤ max_nesting }
    ensures { Answered 11 (grammar.named_form nesting) (lexemes tokens.now) (λ x. raw_statement x.0)
        (λ x. lexemes x.1.now) result }
{
    let (x, rest) = name(alloc, tokens)?;
    if is_next(rest, TokenKind::Sign(Sign::OpenBracket)) {
        return store_form(alloc, rest, nesting, x);
    }
    if is_next(rest, TokenKind::Sign(Sign::OpenParen)) {
        return call_form(alloc, rest, nesting, x);
    }
    assign_form(alloc, rest, nesting, x)
}

/// Parses `let`.
fn let_form<'b, 'a>(
    alloc: Global,
    tokens: &'b [Lexeme<'a>],
    nesting: u32,
) -> Read<'b, 'a, RawStmtKind>
    requires { nesting ≤ max_nesting }
    ensures { Answered 11 (grammar.let_form nesting) (lexemes tokens.now) (λ x. raw_statement x.0)
        (λ x. lexemes x.1.now) result }
{
    let rest = expect(tokens, TokenKind::Keyword(Keyword::Let))?;
    let (x, start) = followed_by(name(alloc, rest), ASSIGN)?;
    let (a, end) = value(alloc, start, nesting, SEMICOLON)?;
    Ok((RawStmtKind::Let(x, Box::into_inner(a)), end))
}

/// Parses `fill`.
fn fill_form<'b, 'a>(
    alloc: Global,
    tokens: &'b [Lexeme<'a>],
    nesting: u32,
) -> Read<'b, 'a, RawStmtKind>
    requires { nesting ≤ max_nesting }
    ensures { Answered 11 (grammar.fill_form nesting) (lexemes tokens.now) (λ x. raw_statement x.0)
        (λ x. lexemes x.1.now) result }
{
    let rest = expect(tokens, TokenKind::Keyword(Keyword::Fill))?;
    let (x, after_name) = name(alloc, rest)?;
    let inner = open(after_name, Sign::OpenBracket, nesting)?;
    let (low, after_low) = value(alloc, inner, nesting + 1, DOTS)?;
    let (high, start) = followed_by(value(alloc, after_low, nesting + 1, CLOSE_BRACKET), ASSIGN)?;
    let (a, end) = value(alloc, start, nesting, SEMICOLON)?;
    let fill = RawStmtKind::Fill(
        x,
        Box::into_inner(low),
        Box::into_inner(high),
        Box::into_inner(a),
    );
    Ok((fill, end))
}

/// Parses `emit`.
fn emit_form<'b, 'a>(
    alloc: Global,
    tokens: &'b [Lexeme<'a>],
    nesting: u32,
) -> Read<'b, 'a, RawStmtKind>
    requires { nesting ≤ max_nesting }
    ensures { Answered 11 (grammar.emit_form nesting) (lexemes tokens.now) (λ x. raw_statement x.0)
        (λ x. lexemes x.1.now) result }
{
    let rest = expect(tokens, TokenKind::Keyword(Keyword::Emit))?;
    let (a, end) = value(alloc, rest, nesting, SEMICOLON)?;
    Ok((RawStmtKind::Emit(Box::into_inner(a)), end))
}

/// Parses `fail`.
fn fail_form<'b, 'a>(tokens: &'b [Lexeme<'a>], nesting: u32) -> Read<'b, 'a, RawStmtKind>
    ensures { Answered 11 (grammar.fail_form nesting) (lexemes tokens.now) (λ x. raw_statement x.0)
        (λ x. lexemes x.1.now) result }
{
    let rest = expect(tokens, TokenKind::Keyword(Keyword::Fail))?;
    let (n, after_number) = number(rest)?;
    let end = expect(after_number, SEMICOLON)?;
    Ok((RawStmtKind::Fail(n), end))
}

/// Parses `break`, where it is a statement.
fn break_form<'b, 'a>(
    tokens: &'b [Lexeme<'a>],
    nesting: u32,
    breaks: bool,
) -> Read<'b, 'a, RawStmtKind>
    requires { IsBreakNext (lexemes tokens.now) }
    ensures { Answers (form_part breaks nesting) (lexemes tokens.now) (λ x. raw_statement x.0)
        (λ x. lexemes x.1.now) result }
{
    if !breaks {
        return Err(Fault::Unexpected(tokens.len()));
    }
    let rest = expect(tokens, TokenKind::Keyword(Keyword::Break))?;
    let end = expect(rest, SEMICOLON)?;
    Ok((RawStmtKind::Break, end))
}

/// Parses `if`.
#[cycle(statement)]
fn if_form<'b, 'a>(
    alloc: Global,
    tokens: &'b [Lexeme<'a>],
    nesting: u32,
    breaks: bool,
) -> Read<'b, 'a, RawStmtKind>
    requires { nesting ≤ max_nesting }
    ensures { Answered 11 (grammar.if_form breaks nesting) (lexemes tokens.now)
        (λ x. raw_statement x.0) (λ x. lexemes x.1.now) result }
{
    let rest = expect(tokens, TokenKind::Keyword(Keyword::If))?;
    let (test, after_test) = expr(alloc, rest, nesting)?;
    let (yes, after_yes) = block(alloc, after_test, nesting, breaks)?;
    let (no, end) = otherwise(alloc, after_yes, nesting, breaks)?;
    Ok((RawStmtKind::If(Box::into_inner(test), yes, no), end))
}

/// Parses `else` with its block, or nothing.
#[cycle(statement)]
fn otherwise<'b, 'a>(
    alloc: Global,
    tokens: &'b [Lexeme<'a>],
    nesting: u32,
    breaks: bool,
) -> Read<'b, 'a, Vec<RawStmt>>
    requires { nesting ≤ max_nesting }
    ensures { Answers (otherwise_part breaks nesting) (lexemes tokens.now)
        (λ x. raw_block x.0.items) (λ x. lexemes x.1.now) result }
{
    match after(tokens, TokenKind::Keyword(Keyword::Else)) {
        Some(rest) => block(alloc, rest, nesting, breaks),
        None => Ok((Vec::new(alloc), tokens)),
    }
}

/// Parses `for`.
#[cycle(statement)]
fn for_form<'b, 'a>(
    alloc: Global,
    tokens: &'b [Lexeme<'a>],
    nesting: u32,
    breaks: bool,
) -> Read<'b, 'a, RawStmtKind>
    requires { nesting ≤ max_nesting }
    ensures { Answered 11 (grammar.for_form breaks nesting) (lexemes tokens.now)
        (λ x. raw_statement x.0) (λ x. lexemes x.1.now) result }
{
    let rest = expect(tokens, TokenKind::Keyword(Keyword::For))?;
    let (x, range) = followed_by(name(alloc, rest), TokenKind::Keyword(Keyword::In))?;
    let (low, after_low) = value(alloc, range, nesting, DOTS)?;
    let (high, after_high) = expr(alloc, after_low, nesting)?;
    let (body, end) = block(alloc, after_high, nesting, breaks)?;
    let repeat = RawStmtKind::For(x, Box::into_inner(low), Box::into_inner(high), body);
    Ok((repeat, end))
}

/// Parses `while`.
#[cycle(statement)]
fn while_form<'b, 'a>(
    alloc: Global,
    tokens: &'b [Lexeme<'a>],
    nesting: u32,
    breaks: bool,
) -> Read<'b, 'a, RawStmtKind>
    requires { nesting ≤ max_nesting }
    ensures { Answered 11 (grammar.while_form breaks nesting) (lexemes tokens.now)
        (λ x. raw_statement x.0) (λ x. lexemes x.1.now) result }
{
    let rest = expect(tokens, TokenKind::Keyword(Keyword::While))?;
    let (test, after_test) = value(alloc, rest, nesting, TokenKind::Keyword(Keyword::Max))?;
    let (most, after_most) = count(after_test)?;
    let (body, end) = block(alloc, after_most, nesting, breaks)?;
    Ok((RawStmtKind::While(Box::into_inner(test), most, body), end))
}

/// What a fold says before its body.
#[derive(Drop)]
struct FoldHead {
    carried: Vec<Name>,
    start: Vec<RawExpr>,
    block: Name,
    low: RawExpr,
    high: RawExpr,
    predict: Vec<RawPredict>,
}

/// Parses `specfold`, up to its body.
fn fold_head<'b, 'a>(
    alloc: Global,
    tokens: &'b [Lexeme<'a>],
    nesting: u32,
) -> Read<'b, 'a, Box<FoldHead>>
    requires { nesting ≤ max_nesting }
    ensures { Answered 10 (fold_opening nesting) (lexemes tokens.now) (λ x. seen_head x.0.value)
        (λ x. lexemes x.1.now) result }
{
    let rest = expect(tokens, TokenKind::Keyword(Keyword::Specfold))?;
    let (carried, row_at) = followed_by(names(alloc, rest, nesting), ASSIGN)?;
    let (start, after_start) = row_up_to(alloc, row_at, nesting, TokenKind::Keyword(Keyword::For))?;
    let (block, range) = followed_by(name(alloc, after_start), TokenKind::Keyword(Keyword::In))?;
    let (low, after_low) = value(alloc, range, nesting, DOTS)?;
    let (high, after_high) = value(
        alloc,
        after_low,
        nesting,
        TokenKind::Keyword(Keyword::Predict),
    )?;
    let (predict, end) = guess(alloc, after_high, nesting)?;
    let head = FoldHead {
        carried,
        start,
        block,
        low: Box::into_inner(low),
        high: Box::into_inner(high),
        predict,
    };
    Ok((Box::new(alloc, head)?, end))
}

/// Parses `specfold`.
#[cycle(statement)]
fn fold_form<'b, 'a>(
    alloc: Global,
    tokens: &'b [Lexeme<'a>],
    nesting: u32,
    breaks: bool,
) -> Read<'b, 'a, RawStmtKind>
    requires { nesting ≤ max_nesting }
    ensures { Answered 11 (grammar.fold_form breaks nesting) (lexemes tokens.now)
        (λ x. raw_statement x.0) (λ x. lexemes x.1.now) result }
{
    let (head, rest) = fold_head(alloc, tokens, nesting)?;
    let ((body, next_line, next), end) = block_with_row(
        alloc,
        rest,
        nesting,
        breaks,
        Keyword::Next,
    )?;
    let head = Box::into_inner(head);
    let fold = RawFold {
        carried: head.carried,
        start: head.start,
        block: head.block,
        low: head.low,
        high: head.high,
        predict: head.predict,
        body,
        next,
        next_line,
    };
    Ok((RawStmtKind::Fold(Box::new(alloc, fold)?), end))
}

/// Parses statements in braces whose last one begins with this word and has a row, with the line of
/// that word.
#[cycle(statement)]
fn block_with_row<'b, 'a>(
    alloc: Global,
    tokens: &'b [Lexeme<'a>],
    nesting: u32,
    breaks: bool,
    word: Keyword,
) -> Read<'b, 'a, (Vec<RawStmt>, u32, Vec<RawExpr>)>
    requires nesting_in { nesting ≤ max_nesting }
    requires ends { 12 < reach (keyword_kind word) }
    ensures { Answered 0 (ended_statements breaks nesting word) (lexemes tokens.now)
        (λ x. (map stated x.0.0.items, x.0.1, map raw_expression x.0.2.items))
        (λ x. lexemes x.1.now) result }
{
    let (body, rest) = open_block(alloc, tokens, nesting, breaks)?;
    let line = line_of(rest);
    let last = expect(rest, TokenKind::Keyword(word))?;
    let (a, end) = followed_by(row_up_to(alloc, last, nesting + 1, SEMICOLON), CLOSE_BRACE)?;
    Ok(((body, line, a), end))
}

/// Parses `spec`.
#[cycle(statement)]
fn pair_form<'b, 'a>(
    alloc: Global,
    tokens: &'b [Lexeme<'a>],
    nesting: u32,
    breaks: bool,
) -> Read<'b, 'a, RawStmtKind>
    requires { nesting ≤ max_nesting }
    ensures { Answered 11 (grammar.pair_form breaks nesting) (lexemes tokens.now)
        (λ x. raw_statement x.0) (λ x. lexemes x.1.now) result }
{
    let rest = expect(tokens, TokenKind::Keyword(Keyword::Spec))?;
    let (carried, open_at) = followed_by(names(alloc, rest, nesting), ASSIGN)?;
    let ((producer, give_line, give), guess_at) = followed_by(
        block_with_row(alloc, open_at, nesting, breaks, Keyword::Give),
        TokenKind::Keyword(Keyword::Predict),
    )?;
    let (predict, after_guess) = guess(alloc, guess_at, nesting)?;
    let (consumer, end) = block(alloc, after_guess, nesting, breaks)?;
    let pair = RawPair {
        carried,
        producer,
        give,
        give_line,
        predict,
        consumer,
    };
    Ok((RawStmtKind::Pair(Box::new(alloc, pair)?), end))
}

/// Parses statements in braces.
#[cycle(statement)]
pub fn block<'b, 'a>(
    alloc: Global,
    tokens: &'b [Lexeme<'a>],
    nesting: u32,
    breaks: bool,
) -> Read<'b, 'a, Vec<RawStmt>>
    requires { nesting ≤ max_nesting }
    ensures { Answers (block_part breaks nesting) (lexemes tokens.now) (λ x. raw_block x.0.items)
        (λ x. lexemes x.1.now) result }
{
    let (inside, end) = followed_by(open_block(alloc, tokens, nesting, breaks), CLOSE_BRACE)?;
    Ok((inside, end))
}

/// Parses an opening brace, and statements as long as one begins.
#[cycle(statement)]
pub(crate) fn open_block<'b, 'a>(
    alloc: Global,
    tokens: &'b [Lexeme<'a>],
    nesting: u32,
    breaks: bool,
) -> Read<'b, 'a, Vec<RawStmt>>
    requires { nesting ≤ max_nesting }
    ensures { Answered 12 (opened_statements breaks nesting) (lexemes tokens.now)
        (λ x. map stated x.0.items) (λ x. lexemes x.1.now) result }
{
    let mut rest = open(tokens, Sign::OpenBrace, nesting)?;
    let mut inside = Vec::new(alloc);
    'inside: while begins_statement(rest, breaks) {
        let line = line_of(rest);
        let (kind, end) = form(alloc, rest, nesting + 1, breaks)?;
        inside.push(RawStmt { line, kind })?;
        rest = end;
    }
    Ok((inside, rest))
}

/// Parses a statement, but for its line.
#[cycle(statement)]
fn form<'b, 'a>(
    alloc: Global,
    tokens: &'b [Lexeme<'a>],
    nesting: u32,
    breaks: bool,
) -> Read<'b, 'a, RawStmtKind>
    requires { nesting ≤ max_nesting }
    ensures { Answers (form_part breaks nesting) (lexemes tokens.now) (λ x. raw_statement x.0)
        (λ x. lexemes x.1.now) result }
{
    let Some(kind) = next(tokens) else {
        return Err(Fault::Unexpected(0));
    };
    match kind {
        TokenKind::Name => named_form(alloc, tokens, nesting),
        TokenKind::Keyword(word) => match word {
            Keyword::Let => let_form(alloc, tokens, nesting),
            Keyword::Fill => fill_form(alloc, tokens, nesting),
            Keyword::Emit => emit_form(alloc, tokens, nesting),
            Keyword::Fail => fail_form(tokens, nesting),
            Keyword::If => if_form(alloc, tokens, nesting, breaks),
            Keyword::For => for_form(alloc, tokens, nesting, breaks),
            Keyword::While => while_form(alloc, tokens, nesting, breaks),
            Keyword::Specfold => fold_form(alloc, tokens, nesting, breaks),
            Keyword::Break => break_form(tokens, nesting, breaks),
            Keyword::Spec => pair_form(alloc, tokens, nesting, breaks),
            _ => Err(Fault::Unexpected(tokens.len())),
        },
        TokenKind::Number(_) => Err(Fault::Unexpected(tokens.len())),
        TokenKind::Sign(_) => Err(Fault::Unexpected(tokens.len())),
    }
}
