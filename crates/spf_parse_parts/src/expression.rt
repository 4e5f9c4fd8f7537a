//! Expressions.

ghost use Rattle.std.specs.Prelude.{◌≡◌, ◌≤◌, ◌<◌, IfOk, IfErr, Some, map, suc};
ghost use Rattle.spf_parse_grammar.specs.Reading.{max_nesting};
ghost use Rattle.spf_text.specs.declared.token.TokenKind.TheVariants.{Sign as kind_sign};
ghost use Rattle.spf_ast.specs.RawView.{raw_expression};
ghost use Rattle.spf_parse_grammar.specs.Lexemes.{lexemes};
ghost use Rattle.spf_parse_grammar.specs.Parts.{expression, level as level_part};
ghost use Rattle.spf_parse_grammar.specs.Parts.{further as further_part, compared as compared_part};
ghost use Rattle.spf_parse_grammar.specs.Parts.{give, operand as operand_part};
ghost use Rattle.spf_parse_grammar.specs.Parts.{arguments as arguments_part};
ghost use Rattle.spf_parse_grammar.specs.Rules.{joined};
ghost use Rattle.spf_parse_parts.specs.Answers.{ahead, Answers, Answered, reach, named_operand};
ghost use Rattle.spf_parse_parts.specs.Answers.{value_before, after_operand};

use crate::fault::Fault;
use crate::step::{after, expect, followed_by, is_next, name, next, number, open, operator};
use spf_ast::raw::RawExpr;
use spf_ast::syntax::{Op, Test};
use spf_parse_grammar::Lexeme;
use spf_text::token::{Keyword, Sign, TokenKind};
use std::alloc::Global;

/// How many binary operators an expression may have outside its brackets.
const MAX_OPERATORS: u32 = 32;

/// The rank of comparisons.
const COMPARISONS: u32 = 7;

/// The rank of the operators that bind loosest.
pub(crate) const LOOSEST: u32 = 9;

/// An operator between its two sides.
fn between(operator: Sign, left: Box<RawExpr>, right: Box<RawExpr>) -> RawExpr
    ensures { raw_expression result
        ≡ joined operator (raw_expression left.value) (raw_expression right.value) }
{
    match operator {
        Sign::Star => RawExpr::Binary(Op::Mul, left, right),
        Sign::Slash => RawExpr::Binary(Op::Div, left, right),
        Sign::Percent => RawExpr::Binary(Op::Rem, left, right),
        Sign::Plus => RawExpr::Binary(Op::Add, left, right),
        Sign::Minus => RawExpr::Binary(Op::Sub, left, right),
        Sign::ShiftLeft => RawExpr::Binary(Op::Shl, left, right),
        Sign::ShiftRight => RawExpr::Binary(Op::Shr, left, right),
        Sign::And => RawExpr::Binary(Op::And, left, right),
        Sign::Xor => RawExpr::Binary(Op::Xor, left, right),
        Sign::Or => RawExpr::Binary(Op::Or, left, right),
        Sign::Equal => RawExpr::Compare(Test::Eq, left, right),
        Sign::NotEqual => RawExpr::Compare(Test::Ne, left, right),
        Sign::Less => RawExpr::Compare(Test::Lt, left, right),
        Sign::LessEqual => RawExpr::Compare(Test::Le, left, right),
        Sign::Greater => RawExpr::Compare(Test::Gt, left, right),
        Sign::GreaterEqual => RawExpr::Compare(Test::Ge, left, right),
        Sign::AndAnd => RawExpr::Both(left, right),
        _ => RawExpr::Either(left, right),
    }
}

/// The two sides of an operator, joined.
fn join(
    alloc: Global,
    operator: Sign,
    left: Box<RawExpr>,
    right: Box<RawExpr>,
) -> Result<Box<RawExpr>, Fault>
    ensures value { IfOk result (λ x. raw_expression x.value
        ≡ joined operator (raw_expression left.value) (raw_expression right.value)) }
    ensures memory { IfErr result (λ e. e ≡ Fault.OutOfMemory) }
{
    Ok(Box::new(alloc, between(operator, left, right))?)
}

/// Parses a name alone, indexed or called.
#[cycle(expression)]
fn operand_by_name<'b, 'a>(
    alloc: Global,
    tokens: &'b [Lexeme<'a>],
    nesting: u32,
) -> Result<(Box<RawExpr>, &'b [Lexeme<'a>]), Fault>
    requires { nesting ≤ max_nesting }
    ensures { Answered 1 (named_operand nesting) (lexemes tokens.now)
        (λ x. raw_expression x.0.value) (λ x. lexemes x.1.now) result }
{
    let (x, rest) = name(alloc, tokens)?;
    if is_next(rest, TokenKind::Sign(Sign::OpenBracket)) {
        let inner = open(rest, Sign::OpenBracket, nesting)?;
        let (index, end) = value(
            alloc,
            inner,
            nesting + 1,
            TokenKind::Sign(Sign::CloseBracket),
        )?;
        return Ok((Box::new(alloc, RawExpr::Load(x, index))?, end));
    }
    if is_next(rest, TokenKind::Sign(Sign::OpenParen)) {
        let inner = open(rest, Sign::OpenParen, nesting)?;
        let (given, end) = arguments(alloc, inner, nesting + 1)?;
        return Ok((Box::new(alloc, RawExpr::Call(x, given))?, end));
    }
    Ok((Box::new(alloc, RawExpr::Local(x))?, rest))
}

/// Parses an operand that begins with a sign: one with a unary sign, or an expression in
/// parentheses.
#[cycle(expression)]
fn operand_by_sign<'b, 'a>(
    alloc: Global,
    tokens: &'b [Lexeme<'a>],
    sign: Sign,
    nesting: u32,
) -> Result<(Box<RawExpr>, &'b [Lexeme<'a>]), Fault>
    requires nesting_in { nesting ≤ max_nesting }
    requires is_next { ahead (lexemes tokens.now) ≡ Some (kind_sign sign) }
    ensures { Answers (operand_part nesting) (lexemes tokens.now) (λ x. raw_expression x.0.value)
        (λ x. lexemes x.1.now) result }
{
    match sign {
        Sign::Minus => {
            let inner = open(tokens, Sign::Minus, nesting)?;
            let (a, end) = operand(alloc, inner, nesting + 1)?;
            Ok((Box::new(alloc, RawExpr::Neg(a))?, end))
        }
        Sign::Not => {
            let inner = open(tokens, Sign::Not, nesting)?;
            let (a, end) = operand(alloc, inner, nesting + 1)?;
            Ok((Box::new(alloc, RawExpr::Not(a))?, end))
        }
        Sign::OpenParen => {
            let inner = open(tokens, Sign::OpenParen, nesting)?;
            value(alloc, inner, nesting + 1, TokenKind::Sign(Sign::CloseParen))
        }
        _ => Err(Fault::Unexpected(tokens.len())),
    }
}

/// Parses an operand: a number, a name alone, indexed or called, the input or its length, one with
/// a unary sign, or an expression in parentheses.
#[cycle(expression)]
fn operand<'b, 'a>(
    alloc: Global,
    tokens: &'b [Lexeme<'a>],
    nesting: u32,
) -> Result<(Box<RawExpr>, &'b [Lexeme<'a>]), Fault>
    requires { nesting ≤ max_nesting }
    ensures { Answers (operand_part nesting) (lexemes tokens.now) (λ x. raw_expression x.0.value)
        (λ x. lexemes x.1.now) result }
{
    let Some(kind) = next(tokens) else {
        return Err(Fault::Unexpected(0));
    };
    match kind {
        TokenKind::Number(_) => {
            let (value, rest) = number(tokens)?;
            Ok((Box::new(alloc, RawExpr::Number(value))?, rest))
        }
        TokenKind::Name => operand_by_name(alloc, tokens, nesting),
        TokenKind::Keyword(word) => match word {
            Keyword::Len => {
                let rest = expect(tokens, TokenKind::Keyword(Keyword::Len))?;
                Ok((Box::new(alloc, RawExpr::Len)?, rest))
            }
            Keyword::Input => {
                let rest = expect(tokens, TokenKind::Keyword(Keyword::Input))?;
                let inner = open(rest, Sign::OpenBracket, nesting)?;
                let (index, end) = value(
                    alloc,
                    inner,
                    nesting + 1,
                    TokenKind::Sign(Sign::CloseBracket),
                )?;
                Ok((Box::new(alloc, RawExpr::Input(index))?, end))
            }
            _ => Err(Fault::Unexpected(tokens.len())),
        },
        TokenKind::Sign(sign) => operand_by_sign(alloc, tokens, sign, nesting),
    }
}

/// Parses what stands in the parentheses of a call, and the closing one.
#[cycle(expression)]
pub(crate) fn arguments<'b, 'a>(
    alloc: Global,
    tokens: &'b [Lexeme<'a>],
    nesting: u32,
) -> Result<(Vec<RawExpr>, &'b [Lexeme<'a>]), Fault>
    requires { nesting ≤ max_nesting }
    ensures { Answers (arguments_part nesting) (lexemes tokens.now)
        (λ x. map raw_expression x.0.items) (λ x. lexemes x.1.now) result }
{
    let mut inside = Vec::new(alloc);
    if let Some(end) = after(tokens, TokenKind::Sign(Sign::CloseParen)) {
        return Ok((inside, end));
    }
    let (first, mut rest) = expr(alloc, tokens, nesting)?;
    inside.push(Box::into_inner(first))?;
    'inside: while let Some(behind) = after(rest, TokenKind::Sign(Sign::Comma)) {
        let (a, end) = expr(alloc, behind, nesting)?;
        inside.push(Box::into_inner(a))?;
        rest = end;
    }
    let end = expect(rest, TokenKind::Sign(Sign::CloseParen))?;
    Ok((inside, end))
}

/// Parses an expression of this rank within one that has `used` operators before it. Also returns
/// how many operators that one has after it.
#[cycle(expression)]
fn level<'b, 'a>(
    alloc: Global,
    tokens: &'b [Lexeme<'a>],
    rank: u32,
    nesting: u32,
    used: u32,
) -> Result<(Box<RawExpr>, u32, &'b [Lexeme<'a>]), Fault>
    requires rank_in { rank ≤ 9 }
    requires nesting_in { nesting ≤ max_nesting }
    requires used_in { used ≤ 32 }
    ensures answers { Answers (level_part nesting rank used) (lexemes tokens.now)
        (λ x. (raw_expression x.0.value, x.1)) (λ x. lexemes x.2.now) result }
    ensures used_in { IfOk result (λ x. x.1 ≤ 32) }
{
    let (first, rest) = operand(alloc, tokens, nesting)?;
    rest_of_expression(alloc, first, rest, rank, nesting, used)
}

/// Parses an expression of this rank, of which the first operand is read.
#[cycle(expression)]
pub(crate) fn rest_of_expression<'b, 'a>(
    alloc: Global,
    operand: Box<RawExpr>,
    tokens: &'b [Lexeme<'a>],
    rank: u32,
    nesting: u32,
    used: u32,
) -> Result<(Box<RawExpr>, u32, &'b [Lexeme<'a>]), Fault>
    requires rank_in { rank ≤ 9 }
    requires nesting_in { nesting ≤ max_nesting }
    requires used_in { used ≤ 32 }
    ensures answers { Answered (suc rank)
        (after_operand nesting rank (raw_expression operand.value) used (λ x. give x))
        (lexemes tokens.now) (λ x. (raw_expression x.0.value, x.1)) (λ x. lexemes x.2.now) result }
    ensures used_in { IfOk result (λ x. x.1 ≤ 32) }
{
    if rank == 0 {
        return Ok((operand, used, tokens));
    }
    let (left, so_far, rest) = rest_of_expression(alloc, operand, tokens, rank - 1, nesting, used)?;
    if rank == COMPARISONS {
        return comparison(alloc, left, rest, nesting, so_far);
    }
    chain(alloc, left, rest, rank - 1, nesting, so_far)
}

/// Parses operands of this rank after a first one, each after an operator of the next looser rank.
#[cycle(expression)]
fn chain<'b, 'a>(
    alloc: Global,
    first: Box<RawExpr>,
    tokens: &'b [Lexeme<'a>],
    rank: u32,
    nesting: u32,
    used: u32,
) -> Result<(Box<RawExpr>, u32, &'b [Lexeme<'a>]), Fault>
    requires rank_in { rank ≤ 8 }
    requires nesting_in { nesting ≤ max_nesting }
    requires used_in { used ≤ 32 }
    ensures answers { Answers (further_part nesting rank (raw_expression first.value) used)
        (lexemes tokens.now) (λ x. (raw_expression x.0.value, x.1)) (λ x. lexemes x.2.now) result }
    ensures used_in { IfOk result (λ x. x.1 ≤ 32) }
{
    let mut left = first;
    let mut so_far = used;
    let (_, mut rest) = tokens.split_at(0);
    'further: while let Some((sign, behind)) = operator(rest, rank + 1) {
        if so_far >= MAX_OPERATORS {
            return Err(Fault::TooDeep(rest.len()));
        }
        let (right, more, end) = level(alloc, behind, rank, nesting, so_far + 1)?;
        left = join(alloc, sign, left, right)?;
        so_far = more;
        rest = end;
    }
    Ok((left, so_far, rest))
}

/// Parses at most one comparison after its left side.
#[cycle(expression)]
fn comparison<'b, 'a>(
    alloc: Global,
    left: Box<RawExpr>,
    tokens: &'b [Lexeme<'a>],
    nesting: u32,
    used: u32,
) -> Result<(Box<RawExpr>, u32, &'b [Lexeme<'a>]), Fault>
    requires nesting_in { nesting ≤ max_nesting }
    requires used_in { used ≤ 32 }
    ensures answers { Answers (compared_part nesting 6 (raw_expression left.value) used)
        (lexemes tokens.now) (λ x. (raw_expression x.0.value, x.1)) (λ x. lexemes x.2.now) result }
    ensures used_in { IfOk result (λ x. x.1 ≤ 32) }
{
    let Some((sign, behind)) = operator(tokens, COMPARISONS) else {
        return Ok((left, used, tokens));
    };
    if used >= MAX_OPERATORS {
        return Err(Fault::TooDeep(tokens.len()));
    }
    let (right, more, end) = level(alloc, behind, COMPARISONS - 1, nesting, used + 1)?;
    Ok((join(alloc, sign, left, right)?, more, end))
}

/// Parses an expression.
#[cycle(expression)]
pub(crate) fn expr<'b, 'a>(
    alloc: Global,
    tokens: &'b [Lexeme<'a>],
    nesting: u32,
) -> Result<(Box<RawExpr>, &'b [Lexeme<'a>]), Fault>
    requires { nesting ≤ max_nesting }
    ensures { Answers (expression nesting) (lexemes tokens.now) (λ x. raw_expression x.0.value)
        (λ x. lexemes x.1.now) result }
{
    let (a, _, rest) = level(alloc, tokens, LOOSEST, nesting, 0)?;
    Ok((a, rest))
}

/// Parses an expression, and the token after it.
#[cycle(expression)]
pub(crate) fn value<'b, 'a>(
    alloc: Global,
    tokens: &'b [Lexeme<'a>],
    nesting: u32,
    end: TokenKind,
) -> Result<(Box<RawExpr>, &'b [Lexeme<'a>]), Fault>
    requires nesting_in { nesting ≤ max_nesting }
    requires ends { 10 < reach end }
    ensures { Answered 0 (value_before nesting end) (lexemes tokens.now)
        (λ x. raw_expression x.0.value) (λ x. lexemes x.1.now) result }
{
    followed_by(expr(alloc, tokens, nesting), end)
}
