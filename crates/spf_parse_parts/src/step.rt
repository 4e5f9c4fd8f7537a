//! Single tokens.

ghost use Rattle.std.specs.Prelude.{◌≡◌, ◌↔◌, ◌<◌, IsTrue, Some, ◌∷◌, MatchOption, IfOk, IfErr};
ghost use Rattle.std.specs.Prelude.{Err};
ghost use Rattle.spf_text.specs.declared.token.Sign.{Sign as AnySign};
ghost use Rattle.spf_text.specs.declared.token.TokenKind.TheVariants.{Sign as sign_kind};
ghost use Rattle.spf_ast.specs.View.{name as seen_name};
ghost use Rattle.spf_parse_grammar.specs.declared.Lexeme.{Lexeme as lexeme_type};
ghost use Rattle.spf_parse_grammar.specs.Lexemes.{lexemes};
ghost use Rattle.spf_parse_grammar.specs.Parts.{token, opens, name as name_part};
ghost use Rattle.spf_parse_grammar.specs.Parts.{number as number_part, count as count_part};
ghost use Rattle.spf_parse_grammar.specs.Parts.{operator};
ghost use Rattle.spf_parse_grammar.specs.Reading.{line_of as first_line, max_nesting};
ghost use Rattle.spf_parse_grammar.specs.Rules.{rank_of as rank_in_grammar};
ghost use Rattle.spf_parse_parts.specs.Answers.{ahead, Answers, opens_statement};

use crate::fault::Fault;
use spf_ast::syntax::Name;
use spf_parse_grammar::Lexeme;
use spf_text::token::{Keyword, Sign, TokenKind};
use std::alloc::Global;

/// How many levels of nesting may be open.
const MAX_NESTING: u32 = 64;

/// The next token's kind.
pub(crate) fn next(tokens: &[Lexeme]) -> Option<TokenKind>
    ensures { result ≡ ahead (lexemes tokens.now) }
{
    match tokens.split_first() {
        Some((token, _)) => Some(token.kind),
        None => None,
    }
}

/// Returns the line of the next token, or 0.
pub fn line_of(tokens: &[Lexeme]) -> u32
    ensures { result ≡ first_line (lexemes tokens.now) }
{
    match tokens.split_first() {
        Some((token, _)) => token.line,
        None => 0,
    }
}

/// Returns whether the next token is of this kind.
pub fn is_next(tokens: &[Lexeme], kind: TokenKind) -> bool
    ensures { IsTrue result ↔ (ahead (lexemes tokens.now) ≡ Some kind) }
{
    next(tokens) == Some(kind)
}

/// The tokens after the next one, where it is of this kind.
pub(crate) fn after<'b, 'a>(tokens: &'b [Lexeme<'a>], kind: TokenKind) -> Option<&'b [Lexeme<'a>]>
    ensures { MatchOption result
        (ahead (lexemes tokens.now) ≡ Some kind → ⊥)
        (λ rest. (t : lexeme_type) × (t.kind ≡ kind) × (tokens.now ≡ t ∷ rest.now)) }
{
    match tokens.split_first() {
        Some((token, rest)) if token.kind == kind => Some(rest),
        _ => None,
    }
}

/// Returns the tokens after one of this kind.
pub fn expect<'b, 'a>(tokens: &'b [Lexeme<'a>], kind: TokenKind) -> Result<&'b [Lexeme<'a>], Fault>
    ensures { Answers (token kind) (lexemes tokens.now) (λ rest. first_line (lexemes tokens.now))
        (λ rest. lexemes rest.now) result }
{
    match after(tokens, kind) {
        Some(rest) => Ok(rest),
        None => Err(Fault::Unexpected(tokens.len())),
    }
}

/// What was read, with the tokens after the next one, where that is of this kind.
pub(crate) fn followed_by<'b, 'a, T: Drop>(
    read: Result<(T, &'b [Lexeme<'a>]), Fault>,
    end: TokenKind,
) -> Result<(T, &'b [Lexeme<'a>]), Fault>
    ensures refused { IfErr read.entry (λ why. result ≡ Err why) }
    ensures kept { IfOk read.entry (λ x. IfOk result (λ y. y.0 ≡ x.0)) }
    ensures token { IfOk read.entry (λ x. Answers (token end) (lexemes x.1.now)
        (λ y. first_line (lexemes x.1.now)) (λ y. lexemes y.1.now) result) }
{
    let (x, rest) = read?;
    let after = expect(rest, end)?;
    Ok((x, after))
}

/// The tokens after a sign that opens a level of nesting.
pub(crate) fn open<'b, 'a>(
    tokens: &'b [Lexeme<'a>],
    sign: Sign,
    nesting: u32,
) -> Result<&'b [Lexeme<'a>], Fault>
    ensures answers { Answers (opens nesting sign) (lexemes tokens.now) (λ rest. tt)
        (λ rest. lexemes rest.now) result }
    ensures below { IfOk result (λ rest. nesting < max_nesting) }
{
    let Some(rest) = after(tokens, TokenKind::Sign(sign)) else {
        return Err(Fault::Unexpected(tokens.len()));
    };
    if nesting >= MAX_NESTING {
        return Err(Fault::TooDeep(tokens.len()));
    }
    Ok(rest)
}

/// Parses a name.
pub(crate) fn name<'b, 'a>(
    alloc: Global,
    tokens: &'b [Lexeme<'a>],
) -> Result<(Name, &'b [Lexeme<'a>]), Fault>
    ensures { Answers name_part (lexemes tokens.now) (λ x. seen_name x.0) (λ x. lexemes x.1.now)
        result }
{
    let Some((token, rest)) = tokens.split_first() else {
        return Err(Fault::Unexpected(0));
    };
    if token.kind != TokenKind::Name {
        return Err(Fault::Unexpected(tokens.len()));
    }
    let bytes = token.bytes.to_vec(alloc)?;
    Ok((Name { bytes }, rest))
}

/// Parses a number.
pub(crate) fn number<'b, 'a>(tokens: &'b [Lexeme<'a>]) -> Result<(i64, &'b [Lexeme<'a>]), Fault>
    ensures { Answers number_part (lexemes tokens.now) (λ x. x.0) (λ x. lexemes x.1.now) result }
{
    let Some((token, rest)) = tokens.split_first() else {
        return Err(Fault::Unexpected(0));
    };
    match token.kind {
        TokenKind::Number(value) => Ok((value, rest)),
        TokenKind::Name => Err(Fault::Unexpected(tokens.len())),
        TokenKind::Keyword(_) => Err(Fault::Unexpected(tokens.len())),
        TokenKind::Sign(_) => Err(Fault::Unexpected(tokens.len())),
    }
}

/// Parses a number as a count.
pub(crate) fn count<'b, 'a>(tokens: &'b [Lexeme<'a>]) -> Result<(u64, &'b [Lexeme<'a>]), Fault>
    ensures { Answers count_part (lexemes tokens.now) (λ x. x.0) (λ x. lexemes x.1.now) result }
{
    let Some((token, rest)) = tokens.split_first() else {
        return Err(Fault::Unexpected(0));
    };
    match token.kind {
        TokenKind::Number(value) => match u64::try_from(value) {
            Ok(value) => Ok((value, rest)),
            Err(_) => Err(Fault::Unexpected(tokens.len())),
        },
        TokenKind::Name => Err(Fault::Unexpected(tokens.len())),
        TokenKind::Keyword(_) => Err(Fault::Unexpected(tokens.len())),
        TokenKind::Sign(_) => Err(Fault::Unexpected(tokens.len())),
    }
}

/// How loosely a binary operator binds, the tightest 1. Other signs have 0.
pub(crate) fn rank_of(sign: Sign) -> u32
    ensures { result ≡ rank_in_grammar sign }
{
    match sign {
        Sign::Star | Sign::Slash | Sign::Percent => 1,
        Sign::Plus | Sign::Minus => 2,
        Sign::ShiftLeft | Sign::ShiftRight => 3,
        Sign::And => 4,
        Sign::Xor => 5,
        Sign::Or => 6,
        Sign::Equal | Sign::NotEqual => 7,
        Sign::Less | Sign::LessEqual | Sign::Greater | Sign::GreaterEqual => 7,
        Sign::AndAnd => 8,
        Sign::OrOr => 9,
        _ => 0,
    }
}

/// The next token, where it is an operator of this rank, and the tokens after it.
pub(crate) fn operator<'b, 'a>(
    tokens: &'b [Lexeme<'a>],
    rank: u32,
) -> Option<(Sign, &'b [Lexeme<'a>])>
    ensures { MatchOption result ((s : AnySign) → ahead (lexemes tokens.now) ≡ Some (sign_kind s)
        → rank_in_grammar s ≡ rank → ⊥) (λ x. (t : lexeme_type) × (t.kind ≡ sign_kind x.0)
        × (tokens.now ≡ t ∷ x.1.now) × (rank_in_grammar x.0 ≡ rank)) }
{
    let (token, rest) = tokens.split_first()?;
    match token.kind {
        TokenKind::Sign(sign) if rank_of(sign) == rank => Some((sign, rest)),
        _ => None,
    }
}

/// Returns whether a statement begins here. `break` begins one where there are such statements.
pub(crate) fn begins_statement(tokens: &[Lexeme], breaks: bool) -> bool
    ensures { result ≡ opens_statement breaks (ahead (lexemes tokens.now)) }
{
    match next(tokens) {
        Some(TokenKind::Name) => true,
        Some(TokenKind::Keyword(word)) => match word {
            Keyword::Let
            | Keyword::Fill
            | Keyword::Emit
            | Keyword::Fail
            | Keyword::If
            | Keyword::For
            | Keyword::While
            | Keyword::Specfold
            | Keyword::Spec => true,
            Keyword::Break => breaks,
            _ => false,
        },
        _ => false,
    }
}
