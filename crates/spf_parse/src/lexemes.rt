//! The tokens of a text, each with its bytes and its line.

ghost use Rattle.std.specs.Prelude.{◌≡◌, ◌≤◌, ◌<◌, ◌^◌, ◌==◌, length, map, IfOk, count_by};
ghost use Rattle.spf_text.specs.Tokens.{AreInOrder};
ghost use Rattle.spf_parse_grammar.specs.Lexemes.{lexemes as seen_lexemes, lexemes_of};

use spf_parse_grammar::Lexeme;
use spf_text::token::Token;
use std::alloc::{AllocError, Global};

/// How many lines end in these bytes.
fn line_ends(bytes: &[u8]) -> usize
    ensures { result ≡ count_by (λ b. b == 10) bytes.now }
{
    bytes.iter().filter(|b| **b == b'\n').count()
}

/// The tokens with their bytes and lines, in time linear in the text.
pub(crate) fn lexemes<'a>(
    alloc: Global,
    text: &'a [u8],
    tokens: &[Token],
) -> Result<Vec<Lexeme<'a>>, AllocError>
    requires short { length text.now < 2 ^ 31 }
    requires in_order { AreInOrder 0 (length text.now) tokens.now }
    ensures { IfOk result (λ v. seen_lexemes v.items ≡ lexemes_of text.now tokens.now) }
{
    let mut out = Vec::new(alloc);
    let mut line: usize = 1;
    let mut up_to: usize = 0;
    for token in tokens {
        let from = token.from;
        line += line_ends(&text[up_to..from]);
        up_to = from;
        out.push(Lexeme {
            kind: token.kind,
            bytes: &text[from..token.to],
            from,
            line: line as u32,
        })?;
    }
    Ok(out)
}
