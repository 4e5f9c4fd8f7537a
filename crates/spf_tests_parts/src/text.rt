//! Texts, and the tokens that they are cut into.

use spf_text::token::{Keyword, Sign, Token, TokenKind};
use spf_text::{ScanError, scan};
use std::alloc::Global;
use std::test::Fail;

const NAME: TokenKind = TokenKind::Name;

const DOTS: TokenKind = TokenKind::Sign(Sign::DotDot);

/// Returns whether tokens have these kinds.
fn have_kinds(tokens: &[Token], kinds: &[TokenKind]) -> bool {
    tokens.len() == kinds.len()
        && tokens
            .iter()
            .zip(kinds)
            .all(|(token, kind)| token.kind == *kind)
}

/// Returns whether a text is cut into tokens of these kinds.
fn is_cut_into(alloc: Global, text: &[u8], kinds: &[TokenKind]) -> bool {
    match scan(alloc, text) {
        Ok(tokens) => have_kinds(&tokens, kinds),
        Err(_) => false,
    }
}

/// Texts, and the kinds of their tokens.
const CUT: [(&[u8], &[TokenKind]); 13] = [
    (b"", &[]),
    (b" \t\r\n", &[]),
    (b"# alone", &[]),
    (b"#\x80 . @ \x00\n#", &[]),
    (b"a # b\nc", &[NAME, NAME]),
    (b"1..2", &[TokenKind::Number(1), DOTS, TokenKind::Number(2)]),
    (
        b"a<<=b",
        &[
            NAME,
            TokenKind::Sign(Sign::ShiftLeft),
            TokenKind::Sign(Sign::Assign),
            NAME,
        ],
    ),
    (b"12ab", &[TokenKind::Number(12), NAME]),
    (b"9223372036854775807", &[TokenKind::Number(i64::MAX)]),
    (
        b"00000000000000000000000000000000000000000000000012",
        &[TokenKind::Number(12)],
    ),
    (b"mainx for_ _if In a1", &[NAME, NAME, NAME, NAME, NAME]),
    (
        b"main for version",
        &[
            TokenKind::Keyword(Keyword::Main),
            TokenKind::Keyword(Keyword::For),
            TokenKind::Keyword(Keyword::Version),
        ],
    ),
    (
        b"!=!&&&||^",
        &[
            TokenKind::Sign(Sign::NotEqual),
            TokenKind::Sign(Sign::Not),
            TokenKind::Sign(Sign::AndAnd),
            TokenKind::Sign(Sign::And),
            TokenKind::Sign(Sign::OrOr),
            TokenKind::Sign(Sign::Xor),
        ],
    ),
];

/// The number of the first text that isn't cut into its tokens; that of all texts where each is.
fn first_wrong(alloc: Global, rows: &[(&[u8], &[TokenKind])]) -> usize {
    for (number, (text, kinds)) in rows.iter().enumerate() {
        if !is_cut_into(alloc, text, kinds) {
            return number;
        }
    }
    rows.len()
}

#[test]
fn cuts_texts_into_tokens(rt: HostRuntime) {
    let number = first_wrong(rt.alloc(), &CUT);
    assert!(rt; number == CUT.len(), "text {number}");
}

/// Returns whether a text is refused with this error.
fn is_refused(alloc: Global, text: &[u8], error: ScanError) -> bool {
    scan(alloc, text).err() == Some(error)
}

/// Texts, and why they are refused.
const REFUSED: [(&[u8], ScanError); 8] = [
    (b".", ScanError::BadByte { at: 0 }),
    (b"...", ScanError::BadByte { at: 2 }),
    (b"a \x0B", ScanError::BadByte { at: 2 }),
    (b"\x0C", ScanError::BadByte { at: 0 }),
    (b"# ok\n\x80", ScanError::BadByte { at: 5 }),
    (
        b"main { @ 9223372036854775808",
        ScanError::BadByte { at: 7 },
    ),
    (
        b"-9223372036854775808 @",
        ScanError::NumberTooLarge { at: 1 },
    ),
    (
        b"x 99999999999999999999999999999999999999",
        ScanError::NumberTooLarge { at: 2 },
    ),
];

#[test]
fn refuses_at_the_first_fault(rt: HostRuntime) {
    for &(text, error) in &REFUSED {
        assert!(rt; is_refused(rt.alloc(), text, error), "in {text:?}");
    }
}

/// Where the first tokens of a text begin and end, six of them, and how many there are.
fn slices(alloc: Global, text: &[u8]) -> Result<(usize, [(usize, usize); 6]), ScanError> {
    let tokens = scan(alloc, text)?;
    let mut slices = [(0, 0); 6];
    for (slice, token) in slices.iter_mut().zip(&tokens) {
        *slice = (token.from, token.to);
    }
    Ok((tokens.len(), slices))
}

#[test]
fn tells_the_slices(rt: HostRuntime) {
    let wanted = [(0, 4), (5, 6), (9, 13), (14, 16), (16, 17), (22, 23)];
    let found = slices(rt.alloc(), b"main {\n  emit 65; # A\n}");
    assert!(rt; found == Ok((6, wanted)));
}

/// How many tokens a text has.
fn count(alloc: Global, text: &[u8]) -> Result<usize, ScanError> {
    let tokens = scan(alloc, text)?;
    Ok(tokens.len())
}

#[test]
fn holds_to_the_longest_text(rt: HostRuntime) -> Result<(), Fail> {
    let alloc = rt.alloc();
    let text = vec![in alloc; b' '; 1_048_577]?;
    assert!(rt; count(alloc, &text[1..]) == Ok(0));
    assert!(rt; count(alloc, &text) == Err(ScanError::TooLong { at: 1_048_576 }));
    Ok(())
}
