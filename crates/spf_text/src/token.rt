//! What a text is made of.

/// A reserved word.
#[derive(Clone, Copy, PartialEq, Eq, Debug)]
pub enum Keyword {
    Array,
    Fn,
    Main,
    Let,
    Fill,
    Emit,
    Fail,
    If,
    Else,
    For,
    In,
    While,
    Max,
    Specfold,
    Spec,
    Predict,
    Host,
    Give,
    Next,
    Return,
    Len,
    Input,
    Break,
    Version,
}

/// A sign: an operator, a bracket or a separator.
#[derive(Clone, Copy, PartialEq, Eq, Debug)]
pub enum Sign {
    Plus,
    Minus,
    Star,
    Slash,
    Percent,
    And,
    Or,
    Xor,
    ShiftLeft,
    ShiftRight,
    Equal,
    NotEqual,
    Less,
    LessEqual,
    Greater,
    GreaterEqual,
    AndAnd,
    OrOr,
    Not,
    Assign,
    OpenParen,
    CloseParen,
    OpenBracket,
    CloseBracket,
    OpenBrace,
    CloseBrace,
    Comma,
    Semicolon,
    DotDot,
}

/// What a token is.
#[derive(Clone, Copy, PartialEq, Eq, Debug)]
pub enum TokenKind {
    /// A name, whose bytes are the token's slice of the text.
    Name,
    /// A number and its value.
    Number(i64),
    /// A reserved word.
    Keyword(Keyword),
    /// A sign.
    Sign(Sign),
}

/// A token: what it is, and its slice of the text, from byte `from` up to but excluding byte `to`.
#[derive(Clone, Copy, PartialEq, Eq, Debug)]
pub struct Token {
    /// What it is.
    pub kind: TokenKind,
    /// The offset of its first byte.
    pub from: usize,
    /// The offset after its last byte.
    pub to: usize,
}
