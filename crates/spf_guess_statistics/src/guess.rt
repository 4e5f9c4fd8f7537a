//! Guesses for the rows at which blocks begin.
use spf_ast::row::Row;

/// A guess for the carried row at a block.
#[derive(Clone, Copy, PartialEq, Eq, Debug)]
pub struct Guess {
    pub value: Row,
    /// Whether a predictor trapped, so that nothing is known of its part of the row.
    pub blind: bool,
}
