//! What a chain is given, and what it comes to.
use spf_ast::outcome::Trap;
use spf_ast::row::Row;

/// A block of a chain.
#[derive(Clone, Copy, PartialEq, Eq, Debug)]
pub struct ChainBlock {
    /// The block's index in its construct, from 0 on.
    pub block: u64,
    /// The guess given for it. Block 0 has none.
    pub guess: Option<Row>,
    /// The carried row at which it begins: once it is validated the real one, by the plain meaning,
    /// and before that the one of its first attempt.
    pub row: Row,
}

/// What the blocks of a construct come to.
#[derive(Clone, Copy, PartialEq, Eq, Debug)]
pub enum Settled {
    /// The carried row after the last block.
    Carried(Row),
    /// The trap of the last validated block.
    Trapped(Trap),
}
