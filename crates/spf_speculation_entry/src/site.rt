//! What is fixed at the entry of a construct: plain data for contracts and proofs alone. No value
//! of it is made at run time.
use spf_ast::row::Row;
use spf_ast::syntax::Program;
use std::collections::LinkedList;

/// The entry of a top construct, with its header done, and the guesses for its blocks.
pub struct Site {
    /// The program.
    pub program: Program,
    /// The construct's number among the program's top constructs.
    pub construct: u32,
    /// The input's bytes.
    pub input: LinkedList<u8>,
    /// The slots of `main` at the entry.
    pub slots: LinkedList<i64>,
    /// The words of all cells at the entry.
    pub memory: LinkedList<i64>,
    /// The number of block 0.
    pub low: i64,
    /// How many blocks there are.
    pub blocks: u64,
    /// The row at which block 0 begins.
    pub start: Row,
    /// The guesses for the blocks from 1 on.
    pub guesses: LinkedList<Row>,
}
