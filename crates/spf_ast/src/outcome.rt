//! How runs end.

/// Why a run was ended by the program itself.
#[derive(Clone, Copy, PartialEq, Eq, Debug)]
pub enum TrapKind {
    /// The exact answer of an operation isn't a word.
    Overflow,
    /// A division or a remainder by 0.
    DivZero,
    /// An array or the input has no such element.
    Index,
    /// A shift by less than 0 or more than 63 bits.
    Shift,
    /// A `fill` of a range that isn't one of its array.
    Range,
    /// A `while` that would make more turns than its bound.
    Turns,
    /// An `emit` of a value that isn't a byte, or past the longest output.
    Emit,
    /// A fold of more than 4,096 blocks.
    Blocks,
    /// A `fail` statement, with its number.
    Fail(u8),
}

/// A trap, with the line of the statement that was being performed. Lines count from 1.
#[derive(Clone, Copy, PartialEq, Eq, Debug)]
pub struct Trap {
    pub kind: TrapKind,
    pub line: u32,
}

/// How a whole program ended.
#[derive(Drop)]
pub enum Outcome {
    /// At its end: the cells of all arrays, one array after another, and the bytes that it emitted.
    Done { cells: Vec<i64>, output: Vec<u8> },
    /// By a trap: the trap, and the bytes that it emitted before.
    Trapped { trap: Trap, output: Vec<u8> },
}
