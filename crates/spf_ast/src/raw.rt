//! Programs as they are written: with names instead of the numbers of arrays, functions and slots.

use crate::syntax::{Array, Name, Op, Test};

/// An expression, which gives a number or a truth value.
#[derive(Drop)]
pub enum RawExpr {
    Number(i64),
    Local(Name),
    /// The input's length in bytes.
    Len,
    /// A byte of the input.
    Input(Box<RawExpr>),
    /// An element of an array.
    Load(Name, Box<RawExpr>),
    /// A function's answer to these arguments.
    Call(Name, Vec<RawExpr>),
    Neg(Box<RawExpr>),
    Binary(Op, Box<RawExpr>, Box<RawExpr>),
    Compare(Test, Box<RawExpr>, Box<RawExpr>),
    /// `&&`.
    Both(Box<RawExpr>, Box<RawExpr>),
    /// `||`.
    Either(Box<RawExpr>, Box<RawExpr>),
    Not(Box<RawExpr>),
}

/// A statement, with the line of its first token.
#[derive(Drop)]
#[cycle(raw)]
pub struct RawStmt {
    pub line: u32,
    pub kind: RawStmtKind,
}

/// What a statement is.
#[derive(Drop)]
#[cycle(raw)]
pub enum RawStmtKind {
    /// Declares a local and sets it.
    Let(Name, RawExpr),
    /// Sets a local.
    Assign(Name, RawExpr),
    /// Stores a value into an element of an array: the array, the element's index, the value.
    Store(Name, RawExpr, RawExpr),
    /// Stores one value into a range of an array: the array, the first index, the index after the
    /// last, the value.
    Fill(Name, RawExpr, RawExpr, RawExpr),
    /// Adds a byte to the output.
    Emit(RawExpr),
    /// Traps with this number.
    Fail(i64),
    If(RawExpr, Vec<RawStmt>, Vec<RawStmt>),
    /// A local, the first number, the number after the last, and the body.
    For(Name, RawExpr, RawExpr, Vec<RawStmt>),
    /// A condition, the largest number of turns, and the body.
    While(RawExpr, u64, Vec<RawStmt>),
    /// A call whose answer is dropped.
    Call(Name, Vec<RawExpr>),
    Fold(Box<RawFold>),
    Pair(Box<RawPair>),
    /// Ends the innermost loop.
    Break,
}

/// How one part of a block's carried row is guessed.
#[derive(Drop)]
pub enum RawPredict {
    /// By an expression.
    Expr(RawExpr),
    /// By the predictor of this number that the caller supplies.
    Host(u64),
}

/// `specfold`: a left fold of a body over a range of block numbers.
#[derive(Drop)]
#[cycle(raw)]
pub struct RawFold {
    pub carried: Vec<Name>,
    pub start: Vec<RawExpr>,
    pub block: Name,
    pub low: RawExpr,
    pub high: RawExpr,
    pub predict: Vec<RawPredict>,
    pub body: Vec<RawStmt>,
    pub next: Vec<RawExpr>,
    pub next_line: u32,
}

/// `spec`: a producer, and a consumer of the row that it gives.
#[derive(Drop)]
#[cycle(raw)]
pub struct RawPair {
    pub carried: Vec<Name>,
    pub producer: Vec<RawStmt>,
    pub give: Vec<RawExpr>,
    pub give_line: u32,
    pub predict: Vec<RawPredict>,
    pub consumer: Vec<RawStmt>,
}

/// A function, with the names of its parameters.
#[derive(Drop)]
pub struct RawFunction {
    pub name: Name,
    pub params: Vec<Name>,
    pub body: Vec<RawStmt>,
    pub answer: RawExpr,
    pub answer_line: u32,
    pub line: u32,
}

/// A whole program. `main_line` is the line of the word `main`.
#[derive(Drop)]
pub struct RawProgram {
    /// The version of the language, 1 or 2.
    pub version: u32,
    pub arrays: Vec<Array>,
    pub functions: Vec<RawFunction>,
    pub main: Vec<RawStmt>,
    pub main_line: u32,
}
