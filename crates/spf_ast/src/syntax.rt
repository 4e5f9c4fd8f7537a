//! Resolved programs: arrays, functions and slots go by their indices in their lists.

/// A name of the text, as its bytes.
#[derive(Drop)]
pub struct Name {
    pub bytes: Vec<u8>,
}

/// An array. Its size is `factor` times the input's length, plus `offset`.
#[derive(Drop)]
pub struct Array {
    pub name: Name,
    pub factor: i64,
    pub offset: i64,
    pub line: u32,
}

/// An operator between two numbers.
#[derive(Clone, Copy, PartialEq, Eq, Debug)]
pub enum Op {
    Add,
    Sub,
    Mul,
    Div,
    Rem,
    And,
    Or,
    Xor,
    Shl,
    Shr,
}

/// A comparison of two numbers.
#[derive(Clone, Copy, PartialEq, Eq, Debug)]
pub enum Test {
    Eq,
    Ne,
    Lt,
    Le,
    Gt,
    Ge,
}

/// An expression, which gives a number or traps.
#[derive(Drop)]
pub enum Expr {
    Number(i64),
    /// The word in a slot.
    Local(u32),
    /// The input's length in bytes.
    Len,
    /// A byte of the input.
    Input(Box<Expr>),
    /// An element of an array.
    Load(u32, Box<Expr>),
    /// A function's answer to these arguments.
    Call(u32, Vec<Expr>),
    Neg(Box<Expr>),
    Binary(Op, Box<Expr>, Box<Expr>),
}

/// A condition of `if` and `while`, which is true or false, or traps.
#[derive(Drop)]
pub enum Cond {
    Compare(Test, Box<Expr>, Box<Expr>),
    /// `&&`: the second is asked only where the first is true.
    Both(Box<Cond>, Box<Cond>),
    /// `||`: the second is asked only where the first is false.
    Either(Box<Cond>, Box<Cond>),
    Not(Box<Cond>),
}

/// A statement, with the line of its first token.
#[derive(Drop)]
#[cycle(stmt)]
pub struct Stmt {
    pub line: u32,
    pub kind: StmtKind,
}

/// What a statement is.
#[derive(Drop)]
#[cycle(stmt)]
pub enum StmtKind {
    /// Declares a slot and sets it.
    Let(u32, Expr),
    /// Sets a slot.
    Assign(u32, Expr),
    /// Stores a value into an element of an array: the array, the element's index, the value.
    Store(u32, Expr, Expr),
    /// Stores one value into a range of an array: the array, the first index, the index after the
    /// last, the value.
    Fill(u32, Expr, Expr, Expr),
    /// Adds a byte to the output.
    Emit(Expr),
    /// Traps with this number.
    Fail(u8),
    If(Cond, Vec<Stmt>, Vec<Stmt>),
    /// A slot, the first number, the number after the last, and the body.
    For(u32, Expr, Expr, Vec<Stmt>),
    /// A condition, the largest number of turns, and the body.
    While(Cond, u64, Vec<Stmt>),
    /// A call whose answer is dropped.
    Call(u32, Vec<Expr>),
    Fold(Box<Fold>),
    Pair(Box<Pair>),
    /// Ends the innermost loop.
    Break,
}

/// How one part of a block's carried row is guessed.
#[derive(Drop)]
pub enum Predict {
    /// By an expression.
    Expr(Expr),
    /// By the predictor of this number that the caller supplies.
    Host(u64),
}

/// `specfold`: a left fold of a body over a range of block numbers.
#[derive(Drop)]
#[cycle(stmt)]
pub struct Fold {
    pub carried: Vec<u32>,
    pub start: Vec<Expr>,
    pub block: u32,
    pub low: Expr,
    pub high: Expr,
    pub predict: Vec<Predict>,
    pub body: Vec<Stmt>,
    pub next: Vec<Expr>,
    pub next_line: u32,
}

/// `spec`: a producer, and a consumer of the row that it gives.
#[derive(Drop)]
#[cycle(stmt)]
pub struct Pair {
    pub carried: Vec<u32>,
    pub producer: Vec<Stmt>,
    pub give: Vec<Expr>,
    pub give_line: u32,
    pub predict: Vec<Predict>,
    pub consumer: Vec<Stmt>,
}

/// A function. Its first slots are its parameters.
#[derive(Drop)]
pub struct Function {
    pub name: Name,
    pub params: u32,
    pub slots: Vec<Name>,
    pub body: Vec<Stmt>,
    pub answer: Expr,
    pub answer_line: u32,
    pub line: u32,
}

/// A whole program. `slots` has the names of the slots of `main`, in the order of their
/// declarations.
#[derive(Drop)]
pub struct Program {
    /// The version of the language, 1 or 2.
    pub version: u32,
    pub arrays: Vec<Array>,
    pub functions: Vec<Function>,
    pub slots: Vec<Name>,
    pub main: Vec<Stmt>,
}

/// A part of a top construct. A fold has a body, a pair a producer and a consumer, and each has a
/// predictor.
#[derive(Clone, Copy, PartialEq, Eq, Debug)]
pub enum Part {
    Body,
    Producer,
    Consumer,
    Predictor,
}
