//! Statements and blocks.
ghost use Rattle.std.specs.Prelude.{◌≡◌, ◌<◌, ◌^◌, IfOk};
ghost use Rattle.spf_ast.specs.Syntax.{Expression, Condition, Statement, Block, Let, Assign, Store};
ghost use Rattle.spf_ast.specs.Syntax.{Fill, Emit, Fail, If as if_form, For as for_form};
ghost use Rattle.spf_ast.specs.Syntax.{Fold as fold_form, end, on_line as on_line_form};
ghost use Rattle.spf_ast.specs.View.{expression, condition, statement, block};
ghost use Rattle.spf_apps_builder.specs.Built.{RowsForm, rows as seen_rows, one_word, head_of};

use crate::expression::literal;
use spf_ast::syntax::{Cond, Expr, Fold, Predict, Stmt, StmtKind};
use std::alloc::{AllocError, Global};

/// Declares a slot.
pub fn declare(slot: u32, value: Result<Expr, AllocError>) -> Result<StmtKind, AllocError>
    ensures { (a : Expression) → IfOk value (λ e. expression e ≡ a)
        → IfOk result (λ s. statement s ≡ Let slot a) }
{
    Ok(StmtKind::Let(slot, value?))
}

/// Sets a slot.
pub fn assign(slot: u32, value: Result<Expr, AllocError>) -> Result<StmtKind, AllocError>
    ensures { (a : Expression) → IfOk value (λ e. expression e ≡ a)
        → IfOk result (λ s. statement s ≡ Assign slot a) }
{
    Ok(StmtKind::Assign(slot, value?))
}

/// Stores into an element of an array.
pub fn store(
    array: u32,
    index: Result<Expr, AllocError>,
    value: Result<Expr, AllocError>,
) -> Result<StmtKind, AllocError>
    ensures { (a b : Expression) → IfOk index (λ e. expression e ≡ a)
        → IfOk value (λ e. expression e ≡ b) → IfOk result (λ s. statement s ≡ Store array a b) }
{
    Ok(StmtKind::Store(array, index?, value?))
}

/// Stores one value into a range of an array.
pub fn fill(
    array: u32,
    low: Result<Expr, AllocError>,
    high: Result<Expr, AllocError>,
    value: Result<Expr, AllocError>,
) -> Result<StmtKind, AllocError>
    ensures { (a b e : Expression) → IfOk low (λ x. expression x ≡ a)
        → IfOk high (λ x. expression x ≡ b) → IfOk value (λ x. expression x ≡ e)
        → IfOk result (λ s. statement s ≡ Fill array a b e) }
{
    Ok(StmtKind::Fill(array, low?, high?, value?))
}

/// Writes a byte.
pub fn emit(value: Result<Expr, AllocError>) -> Result<StmtKind, AllocError>
    ensures { (a : Expression) → IfOk value (λ e. expression e ≡ a)
        → IfOk result (λ s. statement s ≡ Emit a) }
{
    Ok(StmtKind::Emit(value?))
}

/// Traps with a number.
pub fn fail(code: u8) -> Result<StmtKind, AllocError>
    ensures { IfOk result (λ s. statement s ≡ Fail code) }
{
    Ok(StmtKind::Fail(code))
}

/// Builds a branch: what is done where the condition is true, and what is done otherwise.
pub fn choose(
    test: Result<Cond, AllocError>,
    first: Result<Vec<Stmt>, AllocError>,
    second: Result<Vec<Stmt>, AllocError>,
) -> Result<StmtKind, AllocError>
    ensures { (c : Condition) (a b : Block) → IfOk test (λ t. condition t ≡ c)
        → IfOk first (λ v. block v.items ≡ a) → IfOk second (λ v. block v.items ≡ b)
        → IfOk result (λ s. statement s ≡ if_form c a b) }
{
    let first = first?;
    let second = second?;
    Ok(StmtKind::If(test?, first, second))
}

/// Builds a block that is done only where the condition is true.
pub fn when(
    alloc: Global,
    test: Result<Cond, AllocError>,
    body: Result<Vec<Stmt>, AllocError>,
) -> Result<StmtKind, AllocError>
    ensures { (c : Condition) (a : Block) → IfOk test (λ t. condition t ≡ c)
        → IfOk body (λ v. block v.items ≡ a) → IfOk result (λ s. statement s ≡ if_form c a end) }
{
    choose(test, body, Ok(Vec::new(alloc)))
}

/// Builds a loop over numbers.
pub fn count(
    slot: u32,
    low: Result<Expr, AllocError>,
    high: Result<Expr, AllocError>,
    body: Result<Vec<Stmt>, AllocError>,
) -> Result<StmtKind, AllocError>
    ensures { (a b : Expression) (c : Block) → IfOk low (λ e. expression e ≡ a)
        → IfOk high (λ e. expression e ≡ b) → IfOk body (λ v. block v.items ≡ c)
        → IfOk result (λ s. statement s ≡ for_form slot a b c) }
{
    let body = body?;
    Ok(StmtKind::For(slot, low?, high?, body))
}

/// Builds a block of one statement.
pub fn only(
    alloc: Global,
    line: u32,
    kind: Result<StmtKind, AllocError>,
) -> Result<Vec<Stmt>, AllocError>
    ensures { (s : Statement) → IfOk kind (λ k. statement k ≡ s)
        → IfOk result (λ v. block v.items ≡ on_line_form line s end) }
{
    on_line(alloc, line, kind, Ok(Vec::new(alloc)))
}

/// Builds a block that begins with a statement.
pub fn on_line(
    alloc: Global,
    line: u32,
    kind: Result<StmtKind, AllocError>,
    rest: Result<Vec<Stmt>, AllocError>,
) -> Result<Vec<Stmt>, AllocError>
    ensures { (s : Statement) (b : Block) → IfOk kind (λ k. statement k ≡ s)
        → IfOk rest (λ v. block v.items ≡ b)
        → IfOk result (λ v. block v.items ≡ on_line_form line s b) }
{
    let mut block = rest?;
    block.insert(0, Stmt { line, kind: kind? })?;
    Ok(block)
}

/// The rows of a fold: the slots that carry them, the first row, how each part is guessed, the next
/// row, and the line that says so.
#[derive(Drop)]
pub struct Rows {
    pub carried: Vec<u32>,
    pub start: Vec<Expr>,
    pub predict: Vec<Predict>,
    pub next: Vec<Expr>,
    pub next_line: u32,
}

/// A row of one word that a fold carries: its slot, what it starts as, the slot with the next one,
/// and the line that says so.
#[derive(Clone, Copy)]
pub struct Carried {
    pub slot: u32,
    pub start: u64,
    pub next: u32,
    pub next_line: u32,
}

/// Builds rows of one word that is guessed by an expression.
pub fn rows_of_one(
    alloc: Global,
    carried: Carried,
    guess: Result<Expr, AllocError>,
) -> Result<Rows, AllocError>
    requires { carried.start < 2 ^ 63 }
    ensures { (a : Expression) → IfOk guess (λ e. expression e ≡ a)
        → IfOk result (λ r. seen_rows r ≡ one_word carried a) }
{
    let predict = vec![in alloc; Predict::Expr(guess?)]?;
    let start = vec![in alloc; literal(carried.start)]?;
    let next = vec![in alloc; Expr::Local(carried.next)]?;
    let slots = vec![in alloc; carried.slot]?;
    Ok(Rows {
        carried: slots,
        start,
        predict,
        next,
        next_line: carried.next_line,
    })
}

/// Builds a fold whose blocks are numbered from 0, with the slot of the block's number.
pub fn fold(
    alloc: Global,
    rows: Result<Rows, AllocError>,
    slot: u32,
    count: Result<Expr, AllocError>,
    body: Result<Vec<Stmt>, AllocError>,
) -> Result<StmtKind, AllocError>
    ensures { (r : RowsForm) (a : Expression) (b : Block)
        → IfOk rows (λ x. seen_rows x ≡ r)
        → IfOk count (λ e. expression e ≡ a) → IfOk body (λ v. block v.items ≡ b)
        → IfOk result (λ s. statement s ≡ fold_form (head_of r slot a) b) }
{
    let rows = rows?;
    let body = body?;
    let fold = Fold {
        carried: rows.carried,
        start: rows.start,
        block: slot,
        low: Expr::Number(0),
        high: count?,
        predict: rows.predict,
        body,
        next: rows.next,
        next_line: rows.next_line,
    };
    Ok(StmtKind::Fold(Box::new(alloc, fold)?))
}
