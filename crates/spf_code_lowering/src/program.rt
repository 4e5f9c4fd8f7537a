//! Lowering of programs.

ghost use Rattle.std.specs.Prelude.{◌≡◌, [], ℕ, IfOk};
ghost use Rattle.spf_ast.specs.ConstructView.{construct as seen_construct};
ghost use Rattle.spf_ast.specs.View.{statement as seen_statement, block as seen_block};
ghost use Rattle.spf_ast.specs.View.{program as seen_program};
ghost use Rattle.spf_code.specs.NodeView.{code};
ghost use Rattle.spf_code_lowering.specs.Tables.{HaveNoTables};
ghost use Rattle.spf_code_lowering.specs.Adding.{LowersRow, LowersExpression, LowersGuess};
ghost use Rattle.spf_code_lowering.specs.Adding.{LowersGuesses, LowersFold, LowersPair};
ghost use Rattle.spf_code_lowering.specs.Adding.{LowersConstruct, LowersConstructs};
ghost use Rattle.spf_code_lowering.specs.Adding.{LowersStatements};
ghost use Rattle.spf_code_lowering.specs.Lowering.{HaveCodes, IsCodeOfProgram, SetsWhatIsChanged, SetsNoSlot};
ghost use Rattle.spf_code_lowering.specs.Lowering.{RunIn, BlockIn};

use crate::expression::{Scope, count_of, end_list, hold, pass};
use crate::function::functions;
use crate::statement::{block, statement};
use spf_ast::construct::{ConstructKind, TopConstruct, as_construct};
use spf_ast::syntax::{Expr, Fold, Pair, Predict, Program, Stmt};
use spf_code::node::Node;
use spf_code::program::{ConstructCode, HeaderCode, ProgramCode, RowCode, ValueCode};
use std::alloc::{AllocError, Global};

/// How many slots there are.
fn slot_count(slots: usize) -> Result<u32, AllocError>
    ensures { IfOk result (λ count. count ≡ slots) }
{
    if slots > u32::MAX as usize {
        return Err(AllocError);
    }
    Ok(slots as u32)
}

/// Returns the code of statements and then of a row.
fn row_code(
    scope: &Scope,
    statements: &[Stmt],
    line: u32,
    row: &[Expr],
) -> Result<RowCode, AllocError>
    requires codes { HaveCodes scope.now }
    ensures code { (calls : ℕ → ℕ) → IfOk result (LowersRow scope.now calls statements.now line
        row.now) }
    ensures sets { IfOk result (λ v. SetsWhatIsChanged scope.now.own (seen_block statements.now)
        (code v.nodes.items)) }
{
    let mut nodes = block(scope, statements)?;
    pass(scope, line, scope.own, row, &mut nodes)?;
    let list = end_list(nodes)?;
    Ok(RowCode {
        nodes: list,
        register: scope.own,
        width: count_of(row)?,
    })
}

/// Returns the code of an expression.
fn expression_code(scope: &Scope, line: u32, value: &Expr) -> Result<ValueCode, AllocError>
    requires codes { HaveCodes scope.now }
    ensures code { (calls : ℕ → ℕ) → IfOk result (LowersExpression scope.now calls line value.now) }
    ensures sets { IfOk result (λ v. SetsNoSlot scope.now.own (code v.nodes.items)) }
{
    let mut nodes = Vec::new(scope.alloc);
    let held = hold(scope, line, scope.own, value, &mut nodes)?;
    let list = end_list(nodes)?;
    Ok(ValueCode {
        nodes: list,
        register: held.register,
    })
}

/// No code: what stands for a part that a construct doesn't have.
fn no_value(alloc: Global) -> ValueCode
    ensures { result.nodes.items ≡ [] }
{
    ValueCode {
        nodes: Vec::new(alloc),
        register: 0,
    }
}

/// No code: what stands for the start of a pair.
fn no_row(alloc: Global) -> RowCode
    ensures { result.nodes.items ≡ [] }
{
    RowCode {
        nodes: Vec::new(alloc),
        register: 0,
        width: 0,
    }
}

/// Returns the code of a guess. One that is supplied needs none.
fn guess_code(scope: &Scope, line: u32, predict: &Predict) -> Result<ValueCode, AllocError>
    requires codes { HaveCodes scope.now }
    ensures code { (calls : ℕ → ℕ) → IfOk result (LowersGuess scope.now calls line predict.now) }
    ensures sets { IfOk result (λ v. SetsNoSlot scope.now.own (code v.nodes.items)) }
{
    match predict {
        Predict::Expr(guess) => expression_code(scope, line, guess),
        Predict::Host(_) => Ok(no_value(scope.alloc)),
    }
}

/// Returns the code of the guesses of a row's parts.
fn guess_codes(scope: &Scope, line: u32, predict: &[Predict]) -> Result<Vec<ValueCode>, AllocError>
    requires codes { HaveCodes scope.now }
    ensures codes { (calls : ℕ → ℕ) → IfOk result (λ v. LowersGuesses scope.now calls line
        predict.now v.items) }
{
    let mut codes = Vec::new(scope.alloc);
    for part in predict {
        codes.push(guess_code(scope, line, part)?)?;
    }
    Ok(codes)
}

/// Returns the code of a fold's parts.
fn fold_code(scope: &Scope, line: u32, fold: &Fold) -> Result<ConstructCode, AllocError>
    requires codes { HaveCodes scope.now }
    ensures code { (calls : ℕ → ℕ) → IfOk result (LowersFold scope.now calls line fold.now) }
{
    let header = HeaderCode {
        start: row_code(scope, &[], line, &fold.start)?,
        low: expression_code(scope, line, &fold.low)?,
        high: expression_code(scope, line, &fold.high)?,
    };
    let first = row_code(scope, &fold.body, fold.next_line, &fold.next)?;
    let guesses = guess_codes(scope, line, &fold.predict)?;
    Ok(ConstructCode {
        header,
        first,
        consumer: Vec::new(scope.alloc),
        guesses,
    })
}

/// Returns the code of statements.
fn block_code(scope: &Scope, statements: &[Stmt]) -> Result<Vec<Node>, AllocError>
    requires codes { HaveCodes scope.now }
    ensures code { (calls : ℕ → ℕ) → IfOk result
        (λ k. BlockIn scope.now calls (seen_block statements.now) (code k.items)) }
    ensures sets { IfOk result (λ k. SetsWhatIsChanged scope.now.own (seen_block statements.now)
        (code k.items)) }
{
    let nodes = block(scope, statements)?;
    let list = end_list(nodes)?;
    Ok(list)
}

/// Returns the code of a pair's parts.
fn pair_code(scope: &Scope, line: u32, pair: &Pair) -> Result<ConstructCode, AllocError>
    requires codes { HaveCodes scope.now }
    ensures code { (calls : ℕ → ℕ) → IfOk result (LowersPair scope.now calls line pair.now) }
{
    let header = HeaderCode {
        start: no_row(scope.alloc),
        low: no_value(scope.alloc),
        high: no_value(scope.alloc),
    };
    let first = row_code(scope, &pair.producer, pair.give_line, &pair.give)?;
    let consumer = block_code(scope, &pair.consumer)?;
    let guesses = guess_codes(scope, line, &pair.predict)?;
    Ok(ConstructCode {
        header,
        first,
        consumer,
        guesses,
    })
}

/// Returns the code of a top construct's parts.
fn construct_code(scope: &Scope, construct: TopConstruct) -> Result<ConstructCode, AllocError>
    requires codes { HaveCodes scope.now }
    ensures code { (calls : ℕ → ℕ) → IfOk result (LowersConstruct scope.now calls (seen_construct
        construct.entry)) }
{
    match construct.kind {
        ConstructKind::Fold(fold) => fold_code(scope, construct.line, fold),
        ConstructKind::Pair(pair) => pair_code(scope, construct.line, pair),
    }
}

/// Returns the code of each top construct among these statements.
fn construct_codes(scope: &Scope, main: &[Stmt]) -> Result<Vec<ConstructCode>, AllocError>
    requires codes { HaveCodes scope.now }
    ensures codes { (calls : ℕ → ℕ) → IfOk result (λ codes. LowersConstructs scope.now calls
        main.now codes.items) }
{
    let mut codes = Vec::new(scope.alloc);
    for stmt in main {
        if let Some(construct) = as_construct(stmt) {
            let code = construct_code(scope, construct)?;
            codes.push(code)?;
        }
    }
    Ok(codes)
}

/// Returns the code of one statement.
fn statement_code(scope: &Scope, stmt: &Stmt) -> Result<Vec<Node>, AllocError>
    requires codes { HaveCodes scope.now }
    ensures code { (calls : ℕ → ℕ) → IfOk result
        (λ k. RunIn scope.now calls stmt.now.line (seen_statement stmt.now.kind) (code k.items)) }
{
    let mut nodes = Vec::new(scope.alloc);
    statement(scope, stmt.line, &stmt.kind, &mut nodes)?;
    let list = end_list(nodes)?;
    Ok(list)
}

/// Returns the code of each of these statements.
fn statement_codes(scope: &Scope, main: &[Stmt]) -> Result<Vec<Vec<Node>>, AllocError>
    requires codes { HaveCodes scope.now }
    ensures codes { (calls : ℕ → ℕ) → IfOk result (λ codes. LowersStatements scope.now calls
        main.now codes.items) }
{
    let mut codes = Vec::new(scope.alloc);
    for stmt in main {
        let code = statement_code(scope, stmt)?;
        codes.push(code)?;
    }
    Ok(codes)
}

/// Lowers a program, in time and memory that are linear in its size. Its code depends on the
/// program alone.
///
/// # Errors
///
/// `AllocError` where there is no memory for the code.
pub fn lower(alloc: Global, program: &Program) -> Result<ProgramCode, AllocError>
    ensures code { IfOk result (λ code. IsCodeOfProgram (seen_program program.now) code) }
    ensures tables { IfOk result (λ code. HaveNoTables code.functions.items) }
{
    let functions = functions(alloc, &program.functions)?;
    let scope = Scope {
        alloc,
        functions: &program.functions,
        codes: functions.as_slice(),
        below: program.functions.len(),
        own: slot_count(program.slots.len())?,
    };
    let main = statement_codes(&scope, &program.main)?;
    let constructs = construct_codes(&scope, &program.main)?;
    Ok(ProgramCode {
        functions,
        main,
        constructs,
    })
}
