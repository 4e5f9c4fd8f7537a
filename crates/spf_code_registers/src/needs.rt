//! How many registers forms need, given how many calls of functions need. A number that doesn't fit
//! is the largest.

ghost use Rattle.std.specs.Prelude.{◌≡◌, ℕ, map};
ghost use Rattle.spf_ast.specs.declared.syntax.Fold.{out-Fold};
ghost use Rattle.spf_ast.specs.declared.syntax.Pair.{out-Pair};
ghost use Rattle.spf_ast.specs.Syntax as form;
ghost use Rattle.spf_ast.specs.View.{expression as seen_expression, arguments as seen_arguments};
ghost use Rattle.spf_ast.specs.View.{condition as seen_condition, predictor as seen_predictor};
ghost use Rattle.spf_ast.specs.View.{block as seen_block, statement as seen_statement, fold_head};
ghost use Rattle.spf_ast.specs.View.{pair_head};
ghost use Rattle.spf_code_registers.specs.Registers.{needs, arguments_need, condition_needs};
ghost use Rattle.spf_code_registers.specs.Registers.{predictor_needs, predictors_need, block_needs};
ghost use Rattle.spf_code_registers.specs.Registers.{statement_needs};
ghost use Rattle.spf_code_registers.specs.Counted.{capped, IsTable};

use spf_ast::syntax::{Cond, Expr, Fold, Pair, Predict, Stmt, StmtKind};

/// The registers that a call of a function needs, or 0 where it isn't there.
fn call_needs(rooms: &[u64], function: u32) -> u64
    ensures { (calls : ℕ → ℕ) → IsTable calls rooms.now → result ≡ capped (calls function) }
{
    match rooms.get(function as usize) {
        Some(room) => *room,
        None => 0,
    }
}

/// Returns how many registers an expression needs.
#[cycle(expression)]
pub fn expression(rooms: &[u64], expr: &Expr) -> u64
    ensures { (calls : ℕ → ℕ) → IsTable calls rooms.now
        → result ≡ capped (needs calls (seen_expression expr.now)) }
{
    match expr {
        Expr::Number(_) | Expr::Local(_) | Expr::Len => 0,
        Expr::Input(index) => expression(rooms, index).saturating_add(1),
        Expr::Load(_, index) => expression(rooms, index).saturating_add(1),
        Expr::Call(function, given) => {
            let most = arguments(rooms, given);
            most.max(call_needs(rooms, *function))
        }
        Expr::Neg(inner) => expression(rooms, inner).saturating_add(1),
        Expr::Binary(_, left, right) => {
            let operands = expression(rooms, left);
            operands.max(expression(rooms, right)).saturating_add(2)
        }
    }
}

/// Arguments. While one is computed, a register holds each of those before it.
#[cycle(expression)]
fn arguments(rooms: &[u64], given: &[Expr]) -> u64
    ensures { (calls : ℕ → ℕ) → IsTable calls rooms.now
        → result ≡ capped (arguments_need calls (seen_arguments given.now)) }
{
    let mut held: u64 = 0;
    let mut most: u64 = 0;
    for expr in given {
        held = held.saturating_add(1);
        most = most.max(held.saturating_add(expression(rooms, expr)));
    }
    most
}

/// A condition.
fn condition(rooms: &[u64], cond: &Cond) -> u64
    ensures { (calls : ℕ → ℕ) → IsTable calls rooms.now
        → result ≡ capped (condition_needs calls (seen_condition cond.now)) }
{
    match cond {
        Cond::Compare(_, left, right) => {
            let sides = expression(rooms, left);
            sides.max(expression(rooms, right)).saturating_add(2)
        }
        Cond::Both(first, second) => {
            let most = condition(rooms, first);
            most.max(condition(rooms, second))
        }
        Cond::Either(first, second) => {
            let most = condition(rooms, first);
            most.max(condition(rooms, second))
        }
        Cond::Not(inner) => condition(rooms, inner),
    }
}

/// A predictor.
fn predictor(rooms: &[u64], predict: &Predict) -> u64
    ensures { (calls : ℕ → ℕ) → IsTable calls rooms.now
        → result ≡ capped (predictor_needs calls (seen_predictor predict.now)) }
{
    match predict {
        Predict::Expr(guess) => expression(rooms, guess).saturating_add(1),
        Predict::Host(_) => 0,
    }
}

/// The predictors of a row's parts.
fn predictors(rooms: &[u64], predict: &[Predict]) -> u64
    ensures { (calls : ℕ → ℕ) → IsTable calls rooms.now
        → result ≡ capped (predictors_need calls (map seen_predictor predict.now)) }
{
    let mut most: u64 = 0;
    for part in predict {
        most = most.max(predictor(rooms, part));
    }
    most
}

/// Returns how many registers statements one after another need.
#[cycle(statement)]
pub fn block(rooms: &[u64], statements: &[Stmt]) -> u64
    ensures { (calls : ℕ → ℕ) → IsTable calls rooms.now
        → result ≡ capped (block_needs calls (seen_block statements.now)) }
{
    let mut most: u64 = 0;
    for stmt in statements {
        most = most.max(statement(rooms, &stmt.kind));
    }
    most
}

/// A statement.
#[cycle(statement)]
fn statement(rooms: &[u64], kind: &StmtKind) -> u64
    ensures { (calls : ℕ → ℕ) → IsTable calls rooms.now
        → result ≡ capped (statement_needs calls (seen_statement kind.now)) }
{
    match kind {
        StmtKind::Let(_, value) => expression(rooms, value).saturating_add(1),
        StmtKind::Assign(_, value) => expression(rooms, value).saturating_add(1),
        StmtKind::Store(_, index, value) => {
            let most = expression(rooms, index);
            most.max(expression(rooms, value)).saturating_add(2)
        }
        StmtKind::Fill(_, low, high, value) => {
            let last = expression(rooms, high).max(expression(rooms, value));
            expression(rooms, low).max(last).saturating_add(3)
        }
        StmtKind::Emit(value) => expression(rooms, value).saturating_add(1),
        StmtKind::Fail(_) => 0,
        StmtKind::If(test, first, second) => {
            let blocks = block(rooms, first).max(block(rooms, second));
            condition(rooms, test).max(blocks)
        }
        StmtKind::For(_, low, high, body) => {
            let range = expression(rooms, low).max(expression(rooms, high));
            range.saturating_add(2).max(block(rooms, body))
        }
        StmtKind::While(test, _, body) => {
            let most = condition(rooms, test);
            most.max(block(rooms, body))
        }
        StmtKind::Call(function, given) => {
            let most = arguments(rooms, given);
            most.max(call_needs(rooms, *function)).saturating_add(1)
        }
        StmtKind::Fold(parts) => fold(rooms, parts),
        StmtKind::Pair(parts) => pair(rooms, parts),
        StmtKind::Break => 0,
    }
}

/// A fold.
#[cycle(statement)]
fn fold(rooms: &[u64], fold: &Fold) -> u64
    ensures { (calls : ℕ → ℕ) → IsTable calls rooms.now
        → result ≡ capped (statement_needs calls
        (form.Fold (fold_head fold.now) (seen_block (out-Fold fold.now).body.items))) }
{
    let range = expression(rooms, &fold.low).max(expression(rooms, &fold.high));
    let ends = range
        .saturating_add(2)
        .saturating_add(fold.carried.len() as u64);
    let header = arguments(rooms, &fold.start).max(ends);
    let body = block(rooms, &fold.body).max(arguments(rooms, &fold.next));
    header.max(predictors(rooms, &fold.predict)).max(body)
}

/// A pair.
#[cycle(statement)]
fn pair(rooms: &[u64], pair: &Pair) -> u64
    ensures { (calls : ℕ → ℕ) → IsTable calls rooms.now
        → result ≡ capped (statement_needs calls
        (form.Pair (pair_head pair.now) (seen_block (out-Pair pair.now).producer.items)
        (seen_block (out-Pair pair.now).consumer.items))) }
{
    let given = arguments(rooms, &pair.give).max(pair.carried.len() as u64);
    let produced = block(rooms, &pair.producer).max(given);
    let guessed = predictors(rooms, &pair.predict);
    produced.max(guessed.max(block(rooms, &pair.consumer)))
}
