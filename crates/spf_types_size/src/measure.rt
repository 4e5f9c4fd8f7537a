//! The sizes of forms, given those of the functions that they call.

ghost use Rattle.std.specs.Prelude.{map};
ghost use Rattle.spf_ast.specs.declared.syntax.Fold.{out-Fold};
ghost use Rattle.spf_ast.specs.declared.syntax.Pair.{out-Pair};
ghost use Rattle.spf_ast.specs.Syntax as form;
ghost use Rattle.spf_ast.specs.View.{expression as seen_expression, arguments as seen_arguments};
ghost use Rattle.spf_ast.specs.View.{condition as seen_condition, predictor as seen_predictor};
ghost use Rattle.spf_ast.specs.View.{block as seen_block, statement as seen_statement, fold_head};
ghost use Rattle.spf_ast.specs.View.{pair_head};
ghost use Rattle.spf_ast.specs.Size.{expression_measure, arguments_measure, condition_measure};
ghost use Rattle.spf_ast.specs.Size.{predictor_measure, predictors_measure, block_measure};
ghost use Rattle.spf_ast.specs.Size.{statement_measure};
ghost use Rattle.spf_types_size.specs.Sizes.{Counts, HasSize, IsSize, IsTable};

use crate::size::{NONE, Size, beside, within};
use spf_ast::syntax::{Cond, Expr, Fold, Pair, Predict, Stmt, StmtKind};

/// The size of a function, or none where it isn't there.
fn function_size(sizes: &[Size], function: u32) -> Size
    ensures { (counts : Counts) → IsTable counts sizes.now
        → IsSize result (counts.nodes function) (counts.depth function) (counts.slots function) }
{
    match sizes.get(function as usize) {
        Some(size) => *size,
        None => NONE,
    }
}

/// Measures an expression.
#[cycle(expression)]
pub fn expression(sizes: &[Size], expr: &Expr) -> Size
    ensures { (counts : Counts) → IsTable counts sizes.now
        → HasSize counts (λ m. expression_measure m (seen_expression expr.now)) result }
{
    match expr {
        Expr::Number(_) | Expr::Local(_) | Expr::Len => within(NONE),
        Expr::Input(index) => within(expression(sizes, index)),
        Expr::Load(_, index) => within(expression(sizes, index)),
        Expr::Call(function, given) => {
            let parts = arguments(sizes, given);
            within(beside(parts, function_size(sizes, *function)))
        }
        Expr::Neg(inner) => within(expression(sizes, inner)),
        Expr::Binary(_, left, right) => {
            let parts = expression(sizes, left);
            within(beside(parts, expression(sizes, right)))
        }
    }
}

/// Arguments.
#[cycle(expression)]
fn arguments(sizes: &[Size], given: &[Expr]) -> Size
    ensures { (counts : Counts) → IsTable counts sizes.now
        → HasSize counts (λ m. arguments_measure m (seen_arguments given.now)) result }
{
    let mut size = NONE;
    for expr in given {
        size = beside(size, expression(sizes, expr));
    }
    size
}

/// A condition.
fn condition(sizes: &[Size], cond: &Cond) -> Size
    ensures { (counts : Counts) → IsTable counts sizes.now
        → HasSize counts (λ m. condition_measure m (seen_condition cond.now)) result }
{
    match cond {
        Cond::Compare(_, left, right) => {
            let parts = expression(sizes, left);
            within(beside(parts, expression(sizes, right)))
        }
        Cond::Both(first, second) => {
            let parts = condition(sizes, first);
            within(beside(parts, condition(sizes, second)))
        }
        Cond::Either(first, second) => {
            let parts = condition(sizes, first);
            within(beside(parts, condition(sizes, second)))
        }
        Cond::Not(inner) => within(condition(sizes, inner)),
    }
}

/// A predictor.
fn predictor(sizes: &[Size], predict: &Predict) -> Size
    ensures { (counts : Counts) → IsTable counts sizes.now
        → HasSize counts (λ m. predictor_measure m (seen_predictor predict.now)) result }
{
    match predict {
        Predict::Expr(guess) => expression(sizes, guess),
        Predict::Host(_) => NONE,
    }
}

/// The predictors of a row's parts.
fn predictors(sizes: &[Size], predict: &[Predict]) -> Size
    ensures { (counts : Counts) → IsTable counts sizes.now
        → HasSize counts (λ m. predictors_measure m (map seen_predictor predict.now)) result }
{
    let mut size = NONE;
    for part in predict {
        size = beside(size, predictor(sizes, part));
    }
    size
}

/// Measures statements one after another.
#[cycle(statement)]
pub fn block(sizes: &[Size], statements: &[Stmt]) -> Size
    ensures { (counts : Counts) → IsTable counts sizes.now
        → HasSize counts (λ m. block_measure m (seen_block statements.now)) result }
{
    let mut size = NONE;
    for stmt in statements {
        size = beside(size, statement(sizes, &stmt.kind));
    }
    size
}

/// A statement.
#[cycle(statement)]
fn statement(sizes: &[Size], kind: &StmtKind) -> Size
    ensures { (counts : Counts) → IsTable counts sizes.now
        → HasSize counts (λ m. statement_measure m (seen_statement kind.now)) result }
{
    match kind {
        StmtKind::Let(_, value) => within(expression(sizes, value)),
        StmtKind::Assign(_, value) => within(expression(sizes, value)),
        StmtKind::Store(_, index, value) => {
            let parts = expression(sizes, index);
            within(beside(parts, expression(sizes, value)))
        }
        StmtKind::Fill(_, low, high, value) => {
            let last = beside(expression(sizes, high), expression(sizes, value));
            within(beside(expression(sizes, low), last))
        }
        StmtKind::Emit(value) => within(expression(sizes, value)),
        StmtKind::Fail(_) => within(NONE),
        StmtKind::If(test, first, second) => {
            let blocks = beside(block(sizes, first), block(sizes, second));
            within(beside(condition(sizes, test), blocks))
        }
        StmtKind::For(_, low, high, body) => {
            let last = beside(expression(sizes, high), block(sizes, body));
            within(beside(expression(sizes, low), last))
        }
        StmtKind::While(test, _, body) => {
            let parts = condition(sizes, test);
            within(beside(parts, block(sizes, body)))
        }
        StmtKind::Call(function, given) => {
            let parts = arguments(sizes, given);
            within(beside(parts, function_size(sizes, *function)))
        }
        StmtKind::Fold(parts) => fold(sizes, parts),
        StmtKind::Pair(parts) => pair(sizes, parts),
        StmtKind::Break => within(NONE),
    }
}

/// A fold.
#[cycle(statement)]
fn fold(sizes: &[Size], fold: &Fold) -> Size
    ensures { (counts : Counts) → IsTable counts sizes.now
        → HasSize counts (λ m. statement_measure m
        (form.Fold (fold_head fold.now) (seen_block (out-Fold fold.now).body.items))) result }
{
    let range = beside(expression(sizes, &fold.low), expression(sizes, &fold.high));
    let header = beside(arguments(sizes, &fold.start), range);
    let body = beside(block(sizes, &fold.body), arguments(sizes, &fold.next));
    within(beside(header, beside(predictors(sizes, &fold.predict), body)))
}

/// A pair.
#[cycle(statement)]
fn pair(sizes: &[Size], pair: &Pair) -> Size
    ensures { (counts : Counts) → IsTable counts sizes.now
        → HasSize counts (λ m. statement_measure m
        (form.Pair (pair_head pair.now) (seen_block (out-Pair pair.now).producer.items)
        (seen_block (out-Pair pair.now).consumer.items))) result }
{
    let produced = beside(block(sizes, &pair.producer), arguments(sizes, &pair.give));
    let consumed = beside(
        predictors(sizes, &pair.predict),
        block(sizes, &pair.consumer),
    );
    within(beside(produced, consumed))
}
