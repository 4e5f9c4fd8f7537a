//! Expressions: numbers, and truth values as conditions.

ghost use Rattle.std.specs.Prelude.{◌≡◌, map};
ghost use Rattle.spf_ast.specs.View.{expression as seen_expression, condition as seen_condition};
ghost use Rattle.spf_ast.specs.RawView.{raw_expression, raw_arguments, raw_predictor};
ghost use Rattle.spf_types_names.specs.declared.fault.TypeError.TheVariants.{Refused};
ghost use Rattle.spf_types_names.specs.declared.fault.TypeFault.TheVariants.{Kind};
ghost use Rattle.spf_types_names.specs.HereView.{setting};
ghost use Rattle.spf_types_forms.specs.Resolving.{AnswersArguments, AnswersCondition};
ghost use Rattle.spf_types_forms.specs.Resolving.{AnswersNumber, AnswersPredictor};
ghost use Rattle.spf_types_forms.specs.Resolving.{AnswersPredictors};

use spf_ast::raw::{RawExpr, RawPredict};
use spf_ast::syntax::{Cond, Expr, Predict};
use spf_types_names::fault::{TypeError, TypeFault};
use spf_types_names::locals::LocalTable;
use spf_types_names::names::{Here, array_indexed, callee, function_called, slot_used};

/// A value of the wrong kind.
fn wrong_kind(line: u32) -> TypeError
    ensures { result ≡ Refused Kind line }
{
    let fault = TypeFault::Kind;
    TypeError::Refused { fault, line }
}

/// Resolves an expression that gives a number.
#[cycle(number)]
pub(crate) fn number<'a>(
    here: &Here<'_, 'a>,
    locals: &LocalTable<'a>,
    line: u32,
    raw: &'a RawExpr,
) -> Result<Expr, TypeError>
    ensures { AnswersNumber (setting here.now) locals.now line (raw_expression raw.now)
        seen_expression result }
{
    match raw {
        RawExpr::Number(n) => Ok(Expr::Number(*n)),
        RawExpr::Local(name) => {
            let slot = slot_used(here, locals, line, name)?;
            Ok(Expr::Local(slot))
        }
        RawExpr::Len => Ok(Expr::Len),
        RawExpr::Input(index) => {
            let index = boxed_expression(here, locals, line, index)?;
            Ok(Expr::Input(index))
        }
        RawExpr::Load(name, index) => {
            let array = array_indexed(here, locals, line, name)?;
            let index = boxed_expression(here, locals, line, index)?;
            Ok(Expr::Load(array, index))
        }
        RawExpr::Call(name, given) => {
            let function = function_called(here, locals, line, name, given.len())?;
            let arguments = numbers(here, locals, line, given)?;
            Ok(Expr::Call(function, arguments))
        }
        RawExpr::Neg(inner) => {
            let inner = boxed_expression(here, locals, line, inner)?;
            Ok(Expr::Neg(inner))
        }
        RawExpr::Binary(op, left, right) => {
            let left = boxed_expression(here, locals, line, left)?;
            let right = boxed_expression(here, locals, line, right)?;
            Ok(Expr::Binary(*op, left, right))
        }
        RawExpr::Compare(..) | RawExpr::Both(..) | RawExpr::Either(..) | RawExpr::Not(_) => {
            Err(wrong_kind(line))
        }
    }
}

/// Resolves an expression that gives a number, in a box. A value that waits for a later part is
/// held in this way: where that part fails, a box is dropped by one call.
#[cycle(number)]
pub(crate) fn boxed_expression<'a>(
    here: &Here<'_, 'a>,
    locals: &LocalTable<'a>,
    line: u32,
    raw: &'a RawExpr,
) -> Result<Box<Expr>, TypeError>
    ensures { AnswersNumber (setting here.now) locals.now line (raw_expression raw.now)
        (λ b. seen_expression b.value) result }
{
    let expr = number(here, locals, line, raw)?;
    Ok(Box::new(here.alloc, expr)?)
}

/// Resolves arguments.
#[cycle(number)]
pub(crate) fn numbers<'a>(
    here: &Here<'_, 'a>,
    locals: &LocalTable<'a>,
    line: u32,
    raw: &'a [RawExpr],
) -> Result<Vec<Expr>, TypeError>
    ensures { AnswersArguments (setting here.now) locals.now line (raw_arguments raw.now) result }
{
    let mut arguments = Vec::new(here.alloc);
    for argument in raw {
        let expr = number(here, locals, line, argument)?;
        arguments.push(expr)?;
    }
    Ok(arguments)
}

/// Resolves a condition.
#[cycle(truth)]
fn truth<'a>(
    here: &Here<'_, 'a>,
    locals: &LocalTable<'a>,
    line: u32,
    raw: &'a RawExpr,
) -> Result<Cond, TypeError>
    ensures { AnswersCondition (setting here.now) locals.now line (raw_expression raw.now)
        seen_condition result }
{
    match raw {
        RawExpr::Compare(test, left, right) => {
            let left = boxed_expression(here, locals, line, left)?;
            let right = boxed_expression(here, locals, line, right)?;
            Ok(Cond::Compare(*test, left, right))
        }
        RawExpr::Both(first, second) => {
            let first = boxed_truth(here, locals, line, first)?;
            let second = boxed_truth(here, locals, line, second)?;
            Ok(Cond::Both(first, second))
        }
        RawExpr::Either(first, second) => {
            let first = boxed_truth(here, locals, line, first)?;
            let second = boxed_truth(here, locals, line, second)?;
            Ok(Cond::Either(first, second))
        }
        RawExpr::Not(inner) => {
            let inner = boxed_truth(here, locals, line, inner)?;
            Ok(Cond::Not(inner))
        }
        RawExpr::Local(name) => {
            slot_used(here, locals, line, name)?;
            Err(wrong_kind(line))
        }
        RawExpr::Load(name, _) => {
            array_indexed(here, locals, line, name)?;
            Err(wrong_kind(line))
        }
        RawExpr::Call(name, given) => {
            callee(here, locals, line, name, given.len())?;
            Err(wrong_kind(line))
        }
        RawExpr::Number(_)
        | RawExpr::Len
        | RawExpr::Input(_)
        | RawExpr::Neg(_)
        | RawExpr::Binary(..) => Err(wrong_kind(line)),
    }
}

/// Resolves a condition, in a box.
#[cycle(truth)]
pub(crate) fn boxed_truth<'a>(
    here: &Here<'_, 'a>,
    locals: &LocalTable<'a>,
    line: u32,
    raw: &'a RawExpr,
) -> Result<Box<Cond>, TypeError>
    ensures { AnswersCondition (setting here.now) locals.now line (raw_expression raw.now)
        (λ b. seen_condition b.value) result }
{
    let cond = truth(here, locals, line, raw)?;
    Ok(Box::new(here.alloc, cond)?)
}

/// Resolves a predictor of one part of a row.
fn predictor<'a>(
    here: &Here<'_, 'a>,
    locals: &LocalTable<'a>,
    line: u32,
    raw: &'a RawPredict,
) -> Result<Predict, TypeError>
    ensures { AnswersPredictor (setting here.now) locals.now line (raw_predictor raw.now) result }
{
    match raw {
        RawPredict::Expr(guess) => {
            let guess = number(here, locals, line, guess)?;
            Ok(Predict::Expr(guess))
        }
        RawPredict::Host(number) => Ok(Predict::Host(*number)),
    }
}

/// Resolves the predictors of a row's parts.
pub(crate) fn predictors<'a>(
    here: &Here<'_, 'a>,
    locals: &LocalTable<'a>,
    line: u32,
    raw: &'a [RawPredict],
) -> Result<Vec<Predict>, TypeError>
    ensures { AnswersPredictors (setting here.now) locals.now line (map raw_predictor raw.now)
        result }
{
    let mut guesses = Vec::new(here.alloc);
    for part in raw {
        let guess = predictor(here, locals, line, part)?;
        guesses.push(guess)?;
    }
    Ok(guesses)
}
