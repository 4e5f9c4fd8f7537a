//! Expressions, conditions and predictors, added to a text.

ghost use Rattle.std.specs.Prelude.{◌≡◌, ◌++◌, ◌∷◌, [], codes, IfOk, nat_lt, map};
ghost use Rattle.spf_ast.specs.View.{expression, arguments, condition, predictor};
ghost use Rattle.spf_ast.specs.Spelling.{Vocabulary, name_at, spelled_expression};
ghost use Rattle.spf_ast.specs.Spelling.{spelled_arguments, spelled_condition, spelled_predictor};
ghost use Rattle.spf_print_forms.specs.Canonical.{enclosed, level as level_of, joined};
ghost use Rattle.spf_print_forms.specs.Canonical.{op_level as op_level_of, expression_text};
ghost use Rattle.spf_print_forms.specs.Canonical.{arguments_text, row_text, predictor_text};
ghost use Rattle.spf_print_forms.specs.Canonical.{predictors_text, guess_text};
ghost use Rattle.spf_print_forms.specs.Printing.{vocabulary_of};

use crate::pieces::{
    BOTH_LEVEL, COMPARISON_LEVEL, EITHER_LEVEL, Names, OPERAND_LEVEL, UNARY_LEVEL, array_name,
    function_name, op_sign, push, push_count, push_number, slot_name, test_sign,
};
use spf_ast::syntax::{Cond, Expr, Op, Predict};
use std::alloc::{AllocError, Global};

/// How tightly an operator binds.
fn op_level(op: Op) -> u32
    ensures { result ≡ op_level_of op }
{
    match op {
        Op::Or => 4,
        Op::Xor => 5,
        Op::And => 6,
        Op::Shl => 7,
        Op::Shr => 7,
        Op::Add => 8,
        Op::Sub => 8,
        Op::Mul => 9,
        Op::Div => 9,
        Op::Rem => 9,
    }
}

/// Returns how tightly an expression binds.
pub fn level(expr: &Expr) -> u32
    ensures { (v : Vocabulary) → result ≡ level_of (spelled_expression v (expression expr.now)) }
{
    match expr {
        Expr::Binary(op, _, _) => op_level(*op),
        Expr::Neg(_) => UNARY_LEVEL,
        Expr::Number(_) => OPERAND_LEVEL,
        Expr::Local(_) => OPERAND_LEVEL,
        Expr::Len => OPERAND_LEVEL,
        Expr::Input(_) => OPERAND_LEVEL,
        Expr::Load(_, _) => OPERAND_LEVEL,
        Expr::Call(_, _) => OPERAND_LEVEL,
    }
}

/// Adds an expression, in parentheses where its level is below the least that may stand there.
#[cycle(expression)]
fn push_operand(
    alloc: Global,
    text: &mut Vec<u8>,
    names: &Names,
    least: u32,
    expr: &Expr,
) -> Result<(), AllocError>
    ensures { IfOk result (λ _.
        let e = spelled_expression (vocabulary_of names.now) (expression expr.now) in text.new.items
        ≡ text.old.items ++ enclosed (nat_lt (level_of e) least) (expression_text e)) }
{
    if level(expr) < least {
        push(text, b"(")?;
        push_expression(alloc, text, names, expr)?;
        push(text, b")")
    } else {
        push_expression(alloc, text, names, expr)
    }
}

/// Adds an expression.
#[cycle(expression)]
pub fn push_expression(
    alloc: Global,
    text: &mut Vec<u8>,
    names: &Names,
    expr: &Expr,
) -> Result<(), AllocError>
    ensures { IfOk result (λ _. text.new.items
        ≡ text.old.items
        ++ expression_text (spelled_expression (vocabulary_of names.now) (expression expr.now))) }
{
    match expr {
        Expr::Number(n) => push_number(alloc, text, *n),
        Expr::Local(slot) => push(text, slot_name(names.slots, *slot)),
        Expr::Len => push(text, b"len"),
        Expr::Input(index) => {
            push(text, b"input")?;
            push_index(alloc, text, names, index)
        }
        Expr::Load(array, index) => {
            push(text, array_name(names.arrays, *array))?;
            push_index(alloc, text, names, index)
        }
        Expr::Call(f, given) => {
            push(text, function_name(names.functions, *f))?;
            push_arguments(alloc, text, names, given)
        }
        Expr::Neg(inner) => {
            push(text, b"-")?;
            push_operand(alloc, text, names, UNARY_LEVEL, inner)
        }
        Expr::Binary(op, left, right) => {
            let level = op_level(*op);
            push_operand(alloc, text, names, level, left)?;
            push(text, op_sign(*op))?;
            push_operand(alloc, text, names, level + 1, right)
        }
    }
}

/// Adds an index in its brackets.
#[cycle(expression)]
pub fn push_index(
    alloc: Global,
    text: &mut Vec<u8>,
    names: &Names,
    index: &Expr,
) -> Result<(), AllocError>
    ensures { IfOk result (λ _. text.new.items ≡ text.old.items
        ++ joined (codes "[" ∷ expression_text
        (spelled_expression (vocabulary_of names.now) (expression index.now)) ∷ codes "]" ∷ [])) }
{
    push(text, b"[")?;
    push_expression(alloc, text, names, index)?;
    push(text, b"]")
}

/// Adds arguments, with a comma and a space between two.
#[cycle(expression)]
fn push_list(
    alloc: Global,
    text: &mut Vec<u8>,
    names: &Names,
    given: &[Expr],
) -> Result<(), AllocError>
    ensures { IfOk result (λ _. text.new.items ≡ text.old.items
        ++ arguments_text (spelled_arguments (vocabulary_of names.now) (arguments given.now))) }
{
    if let Some((first, others)) = given.split_first() {
        push_expression(alloc, text, names, first)?;
        for other in others {
            push(text, b", ")?;
            push_expression(alloc, text, names, other)?;
        }
    }
    Ok(())
}

/// Adds arguments in their parentheses.
#[cycle(expression)]
pub fn push_arguments(
    alloc: Global,
    text: &mut Vec<u8>,
    names: &Names,
    given: &[Expr],
) -> Result<(), AllocError>
    ensures { IfOk result (λ _. text.new.items
        ≡ text.old.items
        ++ joined (codes "("
        ∷ arguments_text (spelled_arguments (vocabulary_of names.now) (arguments given.now))
        ∷ codes ")" ∷ [])) }
{
    push(text, b"(")?;
    push_list(alloc, text, names, given)?;
    push(text, b")")
}

/// Adds a row, in parentheses where it has several parts.
pub fn push_row(
    alloc: Global,
    text: &mut Vec<u8>,
    names: &Names,
    parts: &[Expr],
) -> Result<(), AllocError>
    ensures { IfOk result (λ _. text.new.items ≡ text.old.items
        ++ row_text (spelled_arguments (vocabulary_of names.now) (arguments parts.now))) }
{
    if parts.len() > 1 {
        push_arguments(alloc, text, names, parts)
    } else {
        push_list(alloc, text, names, parts)
    }
}

/// How tightly a condition binds.
fn condition_level(cond: &Cond) -> u32
    ensures { (v : Vocabulary) → result ≡ level_of (spelled_condition v (condition cond.now)) }
{
    match cond {
        Cond::Either(_, _) => EITHER_LEVEL,
        Cond::Both(_, _) => BOTH_LEVEL,
        Cond::Compare(_, _, _) => COMPARISON_LEVEL,
        Cond::Not(_) => UNARY_LEVEL,
    }
}

/// Adds a condition, in parentheses where its level is below the least that may stand there.
#[cycle(condition)]
fn push_part(
    alloc: Global,
    text: &mut Vec<u8>,
    names: &Names,
    least: u32,
    cond: &Cond,
) -> Result<(), AllocError>
    ensures { IfOk result (λ _.
        let e = spelled_condition (vocabulary_of names.now) (condition cond.now) in text.new.items
        ≡ text.old.items ++ enclosed (nat_lt (level_of e) least) (expression_text e)) }
{
    if condition_level(cond) < least {
        push(text, b"(")?;
        push_condition(alloc, text, names, cond)?;
        push(text, b")")
    } else {
        push_condition(alloc, text, names, cond)
    }
}

/// Adds a condition.
#[cycle(condition)]
pub fn push_condition(
    alloc: Global,
    text: &mut Vec<u8>,
    names: &Names,
    cond: &Cond,
) -> Result<(), AllocError>
    ensures { IfOk result (λ _. text.new.items
        ≡ text.old.items
        ++ expression_text (spelled_condition (vocabulary_of names.now) (condition cond.now))) }
{
    match cond {
        Cond::Compare(test, left, right) => {
            push_operand(alloc, text, names, COMPARISON_LEVEL + 1, left)?;
            push(text, test_sign(*test))?;
            push_operand(alloc, text, names, COMPARISON_LEVEL + 1, right)
        }
        Cond::Both(left, right) => {
            push_part(alloc, text, names, BOTH_LEVEL, left)?;
            push(text, b" && ")?;
            push_part(alloc, text, names, BOTH_LEVEL + 1, right)
        }
        Cond::Either(left, right) => {
            push_part(alloc, text, names, EITHER_LEVEL, left)?;
            push(text, b" || ")?;
            push_part(alloc, text, names, EITHER_LEVEL + 1, right)
        }
        Cond::Not(inner) => {
            push(text, b"!")?;
            push_part(alloc, text, names, UNARY_LEVEL, inner)
        }
    }
}

/// Adds a predictor.
fn push_predictor(
    alloc: Global,
    text: &mut Vec<u8>,
    names: &Names,
    predict: &Predict,
) -> Result<(), AllocError>
    ensures { IfOk result (λ _. text.new.items
        ≡ text.old.items
        ++ predictor_text (spelled_predictor (vocabulary_of names.now) (predictor predict.now))) }
{
    match predict {
        Predict::Expr(guess) => push_expression(alloc, text, names, guess),
        Predict::Host(number) => {
            push(text, b"host ")?;
            push_count(alloc, text, *number)
        }
    }
}

/// Adds a range of numbers.
pub fn push_range(
    alloc: Global,
    text: &mut Vec<u8>,
    names: &Names,
    low: &Expr,
    high: &Expr,
) -> Result<(), AllocError>
    ensures { IfOk result (λ _. text.new.items
        ≡ text.old.items
        ++ joined
        (expression_text (spelled_expression (vocabulary_of names.now) (expression low.now))
        ∷ codes ".."
        ∷ expression_text (spelled_expression (vocabulary_of names.now) (expression high.now))
        ∷ [])) }
{
    push_expression(alloc, text, names, low)?;
    push(text, b"..")?;
    push_expression(alloc, text, names, high)
}

/// Adds a range of an array.
pub fn push_slice(
    alloc: Global,
    text: &mut Vec<u8>,
    names: &Names,
    array: u32,
    low: &Expr,
    high: &Expr,
) -> Result<(), AllocError>
    ensures { IfOk result (λ _. text.new.items
        ≡ text.old.items
        ++ joined (name_at (vocabulary_of names.now).arrays array ∷ codes "["
        ∷ expression_text (spelled_expression (vocabulary_of names.now) (expression low.now))
        ∷ codes ".."
        ∷ expression_text (spelled_expression (vocabulary_of names.now) (expression high.now))
        ∷ codes "]" ∷ [])) }
{
    push(text, array_name(names.arrays, array))?;
    push(text, b"[")?;
    push_range(alloc, text, names, low, high)?;
    push(text, b"]")
}

/// Adds predictors, with a comma and a space between two.
fn push_predictors(
    alloc: Global,
    text: &mut Vec<u8>,
    names: &Names,
    parts: &[Predict],
) -> Result<(), AllocError>
    ensures { IfOk result (λ _. text.new.items
        ≡ text.old.items
        ++ predictors_text
        (map (spelled_predictor (vocabulary_of names.now)) (map predictor parts.now))) }
{
    if let Some((first, others)) = parts.split_first() {
        push_predictor(alloc, text, names, first)?;
        for other in others {
            push(text, b", ")?;
            push_predictor(alloc, text, names, other)?;
        }
    }
    Ok(())
}

/// Adds a guess, in parentheses where it has several parts.
fn push_guess(
    alloc: Global,
    text: &mut Vec<u8>,
    names: &Names,
    parts: &[Predict],
) -> Result<(), AllocError>
    ensures { IfOk result (λ _. text.new.items
        ≡ text.old.items
        ++ guess_text
        (map (spelled_predictor (vocabulary_of names.now)) (map predictor parts.now))) }
{
    if parts.len() > 1 {
        push(text, b"(")?;
        push_predictors(alloc, text, names, parts)?;
        push(text, b")")
    } else {
        push_predictors(alloc, text, names, parts)
    }
}

/// Adds the end of a line that begins a block, with its guess.
pub fn push_predict(
    alloc: Global,
    text: &mut Vec<u8>,
    names: &Names,
    predict: &[Predict],
) -> Result<(), AllocError>
    ensures { IfOk result (λ _. text.new.items
        ≡ text.old.items
        ++ joined (codes " predict "
        ∷ guess_text (map (spelled_predictor (vocabulary_of names.now)) (map predictor predict.now))
        ∷ codes " {" ∷ []) ++ 10 ∷ []) }
{
    push(text, b" predict ")?;
    push_guess(alloc, text, names, predict)?;
    push(text, b" {\n")
}
