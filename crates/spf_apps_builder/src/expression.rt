//! Expressions and conditions.
ghost use Rattle.std.specs.Prelude.{◌≡◌, ◌<◌, ◌^◌, pos, IfOk};
ghost use Rattle.spf_ast.specs.Syntax.{Expression, Number, Local, Len, Input, Load, Call, argument};
ghost use Rattle.spf_ast.specs.Syntax.{no_more, Binary, Compare};
ghost use Rattle.spf_ast.specs.View.{expression, condition};

use spf_ast::syntax::{Cond, Expr, Op, Test};
use std::alloc::{AllocError, Global};

/// A number, which needs no memory.
pub(crate) fn literal(value: u64) -> Expr
    requires { value < 2 ^ 63 }
    ensures { expression result ≡ Number (pos value) }
{
    Expr::Number(value as i64)
}

/// Builds a number.
pub fn number(value: u64) -> Result<Expr, AllocError>
    requires { value < 2 ^ 63 }
    ensures { IfOk result (λ e. expression e ≡ Number (pos value)) }
{
    Ok(literal(value))
}

/// Builds a read of a slot.
pub fn local(slot: u32) -> Result<Expr, AllocError>
    ensures { IfOk result (λ e. expression e ≡ Local slot) }
{
    Ok(Expr::Local(slot))
}

/// Builds the expression for the input's length.
pub fn length() -> Result<Expr, AllocError>
    ensures { IfOk result (λ e. expression e ≡ Len) }
{
    Ok(Expr::Len)
}

/// A value in a box.
fn into_box(alloc: Global, value: Result<Expr, AllocError>) -> Result<Box<Expr>, AllocError>
    ensures { (e : Expression) → IfOk value (λ v. expression v ≡ e)
        → IfOk result (λ b. expression b.value ≡ e) }
{
    Ok(Box::new(alloc, value?)?)
}

/// Builds an operation on two operands.
pub fn binary(
    alloc: Global,
    op: Op,
    left: Result<Expr, AllocError>,
    right: Result<Expr, AllocError>,
) -> Result<Expr, AllocError>
    ensures { (a b : Expression) → IfOk left (λ e. expression e ≡ a)
        → IfOk right (λ e. expression e ≡ b) → IfOk result (λ e. expression e ≡ Binary op a b) }
{
    let left = into_box(alloc, left);
    let right = into_box(alloc, right)?;
    Ok(Expr::Binary(op, left?, right))
}

/// Builds a read of a byte of the input.
pub fn input(alloc: Global, index: Result<Expr, AllocError>) -> Result<Expr, AllocError>
    ensures { (a : Expression) → IfOk index (λ e. expression e ≡ a)
        → IfOk result (λ e. expression e ≡ Input a) }
{
    Ok(Expr::Input(into_box(alloc, index)?))
}

/// Builds a read of an element of an array.
pub fn load(alloc: Global, array: u32, index: Result<Expr, AllocError>) -> Result<Expr, AllocError>
    ensures { (a : Expression) → IfOk index (λ e. expression e ≡ a)
        → IfOk result (λ e. expression e ≡ Load array a) }
{
    Ok(Expr::Load(array, into_box(alloc, index)?))
}

/// Builds a call of a function with one argument.
pub fn call(
    alloc: Global,
    function: u32,
    given: Result<Expr, AllocError>,
) -> Result<Expr, AllocError>
    ensures { (a : Expression) → IfOk given (λ e. expression e ≡ a)
        → IfOk result (λ e. expression e ≡ Call function (argument a no_more)) }
{
    Ok(Expr::Call(function, vec![in alloc; given?]?))
}

/// Builds a call of a function with two arguments.
pub fn call_with_two(
    alloc: Global,
    function: u32,
    first: Result<Expr, AllocError>,
    second: Result<Expr, AllocError>,
) -> Result<Expr, AllocError>
    ensures { (a b : Expression) → IfOk first (λ e. expression e ≡ a)
        → IfOk second (λ e. expression e ≡ b)
        → IfOk result (λ e. expression e ≡ Call function (argument a (argument b no_more))) }
{
    let first = into_box(alloc, first);
    let second = into_box(alloc, second)?;
    let given = vec![in alloc; Box::into_inner(first?), Box::into_inner(second)]?;
    Ok(Expr::Call(function, given))
}

/// Builds a comparison of two numbers.
pub fn compare(
    alloc: Global,
    test: Test,
    left: Result<Expr, AllocError>,
    right: Result<Expr, AllocError>,
) -> Result<Cond, AllocError>
    ensures { (a b : Expression) → IfOk left (λ e. expression e ≡ a)
        → IfOk right (λ e. expression e ≡ b) → IfOk result (λ c. condition c ≡ Compare test a b) }
{
    let left = into_box(alloc, left);
    let right = into_box(alloc, right)?;
    Ok(Cond::Compare(test, left?, right))
}
