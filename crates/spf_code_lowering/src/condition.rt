//! Lowering of conditions to registers, as a loop asks them.

ghost use Rattle.std.specs.Prelude.{◌≡◌, ◌≤◌, ◌<◌, [], false, ℕ, IfOk};
ghost use Rattle.spf_ast.specs.View.{condition as seen_condition};
ghost use Rattle.spf_code_lowering.specs.Adding.{AddsCondition, Spares, comparison};
ghost use Rattle.spf_code_lowering.specs.Flat.{nodes_set};
ghost use Rattle.spf_code_lowering.specs.Lowering.{HaveCodes, Wrote, ToldIn};

use crate::expression::{Scope, add, hold};
use crate::jump::add_choice;
use spf_ast::syntax::{Cond, Expr, Test};
use spf_code::node::{Choice, Node};
use std::alloc::AllocError;

/// Appends the code that compares two expressions.
fn compare(
    scope: &Scope,
    line: u32,
    free: u32,
    test: Test,
    left: &Expr,
    right: &Expr,
    out: &mut Vec<Node>,
) -> Result<(), AllocError>
    requires codes { HaveCodes scope.now }
    requires own { scope.now.own ≤ free }
    ensures wrote { AddsCondition scope.now line free (comparison test left.now right.now)
        out.old out.new result }
    ensures spares { Spares (λ r. r < free) out.old out.new result }
{
    let first = hold(scope, line, free, left, out)?;
    if let Expr::Number(n) = right {
        return add(
            out,
            Node::CompareWith {
                test,
                to: free,
                left: first.register,
                number: *n,
            },
        );
    }
    let second = hold(scope, line, first.next, right, out)?;
    add(
        out,
        Node::Compare {
            test,
            to: free,
            left: first.register,
            right: second.register,
        },
    )
}

/// Appends the code that has the register `free` say whether a condition holds: 1 where it does,
/// otherwise 0.
#[cycle(condition)]
fn tell(
    scope: &Scope,
    line: u32,
    free: u32,
    cond: &Cond,
    out: &mut Vec<Node>,
) -> Result<(), AllocError>
    requires codes { HaveCodes scope.now }
    requires own { scope.now.own ≤ free }
    ensures wrote { AddsCondition scope.now line free (seen_condition cond.now)
        out.old out.new result }
    ensures spares { Spares (λ r. r < free) out.old out.new result }
{
    match cond {
        Cond::Compare(test, left, right) => compare(scope, line, free, *test, left, right, out),
        Cond::Both(first, second) => {
            tell(scope, line, free, first, out)?;
            let then = code_telling(scope, line, free, second)?;
            add_choice(Choice::IsOn(free), then, Vec::new(scope.alloc), out)
        }
        Cond::Either(first, second) => {
            tell(scope, line, free, first, out)?;
            let otherwise = code_telling(scope, line, free, second)?;
            add_choice(Choice::IsOn(free), Vec::new(scope.alloc), otherwise, out)
        }
        Cond::Not(inner) => {
            tell(scope, line, free, inner, out)?;
            add(
                out,
                Node::Not {
                    to: free,
                    from: free,
                },
            )
        }
    }
}

/// Returns code of its own that has the register `free` say whether a condition holds.
#[cycle(condition)]
pub(crate) fn code_telling(
    scope: &Scope,
    line: u32,
    free: u32,
    cond: &Cond,
) -> Result<Vec<Node>, AllocError>
    requires codes { HaveCodes scope.now }
    requires own { scope.now.own ≤ free }
    ensures told { (calls : ℕ → ℕ) → IfOk result
        (λ v. Wrote [] v.items (ToldIn scope.now calls line free (seen_condition cond.now))) }
    ensures spares { IfOk result (λ v. (r : ℕ) → r < free → nodes_set r v.items ≡ false) }
{
    let mut made = Vec::new(scope.alloc);
    tell(scope, line, free, cond, &mut made)?;
    Ok(made)
}
