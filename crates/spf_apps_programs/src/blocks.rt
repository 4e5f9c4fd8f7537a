//! How many blocks there are.
ghost use Rattle.std.specs.Prelude.{◌≡◌, ◌≤◌, IfOk};
ghost use Rattle.spf_ast.specs.Syntax.{Expression};
ghost use Rattle.spf_ast.specs.View.{expression};
ghost use Rattle.spf_apps_programs.specs.Writing.{blocks_for as blocks_form};

use spf_apps_builder::expression::{binary, number};
use spf_ast::syntax::{Expr, Op};
use std::alloc::{AllocError, Global};

/// How many blocks of `size` bytes each there are for `bytes` bytes.
pub(crate) fn blocks_for(
    alloc: Global,
    bytes: Result<Expr, AllocError>,
    size: u64,
) -> Result<Expr, AllocError>
    requires some { 1 ≤ size }
    requires few { size ≤ 65536 }
    ensures { (a : Expression) → IfOk bytes (λ e. expression e ≡ a)
        → IfOk result (λ e. expression e ≡ blocks_form a size) }
{
    let rounded = binary(alloc, Op::Add, bytes, number(size - 1));
    binary(alloc, Op::Div, rounded, number(size))
}
