//! The sizes of functions.

ghost use Rattle.std.specs.Prelude.{◌≡◌, ◌+◌, length, map, IfOk};
ghost use Rattle.spf_ast.specs.View.{function as seen_function};
ghost use Rattle.spf_ast.specs.Size.{function_measure};
ghost use Rattle.spf_types_size.specs.Sizes.{Counts, HasSize, IsTable, capped, all_counts};

use crate::measure::{block, expression};
use crate::size::{Size, beside};
use spf_ast::syntax::Function;
use std::alloc::{AllocError, Global};

/// Returns the size of a function's body and answer, given those of the functions that it calls;
/// its own slots aren't counted.
pub fn function_size(sizes: &[Size], function: &Function) -> Size
    ensures { (counts : Counts) → IsTable counts sizes.now
        → HasSize counts (λ m. function_measure m (seen_function function.now)) result }
{
    let body = block(sizes, &function.body);
    beside(body, expression(sizes, &function.answer))
}

/// Returns the size of a form together with `count` slots of its own.
pub fn with_slots(size: Size, count: usize) -> Size
    ensures nodes { result.nodes ≡ size.nodes }
    ensures depth { result.depth ≡ size.depth }
    ensures slots { result.slots ≡ capped (count + size.slots) }
{
    Size {
        nodes: size.nodes,
        depth: size.depth,
        slots: size.slots.saturating_add(count as u64),
    }
}

/// Returns the sizes of all functions of a program, each with its own slots.
///
/// # Errors
///
/// `AllocError` where there is no memory for them.
pub fn sizes(alloc: Global, functions: &[Function]) -> Result<Vec<Size>, AllocError>
    ensures sizes { IfOk result
        (λ v. IsTable (all_counts (map seen_function functions.now)) v.items) }
{
    let mut sizes = Vec::new(alloc);
    for function in functions {
        let size = function_size(&sizes, function);
        sizes.push(with_slots(size, function.slots.len()))?;
    }
    Ok(sizes)
}
