//! The arrays of a program, whose cells follow each other.

ghost use Rattle.std.specs.Prelude.{◌≡◌, ◌<◌, ◌≤◌, length, map, IfOk, IfErr, IsErrAnd};
ghost use Rattle.spf_ast.specs.View.{array as seen_array, program as seen_program};
ghost use Rattle.spf_ast.specs.Program.{size_of, sizes, extents_from, cell_count_of, max_cells};
ghost use Rattle.spf_ast.specs.Program.{most_cells};
ghost use Rattle.spf_exec_instance.specs.declared.layout.RunError.TheVariants.{OutOfMemory};
ghost use Rattle.spf_exec_instance.specs.Layout.{IsLayoutOf};
ghost use Rattle.spf_exec_instance.specs.RunErrors.{counted, IsTooMany};

use crate::layout::{Layout, RunError};
use spf_ast::syntax::{Array, Program};
use std::alloc::{AllocError, Global};

/// Returns how many cells a run of this program may have: a program of version 2 may have more.
pub fn max_cells_of(program: &Program) -> u32
    ensures { result ≡ max_cells (seen_program program.now) }
{
    if program.version == 2 {
        16_777_216
    } else {
        4_194_304
    }
}

/// The number of an array's elements for an input of this length.
fn size(array: &Array, len: u64) -> u128
    ensures { result ≡ size_of len (seen_array array.now) }
{
    let size = array.factor as i128 * len as i128 + array.offset as i128;
    if size < 0 { 0 } else { size as u128 }
}

/// The number of cells of all arrays, or the greatest number where there are more.
fn cell_count(arrays: &[Array], len: u64) -> u128
    ensures { result ≡ counted (sizes len (map seen_array arrays.now)) }
{
    let mut count: u128 = 0;
    for array in arrays {
        count = count.saturating_add(size(array, len));
    }
    count
}

/// The first cell and the number of elements of each array.
fn extents(alloc: Global, arrays: &[Array], len: u64) -> Result<Vec<(u64, u64)>, AllocError>
    requires few { sizes len (map seen_array arrays.now) ≤ most_cells }
    ensures extents { IfOk result (λ v. v.items ≡ extents_from len 0 (map seen_array arrays.now)) }
{
    let mut extents = Vec::new(alloc);
    let mut base: u64 = 0;
    for array in arrays {
        let size = size(array, len) as u64;
        extents.push((base, size))?;
        base += size;
    }
    Ok(extents)
}

/// Lays out the arrays of a program for an input of `len` bytes: their cells follow each other in
/// the order of the arrays.
///
/// # Errors
///
/// `TooManyCells` where the arrays have more cells than a run of the program's version may have,
/// and `OutOfMemory`.
pub fn layout(alloc: Global, program: &Program, len: u64) -> Result<Layout, RunError>
    ensures layout { IfOk result (IsLayoutOf (seen_program program.now) len) }
    ensures too_many { max_cells (seen_program program.now)
        < cell_count_of (seen_program program.now) len
        → IsErrAnd result (IsTooMany (cell_count_of (seen_program program.now) len)) }
    ensures few { cell_count_of (seen_program program.now) len
        ≤ max_cells (seen_program program.now) → IfErr result (λ why. why ≡ OutOfMemory) }
{
    let count = cell_count(&program.arrays, len);
    if count > max_cells_of(program) as u128 {
        return Err(RunError::TooManyCells { count });
    }
    let extents = extents(alloc, &program.arrays, len)?;
    Ok(Layout {
        extents,
        cells: count as u64,
    })
}
