//! The limits of the language.

ghost use Rattle.std.specs.Prelude.{◌≡◌, ◌&&◌, nat_le, nat_lt, length, map, IfOk};
ghost use Rattle.spf_ast.specs.View.{program as seen_program, array as seen_array};
ghost use Rattle.spf_ast.specs.View.{function as seen_function};
ghost use Rattle.spf_types_names.specs.declared.fault.TypeError.TheVariants.{Refused};
ghost use Rattle.spf_types_names.specs.declared.fault.TypeFault.TheVariants.{TooLarge};
ghost use Rattle.spf_types_size.specs.Sizes.{IsTable, all_counts};
ghost use Rattle.spf_types.specs.TooLarge.{large_arrays, large_functions, limits_passed};
ghost use Rattle.spf_types_names.specs.Answers.{Answers};

use spf_ast::syntax::{Array, Function, Program};
use spf_types_names::fault::{TypeError, TypeFault};
use spf_types_size::functions::{function_size, with_slots};
use spf_types_size::measure::block;
use spf_types_size::size::Size;
use std::alloc::Global;

const MAX_ARRAYS: usize = 64;

const MAX_FUNCTIONS: usize = 256;

const MAX_SIZE: u64 = 65_536;

const MAX_DEPTH: u64 = 256;

const MAX_SLOTS: u64 = 1_024;

/// A program that passes a limit.
fn too_large(line: u32) -> TypeError
    ensures { result ≡ Refused TooLarge line }
{
    let fault = TypeFault::TooLarge;
    TypeError::Refused { fault, line }
}

/// Returns whether the function at an index keeps the limits.
fn is_function_small(index: usize, size: Size) -> bool
    ensures { result ≡ (nat_lt index 256 && nat_le size.nodes 65536) }
{
    index < MAX_FUNCTIONS && size.nodes <= MAX_SIZE
}

/// Returns whether `main` keeps the limits.
fn is_main_small(size: Size) -> bool
    ensures { result
        ≡ (nat_le size.nodes 65536 && (nat_le size.depth 256 && nat_le size.slots 1024)) }
{
    size.nodes <= MAX_SIZE && size.depth <= MAX_DEPTH && size.slots <= MAX_SLOTS
}

/// The sizes of all functions; refuses the first one that is too large.
fn sizes_of(alloc: Global, functions: &[Function]) -> Result<Vec<Size>, TypeError>
    ensures answers { Answers (large_functions (all_counts (map seen_function functions.now)).nodes
        0 (map seen_function functions.now)) (λ _. tt {0}) (tt {0}) result }
    ensures sizes { IfOk result
        (λ v. IsTable (all_counts (map seen_function functions.now)) v.items) }
{
    let mut sizes = Vec::new(alloc);
    for (index, function) in functions.iter().enumerate() {
        let size = function_size(&sizes, function);
        if !is_function_small(index, size) {
            return Err(too_large(function.line));
        }
        sizes.push(with_slots(size, function.slots.len()))?;
    }
    Ok(sizes)
}

/// Tests that no array comes after the last one that may be there.
fn few_arrays(arrays: &[Array]) -> Result<(), TypeError>
    ensures { Answers (large_arrays (map seen_array arrays.now)) (λ _. tt {0}) (tt {0}) result }
{
    match arrays.get(MAX_ARRAYS) {
        Some(array) => Err(too_large(array.line)),
        None => Ok(()),
    }
}

/// Tests that a program keeps the limits; its word `main` is on this line.
pub(crate) fn keeps_limits(
    alloc: Global,
    program: &Program,
    main_line: u32,
) -> Result<(), TypeError>
    ensures { Answers (limits_passed main_line (seen_program program.now)) (λ _. tt {0}) (tt {0})
        result }
{
    few_arrays(&program.arrays)?;
    let sizes = sizes_of(alloc, &program.functions)?;
    let main = block(&sizes, &program.main);
    if is_main_small(with_slots(main, program.slots.len())) {
        Ok(())
    } else {
        Err(too_large(main_line))
    }
}
