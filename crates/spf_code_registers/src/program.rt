//! How many registers functions and programs need.

ghost use Rattle.std.specs.Prelude.{◌≡◌, ℕ, map, IfOk};
ghost use Rattle.spf_ast.specs.View.{function as seen_function, program as seen_program};
ghost use Rattle.spf_code_registers.specs.Registers.{function_needs as needs_of_function};
ghost use Rattle.spf_code_registers.specs.Registers.{program_needs as needs_of_program};
ghost use Rattle.spf_code_registers.specs.Counted.{IsTable, capped, all_rooms};

use crate::needs::{block, expression};
use spf_ast::syntax::{Function, Program};
use std::alloc::{AllocError, Global};

/// Returns how many registers a function needs: its slots, and what its body and its answer need.
pub fn function_needs(rooms: &[u64], function: &Function) -> u64
    ensures { (calls : ℕ → ℕ) → IsTable calls rooms.now
        → result ≡ capped (needs_of_function calls (seen_function function.now)) }
{
    let answer = expression(rooms, &function.answer).saturating_add(1);
    let most = block(rooms, &function.body).max(answer);
    most.saturating_add(function.slots.len() as u64)
}

/// Returns how many registers a call of each function needs.
///
/// # Errors
///
/// `AllocError` where there is no memory for them.
pub fn rooms(alloc: Global, functions: &[Function]) -> Result<Vec<u64>, AllocError>
    ensures { IfOk result (λ v. IsTable (all_rooms (map seen_function functions.now)) v.items) }
{
    let mut rooms = Vec::new(alloc);
    for function in functions {
        let room = function_needs(&rooms, function);
        rooms.push(room)?;
    }
    Ok(rooms)
}

/// Returns how many registers a program's code needs: the slots of `main`, and what its statements
/// need with the deepest chain of their calls.
///
/// # Errors
///
/// `AllocError` where there is no memory for the count of each function, or where the number
/// doesn't fit.
pub fn program_needs(alloc: Global, program: &Program) -> Result<usize, AllocError>
    ensures { IfOk result (λ n. n ≡ needs_of_program (seen_program program.now)) }
{
    let rooms = rooms(alloc, &program.functions)?;
    let most = block(&rooms, &program.main);
    if most == u64::MAX {
        return Err(AllocError);
    }
    let slots = program.slots.len();
    slots.checked_add(most as usize).ok_or(AllocError)
}
