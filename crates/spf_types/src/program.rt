//! Arrays, functions and `main`.

ghost use Rattle.std.specs.Prelude.{◌≡◌, ◌⊎◌, ◌++◌, [], IfOk, IsOkUnless, Err, List, ℕ, length};
ghost use Rattle.std.specs.Prelude.{map};
ghost use Rattle.spf_ast.specs.Syntax.{Block as block_form, Function as function_form};
ghost use Rattle.spf_ast.specs.Syntax.{Program as Lawful};
ghost use Rattle.spf_ast.specs.View.{program as seen_program, array as seen_array};
ghost use Rattle.spf_ast.specs.View.{function as seen_function, block as seen_block};
ghost use Rattle.spf_ast.specs.View.{name as seen_name};
ghost use Rattle.spf_ast.specs.RawView.{raw_function, raw_program};
ghost use Rattle.spf_types_names.specs.HereView.{setting};
ghost use Rattle.spf_types_names.specs.Globals.{globals_of, global_named, is_array_at};
ghost use Rattle.spf_types_names.specs.Globals.{is_function_at};
ghost use Rattle.spf_types_names.specs.Faults.{arrays_faults, functions_faults, function_faults};
ghost use Rattle.spf_types_names.specs.Faults.{faults};
ghost use Rattle.spf_types_names.specs.Resolved.{resolved_function, resolved};
ghost use Rattle.spf_types_names.specs.Answers.{Answers};
ghost use Rattle.spf_types.specs.TooLarge.{limits_passed};
ghost use Rattle.spf_types.specs.Contract.{IsResolved, IsRefused};
ghost use Rattle.spf_ast.specs.Spelling.{IsWellFormed};
ghost use Rattle.spf_types_names.specs.declared.fault.TypeFault.{TypeFault as Fault};

use crate::limits::keeps_limits;
use spf_ast::raw::{RawFunction, RawProgram};
use spf_ast::syntax::{Array, Function, Name, Program, Stmt};
use spf_types_forms::statement::{block, statements_and_number};
use spf_types_names::fault::{TypeError, TypeFault};
use spf_types_names::globals::{GlobalTable, Outer, short};
use spf_types_names::locals::LocalTable;
use spf_types_names::names::{Here, declared_each};
use std::alloc::Global;

/// What a resolved program has besides its arrays.
#[derive(Drop)]
pub(crate) struct Parts {
    pub functions: Vec<Function>,
    pub slots: Vec<Name>,
    pub main: Vec<Stmt>,
}

/// Tests that no array has the name of an earlier one.
fn new_arrays<'a>(
    globals: &GlobalTable<'a>,
    raw: &'a [Array],
    functions: &'a [RawFunction],
) -> Result<(), TypeError>
    requires { globals.now ≡ globals_of (map seen_array raw.now) (map raw_function functions.now) }
    ensures { Answers (arrays_faults [] (map seen_array raw.now)) (λ _. tt {0}) (tt {0}) result }
{
    for (index, array) in raw.iter().enumerate() {
        if !is_array(globals, &array.name, index) {
            let fault = TypeFault::Twice;
            let line = array.line;
            return Err(TypeError::Refused { fault, line });
        }
    }
    Ok(())
}

/// Returns whether a name stands for the array at an index.
fn is_array<'a>(globals: &GlobalTable<'a>, name: &'a Name, index: usize) -> bool
    ensures { result ≡ is_array_at (global_named globals.now (seen_name name.now)) index }
{
    match globals.find(name) {
        Some(Outer::Array(first)) => first as usize == index,
        _ => false,
    }
}

/// Returns whether a name stands for the function at an index.
fn is_function<'a>(globals: &GlobalTable<'a>, name: &'a Name, index: usize) -> bool
    ensures { result ≡ is_function_at (global_named globals.now (seen_name name.now)) index }
{
    match globals.find(name) {
        Some(Outer::Function(first)) => first as usize == index,
        _ => false,
    }
}

/// Resolves a function.
fn function_of<'a>(here: &Here<'_, 'a>, raw: &'a RawFunction) -> Result<Function, TypeError>
    ensures { Answers (function_faults (setting here.now) (raw_function raw.now)) seen_function
        (resolved_function here.now.globals.now (raw_function raw.now)) result }
{
    let alloc = here.alloc;
    let mut locals = LocalTable::make(alloc);
    declared_each(here, &mut locals, raw.line, &raw.params)?;
    let (body, answer) = statements_and_number(
        here,
        &mut locals,
        &raw.body,
        raw.answer_line,
        &raw.answer,
    )?;
    let params = short(raw.params.len())?;
    let bytes = raw.name.bytes.to_vec(alloc)?;
    Ok(Function {
        name: Name { bytes },
        params,
        slots: locals.into_slots(),
        body,
        answer: Box::into_inner(answer),
        answer_line: raw.answer_line,
        line: raw.line,
    })
}

/// Resolves functions, after the arrays.
fn functions_of<'a>(
    alloc: Global,
    globals: &GlobalTable<'a>,
    arrays: &'a [Array],
    raw: &'a [RawFunction],
) -> Result<Vec<Function>, TypeError>
    requires { globals.now ≡ globals_of (map seen_array arrays.now) (map raw_function raw.now) }
    ensures { Answers (functions_faults globals.now globals.now.arrays 0 (map raw_function raw.now))
        (λ v. map seen_function v.items)
        (map (resolved_function globals.now) (map raw_function raw.now)) result }
{
    let mut functions = Vec::new(alloc);
    for (index, function) in raw.iter().enumerate() {
        if !is_function(globals, &function.name, index) {
            let fault = TypeFault::Twice;
            let line = function.line;
            return Err(TypeError::Refused { fault, line });
        }
        let here = Here {
            alloc,
            globals,
            index,
            in_main: false,
            in_loop: false,
        };
        let resolved = function_of(&here, function)?;
        functions.push(resolved)?;
    }
    Ok(functions)
}

/// Resolves what a program has besides its arrays.
fn parts_of(alloc: Global, raw: &RawProgram) -> Result<Parts, TypeError>
    ensures { Answers {A = List function_form × List (List ℕ) × block_form}
        (faults (raw_program raw.now)) (λ p. (
          map seen_function p.functions.items,
          map seen_name p.slots.items,
          seen_block p.main.items,
        )) (
          (resolved (raw_program raw.now)).functions,
          (resolved (raw_program raw.now)).slots,
          (resolved (raw_program raw.now)).main,
        ) result }
{
    let arrays: &[Array] = &raw.arrays;
    let functions: &[RawFunction] = &raw.functions;
    let globals = GlobalTable::make(alloc, arrays, functions)?;
    new_arrays(&globals, arrays, functions)?;
    let resolved = functions_of(alloc, &globals, arrays, functions)?;
    let here = Here {
        alloc,
        globals: &globals,
        index: functions.len(),
        in_main: true,
        in_loop: false,
    };
    let mut locals = LocalTable::make(alloc);
    let main = block(&here, &mut locals, &raw.main)?;
    Ok(Parts {
        functions: resolved,
        slots: locals.into_slots(),
        main,
    })
}

/// Resolves the program that a raw one stands for, tested against the limits.
fn resolved_of(alloc: Global, raw: RawProgram) -> Result<Program, TypeError>
    ensures { Answers
        (faults (raw_program raw) ++ limits_passed raw.main_line (resolved (raw_program raw)))
        seen_program (resolved (raw_program raw)) result }
{
    let parts = parts_of(alloc, &raw)?;
    let program = Program {
        version: raw.version,
        arrays: raw.arrays,
        functions: parts.functions,
        slots: parts.slots,
        main: parts.main,
    };
    keeps_limits(alloc, &program, raw.main_line)?;
    Ok(program)
}

/// Resolves a raw program: each name becomes the number of the array, the function or the slot that
/// it stands for.
///
/// # Errors
///
/// `Refused` tells the first fault of the program, in the order of its text; where it has none,
/// `TooLarge` at the first array or function at which it passes a limit, or at `main`.
/// `OutOfMemory` comes where memory runs out, as it does for lists of 2^32 names.
pub fn resolve(alloc: Global, raw: RawProgram) -> Result<Program, TypeError>
    requires { IsWellFormed (raw_program raw) }
    // What is given is the program that the raw one stands for, and there is no other.
    ensures program { IfOk result (λ p. IsResolved (raw_program raw) (seen_program p)) }
    ensures only { IfOk result
        (λ p. (q : Lawful) → IsResolved (raw_program raw) q → q ≡ seen_program p) }
    // A raw program that stands for one is refused only when memory runs out.
    ensures accepted { (q : Lawful) → IsResolved (raw_program raw) q
        → IsOkUnless result TypeError.OutOfMemory }
    // When it is refused, and that it is refused then.
    ensures refused { (what : Fault) (line : ℕ) → result ≡ Err (TypeError.Refused what line)
        → IsRefused (raw_program raw) what line }
    ensures refused_exactly { (what : Fault) (line : ℕ) → IsRefused (raw_program raw) what line
        → (result ≡ Err (TypeError.Refused what line)) ⊎ (result ≡ Err TypeError.OutOfMemory) }
{
    resolved_of(alloc, raw)
}
