//! Arrays, functions and whole programs, added to a text.

ghost use Rattle.std.specs.Prelude.{◌≡◌, ◌++◌, ◌∷◌, [], codes, IfOk, map, take};
ghost use Rattle.spf_ast.specs.View.{name as seen_name, array as seen_array};
ghost use Rattle.spf_ast.specs.View.{function as seen_function, program as seen_program};
ghost use Rattle.spf_ast.specs.Spelling.{spelled_function, spelled};
ghost use Rattle.spf_print_forms.specs.Canonical.{line, size_text, array_text, names_text};
ghost use Rattle.spf_print_forms.specs.Canonical.{function_text, arrays_text, functions_text};
ghost use Rattle.spf_print_forms.specs.Canonical.{main_text, header_text, canonical_text};

use crate::lines::push_with_word;
use crate::statements::push_nested;
use spf_ast::syntax::{Array, Function, Name, Program};
use spf_print_forms::pieces::{deeper, names_of, push, push_close, push_name, push_number};
use std::alloc::{AllocError, Global};

/// Adds the size of an array.
fn push_size(alloc: Global, text: &mut Vec<u8>, factor: i64, offset: i64) -> Result<(), AllocError>
    ensures { IfOk result (λ _. text.new.items ≡ text.old.items ++ size_text factor offset) }
{
    if factor == 0 {
        return push_number(alloc, text, offset);
    }
    push_number(alloc, text, factor)?;
    if offset == 0 {
        return push(text, b"*len");
    }
    push(text, b"*len + ")?;
    push_number(alloc, text, offset)
}

/// Adds an array.
fn push_array(alloc: Global, text: &mut Vec<u8>, array: &Array) -> Result<(), AllocError>
    ensures { IfOk result
        (λ _. text.new.items ≡ text.old.items ++ array_text (seen_array array.now)) }
{
    push(text, b"array ")?;
    push_name(text, &array.name)?;
    push(text, b"[")?;
    push_size(alloc, text, array.factor, array.offset)?;
    push(text, b"];\n")
}

/// Adds arrays.
fn push_arrays(alloc: Global, text: &mut Vec<u8>, arrays: &[Array]) -> Result<(), AllocError>
    ensures { IfOk result
        (λ _. text.new.items ≡ text.old.items ++ arrays_text (map seen_array arrays.now)) }
{
    for array in arrays {
        push_array(alloc, text, array)?;
    }
    Ok(())
}

/// Adds names, with a comma and a space between two.
fn push_names(text: &mut Vec<u8>, names: &[Name]) -> Result<(), AllocError>
    ensures { IfOk result
        (λ _. text.new.items ≡ text.old.items ++ names_text (map seen_name names.now)) }
{
    if let Some((first, others)) = names.split_first() {
        push_name(text, first)?;
        for other in others {
            push(text, b", ")?;
            push_name(text, other)?;
        }
    }
    Ok(())
}

/// The names of a function's parameters, which are its first slots.
fn parameters(function: &Function) -> &[Name]
    ensures { map seen_name result.now
        ≡ take function.now.params (map seen_name function.now.slots.items) }
{
    let slots: &[Name] = &function.slots;
    &slots[..(function.params as usize).min(slots.len())]
}

/// Adds the line that begins a function.
fn push_function_head(text: &mut Vec<u8>, function: &Function) -> Result<(), AllocError>
    ensures { IfOk result (λ _. text.new.items
        ≡ text.old.items
        ++ line [] (codes "fn " ∷ seen_name function.now.name ∷ codes "("
        ∷ names_text (take function.now.params (map seen_name function.now.slots.items))
        ∷ codes ") {" ∷ [])) }
{
    push(text, b"fn ")?;
    push_name(text, &function.name)?;
    push(text, b"(")?;
    push_names(text, parameters(function))?;
    push(text, b") {\n")
}

/// Adds a function.
fn push_function(
    alloc: Global,
    text: &mut Vec<u8>,
    program: &Program,
    function: &Function,
) -> Result<(), AllocError>
    ensures { IfOk result (λ _. text.new.items
        ≡ text.old.items
        ++ function_text
        (spelled_function (seen_program program.now) (seen_function function.now))) }
{
    let names = names_of(program, &function.slots);
    push_function_head(text, function)?;
    push_nested(alloc, text, &names, b"", &function.body)?;
    push_with_word(alloc, text, &names, b"  ", b"return ", &function.answer)?;
    push_close(text, b"")
}

/// Adds functions of a program.
fn push_functions(
    alloc: Global,
    text: &mut Vec<u8>,
    program: &Program,
    functions: &[Function],
) -> Result<(), AllocError>
    ensures { IfOk result (λ _. text.new.items
        ≡ text.old.items
        ++ functions_text
        (map (spelled_function (seen_program program.now)) (map seen_function functions.now))) }
{
    for function in functions {
        push_function(alloc, text, program, function)?;
    }
    Ok(())
}

/// Adds `main`.
fn push_main(alloc: Global, text: &mut Vec<u8>, program: &Program) -> Result<(), AllocError>
    ensures { IfOk result (λ _.
        text.new.items ≡ text.old.items ++ main_text (spelled 0 (seen_program program.now)).main) }
{
    let names = names_of(program, &program.slots);
    push(text, b"main {\n")?;
    push_nested(alloc, text, &names, b"", &program.main)?;
    push_close(text, b"")
}

/// Adds the line that begins a program of version 2.
fn push_header(text: &mut Vec<u8>, version: u32) -> Result<(), AllocError>
    ensures { IfOk result (λ _. text.new.items ≡ text.old.items ++ header_text version) }
{
    if version == 2 {
        return push(text, b"version 2;\n");
    }
    Ok(())
}

/// Prints the canonical text of a program: each statement on lines of its own, two spaces deeper
/// for each block around it, and no parentheses but those that are needed.
///
/// # Errors
///
/// There is no memory for the text.
pub fn print(alloc: Global, program: &Program) -> Result<Vec<u8>, AllocError>
    ensures { IfOk result
        (λ text. text.items ≡ canonical_text (spelled 0 (seen_program program.now))) }
{
    let mut text = Vec::new(alloc);
    push_header(&mut text, program.version)?;
    push_arrays(alloc, &mut text, &program.arrays)?;
    push_functions(alloc, &mut text, program, &program.functions)?;
    push_main(alloc, &mut text, program)?;
    Ok(text)
}
