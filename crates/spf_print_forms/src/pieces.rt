//! Names, numbers and signs, added to a text.

ghost use Rattle.std.specs.Prelude.{◌≡◌, ◌++◌, ◌∷◌, [], codes, IfOk, map};
ghost use Rattle.std.specs.Fmt.{decimal, signed_decimal};
ghost use Rattle.spf_ast.specs.View.{name as seen_name, program as seen_program};
ghost use Rattle.spf_ast.specs.Spelling.{name_at, vocabulary};
ghost use Rattle.spf_print_forms.specs.Canonical.{line, names_text, carried_text};
ghost use Rattle.spf_print_forms.specs.Canonical.{deeper as deeper_of, op_sign as op_sign_of};
ghost use Rattle.spf_print_forms.specs.Canonical.{test_sign as test_sign_of};
ghost use Rattle.spf_print_forms.specs.Printing.{vocabulary_of};

use crate::expressions::level;
use spf_ast::syntax::{Array, Function, Name, Op, Program, Test};
use std::alloc::{AllocError, Global};

/// The level of `||`.
pub const EITHER_LEVEL: u32 = 1;

/// The level of `&&`.
pub const BOTH_LEVEL: u32 = 2;

/// The level of a comparison.
pub const COMPARISON_LEVEL: u32 = 3;

/// The level of a sign before its operand.
pub const UNARY_LEVEL: u32 = 10;

/// The level of an operand.
pub const OPERAND_LEVEL: u32 = 11;

/// The names that the numbers of a form stand for: those of the arrays, of the functions, and of
/// its own slots.
#[derive(Clone, Copy)]
pub struct Names<'a> {
    pub arrays: &'a [Array],
    pub functions: &'a [Function],
    pub slots: &'a [Name],
}

/// Returns the name of an array, or no bytes where there is no such array.
pub fn array_name(arrays: &[Array], index: u32) -> &[u8]
    ensures { result.now ≡ name_at (map (λ a. seen_name a.name) arrays.now) index }
{
    match arrays.get(index as usize) {
        Some(array) => &array.name.bytes,
        None => &[],
    }
}

/// Returns the name of a function, or no bytes where there is no such function.
pub fn function_name(functions: &[Function], index: u32) -> &[u8]
    ensures { result.now ≡ name_at (map (λ f. seen_name f.name) functions.now) index }
{
    match functions.get(index as usize) {
        Some(function) => &function.name.bytes,
        None => &[],
    }
}

/// Returns the name of a slot, or no bytes where there is no such slot.
pub fn slot_name(slots: &[Name], index: u32) -> &[u8]
    ensures { result.now ≡ name_at (map seen_name slots.now) index }
{
    match slots.get(index as usize) {
        Some(name) => &name.bytes,
        None => &[],
    }
}

/// Adds the names of slots, with a comma and a space between two.
fn push_slots(text: &mut Vec<u8>, names: &[Name], slots: &[u32]) -> Result<(), AllocError>
    ensures { IfOk result (λ _. text.new.items ≡ text.old.items
        ++ names_text (map (name_at (map seen_name names.now)) slots.now)) }
{
    if let Some((first, others)) = slots.split_first() {
        push(text, slot_name(names, *first))?;
        for other in others {
            push(text, b", ")?;
            push(text, slot_name(names, *other))?;
        }
    }
    Ok(())
}

/// Adds the names of a row's slots, in parentheses where it has several parts.
pub fn push_carried(text: &mut Vec<u8>, names: &[Name], slots: &[u32]) -> Result<(), AllocError>
    ensures { IfOk result (λ _. text.new.items ≡ text.old.items
        ++ carried_text (map (name_at (map seen_name names.now)) slots.now)) }
{
    if slots.len() > 1 {
        push(text, b"(")?;
        push_slots(text, names, slots)?;
        push(text, b")")
    } else {
        push_slots(text, names, slots)
    }
}

/// Returns how an operator is written.
pub fn op_sign(op: Op) -> &'static [u8]
    ensures { result.now ≡ op_sign_of op }
{
    match op {
        Op::Add => b" + ",
        Op::Sub => b" - ",
        Op::Mul => b" * ",
        Op::Div => b" / ",
        Op::Rem => b" % ",
        Op::And => b" & ",
        Op::Or => b" | ",
        Op::Xor => b" ^ ",
        Op::Shl => b" << ",
        Op::Shr => b" >> ",
    }
}

/// Returns how a comparison is written.
pub fn test_sign(test: Test) -> &'static [u8]
    ensures { result.now ≡ test_sign_of test }
{
    match test {
        Test::Eq => b" == ",
        Test::Ne => b" != ",
        Test::Lt => b" < ",
        Test::Le => b" <= ",
        Test::Gt => b" > ",
        Test::Ge => b" >= ",
    }
}

/// Adds bytes to a text.
pub fn push(text: &mut Vec<u8>, bytes: &[u8]) -> Result<(), AllocError>
    ensures { IfOk result (λ _. text.new.items ≡ text.old.items ++ bytes.now) }
{
    text.extend_from_slice(bytes)
}

/// Adds a number.
pub fn push_number(alloc: Global, text: &mut Vec<u8>, number: i64) -> Result<(), AllocError>
    ensures { IfOk result (λ _. text.new.items ≡ text.old.items ++ signed_decimal number) }
{
    let digits = format!(in alloc; "{number}")?;
    push(text, digits.as_bytes())
}

/// Adds a number without a sign.
pub fn push_count(alloc: Global, text: &mut Vec<u8>, number: u64) -> Result<(), AllocError>
    ensures { IfOk result (λ _. text.new.items ≡ text.old.items ++ decimal number) }
{
    let digits = format!(in alloc; "{number}")?;
    push(text, digits.as_bytes())
}

/// Returns the indentation of a block's statements, where its own is this.
pub fn deeper(alloc: Global, indent: &[u8]) -> Result<Vec<u8>, AllocError>
    ensures { IfOk result (λ inner. inner.items ≡ deeper_of indent.now) }
{
    let mut inner = indent.to_vec(alloc)?;
    inner.extend_from_slice(b"  ")?;
    Ok(inner)
}

/// Adds the line that ends a block.
pub fn push_close(text: &mut Vec<u8>, indent: &[u8]) -> Result<(), AllocError>
    ensures { IfOk result
        (λ _. text.new.items ≡ text.old.items ++ line indent.now (codes "}" ∷ [])) }
{
    push(text, indent)?;
    push(text, b"}\n")
}

/// Adds the line between the two blocks of an `if`.
pub fn push_else(text: &mut Vec<u8>, indent: &[u8]) -> Result<(), AllocError>
    ensures { IfOk result
        (λ _. text.new.items ≡ text.old.items ++ line indent.now (codes "} else {" ∷ [])) }
{
    push(text, indent)?;
    push(text, b"} else {\n")
}

/// Adds a name.
pub fn push_name(text: &mut Vec<u8>, name: &Name) -> Result<(), AllocError>
    ensures { IfOk result (λ _. text.new.items ≡ text.old.items ++ seen_name name.now) }
{
    push(text, &name.bytes)
}

/// Returns the names that the numbers of a form in this program stand for, whose slots have these
/// names.
pub fn names_of<'a>(program: &'a Program, slots: &'a [Name]) -> Names<'a>
    ensures { vocabulary_of result
        ≡ vocabulary (seen_program program.now) (map seen_name slots.now) }
{
    Names {
        arrays: &program.arrays,
        functions: &program.functions,
        slots,
    }
}
