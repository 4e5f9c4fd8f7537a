//! Lowering of functions.

ghost use Rattle.std.specs.Prelude.{◌≡◌, ◌≤◌, ℕ, length, map, IfOk};
ghost use Rattle.spf_ast.specs.View.{function as seen_function};
ghost use Rattle.spf_code_lowering.specs.Adding.{LowersFunction};
ghost use Rattle.spf_code_lowering.specs.Lowering.{AreCodesOf};
ghost use Rattle.spf_code_lowering.specs.Tables.{AreEmpty, HaveNoTables};

use crate::expression::{Scope, end_list, hold};
use crate::statement::block;
use spf_ast::syntax::Function;
use spf_code::function::{FunctionCode, Tables};
use std::alloc::{AllocError, Global};

/// How many slots a function has.
fn slot_count(source: &Function) -> Result<u32, AllocError>
    ensures { IfOk result (λ count. count ≡ length (seen_function source.now).slots) }
{
    if source.slots.len() > u32::MAX as usize {
        return Err(AllocError);
    }
    Ok(source.slots.len() as u32)
}

/// Lowers a function that may call those before this index among these, whose code is given.
pub fn function(
    alloc: Global,
    functions: &[Function],
    codes: &[FunctionCode],
    index: usize,
    source: &Function,
) -> Result<FunctionCode, AllocError>
    requires all { index ≤ length codes.now }
    requires codes { (calls : ℕ → ℕ) → AreCodesOf (map seen_function functions.now) calls
        codes.now }
    ensures slots { IfOk result (λ f. f.slots ≡ length (seen_function source.now).slots) }
    ensures code { (calls : ℕ → ℕ) → IfOk result (LowersFunction functions.now index source.now
        calls) }
    ensures tables { IfOk result (λ f. AreEmpty f.tables) }
{
    let own = slot_count(source)?;
    let scope = Scope {
        alloc,
        functions,
        codes,
        below: index,
        own,
    };
    let mut made = block(&scope, &source.body)?;
    let held = hold(&scope, source.answer_line, own, &source.answer, &mut made)?;
    let code = end_list(made)?;
    Ok(FunctionCode {
        slots: own,
        code,
        register: held.register,
        tables: Tables {
            one: Vec::new(alloc),
            two: Vec::new(alloc),
        },
    })
}

/// Lowers functions, each of which may call those before it.
///
/// # Errors
///
/// `AllocError` where there is no memory for it.
pub fn functions(alloc: Global, sources: &[Function]) -> Result<Vec<FunctionCode>, AllocError>
    ensures count { IfOk result (λ codes. length codes.items ≡ length sources.now) }
    ensures codes { (calls : ℕ → ℕ) → IfOk result
        (λ codes. AreCodesOf (map seen_function sources.now) calls codes.items) }
    ensures tables { IfOk result (λ codes. HaveNoTables codes.items) }
{
    let mut codes = Vec::new(alloc);
    for index in 0..sources.len() {
        let code = function(alloc, sources, codes.as_slice(), index, &sources[index])?;
        codes.push(code)?;
    }
    Ok(codes)
}
