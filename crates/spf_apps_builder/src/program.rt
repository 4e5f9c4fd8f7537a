//! Functions and programs.
ghost use Rattle.std.specs.Prelude.{◌≡◌, ℕ, [], ◌∷◌, List, map, IfOk};
ghost use Rattle.spf_ast.specs.Syntax.{Block, Array as ArrayForm, Function as FunctionForm};
ghost use Rattle.spf_ast.specs.View.{block, name as seen_name, array as seen_array};
ghost use Rattle.spf_ast.specs.View.{function as seen_function, program as seen_program};
ghost use Rattle.spf_apps_builder.specs.Built.{function_form, program_form};

use spf_ast::syntax::{Array, Expr, Function, Name, Program, Stmt};
use std::alloc::{AllocError, Global};

/// The numbers of a function: its line, how many parameters it has, the slot with its answer, and
/// the line that says so.
#[derive(Clone, Copy)]
pub struct Signature {
    pub line: u32,
    pub params: u32,
    pub answer: u32,
    pub answer_line: u32,
}

/// Builds a function.
pub fn function(
    signature: Signature,
    name: Result<Name, AllocError>,
    slots: Result<Vec<Name>, AllocError>,
    body: Result<Vec<Stmt>, AllocError>,
) -> Result<Function, AllocError>
    ensures { (n : List ℕ) (s : List (List ℕ)) (b : Block) → IfOk name (λ x. seen_name x ≡ n)
        → IfOk slots (λ v. map seen_name v.items ≡ s) → IfOk body (λ v. block v.items ≡ b)
        → IfOk result (λ f. seen_function f ≡ function_form signature n s b) }
{
    let name = name?;
    let slots = slots?;
    Ok(Function {
        name,
        params: signature.params,
        slots,
        body: body?,
        answer: Expr::Local(signature.answer),
        answer_line: signature.answer_line,
        line: signature.line,
    })
}

/// Builds a list of one array.
pub fn one_array(alloc: Global, first: Result<Array, AllocError>) -> Result<Vec<Array>, AllocError>
    ensures { (a : ArrayForm) → IfOk first (λ x. seen_array x ≡ a)
        → IfOk result (λ v. map seen_array v.items ≡ a ∷ []) }
{
    Ok(vec![in alloc; first?]?)
}

/// Builds a list of two arrays.
pub fn two_arrays(
    alloc: Global,
    first: Result<Array, AllocError>,
    second: Result<Array, AllocError>,
) -> Result<Vec<Array>, AllocError>
    ensures { (a b : ArrayForm) → IfOk first (λ x. seen_array x ≡ a)
        → IfOk second (λ x. seen_array x ≡ b)
        → IfOk result (λ v. map seen_array v.items ≡ a ∷ b ∷ []) }
{
    let first = first?;
    Ok(vec![in alloc; first, second?]?)
}

/// Builds a list of one function.
pub fn one_function(
    alloc: Global,
    first: Result<Function, AllocError>,
) -> Result<Vec<Function>, AllocError>
    ensures { (a : FunctionForm) → IfOk first (λ x. seen_function x ≡ a)
        → IfOk result (λ v. map seen_function v.items ≡ a ∷ []) }
{
    Ok(vec![in alloc; first?]?)
}

/// Builds a list of two functions.
pub fn two_functions(
    alloc: Global,
    first: Result<Function, AllocError>,
    second: Result<Function, AllocError>,
) -> Result<Vec<Function>, AllocError>
    ensures { (a b : FunctionForm) → IfOk first (λ x. seen_function x ≡ a)
        → IfOk second (λ x. seen_function x ≡ b)
        → IfOk result (λ v. map seen_function v.items ≡ a ∷ b ∷ []) }
{
    let first = first?;
    Ok(vec![in alloc; first, second?]?)
}

/// Builds a program in this version of the language.
pub fn program(
    version: u32,
    arrays: Result<Vec<Array>, AllocError>,
    functions: Result<Vec<Function>, AllocError>,
    slots: Result<Vec<Name>, AllocError>,
    main: Result<Vec<Stmt>, AllocError>,
) -> Result<Program, AllocError>
    ensures { (a : List ArrayForm) (f : List FunctionForm) (s : List (List ℕ)) (b : Block)
        → IfOk arrays (λ v. map seen_array v.items ≡ a)
        → IfOk functions (λ v. map seen_function v.items ≡ f)
        → IfOk slots (λ v. map seen_name v.items ≡ s) → IfOk main (λ v. block v.items ≡ b)
        → IfOk result (λ p. seen_program p ≡ program_form version a f s b) }
{
    let arrays = arrays?;
    let functions = functions?;
    let slots = slots?;
    Ok(Program {
        version,
        arrays,
        functions,
        slots,
        main: main?,
    })
}
