//! Names that are declared or used.

ghost use Rattle.std.specs.Prelude.{◌≡◌, [], Some, None, IfOk, map, not, true, false};
ghost use Rattle.spf_ast.specs.View.{name as seen_name};
ghost use Rattle.spf_types_names.specs.HereView.{setting};
ghost use Rattle.spf_types_names.specs.Faults.{misuse as misuse_fault, declared_faults};
ghost use Rattle.spf_types_names.specs.Faults.{each_declared_faults, used_faults, assigned_faults};
ghost use Rattle.spf_types_names.specs.Faults.{indexed_faults, callee_faults, called_faults};
ghost use Rattle.spf_types_names.specs.Faults.{width_faults, when};
ghost use Rattle.spf_types_names.specs.Resolved.{scope, slot_of, index_of, after_names};
ghost use Rattle.spf_types_names.specs.Globals.{global_named};
ghost use Rattle.spf_types_names.specs.Locals.{binding_of, AreNew};
ghost use Rattle.spf_types_names.specs.declared.globals.Outer.TheVariants.{Function};
ghost use Rattle.spf_types_names.specs.declared.fault.TypeFault.TheVariants.{MisplacedBreak};
ghost use Rattle.spf_types_names.specs.Answers.{Answers};

use crate::fault::{TypeError, TypeFault};
use crate::globals::{GlobalTable, Outer};
use crate::locals::LocalTable;
use spf_ast::syntax::Name;
use std::alloc::Global;

/// Where a form stands: what is visible in the whole program, before which index functions may be
/// called, and whether it is in `main` and in a loop.
#[derive(Clone, Copy)]
pub struct Here<'s, 'a> {
    pub alloc: Global,
    pub globals: &'s GlobalTable<'a>,
    pub index: usize,
    pub in_main: bool,
    pub in_loop: bool,
}

impl<'s, 'a> Here<'s, 'a> {
    /// The body of a loop there.
    pub fn in_turn(&self) -> Here<'s, 'a>
        ensures { result ≡ record self.now { in_loop = true } }
    {
        Here {
            alloc: self.alloc,
            globals: self.globals,
            index: self.index,
            in_main: self.in_main,
            in_loop: true,
        }
    }

    /// A part of a construct there.
    pub fn in_part(&self) -> Here<'s, 'a>
        ensures { result ≡ record self.now { in_loop = false } }
    {
        Here {
            alloc: self.alloc,
            globals: self.globals,
            index: self.index,
            in_main: self.in_main,
            in_loop: false,
        }
    }
}

#[tactic(auto, using(crate::proofs::Scopes::scopes))]
/// What is wrong with a name that isn't what is wanted.
pub(crate) fn misuse<'a>(here: &Here<'_, 'a>, locals: &LocalTable<'a>, name: &'a Name) -> TypeFault
    ensures { result
        ≡ misuse_fault (setting here.now) (scope locals.now.locals) (seen_name name.now) }
{
    if locals.find(name).is_some() || here.globals.find(name).is_some() {
        TypeFault::Kind
    } else {
        TypeFault::UnknownName
    }
}

#[tactic(auto, using(crate::proofs::Scopes::scopes))]
/// Tests that a name may be declared.
pub fn declarable<'a>(
    here: &Here<'_, 'a>,
    locals: &LocalTable<'a>,
    line: u32,
    name: &'a Name,
) -> Result<(), TypeError>
    ensures answers { Answers
        (declared_faults (setting here.now) (scope locals.now.locals) line (seen_name name.now))
        (λ _. tt {0}) (tt {0}) result }
    ensures new { IfOk result (λ _. binding_of locals.now.locals (seen_name name.now) ≡ None) }
{
    if locals.find(name).is_some() || here.globals.find(name).is_some() {
        let fault = TypeFault::Twice;
        return Err(TypeError::Refused { fault, line });
    }
    Ok(())
}

/// Declares names from left to right, each where the ones before it may be used.
pub fn declared_each<'a>(
    here: &Here<'_, 'a>,
    locals: &mut LocalTable<'a>,
    line: u32,
    raw: &'a [Name],
) -> Result<(), TypeError>
    ensures answers { Answers (each_declared_faults (setting here.now) (scope locals.old.locals)
        line (map seen_name raw.now)) (λ _. tt {0}) (tt {0}) result }
    ensures after { IfOk result (λ _. locals.new ≡ after_names locals.old (map seen_name raw.now)) }
    ensures new { IfOk result (λ _. AreNew locals.old.locals (map seen_name raw.now)) }
{
    for name in raw {
        declarable(here, locals, line, name)?;
        let slot = locals.declare(here.alloc, name)?;
        locals.show(name, slot, false)?;
    }
    Ok(())
}

/// Tests that a list of a construct's parts is as long as its names.
pub fn same_width(line: u32, width: usize, count: usize) -> Result<(), TypeError>
    ensures { Answers (width_faults line width count) (λ _. tt {0}) (tt {0}) result }
{
    if count != width {
        let fault = TypeFault::Arity;
        return Err(TypeError::Refused { fault, line });
    }
    Ok(())
}

/// Tests that a `break` is in a loop.
pub fn leaves_loop<'a>(here: &Here<'_, 'a>, line: u32) -> Result<(), TypeError>
    ensures { Answers (when (not here.now.in_loop) MisplacedBreak line) (λ _. tt {0}) (tt {0})
        result }
{
    if !here.in_loop {
        let fault = TypeFault::MisplacedBreak;
        return Err(TypeError::Refused { fault, line });
    }
    Ok(())
}

#[tactic(auto, using(crate::proofs::Scopes::scopes))]
/// Returns the slot of a local that is used as a number.
pub fn slot_used<'a>(
    here: &Here<'_, 'a>,
    locals: &LocalTable<'a>,
    line: u32,
    name: &'a Name,
) -> Result<u32, TypeError>
    ensures { Answers
        (used_faults (setting here.now) (scope locals.now.locals) line (seen_name name.now))
        (λ n. n) (slot_of locals.now.locals (seen_name name.now)) result }
{
    match locals.find(name) {
        Some(binding) => Ok(binding.slot),
        None => {
            let fault = misuse(here, locals, name);
            Err(TypeError::Refused { fault, line })
        }
    }
}

#[tactic(auto, using(crate::proofs::Scopes::scopes))]
/// Returns the slot of a local that is assigned.
pub fn slot_assigned<'a>(
    here: &Here<'_, 'a>,
    locals: &LocalTable<'a>,
    line: u32,
    name: &'a Name,
) -> Result<u32, TypeError>
    ensures { Answers
        (assigned_faults (setting here.now) (scope locals.now.locals) line (seen_name name.now))
        (λ n. n) (slot_of locals.now.locals (seen_name name.now)) result }
{
    match locals.find(name) {
        Some(binding) => {
            if binding.fixed {
                let fault = TypeFault::Kind;
                return Err(TypeError::Refused { fault, line });
            }
            Ok(binding.slot)
        }
        None => {
            let fault = misuse(here, locals, name);
            Err(TypeError::Refused { fault, line })
        }
    }
}

/// Returns the index of an array that is indexed.
pub fn array_indexed<'a>(
    here: &Here<'_, 'a>,
    locals: &LocalTable<'a>,
    line: u32,
    name: &'a Name,
) -> Result<u32, TypeError>
    ensures { Answers
        (indexed_faults (setting here.now) (scope locals.now.locals) line (seen_name name.now))
        (λ n. n) (index_of here.now.globals.now (seen_name name.now)) result }
{
    match here.globals.find(name) {
        Some(Outer::Array(index)) => Ok(index),
        _ => {
            let fault = misuse(here, locals, name);
            Err(TypeError::Refused { fault, line })
        }
    }
}

/// Returns the index of a function that has `count` parameters.
pub fn callee<'a>(
    here: &Here<'_, 'a>,
    locals: &LocalTable<'a>,
    line: u32,
    name: &'a Name,
    count: usize,
) -> Result<u32, TypeError>
    ensures answers { Answers
        (callee_faults (setting here.now) (scope locals.now.locals) line (seen_name name.now) count)
        (λ n. n) (index_of here.now.globals.now (seen_name name.now)) result }
    ensures known { IfOk result
        (λ n. global_named here.now.globals.now (seen_name name.now) ≡ Some (Function n)) }
{
    match here.globals.find(name) {
        Some(Outer::Function(index)) => {
            if count != here.globals.params(index) {
                let fault = TypeFault::Arity;
                return Err(TypeError::Refused { fault, line });
            }
            Ok(index)
        }
        _ => {
            let fault = misuse(here, locals, name);
            Err(TypeError::Refused { fault, line })
        }
    }
}

/// Returns the index of a function that is called with `count` arguments.
pub fn function_called<'a>(
    here: &Here<'_, 'a>,
    locals: &LocalTable<'a>,
    line: u32,
    name: &'a Name,
    count: usize,
) -> Result<u32, TypeError>
    ensures { Answers (called_faults (setting here.now) (scope locals.now.locals) line
        (seen_name name.now) count []) (λ n. n) (index_of here.now.globals.now (seen_name name.now))
        result }
{
    let index = callee(here, locals, line, name, count)?;
    if index as usize >= here.index {
        let fault = TypeFault::CallsLater;
        return Err(TypeError::Refused { fault, line });
    }
    Ok(index)
}
