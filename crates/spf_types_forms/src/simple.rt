//! Statements without blocks.

ghost use Rattle.std.specs.Prelude.{◌≡◌, IfOk};
ghost use Rattle.spf_ast.specs.View.{name as seen_name};
ghost use Rattle.spf_ast.specs.RawView.{raw_expression, raw_arguments};
ghost use Rattle.spf_ast.specs.RawSyntax as raw_form;
ghost use Rattle.spf_types_names.specs.HereView.{setting};
ghost use Rattle.spf_types_names.specs.Resolved.{after_statement};
ghost use Rattle.spf_types_forms.specs.Resolving.{AnswersStatement, raw_assign, raw_fill};
ghost use Rattle.spf_types_forms.specs.Resolving.{raw_let, raw_store};

use crate::expression::{boxed_expression, number, numbers};
use spf_ast::raw::RawExpr;
use spf_ast::syntax::{Name, StmtKind};
use spf_types_names::fault::{TypeError, TypeFault};
use spf_types_names::locals::LocalTable;
use spf_types_names::names::{
    Here, array_indexed, declarable, function_called, leaves_loop, slot_assigned,
};

/// Resolves a `let`.
pub(crate) fn declaration<'a>(
    here: &Here<'_, 'a>,
    locals: &mut LocalTable<'a>,
    line: u32,
    name: &'a Name,
    value: &'a RawExpr,
) -> Result<StmtKind, TypeError>
    ensures answers { AnswersStatement (setting here.now) locals.old line
        (raw_let name.now value.now) result }
    ensures after { IfOk result (λ _. locals.new
        ≡ after_statement locals.old
        (raw_let name.now value.now)) }
{
    declarable(here, locals, line, name)?;
    let value = boxed_expression(here, locals, line, value)?;
    let slot = locals.declare(here.alloc, name)?;
    locals.show(name, slot, false)?;
    Ok(StmtKind::Let(slot, Box::into_inner(value)))
}

/// Resolves an assignment.
pub(crate) fn assignment<'a>(
    here: &Here<'_, 'a>,
    locals: &LocalTable<'a>,
    line: u32,
    name: &'a Name,
    value: &'a RawExpr,
) -> Result<StmtKind, TypeError>
    ensures { AnswersStatement (setting here.now) locals.now line (raw_assign name.now value.now)
        result }
{
    let slot = slot_assigned(here, locals, line, name)?;
    let value = number(here, locals, line, value)?;
    Ok(StmtKind::Assign(slot, value))
}

/// Resolves a store.
pub(crate) fn store<'a>(
    here: &Here<'_, 'a>,
    locals: &LocalTable<'a>,
    line: u32,
    name: &'a Name,
    index: &'a RawExpr,
    value: &'a RawExpr,
) -> Result<StmtKind, TypeError>
    ensures { AnswersStatement (setting here.now) locals.now line
        (raw_store name.now index.now value.now) result }
{
    let array = array_indexed(here, locals, line, name)?;
    let index = boxed_expression(here, locals, line, index)?;
    let value = number(here, locals, line, value)?;
    Ok(StmtKind::Store(array, Box::into_inner(index), value))
}

/// Resolves a `fill`.
pub(crate) fn fill<'a>(
    here: &Here<'_, 'a>,
    locals: &LocalTable<'a>,
    line: u32,
    name: &'a Name,
    low: &'a RawExpr,
    high: &'a RawExpr,
    value: &'a RawExpr,
) -> Result<StmtKind, TypeError>
    ensures { AnswersStatement (setting here.now) locals.now line
        (raw_fill name.now low.now high.now value.now) result }
{
    let array = array_indexed(here, locals, line, name)?;
    let low = boxed_expression(here, locals, line, low)?;
    let high = boxed_expression(here, locals, line, high)?;
    let value = number(here, locals, line, value)?;
    Ok(StmtKind::Fill(array, Box::into_inner(low), Box::into_inner(high), value))
}

/// Resolves an `emit`.
pub(crate) fn emission<'a>(
    here: &Here<'_, 'a>,
    locals: &LocalTable<'a>,
    line: u32,
    value: &'a RawExpr,
) -> Result<StmtKind, TypeError>
    ensures { AnswersStatement (setting here.now) locals.now line
        (raw_form.Emit (raw_expression value.now)) result }
{
    if !here.in_main {
        let fault = TypeFault::Misplaced;
        return Err(TypeError::Refused { fault, line });
    }
    let value = number(here, locals, line, value)?;
    Ok(StmtKind::Emit(value))
}

/// Resolves a `fail`.
pub(crate) fn failure<'a>(
    here: &Here<'_, 'a>,
    locals: &LocalTable<'a>,
    line: u32,
    number: i64,
) -> Result<StmtKind, TypeError>
    ensures { AnswersStatement (setting here.now) locals.now line (raw_form.Fail number) result }
{
    match u8::try_from(number) {
        Ok(number) => Ok(StmtKind::Fail(number)),
        Err(_) => {
            let fault = TypeFault::Kind;
            Err(TypeError::Refused { fault, line })
        }
    }
}

/// Resolves a `break`.
pub(crate) fn departure<'a>(
    here: &Here<'_, 'a>,
    locals: &LocalTable<'a>,
    line: u32,
) -> Result<StmtKind, TypeError>
    ensures { AnswersStatement (setting here.now) locals.now line raw_form.Break result }
{
    leaves_loop(here, line)?;
    Ok(StmtKind::Break)
}

#[tactic(auto, using(crate::proofs::Arguments::count_of_raw))]
/// Resolves a call whose answer is dropped.
pub(crate) fn call<'a>(
    here: &Here<'_, 'a>,
    locals: &LocalTable<'a>,
    line: u32,
    name: &'a Name,
    given: &'a [RawExpr],
) -> Result<StmtKind, TypeError>
    ensures { AnswersStatement (setting here.now) locals.now line
        (raw_form.Do (seen_name name.now) (raw_arguments given.now)) result }
{
    let function = function_called(here, locals, line, name, given.len())?;
    let arguments = numbers(here, locals, line, given)?;
    Ok(StmtKind::Call(function, arguments))
}
