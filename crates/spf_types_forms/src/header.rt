//! What stands before the parts of a construct.

ghost use Rattle.std.specs.Prelude.{◌≡◌, IfOk, None, length};
ghost use Rattle.spf_ast.specs.RawView.{raw_fold_head, raw_pair_head};
ghost use Rattle.spf_types_names.specs.HereView.{setting};
ghost use Rattle.spf_types_names.specs.Locals.{binding_of, AreNew};
ghost use Rattle.spf_types_names.specs.Faults.{each_declared_faults, names_faults};
ghost use Rattle.spf_types_names.specs.Faults.{fold_widths_faults, pair_widths_faults};
ghost use Rattle.spf_types_names.specs.Resolved.{scope, block_slot};
ghost use Rattle.spf_types_forms.specs.Resolving.{AnswersGuesses, AnswersHeader, BlockIsNew};
ghost use Rattle.spf_types_forms.specs.Resolving.{HasSlots, Tests, names_of_fold, with_slots};

use crate::expression::{boxed_expression, numbers, predictors};
use spf_ast::raw::{RawFold, RawPair};
use spf_ast::syntax::{Expr, Predict};
use spf_types_names::fault::TypeError;
use spf_types_names::locals::{LocalTable, row_slots};
use spf_types_names::names::{Here, declarable, declared_each, same_width};

/// The slots of a fold, its start, the ends of its range, and its predictors.
#[derive(Drop)]
pub(crate) struct Header {
    pub first: u32,
    pub carried: Vec<u32>,
    pub block: u32,
    pub start: Vec<Expr>,
    pub low: Box<Expr>,
    pub high: Box<Expr>,
    pub predict: Vec<Predict>,
}

/// Declares the names of a fold, which may not be used yet, and gives the slot of its block name.
fn new_names<'a>(
    here: &Here<'_, 'a>,
    locals: &mut LocalTable<'a>,
    line: u32,
    raw: &'a RawFold,
) -> Result<u32, TypeError>
    ensures answers { Tests
        (names_faults (setting here.now) (scope locals.old.locals) line (raw_fold_head raw.now))
        result }
    ensures slot { IfOk result
        (λ n. n ≡ block_slot (length locals.old.slots) (raw_fold_head raw.now)) }
    ensures after { IfOk result (λ _. locals.new
        ≡ with_slots locals.old (names_of_fold (raw_fold_head raw.now))) }
    ensures carried { IfOk result (λ _. AreNew locals.old.locals (raw_fold_head raw.now).carried) }
    ensures block { IfOk result (λ _. BlockIsNew locals.old.locals (raw_fold_head raw.now)) }
{
    let count = locals.count();
    declared_each(here, locals, line, &raw.carried)?;
    declarable(here, locals, line, &raw.block)?;
    let block = locals.declare(here.alloc, &raw.block)?;
    locals.close(count);
    Ok(block)
}

#[tactic(auto, using(crate::proofs::Arguments::count_of_raw))]
/// Tests that the lists of a fold's parts are as long as its names.
fn fold_widths(line: u32, raw: &RawFold) -> Result<(), TypeError>
    ensures { Tests (fold_widths_faults line (raw_fold_head raw.now)) result }
{
    let width = raw.carried.len();
    same_width(line, width, raw.start.len())?;
    same_width(line, width, raw.predict.len())?;
    same_width(line, width, raw.next.len())?;
    Ok(())
}

/// Resolves the predictors of a fold, in which its block number may be used.
fn guess<'a>(
    here: &Here<'_, 'a>,
    locals: &mut LocalTable<'a>,
    line: u32,
    raw: &'a RawFold,
    block: u32,
) -> Result<Vec<Predict>, TypeError>
    requires { binding_of locals.old.locals (raw_fold_head raw.now).block ≡ None }
    ensures answers { AnswersGuesses (setting here.now) locals.old line (raw_fold_head raw.now)
        block result }
    ensures after { IfOk result (λ _. locals.new ≡ locals.old) }
{
    let count = locals.count();
    locals.show(&raw.block, block, true)?;
    let predict = predictors(here, locals, line, &raw.predict)?;
    locals.close(count);
    Ok(predict)
}

/// Resolves what stands before the body of a fold, whose slots are then declared.
pub(crate) fn header_of<'a>(
    here: &Here<'_, 'a>,
    locals: &mut LocalTable<'a>,
    line: u32,
    raw: &'a RawFold,
) -> Result<Header, TypeError>
    ensures answers { AnswersHeader (setting here.now) locals.old line (raw_fold_head raw.now)
        result }
    ensures slots { IfOk result
        (λ h. HasSlots h (length locals.old.slots) (raw_fold_head raw.now)) }
    ensures after { IfOk result (λ _. locals.new
        ≡ with_slots locals.old (names_of_fold (raw_fold_head raw.now))) }
    ensures carried { IfOk result (λ _. AreNew locals.old.locals (raw_fold_head raw.now).carried) }
    ensures block { IfOk result (λ _. BlockIsNew locals.old.locals (raw_fold_head raw.now)) }
{
    let first = locals.next_slot()?;
    let block = new_names(here, locals, line, raw)?;
    fold_widths(line, raw)?;
    let start = numbers(here, locals, line, &raw.start)?;
    let low = boxed_expression(here, locals, line, &raw.low)?;
    let high = boxed_expression(here, locals, line, &raw.high)?;
    let predict = guess(here, locals, line, raw, block)?;
    let carried = row_slots(here.alloc, first, &raw.carried)?;
    Ok(Header {
        first,
        carried,
        block,
        start,
        low,
        high,
        predict,
    })
}

/// Declares the names of a pair, which may not be used yet.
pub(crate) fn pair_names<'a>(
    here: &Here<'_, 'a>,
    locals: &mut LocalTable<'a>,
    line: u32,
    raw: &'a RawPair,
) -> Result<(), TypeError>
    ensures answers { Tests
        (each_declared_faults (setting here.now) (scope locals.old.locals) line
        (raw_pair_head raw.now).carried) result }
    ensures after { IfOk result (λ _. locals.new
        ≡ with_slots locals.old (raw_pair_head raw.now).carried) }
    ensures new { IfOk result (λ _. AreNew locals.old.locals (raw_pair_head raw.now).carried) }
{
    let count = locals.count();
    declared_each(here, locals, line, &raw.carried)?;
    locals.close(count);
    Ok(())
}

#[tactic(auto, using(crate::proofs::Arguments::count_of_raw))]
/// Tests that the lists of a pair's parts are as long as its names.
pub(crate) fn pair_widths(line: u32, raw: &RawPair) -> Result<(), TypeError>
    ensures { Tests (pair_widths_faults line (raw_pair_head raw.now)) result }
{
    let width = raw.carried.len();
    same_width(line, width, raw.give.len())?;
    same_width(line, width, raw.predict.len())?;
    Ok(())
}
