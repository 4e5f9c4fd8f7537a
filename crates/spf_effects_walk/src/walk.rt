//! The walk over expressions, conditions, statements and calls, which lead to each other.
ghost use Rattle.std.specs.Prelude.{◌≡◌, ◌<◌, Some, map, IfOk, OnOk, slice_get, List, []};
ghost use Rattle.spf_ast.specs.declared.syntax.Fold.{out-Fold};
ghost use Rattle.spf_ast.specs.declared.syntax.Pair.{out-Pair};
ghost use Rattle.spf_ast.specs.Syntax.{Call as call_form, Fill as fill_form, If as if_form};
ghost use Rattle.spf_ast.specs.Syntax.{While as while_form, Fold as fold_form, Pair as pair_form};
ghost use Rattle.spf_ast.specs.View.{expression as seen_expression, arguments as seen_arguments};
ghost use Rattle.spf_ast.specs.View.{condition as seen_condition, statement as seen_statement};
ghost use Rattle.spf_ast.specs.View.{block as seen_block, fold_head, pair_head};
ghost use Rattle.spf_ast.specs.View.{function as seen_function};
ghost use Rattle.spf_effects_findings.specs.Extends.{Extends};
ghost use Rattle.spf_effects_findings.specs.Found.{◌then◌, either, perhaps, turns, turn_bound};
ghost use Rattle.spf_effects_findings.specs.Forms.{expression_bound, expression_finds};
ghost use Rattle.spf_effects_findings.specs.Forms.{argument_bounds, arguments_find};
ghost use Rattle.spf_effects_findings.specs.Forms.{condition_finds, statement_finds, block_finds};
ghost use Rattle.spf_effects_findings.specs.Forms.{block_then, block_then_row, bounds_behind};
ghost use Rattle.spf_effects_findings.specs.Forms.{bounds_at_end, declared, loop_sweeps};
ghost use Rattle.spf_effects_findings.specs.Parts.{call_before, entered};
ghost use Rattle.spf_effects_walk.specs.Settings.{setting};

use crate::bounds::{binary_bound, has_no_turn, turn_bound};
use crate::context::{Context, bound_of, callee, declare, own_bounds};
use crate::slot_sets::slots_in;
use crate::sweeps::sweep;
use spf_ast::syntax::{Cond, Expr, Fold, Function, Pair, Stmt, StmtKind};
use spf_effects_findings::findings::Findings;
use spf_region::bound::Bound;
use std::alloc::{AllocError, Global};

/// What is known of a byte of the input.
const BYTE: Bound = Bound::Known {
    factor: 0,
    low: 0,
    high: 255,
};

/// Examines an expression, and gives its bound.
#[cycle(walk)]
pub fn expression(
    context: &Context,
    bounds: &[Bound],
    expr: &Expr,
    found: &mut Findings,
) -> Result<Bound, AllocError>
    ensures bound { IfOk result (λ b.
        b ≡ expression_bound (setting context.now) bounds.now (seen_expression expr.now)) }
    ensures finds { OnOk result (Extends
        (expression_finds (setting context.now) bounds.now (seen_expression expr.now))
        found.old found.new) }
{
    match expr {
        Expr::Number(n) => Ok(Bound::number(*n)),
        Expr::Local(slot) => Ok(bound_of(bounds, *slot)),
        Expr::Len => Ok(Bound::Unknown),
        Expr::Input(index) => {
            expression(context, bounds, index, found)?;
            Ok(BYTE)
        }
        Expr::Load(array, index) => {
            let index = expression(context, bounds, index, found)?;
            found.read_element(context.alloc, *array, index)?;
            Ok(Bound::Unknown)
        }
        Expr::Call(function, given) => call(context, bounds, *function, given, found),
        Expr::Neg(inner) => {
            let inner = expression(context, bounds, inner, found)?;
            Ok(inner.negate())
        }
        Expr::Binary(op, left, right) => {
            let left = expression(context, bounds, left, found)?;
            let right = expression(context, bounds, right, found)?;
            Ok(binary_bound(*op, left, right))
        }
    }
}

/// Examines arguments, and gives their bounds.
#[cycle(walk)]
fn arguments(
    context: &Context,
    bounds: &[Bound],
    given: &[Expr],
    found: &mut Findings,
) -> Result<Vec<Bound>, AllocError>
    ensures bounds { IfOk result (λ v. v.items
        ≡ argument_bounds (setting context.now) bounds.now (seen_arguments given.now)) }
    ensures finds { OnOk result (Extends
        (arguments_find (setting context.now) bounds.now (seen_arguments given.now)) found.old
        found.new) }
{
    let mut known = Vec::new(context.alloc);
    for argument in given {
        let bound = expression(context, bounds, argument, found)?;
        known.push(bound)?;
    }
    Ok(known)
}

/// Examines a call, and gives the bound of its answer.
#[cycle(walk)]
fn call(
    context: &Context,
    bounds: &[Bound],
    function: u32,
    given: &[Expr],
    found: &mut Findings,
) -> Result<Bound, AllocError>
    ensures bound { IfOk result (λ b. b
        ≡ expression_bound (setting context.now) bounds.now
        (call_form function (seen_arguments given.now))) }
    ensures finds { OnOk result (Extends (expression_finds (setting context.now) bounds.now
        (call_form function (seen_arguments given.now))) found.old found.new) }
{
    let given = arguments(context, bounds, given, found)?;
    let index = function as usize;
    match callee(context.functions, context.below, index) {
        None => Ok(Bound::Unknown),
        Some(callee) => enter(
            context.alloc,
            context.functions,
            index,
            callee,
            &given,
            found,
        ),
    }
}

/// Examines a function that is entered with arguments of these bounds, and gives the bound of its
/// answer.
#[cycle(walk)]
fn enter(
    alloc: Global,
    functions: &[Function],
    index: usize,
    function: &Function,
    given: &[Bound],
    found: &mut Findings,
) -> Result<Bound, AllocError>
    ensures bound { IfOk result (λ b. b
        ≡ (entered (call_before (map seen_function functions.now) index)
        (Some (seen_function function.now)) given.now).bound) }
    ensures finds { OnOk result (Extends (entered
        (call_before (map seen_function functions.now) index) (Some (seen_function function.now))
        given.now).finds found.old found.new) }
{
    let slots = slots_in(alloc, &function.body)?;
    let own = own_bounds(alloc, &slots.assigned, function.slots.len(), given)?;
    let context = Context {
        alloc,
        functions,
        below: index,
        assigned: &slots.assigned,
    };
    block_and(&context, &own, &function.body, &function.answer, found)
}

/// Examines a condition.
#[cycle(walk)]
fn condition(
    context: &Context,
    bounds: &[Bound],
    cond: &Cond,
    found: &mut Findings,
) -> Result<(), AllocError>
    ensures finds { OnOk result (Extends
        (condition_finds (setting context.now) bounds.now (seen_condition cond.now)) found.old
        found.new) }
{
    match cond {
        Cond::Compare(_, left, right) => {
            expression(context, bounds, left, found)?;
            expression(context, bounds, right, found)?;
            Ok(())
        }
        Cond::Both(first, second) | Cond::Either(first, second) => {
            condition(context, bounds, first, found)?;
            let before = found.surely_written(context.alloc)?;
            condition(context, bounds, second, found)?;
            found.exchange_written(before);
            Ok(())
        }
        Cond::Not(inner) => condition(context, bounds, inner, found),
    }
}

/// Examines statements one after another, and gives the bounds of the slots at their end.
#[cycle(walk)]
pub fn block(
    context: &Context,
    bounds: &[Bound],
    statements: &[Stmt],
    found: &mut Findings,
) -> Result<Vec<Bound>, AllocError>
    ensures bounds { IfOk result (λ v. v.items
        ≡ bounds_at_end (setting context.now) bounds.now (seen_block statements.now)) }
    ensures finds { OnOk result (Extends
        (block_finds (setting context.now) bounds.now (seen_block statements.now)) found.old
        found.new) }
{
    let mut known = Vec::from_slice(context.alloc, bounds)?;
    for item in statements {
        statement(context, &mut known, &item.kind, found)?;
    }
    Ok(known)
}

/// Examines statements and then an expression in which what they declare is visible, and gives its
/// bound.
#[cycle(walk)]
fn block_and(
    context: &Context,
    bounds: &[Bound],
    statements: &[Stmt],
    last: &Expr,
    found: &mut Findings,
) -> Result<Bound, AllocError>
    ensures bound { IfOk result (λ b. b
        ≡ expression_bound (setting context.now)
        (bounds_at_end (setting context.now) bounds.now (seen_block statements.now))
        (seen_expression last.now)) }
    ensures finds { OnOk result (Extends (block_then (setting context.now) bounds.now
        (seen_block statements.now) (seen_expression last.now)) found.old found.new) }
{
    let behind = block(context, bounds, statements, found)?;
    expression(context, &behind, last, found)
}

/// Examines statements and then a row in whose parts what they declare is visible.
#[cycle(walk)]
pub fn block_and_row(
    context: &Context,
    bounds: &[Bound],
    statements: &[Stmt],
    last: &[Expr],
    found: &mut Findings,
) -> Result<(), AllocError>
    ensures finds { OnOk result (Extends (block_then_row (setting context.now) bounds.now
        (seen_block statements.now) (seen_arguments last.now)) found.old found.new) }
{
    let behind = block(context, bounds, statements, found)?;
    arguments(context, &behind, last, found)?;
    Ok(())
}

/// Examines a statement, and makes the bound of a slot known that it declares.
#[cycle(walk)]
fn statement(
    context: &Context,
    bounds: &mut [Bound],
    kind: &StmtKind,
    found: &mut Findings,
) -> Result<(), AllocError>
    ensures bounds { OnOk result (bounds.new
        ≡ bounds_behind (setting context.now) bounds.old (seen_statement kind.now)) }
    ensures finds { OnOk result (Extends
        (statement_finds (setting context.now) bounds.old (seen_statement kind.now)) found.old
        found.new) }
{
    match kind {
        StmtKind::Let(slot, value) => {
            let bound = expression(context, bounds, value, found)?;
            declare(context.assigned, *slot, bound, bounds);
            Ok(())
        }
        StmtKind::Assign(_, value) | StmtKind::Emit(value) => {
            expression(context, bounds, value, found)?;
            Ok(())
        }
        StmtKind::Store(array, index, value) => {
            let index = expression(context, bounds, index, found)?;
            expression(context, bounds, value, found)?;
            found.write_element(context.alloc, *array, index)
        }
        StmtKind::Fill(array, low, high, value) => {
            fill(context, bounds, *array, low, high, value, found)
        }
        StmtKind::Fail(_) | StmtKind::Break => Ok(()),
        StmtKind::If(cond, first, second) => {
            branches(context, bounds, cond, first, second, found)
        }
        StmtKind::For(slot, low, high, body) => {
            let low = expression(context, bounds, low, found)?;
            let high = expression(context, bounds, high, found)?;
            for_turns(context, bounds, *slot, low, high, body, found)
        }
        StmtKind::While(cond, _, body) => { while_turns(context, bounds, cond, body, found) }
        StmtKind::Call(function, given) => {
            call(context, bounds, *function, given, found)?;
            Ok(())
        }
        StmtKind::Fold(fold) => inner_fold(context, bounds, fold, found),
        StmtKind::Pair(pair) => inner_pair(context, bounds, pair, found),
    }
}

/// Examines a `fill`.
#[cycle(walk)]
fn fill(
    context: &Context,
    bounds: &[Bound],
    array: u32,
    low: &Expr,
    high: &Expr,
    value: &Expr,
    found: &mut Findings,
) -> Result<(), AllocError>
    ensures finds { OnOk result (Extends (statement_finds (setting context.now) bounds.now
        (fill_form array (seen_expression low.now) (seen_expression high.now)
        (seen_expression value.now))) found.old found.new) }
{
    let low = expression(context, bounds, low, found)?;
    let high = expression(context, bounds, high, found)?;
    expression(context, bounds, value, found)?;
    found.write_range(context.alloc, array, low, high)
}

/// Examines a condition and the two blocks of an `if`. What both surely write is surely written.
#[cycle(walk)]
fn branches(
    context: &Context,
    bounds: &[Bound],
    cond: &Cond,
    first: &[Stmt],
    second: &[Stmt],
    found: &mut Findings,
) -> Result<(), AllocError>
    ensures finds { OnOk result (Extends (statement_finds (setting context.now) bounds.now
        (if_form (seen_condition cond.now) (seen_block first.now) (seen_block second.now)))
        found.old found.new) }
{
    condition(context, bounds, cond, found)?;
    let before = found.surely_written(context.alloc)?;
    block(context, bounds, first, found)?;
    let one = found.exchange_written(before);
    block(context, bounds, second, found)?;
    found.keep_common(context.alloc, &one)
}

/// Examines the turns of a `for`: its body, unless there is no turn, and its sweeps.
#[cycle(walk)]
fn for_turns(
    context: &Context,
    bounds: &[Bound],
    slot: u32,
    low: Bound,
    high: Bound,
    body: &[Stmt],
    found: &mut Findings,
) -> Result<(), AllocError>
    ensures finds { OnOk result (Extends (turns low high (loop_sweeps slot (seen_block body.now))
        (block_finds (setting context.now)
        (declared (setting context.now) slot (turn_bound low high) bounds.now)
        (seen_block body.now))) found.old found.new) }
{
    if has_no_turn(low, high) {
        return Ok(());
    }
    let mut inner = Vec::from_slice(context.alloc, bounds)?;
    declare(context.assigned, slot, turn_bound(low, high), &mut inner);
    let before = found.surely_written(context.alloc)?;
    block(context, &inner, body, found)?;
    found.leave_loop(before);
    sweep(context.alloc, slot, low, high, body, found)
}

/// Examines a `while`: its condition, and its body, which surely writes nothing.
#[cycle(walk)]
fn while_turns(
    context: &Context,
    bounds: &[Bound],
    cond: &Cond,
    body: &[Stmt],
    found: &mut Findings,
) -> Result<(), AllocError>
    ensures finds { OnOk result (Extends (condition_finds (setting context.now) bounds.now
        (seen_condition cond.now) then perhaps
        (block_finds (setting context.now) bounds.now (seen_block body.now))) found.old
        found.new) }
{
    condition(context, bounds, cond, found)?;
    let before = found.surely_written(context.alloc)?;
    block(context, bounds, body, found)?;
    found.leave_loop(before);
    Ok(())
}

/// Examines a fold that isn't the examined one.
#[cycle(walk)]
fn inner_fold(
    context: &Context,
    bounds: &[Bound],
    fold: &Fold,
    found: &mut Findings,
) -> Result<(), AllocError>
    ensures finds { OnOk result (Extends (statement_finds (setting context.now) bounds.now
        (fold_form (fold_head fold.now) (seen_block (out-Fold fold.now).body.items))) found.old
        found.new) }
{
    arguments(context, bounds, &fold.start, found)?;
    let low = expression(context, bounds, &fold.low, found)?;
    let high = expression(context, bounds, &fold.high, found)?;
    fold_turns(context, bounds, fold, low, high, found)
}

/// Examines the blocks of a fold as the turns of a `for` without sweeps.
#[cycle(walk)]
fn fold_turns(
    context: &Context,
    bounds: &[Bound],
    fold: &Fold,
    low: Bound,
    high: Bound,
    found: &mut Findings,
) -> Result<(), AllocError>
    ensures finds { OnOk result (Extends (turns low high [] (block_then_row
        (setting context.now)
        (declared (setting context.now) (out-Fold fold.now).block (turn_bound low high) bounds.now)
        (seen_block (out-Fold fold.now).body.items)
        (seen_arguments (out-Fold fold.now).next.items))) found.old found.new) }
{
    if has_no_turn(low, high) {
        return Ok(());
    }
    let mut inner = Vec::from_slice(context.alloc, bounds)?;
    declare(
        context.assigned,
        fold.block,
        turn_bound(low, high),
        &mut inner,
    );
    let before = found.surely_written(context.alloc)?;
    block_and_row(context, &inner, &fold.body, &fold.next, found)?;
    found.leave_loop(before);
    Ok(())
}

/// Examines a pair that isn't the examined one: the producer with the row that it gives, and the
/// consumer.
#[cycle(walk)]
fn inner_pair(
    context: &Context,
    bounds: &[Bound],
    pair: &Pair,
    found: &mut Findings,
) -> Result<(), AllocError>
    ensures finds { OnOk result (Extends (statement_finds (setting context.now) bounds.now
        (pair_form (pair_head pair.now) (seen_block (out-Pair pair.now).producer.items)
        (seen_block (out-Pair pair.now).consumer.items))) found.old found.new) }
{
    block_and_row(context, bounds, &pair.producer, &pair.give, found)?;
    block(context, bounds, &pair.consumer, found)?;
    Ok(())
}
