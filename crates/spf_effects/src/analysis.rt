//! The analysis of parts of top constructs.
ghost use Rattle.std.specs.Prelude.{◌≡◌, ℕ, IfOk, OnOk, length, map};
ghost use Rattle.spf_ast.specs.declared.syntax.Fold.{out-Fold};
ghost use Rattle.spf_ast.specs.declared.syntax.Pair.{out-Pair};
ghost use Rattle.spf_ast.specs.ConstructView.{construct as seen_construct};
ghost use Rattle.spf_ast.specs.Construct.{fold as fold_construct, pair as pair_construct};
ghost use Rattle.spf_ast.specs.Syntax.{end};
ghost use Rattle.spf_ast.specs.View.{block as seen_block, arguments as seen_arguments};
ghost use Rattle.spf_ast.specs.View.{predictor as seen_predictor, program as seen_program};
ghost use Rattle.spf_ast.specs.View.{fold_head, pair_head};
ghost use Rattle.spf_effects.specs.Effects.{AreEffects, effects_of};
ghost use Rattle.spf_effects_findings.specs.Extends.{Extends};
ghost use Rattle.spf_effects_findings.specs.Forms.{block_finds, block_then_row};
ghost use Rattle.spf_effects_findings.specs.Parts.{guess_finds, guesses_find, outside};
ghost use Rattle.spf_effects_findings.specs.Parts.{part_effects};
ghost use Rattle.spf_effects_walk.specs.Settings.{setting};

use crate::effects::{Effects, gather, no_effects};
use spf_ast::construct::{ConstructKind, TopConstruct};
use spf_ast::syntax::{Expr, Fold, Pair, Part, Predict, Program, Stmt};
use spf_effects_findings::findings::Findings;
use spf_effects_walk::context::{Context, declare};
use spf_effects_walk::slot_sets::slots_in;
use spf_effects_walk::walk::{block, block_and_row, expression};
use spf_region::bound::Bound;
use std::alloc::{AllocError, Global};

/// What is known of the number of a block.
const BLOCK: Bound = Bound::Known {
    factor: 1,
    low: 0,
    high: 0,
};

/// Examines a part of a top construct of a program. A part that the construct doesn't have does
/// nothing.
///
/// # Errors
///
/// `AllocError` where there is no memory for the lists.
pub fn effects(
    alloc: Global,
    program: &Program,
    construct: TopConstruct,
    part: Part,
) -> Result<Effects, AllocError>
    ensures exact { IfOk result (AreEffects
        (part_effects (seen_program program.now) (seen_construct construct.entry) part)) }
{
    match construct.kind {
        ConstructKind::Fold(fold) => fold_effects(alloc, program, fold, part),
        ConstructKind::Pair(pair) => pair_effects(alloc, program, pair, part),
    }
}

/// The effects of a part of a fold. Its block number is known.
fn fold_effects(
    alloc: Global,
    program: &Program,
    fold: &Fold,
    part: Part,
) -> Result<Effects, AllocError>
    ensures { IfOk result (λ e. (line : ℕ)
        → AreEffects (part_effects (seen_program program.now)
        (fold_construct line (fold_head fold.now) (seen_block (out-Fold fold.now).body.items)) part)
        e) }
{
    let mut bounds = unknown_bounds(alloc, program)?;
    let slots = slots_in(alloc, &program.main)?;
    let context = Context {
        alloc,
        functions: &program.functions,
        below: callable(program),
        assigned: &slots.assigned,
    };
    declare(context.assigned, fold.block, BLOCK, &mut bounds);
    match part {
        Part::Body => effects_and(&context, &bounds, &fold.body, &fold.next),
        Part::Predictor => predictor_effects(&context, &bounds, &fold.predict),
        Part::Producer | Part::Consumer => Ok(no_effects(alloc)),
    }
}

/// The effects of a part of a pair.
fn pair_effects(
    alloc: Global,
    program: &Program,
    pair: &Pair,
    part: Part,
) -> Result<Effects, AllocError>
    ensures { IfOk result (λ e. (line : ℕ) → AreEffects
        (part_effects (seen_program program.now)
        (pair_construct line (pair_head pair.now) (seen_block (out-Pair pair.now).producer.items)
        (seen_block (out-Pair pair.now).consumer.items)) part) e) }
{
    let bounds = unknown_bounds(alloc, program)?;
    let slots = slots_in(alloc, &program.main)?;
    let context = Context {
        alloc,
        functions: &program.functions,
        below: callable(program),
        assigned: &slots.assigned,
    };
    match part {
        Part::Producer => effects_and(&context, &bounds, &pair.producer, &pair.give),
        Part::Consumer => block_effects(&context, &bounds, &pair.consumer),
        Part::Predictor => predictor_effects(&context, &bounds, &pair.predict),
        Part::Body => Ok(no_effects(alloc)),
    }
}

/// The index before which functions may be called in `main`: that after the last one.
fn callable(program: &Program) -> usize
    ensures { result ≡ length program.now.functions.items }
{
    program.functions.len()
}

/// Bounds for the slots of `main`, of which nothing is known.
fn unknown_bounds(alloc: Global, program: &Program) -> Result<Vec<Bound>, AllocError>
    ensures { IfOk result (λ v. v.items ≡ outside (seen_program program.now)) }
{
    let mut bounds = Vec::new(alloc);
    bounds.resize(program.slots.len(), Bound::Unknown)?;
    Ok(bounds)
}

/// The effects of a block, and of a row in whose parts what the block declares is visible.
fn effects_and(
    context: &Context,
    bounds: &[Bound],
    statements: &[Stmt],
    last: &[Expr],
) -> Result<Effects, AllocError>
    ensures { IfOk result (AreEffects (effects_of (block_then_row (setting context.now)
        bounds.now (seen_block statements.now) (seen_arguments last.now))
        (seen_block statements.now))) }
{
    let mut found = Findings::new(context.alloc);
    block_and_row(context, bounds, statements, last, &mut found)?;
    gather(context.alloc, found, statements)
}

/// The effects of a block.
fn block_effects(
    context: &Context,
    bounds: &[Bound],
    statements: &[Stmt],
) -> Result<Effects, AllocError>
    ensures { IfOk result (AreEffects (effects_of
        (block_finds (setting context.now) bounds.now (seen_block statements.now))
        (seen_block statements.now))) }
{
    let mut found = Findings::new(context.alloc);
    block(context, bounds, statements, &mut found)?;
    gather(context.alloc, found, statements)
}

/// The effects of the guesses of a row's parts.
fn predictor_effects(
    context: &Context,
    bounds: &[Bound],
    predict: &[Predict],
) -> Result<Effects, AllocError>
    ensures { IfOk result (AreEffects (effects_of
        (guesses_find (setting context.now) bounds.now (map seen_predictor predict.now))
        end)) }
{
    let mut found = Findings::new(context.alloc);
    for part in predict {
        guess(context, bounds, part, &mut found)?;
    }
    gather(context.alloc, found, &[])
}

/// Examines the guess of one part of a row. A predictor that is supplied does nothing here.
fn guess(
    context: &Context,
    bounds: &[Bound],
    predict: &Predict,
    found: &mut Findings,
) -> Result<(), AllocError>
    ensures { OnOk result (Extends
        (guess_finds (setting context.now) bounds.now (seen_predictor predict.now)) found.old
        found.new) }
{
    match predict {
        Predict::Host(_) => Ok(()),
        Predict::Expr(guess) => {
            expression(context, bounds, guess, found)?;
            Ok(())
        }
    }
}
