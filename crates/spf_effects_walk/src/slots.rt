//! What the statements of a part do with slots and with the output.
ghost use Rattle.std.specs.Prelude.{◌≡◌, ◌||◌, not};
ghost use Rattle.spf_ast.specs.declared.syntax.Fold.{out-Fold};
ghost use Rattle.spf_ast.specs.declared.syntax.Pair.{out-Pair};
ghost use Rattle.spf_ast.specs.View.{block as seen_block, statement as seen_statement};
ghost use Rattle.spf_ast.specs.Slots.{emits, statement_emits, assigns, statement_assigns, breaks};
ghost use Rattle.spf_ast.specs.Slots.{statement_breaks};
ghost use Rattle.spf_effects_walk.specs.SlotSets.{has_slot};

use crate::slot_sets::SlotSet;
use spf_ast::syntax::{Fold, Pair, Stmt, StmtKind};

/// Returns whether one of these statements, or one within them, emits.
#[cycle(emits)]
pub fn emits(statements: &[Stmt]) -> bool
    ensures { result ≡ emits (seen_block statements.now) }
{
    for statement in statements {
        if statement_emits(&statement.kind) {
            return true;
        }
    }
    false
}

/// Returns whether a statement, or one within it, emits.
#[cycle(emits)]
fn statement_emits(kind: &StmtKind) -> bool
    ensures { result ≡ statement_emits (seen_statement kind.now) }
{
    match kind {
        StmtKind::Emit(_) => true,
        StmtKind::If(_, first, second) => emits(first) || emits(second),
        StmtKind::For(_, _, _, body) => emits(body),
        StmtKind::While(_, _, body) => emits(body),
        StmtKind::Fold(fold) => fold_emits(fold),
        StmtKind::Pair(pair) => pair_emits(pair),
        StmtKind::Let(_, _)
        | StmtKind::Assign(_, _)
        | StmtKind::Store(_, _, _)
        | StmtKind::Fill(_, _, _, _)
        | StmtKind::Fail(_)
        | StmtKind::Call(_, _)
        | StmtKind::Break => false,
    }
}

/// Returns whether the body of a fold emits.
#[cycle(emits)]
fn fold_emits(fold: &Fold) -> bool
    ensures { result ≡ emits (seen_block (out-Fold fold.now).body.items) }
{
    emits(&fold.body)
}

/// Returns whether the producer or the consumer of a pair emits.
#[cycle(emits)]
fn pair_emits(pair: &Pair) -> bool
    ensures { result
        ≡ (emits (seen_block (out-Pair pair.now).producer.items)
        || emits (seen_block (out-Pair pair.now).consumer.items)) }
{
    emits(&pair.producer) || emits(&pair.consumer)
}

/// Returns whether one of these statements, or one within them, assigns a slot that isn't among
/// these.
#[cycle(assigns)]
pub fn assigns_other(statements: &[Stmt], declared: &SlotSet) -> bool
    ensures { result
        ≡ assigns (λ slot. not (has_slot declared.now slot)) (seen_block statements.now) }
{
    for statement in statements {
        if statement_assigns_other(&statement.kind, declared) {
            return true;
        }
    }
    false
}

/// Returns whether a statement, or one within it, assigns a slot that isn't among these.
#[cycle(assigns)]
fn statement_assigns_other(kind: &StmtKind, declared: &SlotSet) -> bool
    ensures { result
        ≡ statement_assigns (λ slot. not (has_slot declared.now slot)) (seen_statement kind.now) }
{
    match kind {
        StmtKind::Assign(slot, _) => !declared.contains(*slot as usize),
        StmtKind::If(_, first, second) => {
            assigns_other(first, declared) || assigns_other(second, declared)
        }
        StmtKind::For(_, _, _, body) => assigns_other(body, declared),
        StmtKind::While(_, _, body) => assigns_other(body, declared),
        StmtKind::Fold(fold) => fold_assigns_other(fold, declared),
        StmtKind::Pair(pair) => pair_assigns_other(pair, declared),
        StmtKind::Let(_, _)
        | StmtKind::Store(_, _, _)
        | StmtKind::Fill(_, _, _, _)
        | StmtKind::Emit(_)
        | StmtKind::Fail(_)
        | StmtKind::Call(_, _)
        | StmtKind::Break => false,
    }
}

/// Returns whether the body of a fold assigns a slot that isn't among these.
#[cycle(assigns)]
fn fold_assigns_other(fold: &Fold, declared: &SlotSet) -> bool
    ensures { result
        ≡ assigns (λ slot. not (has_slot declared.now slot))
        (seen_block (out-Fold fold.now).body.items) }
{
    assigns_other(&fold.body, declared)
}

/// Returns whether the producer or the consumer of a pair assigns a slot that isn't among these.
#[cycle(assigns)]
fn pair_assigns_other(pair: &Pair, declared: &SlotSet) -> bool
    ensures { result
        ≡ (assigns (λ slot. not (has_slot declared.now slot))
        (seen_block (out-Pair pair.now).producer.items)
        || assigns (λ slot. not (has_slot declared.now slot))
        (seen_block (out-Pair pair.now).consumer.items)) }
{
    assigns_other(&pair.producer, declared) || assigns_other(&pair.consumer, declared)
}

/// Returns whether one of these statements is a `break` that ends a loop around them, or holds one.
#[cycle(breaks)]
pub(crate) fn breaks(statements: &[Stmt]) -> bool
    ensures { result ≡ breaks (seen_block statements.now) }
{
    for statement in statements {
        if statement_breaks(&statement.kind) {
            return true;
        }
    }
    false
}

/// Returns whether a statement is a `break`, or holds one that isn't in a loop or a construct
/// within it.
#[cycle(breaks)]
fn statement_breaks(kind: &StmtKind) -> bool
    ensures { result ≡ statement_breaks (seen_statement kind.now) }
{
    match kind {
        StmtKind::Break => true,
        StmtKind::If(_, first, second) => breaks(first) || breaks(second),
        StmtKind::Let(_, _)
        | StmtKind::Assign(_, _)
        | StmtKind::Store(_, _, _)
        | StmtKind::Fill(_, _, _, _)
        | StmtKind::Emit(_)
        | StmtKind::Fail(_)
        | StmtKind::For(_, _, _, _)
        | StmtKind::While(_, _, _)
        | StmtKind::Call(_, _) => false,
        StmtKind::Fold(_) => false,
        StmtKind::Pair(_) => false,
    }
}
