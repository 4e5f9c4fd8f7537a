//! Statements and blocks, added to a text.

ghost use Rattle.std.specs.Prelude.{◌≡◌, ◌++◌, IfOk};
ghost use Rattle.spf_ast.specs.Syntax.{Fold as fold_form, Pair as pair_form};
ghost use Rattle.spf_ast.specs.declared.syntax.Fold.{out-Fold};
ghost use Rattle.spf_ast.specs.declared.syntax.Pair.{out-Pair};
ghost use Rattle.spf_ast.specs.View.{fold_head, pair_head, statement, block};
ghost use Rattle.spf_ast.specs.Spelling.{spelled_statement, spelled_block};
ghost use Rattle.spf_print_forms.specs.Canonical.{deeper as deeper_of, statement_text};
ghost use Rattle.spf_print_forms.specs.Canonical.{otherwise_text, block_text};
ghost use Rattle.spf_print_forms.specs.Printing.{vocabulary_of};

use crate::lines::{
    push_break, push_call, push_consumer_head, push_fail, push_fill, push_fold_head, push_for_head,
    push_if_head, push_pair_head, push_set, push_store, push_while_head, push_with_row,
    push_with_word,
};
use spf_ast::syntax::{Fold, Pair, Stmt, StmtKind};
use spf_print_forms::pieces::{Names, deeper, push_close, push_else};
use std::alloc::{AllocError, Global};

/// Adds the statements of a block inside a statement with this indentation.
#[cycle(statement)]
pub(crate) fn push_nested(
    alloc: Global,
    text: &mut Vec<u8>,
    names: &Names,
    indent: &[u8],
    statements: &[Stmt],
) -> Result<(), AllocError>
    ensures { IfOk result (λ _. text.new.items
        ≡ text.old.items
        ++ block_text (deeper_of indent.now)
        (spelled_block (vocabulary_of names.now) (block statements.now))) }
{
    let inner = deeper(alloc, indent)?;
    for statement in statements {
        push_statement(alloc, text, names, &inner, &statement.kind)?;
    }
    Ok(())
}

/// Adds the end of an `if`, with its other block where that has a statement.
#[cycle(statement)]
fn push_otherwise(
    alloc: Global,
    text: &mut Vec<u8>,
    names: &Names,
    indent: &[u8],
    statements: &[Stmt],
) -> Result<(), AllocError>
    ensures { IfOk result (λ _. text.new.items
        ≡ text.old.items
        ++ otherwise_text indent.now
        (spelled_block (vocabulary_of names.now) (block statements.now))) }
{
    if statements.is_empty() {
        return push_close(text, indent);
    }
    push_else(text, indent)?;
    push_nested(alloc, text, names, indent, statements)?;
    push_close(text, indent)
}

/// Adds a statement.
#[cycle(statement)]
fn push_statement(
    alloc: Global,
    text: &mut Vec<u8>,
    names: &Names,
    indent: &[u8],
    kind: &StmtKind,
) -> Result<(), AllocError>
    ensures { IfOk result (λ _. text.new.items
        ≡ text.old.items
        ++ statement_text indent.now
        (spelled_statement (vocabulary_of names.now) (statement kind.now))) }
{
    match kind {
        StmtKind::Let(slot, value) => {
            push_set(alloc, text, names, indent, b"let ", *slot, value)
        }
        StmtKind::Assign(slot, value) => { push_set(alloc, text, names, indent, b"", *slot, value) }
        StmtKind::Store(array, index, value) => {
            push_store(alloc, text, names, indent, *array, index, value)
        }
        StmtKind::Fill(array, low, high, value) => {
            push_fill(alloc, text, names, indent, *array, (low, high), value)
        }
        StmtKind::Emit(value) => push_with_word(alloc, text, names, indent, b"emit ", value),
        StmtKind::Fail(number) => push_fail(alloc, text, indent, *number),
        StmtKind::Call(f, given) => push_call(alloc, text, names, indent, *f, given),
        StmtKind::If(test, first, second) => {
            push_if_head(alloc, text, names, indent, test)?;
            push_nested(alloc, text, names, indent, first)?;
            push_otherwise(alloc, text, names, indent, second)
        }
        StmtKind::For(slot, low, high, body) => {
            push_for_head(alloc, text, names, indent, *slot, low, high)?;
            push_nested(alloc, text, names, indent, body)?;
            push_close(text, indent)
        }
        StmtKind::While(test, most, body) => {
            push_while_head(alloc, text, names, indent, test, *most)?;
            push_nested(alloc, text, names, indent, body)?;
            push_close(text, indent)
        }
        StmtKind::Break => push_break(text, indent),
        StmtKind::Fold(fold) => push_fold(alloc, text, names, indent, fold),
        StmtKind::Pair(pair) => push_pair(alloc, text, names, indent, pair),
    }
}

/// Adds a fold.
#[cycle(statement)]
fn push_fold(
    alloc: Global,
    text: &mut Vec<u8>,
    names: &Names,
    indent: &[u8],
    fold: &Fold,
) -> Result<(), AllocError>
    ensures { IfOk result (λ _. text.new.items ≡ text.old.items
        ++ statement_text indent.now (spelled_statement (vocabulary_of names.now)
        (fold_form (fold_head fold.now) (block (out-Fold fold.now).body.items)))) }
{
    push_fold_head(alloc, text, names, indent, fold)?;
    push_nested(alloc, text, names, indent, &fold.body)?;
    let inner = deeper(alloc, indent)?;
    push_with_row(alloc, text, names, &inner, b"next ", &fold.next)?;
    push_close(text, indent)
}

/// Adds a pair.
#[cycle(statement)]
fn push_pair(
    alloc: Global,
    text: &mut Vec<u8>,
    names: &Names,
    indent: &[u8],
    pair: &Pair,
) -> Result<(), AllocError>
    ensures { IfOk result (λ _. text.new.items ≡ text.old.items
        ++ statement_text indent.now (spelled_statement (vocabulary_of names.now)
        (pair_form (pair_head pair.now) (block (out-Pair pair.now).producer.items)
        (block (out-Pair pair.now).consumer.items)))) }
{
    push_pair_head(text, names, indent, &pair.carried)?;
    push_nested(alloc, text, names, indent, &pair.producer)?;
    let inner = deeper(alloc, indent)?;
    push_with_row(alloc, text, names, &inner, b"give ", &pair.give)?;
    push_consumer_head(alloc, text, names, indent, &pair.predict)?;
    push_nested(alloc, text, names, indent, &pair.consumer)?;
    push_close(text, indent)
}
