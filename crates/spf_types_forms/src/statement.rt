//! Statements and blocks, which lead to each other.

ghost use Rattle.std.specs.Prelude.{◌≡◌, true, IfOk, None};
ghost use Rattle.spf_ast.specs.declared.syntax.Fold.{out-Fold};
ghost use Rattle.spf_ast.specs.declared.syntax.Pair.{out-Pair};
ghost use Rattle.spf_ast.specs.View.{fold_head, pair_head};
ghost use Rattle.spf_ast.specs.RawView.{raw_expression, raw_arguments, raw_statement, raw_block};
ghost use Rattle.spf_ast.specs.RawView.{raw_fold_head, raw_pair_head};
ghost use Rattle.spf_ast.specs.RawSyntax as raw_form;
ghost use Rattle.spf_types_names.specs.HereView.{setting};
ghost use Rattle.spf_types_names.specs.Locals.{binding_of, AreNew};
ghost use Rattle.spf_types_names.specs.Resolved.{with_each, after_statement, after_block};
ghost use Rattle.spf_types_names.specs.Resolved.{after_inner};
ghost use Rattle.spf_types_forms.specs.Resolving.{AnswersBlock, AnswersBody, AnswersConsumer};
ghost use Rattle.spf_types_forms.specs.Resolving.{AnswersRow, AnswersStatement, AnswersValue};
ghost use Rattle.spf_types_forms.specs.Resolving.{body_of, consumer_of, fold_head_of};
ghost use Rattle.spf_types_forms.specs.Resolving.{inside_fold, pair_head_of, raw_fold, raw_for};
ghost use Rattle.spf_types_forms.specs.Resolving.{raw_if, raw_pair, raw_while, showing_row};

use crate::expression::{boxed_expression, boxed_truth, numbers, predictors};
use crate::header::{Header, header_of, pair_names, pair_widths};
use crate::simple::{assignment, call, declaration, departure, emission, failure, fill, store};
use spf_ast::raw::{RawExpr, RawFold, RawPair, RawStmt, RawStmtKind};
use spf_ast::syntax::{Expr, Fold, Name, Pair, Predict, Stmt, StmtKind};
use spf_types_names::fault::TypeError;
use spf_types_names::locals::{LocalTable, row_slots};
use spf_types_names::names::{Here, declarable};

/// Resolves statements one after another, whose locals may be used after them.
#[cycle(block)]
pub fn block<'a>(
    here: &Here<'_, 'a>,
    locals: &mut LocalTable<'a>,
    raw: &'a [RawStmt],
) -> Result<Vec<Stmt>, TypeError>
    ensures answers { AnswersBlock (setting here.now) locals.old (raw_block raw.now) result }
    ensures after { IfOk result (λ _. locals.new ≡ after_block locals.old (raw_block raw.now)) }
{
    let mut statements = Vec::new(here.alloc);
    for statement in raw {
        let line = statement.line;
        let kind = statement_kind(here, locals, line, &statement.kind)?;
        statements.push(Stmt { line, kind })?;
    }
    Ok(statements)
}

/// Resolves a block, whose locals may not be used after it.
#[cycle(block)]
fn inner<'a>(
    here: &Here<'_, 'a>,
    locals: &mut LocalTable<'a>,
    raw: &'a [RawStmt],
) -> Result<Vec<Stmt>, TypeError>
    ensures answers { AnswersBlock (setting here.now) locals.old (raw_block raw.now) result }
    ensures after { IfOk result (λ _. locals.new ≡ after_inner locals.old (raw_block raw.now)) }
{
    let count = locals.count();
    let statements = block(here, locals, raw)?;
    locals.close(count);
    Ok(statements)
}

/// Resolves a statement's kind.
#[cycle(block)]
fn statement_kind<'a>(
    here: &Here<'_, 'a>,
    locals: &mut LocalTable<'a>,
    line: u32,
    raw: &'a RawStmtKind,
) -> Result<StmtKind, TypeError>
    ensures answers { AnswersStatement (setting here.now) locals.old line (raw_statement raw.now)
        result }
    ensures after { IfOk result
        (λ _. locals.new ≡ after_statement locals.old (raw_statement raw.now)) }
{
    match raw {
        RawStmtKind::Let(name, value) => declaration(here, locals, line, name, value),
        RawStmtKind::Assign(name, value) => assignment(here, locals, line, name, value),
        RawStmtKind::Store(name, index, value) => store(here, locals, line, name, index, value),
        RawStmtKind::Fill(name, low, high, value) => {
            fill(here, locals, line, name, low, high, value)
        }
        RawStmtKind::Emit(value) => emission(here, locals, line, value),
        RawStmtKind::Fail(number) => failure(here, locals, line, *number),
        RawStmtKind::If(test, first, second) => choice(here, locals, line, test, first, second),
        RawStmtKind::For(name, low, high, body) => {
            for_loop(here, locals, line, name, low, high, body)
        }
        RawStmtKind::While(test, most, body) => while_loop(here, locals, line, test, *most, body),
        RawStmtKind::Call(name, given) => call(here, locals, line, name, given),
        RawStmtKind::Fold(raw) => fold(here, locals, line, raw),
        RawStmtKind::Pair(raw) => pair(here, locals, line, raw),
        RawStmtKind::Break => departure(here, locals, line),
    }
}

/// Resolves an `if`.
#[cycle(block)]
fn choice<'a>(
    here: &Here<'_, 'a>,
    locals: &mut LocalTable<'a>,
    line: u32,
    test: &'a RawExpr,
    first: &'a [RawStmt],
    second: &'a [RawStmt],
) -> Result<StmtKind, TypeError>
    ensures answers { AnswersStatement (setting here.now) locals.old line
        (raw_if test.now first.now second.now) result }
    ensures after { IfOk result (λ _. locals.new ≡ after_statement locals.old
        (raw_if test.now first.now second.now)) }
{
    let test = boxed_truth(here, locals, line, test)?;
    let first = inner(here, locals, first)?;
    let second = inner(here, locals, second)?;
    Ok(StmtKind::If(Box::into_inner(test), first, second))
}

/// Resolves a `for`.
#[cycle(block)]
fn for_loop<'a>(
    here: &Here<'_, 'a>,
    locals: &mut LocalTable<'a>,
    line: u32,
    name: &'a Name,
    low: &'a RawExpr,
    high: &'a RawExpr,
    body: &'a [RawStmt],
) -> Result<StmtKind, TypeError>
    ensures answers { AnswersStatement (setting here.now) locals.old line
        (raw_for name.now low.now high.now body.now) result }
    ensures after { IfOk result (λ _. locals.new ≡ after_statement locals.old
        (raw_for name.now low.now high.now body.now)) }
{
    declarable(here, locals, line, name)?;
    let low = boxed_expression(here, locals, line, low)?;
    let high = boxed_expression(here, locals, line, high)?;
    let count = locals.count();
    let slot = locals.declare(here.alloc, name)?;
    locals.show(name, slot, true)?;
    let inside = here.in_turn();
    let body = block(&inside, locals, body)?;
    locals.close(count);
    Ok(StmtKind::For(slot, Box::into_inner(low), Box::into_inner(high), body))
}

/// Resolves a `while`.
#[cycle(block)]
fn while_loop<'a>(
    here: &Here<'_, 'a>,
    locals: &mut LocalTable<'a>,
    line: u32,
    test: &'a RawExpr,
    most: u64,
    body: &'a [RawStmt],
) -> Result<StmtKind, TypeError>
    ensures answers { AnswersStatement (setting here.now) locals.old line
        (raw_while test.now most body.now) result }
    ensures after { IfOk result (λ _. locals.new
        ≡ after_statement locals.old
        (raw_while test.now most body.now)) }
{
    let test = boxed_truth(here, locals, line, test)?;
    let inside = here.in_turn();
    let body = inner(&inside, locals, body)?;
    Ok(StmtKind::While(Box::into_inner(test), most, body))
}

/// Resolves statements, and then a number on a line. The locals may not be used after it.
pub fn statements_and_number<'a>(
    here: &Here<'_, 'a>,
    locals: &mut LocalTable<'a>,
    raw: &'a [RawStmt],
    line: u32,
    value: &'a RawExpr,
) -> Result<(Vec<Stmt>, Box<Expr>), TypeError>
    ensures answers { AnswersValue (setting here.now) locals.old (raw_block raw.now) line
        (raw_expression value.now) result }
    ensures after { IfOk result (λ _. locals.new ≡ after_inner locals.old (raw_block raw.now)) }
{
    let count = locals.count();
    let statements = block(here, locals, raw)?;
    let value = boxed_expression(here, locals, line, value)?;
    locals.close(count);
    Ok((statements, value))
}

/// Resolves statements of a construct's part, and then a row on a line. The locals may not be used
/// after it.
#[cycle(block)]
fn statements_and_row<'a>(
    here: &Here<'_, 'a>,
    locals: &mut LocalTable<'a>,
    raw: &'a [RawStmt],
    line: u32,
    row: &'a [RawExpr],
) -> Result<(Vec<Stmt>, Vec<Expr>), TypeError>
    ensures answers { AnswersRow (setting here.now) locals.old (raw_block raw.now) line
        (raw_arguments row.now) result }
    ensures after { IfOk result (λ _. locals.new ≡ after_inner locals.old (raw_block raw.now)) }
{
    let count = locals.count();
    let inside = here.in_part();
    let statements = block(&inside, locals, raw)?;
    let parts = numbers(here, locals, line, row)?;
    locals.close(count);
    Ok((statements, parts))
}

/// Resolves the body of a fold and its `next`.
#[cycle(block)]
fn fold_body<'a>(
    here: &Here<'_, 'a>,
    locals: &mut LocalTable<'a>,
    raw: &'a RawFold,
    first: u32,
    block: u32,
) -> Result<(Vec<Stmt>, Vec<Expr>), TypeError>
    requires carried { AreNew locals.old.locals (raw_fold_head raw.now).carried }
    requires block { binding_of
        (with_each true locals.old.locals first (raw_fold_head raw.now).carried)
        (raw_fold_head raw.now).block ≡ None }
    ensures answers { AnswersBody (setting here.now)
        (inside_fold locals.old first block (raw_fold_head raw.now)) raw.now result }
    ensures after { IfOk result (λ _. locals.new ≡ after_inner locals.old (body_of raw.now)) }
{
    let count = locals.count();
    locals.show_each(&raw.carried, first, true)?;
    locals.show(&raw.block, block, true)?;
    let answer = statements_and_row(here, locals, &raw.body, raw.next_line, &raw.next)?;
    locals.close(count);
    Ok(answer)
}

/// Resolves a `specfold`.
#[cycle(block)]
fn fold<'a>(
    here: &Here<'_, 'a>,
    locals: &mut LocalTable<'a>,
    line: u32,
    raw: &'a RawFold,
) -> Result<StmtKind, TypeError>
    ensures answers { AnswersStatement (setting here.now) locals.old line (raw_fold raw.now)
        result }
    ensures after { IfOk result (λ _. locals.new ≡ after_statement locals.old (raw_fold raw.now)) }
{
    let header = header_of(here, locals, line, raw)?;
    let (body, next) = fold_body(here, locals, raw, header.first, header.block)?;
    locals.show_each(&raw.carried, header.first, false)?;
    let fold = fold_of(header, body, next, raw.next_line);
    Ok(StmtKind::Fold(Box::new(here.alloc, fold)?))
}

/// Resolves the consumer of a pair.
#[cycle(block)]
fn consumer<'a>(
    here: &Here<'_, 'a>,
    locals: &mut LocalTable<'a>,
    raw: &'a RawPair,
    first: u32,
) -> Result<Vec<Stmt>, TypeError>
    requires { AreNew locals.old.locals (raw_pair_head raw.now).carried }
    ensures answers { AnswersConsumer (setting here.now)
        (showing_row locals.old first (raw_pair_head raw.now).carried) raw.now result }
    ensures after { IfOk result (λ _. locals.new ≡ after_inner locals.old (consumer_of raw.now)) }
{
    let count = locals.count();
    locals.show_each(&raw.carried, first, true)?;
    let inside = here.in_part();
    let consumer = block(&inside, locals, &raw.consumer)?;
    locals.close(count);
    Ok(consumer)
}

/// Resolves a `spec`.
#[cycle(block)]
fn pair<'a>(
    here: &Here<'_, 'a>,
    locals: &mut LocalTable<'a>,
    line: u32,
    raw: &'a RawPair,
) -> Result<StmtKind, TypeError>
    ensures answers { AnswersStatement (setting here.now) locals.old line (raw_pair raw.now)
        result }
    ensures after { IfOk result (λ _. locals.new ≡ after_statement locals.old (raw_pair raw.now)) }
{
    let first = locals.next_slot()?;
    pair_names(here, locals, line, raw)?;
    pair_widths(line, raw)?;
    let carried = row_slots(here.alloc, first, &raw.carried)?;
    let (producer, give) = statements_and_row(
        here,
        locals,
        &raw.producer,
        raw.give_line,
        &raw.give,
    )?;
    let predict = predictors(here, locals, line, &raw.predict)?;
    let consumer = consumer(here, locals, raw, first)?;
    locals.show_each(&raw.carried, first, false)?;
    let pair = pair_of(carried, producer, give, raw.give_line, predict, consumer);
    Ok(StmtKind::Pair(Box::new(here.alloc, pair)?))
}

/// A fold of these parts.
fn fold_of(header: Header, body: Vec<Stmt>, next: Vec<Expr>, next_line: u32) -> Fold
    ensures head { fold_head result ≡ fold_head_of header next next_line }
    ensures body { (out-Fold result).body ≡ body }
{
    Fold {
        carried: header.carried,
        start: header.start,
        block: header.block,
        low: Box::into_inner(header.low),
        high: Box::into_inner(header.high),
        predict: header.predict,
        body,
        next,
        next_line,
    }
}

/// A pair of these parts.
fn pair_of(
    carried: Vec<u32>,
    producer: Vec<Stmt>,
    give: Vec<Expr>,
    give_line: u32,
    predict: Vec<Predict>,
    consumer: Vec<Stmt>,
) -> Pair
    ensures head { pair_head result ≡ pair_head_of carried give give_line predict }
    ensures producer { (out-Pair result).producer ≡ producer }
    ensures consumer { (out-Pair result).consumer ≡ consumer }
{
    Pair {
        carried,
        producer,
        give,
        give_line,
        predict,
        consumer,
    }
}
