//! Single lines, added to a text.

ghost use Rattle.std.specs.Prelude.{◌≡◌, ◌++◌, ◌∷◌, [], codes, IfOk, map, pos};
ghost use Rattle.std.specs.Fmt.{decimal, signed_decimal};
ghost use Rattle.spf_ast.specs.Syntax.{Store as store_form, Fill as fill_form, Do as do_form};
ghost use Rattle.spf_ast.specs.View.{name as seen_name, expression, arguments, condition};
ghost use Rattle.spf_ast.specs.View.{predictor, fold_head};
ghost use Rattle.spf_ast.specs.Spelling.{name_at, spelled_names, spelled_expression};
ghost use Rattle.spf_ast.specs.Spelling.{spelled_arguments, spelled_condition, spelled_predictor};
ghost use Rattle.spf_ast.specs.Spelling.{spelled_fold, spelled_statement};
ghost use Rattle.spf_print_forms.specs.Canonical.{joined, line, expression_text, carried_text};
ghost use Rattle.spf_print_forms.specs.Canonical.{row_text, guess_text, fold_line, statement_text};
ghost use Rattle.spf_print_forms.specs.Printing.{vocabulary_of};

use spf_ast::syntax::{Cond, Expr, Fold, Predict};
use spf_print_forms::expressions::{
    push_arguments, push_condition, push_expression, push_index, push_predict, push_range,
    push_row, push_slice,
};
use spf_print_forms::pieces::{
    Names, array_name, function_name, push, push_carried, push_count, slot_name,
};
use std::alloc::{AllocError, Global};

/// Adds a line with a word and an expression.
pub(crate) fn push_with_word(
    alloc: Global,
    text: &mut Vec<u8>,
    names: &Names,
    indent: &[u8],
    word: &[u8],
    value: &Expr,
) -> Result<(), AllocError>
    ensures { IfOk result (λ _. text.new.items ≡ text.old.items
        ++ line indent.now (word.now ∷ expression_text
        (spelled_expression (vocabulary_of names.now) (expression value.now)) ∷ codes ";" ∷ [])) }
{
    push(text, indent)?;
    push(text, word)?;
    push_expression(alloc, text, names, value)?;
    push(text, b";\n")
}

/// Adds a line with a word and a row.
pub(crate) fn push_with_row(
    alloc: Global,
    text: &mut Vec<u8>,
    names: &Names,
    indent: &[u8],
    word: &[u8],
    parts: &[Expr],
) -> Result<(), AllocError>
    ensures { IfOk result (λ _. text.new.items ≡ text.old.items
        ++ line indent.now (word.now ∷ row_text
        (spelled_arguments (vocabulary_of names.now) (arguments parts.now)) ∷ codes ";" ∷ [])) }
{
    push(text, indent)?;
    push(text, word)?;
    push_row(alloc, text, names, parts)?;
    push(text, b";\n")
}

/// Adds a `break`.
pub(crate) fn push_break(text: &mut Vec<u8>, indent: &[u8]) -> Result<(), AllocError>
    ensures { IfOk result
        (λ _. text.new.items ≡ text.old.items ++ line indent.now (codes "break;" ∷ [])) }
{
    push(text, indent)?;
    push(text, b"break;\n")
}

/// Adds a line that sets a slot, with a word before it.
pub(crate) fn push_set(
    alloc: Global,
    text: &mut Vec<u8>,
    names: &Names,
    indent: &[u8],
    word: &[u8],
    slot: u32,
    value: &Expr,
) -> Result<(), AllocError>
    ensures { IfOk result (λ _. text.new.items
        ≡ text.old.items
        ++ line indent.now (word.now ∷ name_at (map seen_name names.now.slots.now) slot
        ∷ codes " = "
        ∷ expression_text (spelled_expression (vocabulary_of names.now) (expression value.now))
        ∷ codes ";" ∷ [])) }
{
    push(text, indent)?;
    push(text, word)?;
    push(text, slot_name(names.slots, slot))?;
    push(text, b" = ")?;
    push_expression(alloc, text, names, value)?;
    push(text, b";\n")
}

/// Adds a store to an element.
pub(crate) fn push_store(
    alloc: Global,
    text: &mut Vec<u8>,
    names: &Names,
    indent: &[u8],
    array: u32,
    index: &Expr,
    value: &Expr,
) -> Result<(), AllocError>
    ensures { IfOk result (λ _. text.new.items ≡ text.old.items
        ++ statement_text indent.now (spelled_statement (vocabulary_of names.now)
        (store_form array (expression index.now) (expression value.now)))) }
{
    push(text, indent)?;
    push(text, array_name(names.arrays, array))?;
    push_index(alloc, text, names, index)?;
    push(text, b" = ")?;
    push_expression(alloc, text, names, value)?;
    push(text, b";\n")
}

/// Adds a `fill`.
pub(crate) fn push_fill(
    alloc: Global,
    text: &mut Vec<u8>,
    names: &Names,
    indent: &[u8],
    array: u32,
    bounds: (&Expr, &Expr),
    value: &Expr,
) -> Result<(), AllocError>
    ensures { IfOk result (λ _. text.new.items ≡ text.old.items
        ++ statement_text indent.now (spelled_statement (vocabulary_of names.now)
        (fill_form array (expression bounds.entry.0.now) (expression bounds.entry.1.now)
        (expression value.now)))) }
{
    push(text, indent)?;
    push(text, b"fill ")?;
    push_slice(alloc, text, names, array, bounds.0, bounds.1)?;
    push(text, b" = ")?;
    push_expression(alloc, text, names, value)?;
    push(text, b";\n")
}

/// Adds a `fail`.
pub(crate) fn push_fail(
    alloc: Global,
    text: &mut Vec<u8>,
    indent: &[u8],
    number: u8,
) -> Result<(), AllocError>
    ensures { IfOk result (λ _. text.new.items
        ≡ text.old.items
        ++ line indent.now (codes "fail " ∷ signed_decimal (pos number) ∷ codes ";" ∷ [])) }
{
    push(text, indent)?;
    push(text, b"fail ")?;
    push_count(alloc, text, u64::from(number))?;
    push(text, b";\n")
}

/// Adds a call whose answer is dropped.
pub(crate) fn push_call(
    alloc: Global,
    text: &mut Vec<u8>,
    names: &Names,
    indent: &[u8],
    f: u32,
    given: &[Expr],
) -> Result<(), AllocError>
    ensures { IfOk result (λ _. text.new.items ≡ text.old.items
        ++ statement_text indent.now (spelled_statement (vocabulary_of names.now)
        (do_form f (arguments given.now)))) }
{
    push(text, indent)?;
    push(text, function_name(names.functions, f))?;
    push_arguments(alloc, text, names, given)?;
    push(text, b";\n")
}

/// Adds the line that begins a `for`.
pub(crate) fn push_for_head(
    alloc: Global,
    text: &mut Vec<u8>,
    names: &Names,
    indent: &[u8],
    slot: u32,
    low: &Expr,
    high: &Expr,
) -> Result<(), AllocError>
    ensures { IfOk result (λ _. text.new.items
        ≡ text.old.items
        ++ line indent.now (codes "for " ∷ name_at (vocabulary_of names.now).slots slot
        ∷ codes " in "
        ∷ expression_text (spelled_expression (vocabulary_of names.now) (expression low.now))
        ∷ codes ".."
        ∷ expression_text (spelled_expression (vocabulary_of names.now) (expression high.now))
        ∷ codes " {" ∷ [])) }
{
    push(text, indent)?;
    push(text, b"for ")?;
    push(text, slot_name(names.slots, slot))?;
    push(text, b" in ")?;
    push_range(alloc, text, names, low, high)?;
    push(text, b" {\n")
}

/// Adds the line that begins a `while`.
pub(crate) fn push_while_head(
    alloc: Global,
    text: &mut Vec<u8>,
    names: &Names,
    indent: &[u8],
    test: &Cond,
    most: u64,
) -> Result<(), AllocError>
    ensures { IfOk result (λ _. text.new.items
        ≡ text.old.items
        ++ line indent.now (codes "while "
        ∷ expression_text (spelled_condition (vocabulary_of names.now) (condition test.now))
        ∷ codes " max " ∷ decimal most ∷ codes " {" ∷ [])) }
{
    push(text, indent)?;
    push(text, b"while ")?;
    push_condition(alloc, text, names, test)?;
    push(text, b" max ")?;
    push_count(alloc, text, most)?;
    push(text, b" {\n")
}

/// Adds the line that begins an `if`.
pub(crate) fn push_if_head(
    alloc: Global,
    text: &mut Vec<u8>,
    names: &Names,
    indent: &[u8],
    test: &Cond,
) -> Result<(), AllocError>
    ensures { IfOk result (λ _. text.new.items ≡ text.old.items
        ++ line indent.now (codes "if " ∷ expression_text
        (spelled_condition (vocabulary_of names.now) (condition test.now)) ∷ codes " {" ∷ [])) }
{
    push(text, indent)?;
    push(text, b"if ")?;
    push_condition(alloc, text, names, test)?;
    push(text, b" {\n")
}

/// Adds the start of a fold's first line, up to its start row.
fn push_fold_start(
    alloc: Global,
    text: &mut Vec<u8>,
    names: &Names,
    indent: &[u8],
    fold: &Fold,
) -> Result<(), AllocError>
    ensures { IfOk result (λ _. text.new.items
        ≡ text.old.items ++ indent.now
        ++ joined (codes "specfold "
        ∷ carried_text (spelled_fold (vocabulary_of names.now) (fold_head fold.now)).carried
        ∷ codes " = " ∷ row_text (spelled_fold (vocabulary_of names.now) (fold_head fold.now)).start
        ∷ [])) }
{
    push(text, indent)?;
    push(text, b"specfold ")?;
    push_carried(text, names.slots, &fold.carried)?;
    push(text, b" = ")?;
    push_row(alloc, text, names, &fold.start)
}

/// Adds a fold's range of blocks.
fn push_fold_range(
    alloc: Global,
    text: &mut Vec<u8>,
    names: &Names,
    fold: &Fold,
) -> Result<(), AllocError>
    ensures { IfOk result (λ _. text.new.items
        ≡ text.old.items
        ++ joined (codes " for "
        ∷ (spelled_fold (vocabulary_of names.now) (fold_head fold.now)).block ∷ codes " in "
        ∷ expression_text (spelled_fold (vocabulary_of names.now) (fold_head fold.now)).low
        ∷ codes ".."
        ∷ expression_text (spelled_fold (vocabulary_of names.now) (fold_head fold.now)).high
        ∷ [])) }
{
    push(text, b" for ")?;
    push(text, slot_name(names.slots, fold.block))?;
    push(text, b" in ")?;
    push_range(alloc, text, names, &fold.low, &fold.high)
}

/// Adds the line that begins a fold.
pub(crate) fn push_fold_head(
    alloc: Global,
    text: &mut Vec<u8>,
    names: &Names,
    indent: &[u8],
    fold: &Fold,
) -> Result<(), AllocError>
    ensures { IfOk result (λ _. text.new.items
        ≡ text.old.items
        ++ fold_line indent.now (spelled_fold (vocabulary_of names.now) (fold_head fold.now))) }
{
    push_fold_start(alloc, text, names, indent, fold)?;
    push_fold_range(alloc, text, names, fold)?;
    push_predict(alloc, text, names, &fold.predict)
}

/// Adds the line that begins a pair.
pub(crate) fn push_pair_head(
    text: &mut Vec<u8>,
    names: &Names,
    indent: &[u8],
    carried: &[u32],
) -> Result<(), AllocError>
    ensures { IfOk result (λ _. text.new.items
        ≡ text.old.items
        ++ line indent.now (codes "spec "
        ∷ carried_text (spelled_names (vocabulary_of names.now) carried.now) ∷ codes " = {" ∷ [])) }
{
    push(text, indent)?;
    push(text, b"spec ")?;
    push_carried(text, names.slots, carried)?;
    push(text, b" = {\n")
}

/// Adds the line between a pair's producer and its consumer.
pub(crate) fn push_consumer_head(
    alloc: Global,
    text: &mut Vec<u8>,
    names: &Names,
    indent: &[u8],
    predict: &[Predict],
) -> Result<(), AllocError>
    ensures { IfOk result (λ _. text.new.items
        ≡ text.old.items
        ++ line indent.now
        (codes "} predict "
        ∷ guess_text (map (spelled_predictor (vocabulary_of names.now)) (map predictor predict.now))
        ∷ codes " {" ∷ [])) }
{
    push(text, indent)?;
    push(text, b"}")?;
    push_predict(alloc, text, names, predict)
}
