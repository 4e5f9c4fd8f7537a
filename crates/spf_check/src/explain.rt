//! Explains what the rules find in a program.
ghost use Rattle.std.specs.Prelude.{◌≡◌, ◌<◌, ◌++◌, map, string_bytes, Some, length, slice_get};
ghost use Rattle.std.specs.Prelude.{IfOk};
ghost use Rattle.spf_ast.specs.Lawful.{IsLawful};
ghost use Rattle.spf_ast.specs.View.{array as seen_array, program as seen_program};
ghost use Rattle.spf_ast.specs.Construct.{Construct, constructs_in};
ghost use Rattle.spf_ast.specs.ConstructView.{construct as seen_construct};
ghost use Rattle.spf_effects.specs.Effects.{AreEffects};
ghost use Rattle.spf_effects_findings.specs.Parts.{part_effects};
ghost use Rattle.spf_check.specs.Accepting.{IsLowestBroken};
ghost use Rattle.spf_check.specs.Explaining.{Explains};
ghost use Rattle.std.specs.Prelude.{List, ℕ};
ghost use Rattle.spf_ast.specs.Syntax.{Program as plain_program};
ghost use Rattle.spf_check.specs.Parts.{AreEffectsOf};
ghost use Rattle.spf_check.specs.Text.{part_name, list_line, part_lines, broken_line};
ghost use Rattle.spf_check.specs.Text.{construct_line, IsVerdictText, IsConstructText};
ghost use Rattle.spf_check.specs.Explained.{effects_lines, fold_lines, pair_lines, parts_lines};

use crate::check::effects_of;
use crate::construct::ConstructEffects;
use crate::rule::Rule;
use crate::text::{push_range, push_ranges, rule_name};
use spf_ast::construct::{ConstructKind, TopConstruct, constructs};
use spf_ast::syntax::{Array, Part, Program};
use spf_effects::effects::Effects;
use spf_region::list::RangeList;
use spf_region::range::Range;
use std::alloc::{AllocError, Global};

/// The name of a part.
fn part_name(part: Part) -> &'static str
    ensures { result.now ≡ part_name part }
{
    match part {
        Part::Body => "body",
        Part::Producer => "producer",
        Part::Consumer => "consumer",
        Part::Predictor => "predictor",
    }
}

/// Adds the line of a list of ranges of a part.
fn push_list(
    alloc: Global,
    arrays: &[Array],
    part: Part,
    what: &str,
    list: &RangeList,
    text: &mut Vec<u8>,
) -> Result<(), AllocError>
    ensures { IfOk result (λ _. text.new.items
        ≡ text.old.items ++ list_line (map seen_array arrays.now) part what.now list.now) }
{
    let name = part_name(part);
    let begin = format!(in alloc; "{name} {what}")?;
    text.extend_from_slice(begin.as_bytes())?;
    push_ranges(alloc, arrays, list.ranges(), text)?;
    text.push(b'\n')?;
    Ok(())
}

/// Adds the lines of a part.
#[tactic(auto, unfolding(crate::specs::Text::part_lines))]
fn push_part(
    alloc: Global,
    arrays: &[Array],
    part: Part,
    found: &Effects,
    text: &mut Vec<u8>,
) -> Result<(), AllocError>
    ensures { IfOk result (λ _. text.new.items
        ≡ text.old.items
        ++ part_lines (map seen_array arrays.now) part found.now.uncovered found.now.may
        found.now.must) }
{
    push_list(alloc, arrays, part, "uncovered", &found.uncovered, text)?;
    push_list(alloc, arrays, part, "may", &found.may, text)?;
    push_list(alloc, arrays, part, "must", &found.must, text)
}

/// Adds the lines of the parts of a fold.
fn push_fold(
    alloc: Global,
    arrays: &[Array],
    predictor: &Effects,
    body: &Effects,
    text: &mut Vec<u8>,
) -> Result<(), AllocError>
    ensures { IfOk result (λ _. text.new.items
        ≡ text.old.items ++ fold_lines (map seen_array arrays.now) predictor.now body.now) }
{
    push_part(alloc, arrays, Part::Predictor, predictor, text)?;
    push_part(alloc, arrays, Part::Body, body, text)
}

/// Adds the lines of the parts of a pair.
fn push_pair(
    alloc: Global,
    arrays: &[Array],
    producer: &Effects,
    predictor: &Effects,
    consumer: &Effects,
    text: &mut Vec<u8>,
) -> Result<(), AllocError>
    ensures { IfOk result (λ _. text.new.items
        ≡ text.old.items
        ++ pair_lines (map seen_array arrays.now) producer.now predictor.now consumer.now) }
{
    push_part(alloc, arrays, Part::Producer, producer, text)?;
    push_part(alloc, arrays, Part::Predictor, predictor, text)?;
    push_part(alloc, arrays, Part::Consumer, consumer, text)
}

/// Adds the lines of all parts of a construct.
fn push_parts(
    alloc: Global,
    arrays: &[Array],
    found: &ConstructEffects,
    text: &mut Vec<u8>,
) -> Result<(), AllocError>
    ensures { IfOk result (λ _.
        text.new.items ≡ text.old.items ++ parts_lines (map seen_array arrays.now) found.now) }
{
    let (guessed, predictor) = (&found.guessed, &found.predictor);
    match &found.producer {
        Some(producer) => push_pair(alloc, arrays, producer, predictor, guessed, text),
        None => push_fold(alloc, arrays, predictor, guessed, text),
    }
}

/// Adds the line of a rule that is broken, with its range.
fn push_broken(
    alloc: Global,
    arrays: &[Array],
    rule: Rule,
    range: Option<Range>,
    text: &mut Vec<u8>,
) -> Result<(), AllocError>
    ensures { IfOk result (λ _.
        text.new.items ≡ text.old.items ++ broken_line (map seen_array arrays.now) rule range) }
{
    let name = rule_name(rule);
    let begin = format!(in alloc; "verdict {name}")?;
    text.extend_from_slice(begin.as_bytes())?;
    if let Some(range) = range {
        text.push(b' ')?;
        push_range(alloc, arrays, range, text)?;
    }
    text.push(b'\n')?;
    Ok(())
}

/// Adds the verdict on a construct: accepted, or the lowest rule that it breaks, with its range.
fn push_verdict(
    alloc: Global,
    arrays: &[Array],
    found: &ConstructEffects,
    text: &mut Vec<u8>,
) -> Result<(), AllocError>
    ensures { (p : plain_program) (c : Construct) → p.arrays ≡ map seen_array arrays.now
        → AreEffectsOf p c found.now
        → IfOk result (λ _. (verdict : List ℕ) × IsVerdictText p c verdict
        × (text.new.items ≡ text.old.items ++ verdict)) }
{
    match found.lowest_broken() {
        Some((rule, range)) => push_broken(alloc, arrays, rule, range, text),
        None => text.extend_from_slice(b"verdict accepted\n"),
    }
}

/// The line that names a construct.
fn construct_line(alloc: Global, construct: &TopConstruct) -> Result<String, AllocError>
    ensures { IfOk result
        (λ text. string_bytes text ≡ construct_line (seen_construct construct.now)) }
{
    let line = construct.line;
    match construct.kind {
        ConstructKind::Fold(_) => format!(in alloc; "fold line {line}\n"),
        ConstructKind::Pair(_) => format!(in alloc; "pair line {line}\n"),
    }
}

/// Adds the lines of a construct, given its effects.
fn push_found(
    alloc: Global,
    arrays: &[Array],
    construct: &TopConstruct,
    found: &ConstructEffects,
    text: &mut Vec<u8>,
) -> Result<(), AllocError>
    ensures { (p : plain_program) → p.arrays ≡ map seen_array arrays.now
        → AreEffectsOf p (seen_construct construct.now) found.now
        → IfOk result (λ _. (lines : List ℕ)
        × IsConstructText p (seen_construct construct.now) lines
        × (text.new.items ≡ text.old.items ++ lines)) }
{
    found.are_normal();
    let line = construct_line(alloc, construct)?;
    text.extend_from_slice(line.as_bytes())?;
    push_parts(alloc, arrays, found, text)?;
    push_verdict(alloc, arrays, found, text)
}

/// Adds the lines of a construct.
fn push_construct(
    alloc: Global,
    program: &Program,
    construct: TopConstruct,
    text: &mut Vec<u8>,
) -> Result<(), AllocError>
    ensures { IfOk result (λ _. (lines : List ℕ) × IsConstructText (seen_program program.now)
        (seen_construct construct.entry) lines × (text.new.items ≡ text.old.items ++ lines)) }
{
    let found = effects_of(alloc, program, construct)?;
    push_found(alloc, &program.arrays, &construct, &found, text)
}

/// Explains a lawful program: for each top construct a line that names it, for each of its parts
/// what it reads uncovered, may write and surely writes, and the verdict.
///
/// # Errors
///
/// `AllocError` where there was no memory for the analysis or the text.
pub fn explain(alloc: Global, program: &Program) -> Result<Vec<u8>, AllocError>
    ensures { IfOk result (λ text. Explains (seen_program program.now) text.items) }
{
    let found = constructs(alloc, &program.main)?;
    let mut text = Vec::new(alloc);
    for construct in &found {
        push_construct(alloc, program, *construct, &mut text)?;
    }
    Ok(text)
}
