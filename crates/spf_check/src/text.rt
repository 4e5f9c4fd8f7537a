//! How rules and ranges are written.
ghost use Rattle.std.specs.Prelude.{◌≡◌, ◌++◌, map, string_bytes, IfOk};
ghost use Rattle.spf_ast.specs.View.{array as seen_array};
ghost use Rattle.spf_check.specs.Text.{rule_name, array_name, offsets_text, range_text};
ghost use Rattle.spf_check.specs.Text.{ranges_text, perhaps_range};

use crate::rule::Rule;
use spf_ast::syntax::Array;
use spf_region::range::Range;
use std::alloc::{AllocError, Global};

/// Returns the name of a rule.
pub fn rule_name(rule: Rule) -> &'static str
    ensures { result.now ≡ rule_name rule }
{
    match rule {
        Rule::OuterAssign => "outer-assign",
        Rule::EmitInside => "emit-inside",
        Rule::PredictorWrites => "predictor-writes",
        Rule::Overlap => "overlap",
        Rule::PredictorReads => "predictor-reads",
        Rule::ReadBeforeWrite => "read-before-write",
        Rule::NotOverwritten => "not-overwritten",
    }
}

/// The name of an array, or no bytes where there is no such array.
fn array_name(arrays: &[Array], index: u32) -> &[u8]
    ensures { result.now ≡ array_name (map seen_array arrays.now) index }
{
    match arrays.get(index as usize) {
        Some(array) => &array.name.bytes,
        None => &[],
    }
}

/// The offsets of a range, in brackets: `[F*k+A..F*k+Z]` with Z one past the last offset, or `[..]`
/// for a whole array.
fn offsets_text(alloc: Global, range: Range) -> Result<String, AllocError>
    ensures { IfOk result (λ text. string_bytes text ≡ offsets_text range) }
{
    match range {
        Range::Whole { .. } => String::from_str(alloc, "[..]"),
        Range::Affine {
            factor,
            from,
            to,
            ..
        } => {
            let end = i128::from(to) + 1;
            format!(in alloc; "[{factor}*k+{from}..{factor}*k+{end}]")
        }
    }
}

/// Adds a range: `NAME[F*k+A..F*k+Z]` with Z one past the last offset, or `NAME[..]` for a whole
/// array.
///
/// # Errors
///
/// `AllocError` where there is no memory for the text.
pub fn push_range(
    alloc: Global,
    arrays: &[Array],
    range: Range,
    text: &mut Vec<u8>,
) -> Result<(), AllocError>
    ensures { IfOk result
        (λ _. text.new.items ≡ text.old.items ++ range_text (map seen_array arrays.now) range) }
{
    text.extend_from_slice(array_name(arrays, range.array()))?;
    let offsets = offsets_text(alloc, range)?;
    text.extend_from_slice(offsets.as_bytes())
}

/// Adds ranges, each after a space.
pub(crate) fn push_ranges(
    alloc: Global,
    arrays: &[Array],
    ranges: &[Range],
    text: &mut Vec<u8>,
) -> Result<(), AllocError>
    ensures { IfOk result (λ _.
        text.new.items ≡ text.old.items ++ ranges_text (map seen_array arrays.now) ranges.now) }
{
    for range in ranges {
        text.push(b' ')?;
        push_range(alloc, arrays, *range, text)?;
    }
    Ok(())
}
