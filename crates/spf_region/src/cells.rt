//! The cells of ranges at a block.
ghost use Rattle.std.specs.Prelude.{◌≡◌, ℕ, ◌+◌, ◌<◌, ◌^◌, nat_lt, not, ℤ, pos, ◌+ℤ◌, ◌*ℤ◌, ◌<ℤ◌};
ghost use Rattle.std.specs.Prelude.{◌≤◌, ◌-◌, unsigned_abs, false, IfOk, length, slice_index_or};
ghost use Rattle.std.specs.List.{All, list_any};
ghost use Rattle.std.specs.Int.{int_min, int_max};
ghost use Rattle.spf_region.specs.Ranges.{array_of};
ghost use Rattle.spf_region.specs.Cells.{at_block, is_cell, cells_at, in_span, in_spans};
ghost use Rattle.spf_region.specs.Cells.{AreAscending};
ghost use Rattle.spf_region.specs.Joining.{joined_spans};

use crate::range::Range;
use crate::span::Span;
use std::alloc::{AllocError, Global};

// A factor times a block number.
fn product(factor: i64, k: i64) -> i128
    ensures value { result ≡ factor *ℤ k }
    ensures size { unsigned_abs result ≤ 2 ^ 126 }
{
    i128::from(factor) * i128::from(k)
}

// Where an offset of a factor stands at block k.
fn at_block(factor: i64, k: i64, offset: i64) -> i128
    ensures value { result ≡ at_block k factor offset }
    ensures size { result <ℤ pos (2 ^ 127 - 1) }
{
    product(factor, k) + i128::from(offset)
}

// How many of the cells of an array stand before an index.
fn clamp(index: i128, size: u64) -> u64
    ensures value { pos result ≡ int_max (pos 0) (int_min index (pos size)) }
    ensures size { result ≤ size }
{
    if index <= 0 {
        0
    } else if index < i128::from(size) {
        index as u64
    } else {
        size
    }
}

// The cells of a range at block k, in an array that begins at `base` and has `size` cells. The span
// is empty where there are none.
fn span_of(range: &Range, base: u64, size: u64, k: i64) -> Span
    requires { base + size < 2 ^ 64 }
    ensures { (cell : ℕ) → in_span result cell ≡ is_cell (base, size) k range.now cell }
{
    match *range {
        Range::Whole { .. } => Span {
            from: base,
            to: base + size,
        },
        Range::Affine {
            factor,
            from,
            to,
            ..
        } => {
            let first = clamp(at_block(factor, k, from), size);
            let end = clamp(at_block(factor, k, to) + 1, size);
            Span {
                from: base + first,
                to: base + end,
            }
        }
    }
}

// The cells of a range at block k, in the extent of its array.
fn span_in(range: &Range, extents: &[(u64, u64)], k: i64) -> Span
    requires inside { array_of range.now < length extents.now }
    requires fits { All (λ e. e.0 + e.1 < 2 ^ 64) extents.now }
    ensures { (cell : ℕ)
        → in_span result cell
        ≡ is_cell (slice_index_or extents.now (array_of range.now) (0, 0)) k range.now cell }
{
    let (base, size) = extents[range.array() as usize];
    span_of(range, base, size, k)
}

// The spans of the ranges at block k that have cells, in the order of the ranges.
fn spans_of(
    alloc: Global,
    ranges: &[Range],
    extents: &[(u64, u64)],
    k: i64,
) -> Result<Vec<Span>, AllocError>
    requires inside { All (λ r. array_of r < length extents.now) ranges.now }
    requires fits { All (λ e. e.0 + e.1 < 2 ^ 64) extents.now }
    ensures cells { IfOk result
        (λ v. (cell : ℕ) → in_spans v.items cell ≡ cells_at extents.now k ranges.now cell) }
    ensures filled { IfOk result (λ v. list_any (λ s. not (nat_lt s.from s.to)) v.items ≡ false) }
{
    let mut spans = Vec::new(alloc);
    for range in ranges {
        let span = span_in(range, extents, k);
        if span.from < span.to {
            spans.push(span)?;
        }
    }
    Ok(spans)
}

// The spans of a list that is sorted by where they begin, joined where they meet or touch.
fn joined_spans(alloc: Global, sorted: &[Span]) -> Result<Vec<Span>, AllocError>
    ensures { IfOk result (λ v. v.items ≡ joined_spans sorted.now) }
{
    let mut joined = Vec::new(alloc);
    let Some((first, rest)) = sorted.split_first() else {
        return Ok(joined);
    };
    let mut pending = *first;
    for span in rest {
        if span.from <= pending.to {
            pending.to = pending.to.max(span.to);
        } else {
            joined.push(pending)?;
            pending = *span;
        }
    }
    joined.push(pending)?;
    Ok(joined)
}

/// The cells of the ranges at block k, each in the extent of its array, as ascending spans with
/// gaps.
pub(crate) fn spans_at(
    alloc: Global,
    ranges: &[Range],
    extents: &[(u64, u64)],
    k: i64,
) -> Result<Vec<Span>, AllocError>
    requires inside { All (λ r. array_of r < length extents.now) ranges.now }
    requires fits { All (λ e. e.0 + e.1 < 2 ^ 64) extents.now }
    ensures cells { IfOk result
        (λ v. (cell : ℕ) → in_spans v.items cell ≡ cells_at extents.now k ranges.now cell) }
    ensures ascending { IfOk result (λ v. AreAscending v.items) }
{
    let mut spans = spans_of(alloc, ranges, extents, k)?;
    spans.sort_unstable_by_key(|span| span.from);
    joined_spans(alloc, &spans)
}
