//! Merging two lists of ranges, and finding their common part, in one pass from the left.
ghost use Rattle.std.specs.Prelude.{◌≡◌, ◌+ℤ◌, pos, int_le, false, IfOk};
ghost use Rattle.std.specs.Int.{int_min, int_max};
ghost use Rattle.spf_region.specs.Merging.{in_order, starts_by, ends_by, hull, overlap, filled};
ghost use Rattle.spf_region.specs.Merging.{interleaved, coalesced, met};
ghost use Rattle.spf_region.specs.Ranges.{offsets_of, wholes_of, has_array, joined, whole_joined};
ghost use Rattle.spf_region.specs.Ranges.{array_joined, in_either, whole_in_either, in_both};
ghost use Rattle.spf_region.specs.Ranges.{whole_in_both, is_empty, IsNormal};

use crate::range::Range;
use std::alloc::{AllocError, Global};

// Returns whether an offset of an array and a factor doesn't come after another one.
fn in_order(
    array: u32,
    factor: i64,
    offset: i64,
    other_array: u32,
    other_factor: i64,
    other_offset: i64,
) -> bool
    ensures { result ≡ in_order array factor offset other_array other_factor other_offset }
{
    if array != other_array {
        return array < other_array;
    }
    if factor != other_factor {
        return factor < other_factor;
    }
    offset <= other_offset
}

// Returns whether `range` doesn't begin after `other`.
fn starts_by(range: &Range, other: &Range) -> bool
    ensures { result ≡ starts_by range.now other.now }
{
    match (*range, *other) {
        (Range::Whole { array }, two) => array <= two.array(),
        (Range::Affine { array, .. }, Range::Whole { array: other_array }) => array < other_array,
        (
            Range::Affine {
                array,
                factor,
                from,
                ..
            },
            Range::Affine {
                array: other_array,
                factor: other_factor,
                from: other_from,
                ..
            },
        ) => in_order(array, factor, from, other_array, other_factor, other_from),
    }
}

// Returns whether `range` doesn't end after `other`.
fn ends_by(range: &Range, other: &Range) -> bool
    ensures { result ≡ ends_by range.now other.now }
{
    match (*range, *other) {
        (Range::Whole { array }, two) => array <= two.array(),
        (Range::Affine { array, .. }, Range::Whole { array: other_array }) => array < other_array,
        (
            Range::Affine {
                array,
                factor,
                to,
                ..
            },
            Range::Affine {
                array: other_array,
                factor: other_factor,
                to: other_to,
                ..
            },
        ) => in_order(array, factor, to, other_array, other_factor, other_to),
    }
}

// Returns whether an interval that begins at `from` meets or touches one before it that ends at
// `to`.
fn touches(to: i64, from: i64) -> bool
    ensures { result ≡ int_le from (to +ℤ pos 1) }
{
    from <= to || from - 1 == to
}

// The range that covers both, where they meet or touch. `next` doesn't begin before `range`.
fn hull(range: &Range, next: &Range) -> Option<Range>
    ensures { result ≡ hull range.now next.now }
{
    match (*range, *next) {
        (Range::Whole { array }, Range::Whole { array: other_array }) => {
            if array == other_array {
                Some(*range)
            } else {
                None
            }
        }
        (
            Range::Affine {
                array,
                factor,
                from,
                to,
            },
            Range::Affine {
                array: other_array,
                factor: other_factor,
                from: other_from,
                to: other_to,
            },
        ) => {
            if array == other_array && factor == other_factor && touches(to, other_from) {
                Some(Range::Affine {
                    array,
                    factor,
                    from,
                    to: to.max(other_to),
                })
            } else {
                None
            }
        }
        _ => None,
    }
}

// The range of the offsets that are both from `from` to `to` and from `other_from` to `other_to`,
// if there are any.
fn common(
    array: u32,
    factor: i64,
    from: i64,
    to: i64,
    other_from: i64,
    other_to: i64,
) -> Option<Range>
    ensures { result ≡ filled array factor (int_max from other_from) (int_min to other_to) }
{
    let first = from.max(other_from);
    let last = to.min(other_to);
    if first <= last {
        Some(Range::Affine {
            array,
            factor,
            from: first,
            to: last,
        })
    } else {
        None
    }
}

// The range of what both have.
fn overlap(range: &Range, other: &Range) -> Option<Range>
    ensures { result ≡ overlap range.now other.now }
{
    match (*range, *other) {
        (Range::Whole { array }, Range::Whole { array: other_array }) => {
            if array == other_array {
                Some(*range)
            } else {
                None
            }
        }
        (
            Range::Affine {
                array,
                factor,
                from,
                to,
            },
            Range::Affine {
                array: other_array,
                factor: other_factor,
                from: other_from,
                to: other_to,
            },
        ) => {
            if array != other_array {
                return None;
            }
            if factor != other_factor {
                return None;
            }
            common(array, factor, from, to, other_from, other_to)
        }
        _ => None,
    }
}

// The ranges of both lists by where they begin.
fn interleave(alloc: Global, left: &[Range], right: &[Range]) -> Result<Vec<Range>, AllocError>
    ensures { IfOk result (λ all. all.items ≡ interleaved left.now right.now) }
{
    let mut all = Vec::new(alloc);
    let (mut i, mut j) = (0, 0);
    while i < left.len() && j < right.len() {
        if starts_by(&left[i], &right[j]) {
            all.push(left[i])?;
            i += 1;
        } else {
            all.push(right[j])?;
            j += 1;
        }
    }
    all.extend_from_slice(&left[i..])?;
    all.extend_from_slice(&right[j..])?;
    Ok(all)
}

// The ranges of a list, of which each begins no later than the next, joined where they touch.
fn coalesce(alloc: Global, ranges: &[Range]) -> Result<Vec<Range>, AllocError>
    ensures { IfOk result (λ joined. joined.items ≡ coalesced ranges.now) }
{
    let mut joined = Vec::new(alloc);
    let Some((first, rest)) = ranges.split_first() else {
        return Ok(joined);
    };
    let mut pending = *first;
    for range in rest {
        match hull(&pending, range) {
            Some(wider) => pending = wider,
            None => {
                joined.push(pending)?;
                pending = *range;
            }
        }
    }
    joined.push(pending)?;
    Ok(joined)
}

/// The list in normal form of what either of two such lists has.
pub(crate) fn merge(
    alloc: Global,
    left: &[Range],
    right: &[Range],
) -> Result<Vec<Range>, AllocError>
    requires left { IsNormal left.now }
    requires right { IsNormal right.now }
    ensures offsets { IfOk result
        (λ list. offsets_of list.items ≡ in_either (offsets_of left.now) (offsets_of right.now)) }
    ensures wholes { IfOk result (λ list.
        wholes_of list.items ≡ whole_in_either (wholes_of left.now) (wholes_of right.now)) }
    ensures arrays { IfOk result (λ list.
        has_array list.items ≡ whole_in_either (has_array left.now) (has_array right.now)) }
    ensures normal { IfOk result (λ list. IsNormal list.items) }
{
    let all = interleave(alloc, left, right)?;
    coalesce(alloc, &all)
}

/// The list in normal form of what a range that isn't empty and such a list have.
pub(crate) fn add_range(
    alloc: Global,
    range: Range,
    ranges: &[Range],
) -> Result<Vec<Range>, AllocError>
    requires filled { is_empty range ≡ false }
    requires normal { IsNormal ranges.now }
    ensures offsets { IfOk result
        (λ list. offsets_of list.items ≡ joined range (offsets_of ranges.now)) }
    ensures wholes { IfOk result
        (λ list. wholes_of list.items ≡ whole_joined range (wholes_of ranges.now)) }
    ensures arrays { IfOk result
        (λ list. has_array list.items ≡ array_joined range (has_array ranges.now)) }
    ensures normal { IfOk result (λ list. IsNormal list.items) }
{
    let all = interleave(alloc, &[range], ranges)?;
    coalesce(alloc, &all)
}

// The common ranges of two lists in normal form.
fn common_ranges(alloc: Global, left: &[Range], right: &[Range]) -> Result<Vec<Range>, AllocError>
    ensures { IfOk result (λ list. list.items ≡ met left.now right.now) }
{
    let mut common = Vec::new(alloc);
    let (mut i, mut j) = (0, 0);
    while i < left.len() && j < right.len() {
        if let Some(range) = overlap(&left[i], &right[j]) {
            common.push(range)?;
        }
        if ends_by(&left[i], &right[j]) {
            i += 1;
        } else {
            j += 1;
        }
    }
    Ok(common)
}

/// The list in normal form of what both of two such lists have.
pub(crate) fn intersect(
    alloc: Global,
    left: &[Range],
    right: &[Range],
) -> Result<Vec<Range>, AllocError>
    requires left { IsNormal left.now }
    requires right { IsNormal right.now }
    ensures offsets { IfOk result
        (λ list. offsets_of list.items ≡ in_both (offsets_of left.now) (offsets_of right.now)) }
    ensures wholes { IfOk result
        (λ list. wholes_of list.items ≡ whole_in_both (wholes_of left.now) (wholes_of right.now)) }
    ensures normal { IfOk result (λ list. IsNormal list.items) }
{
    common_ranges(alloc, left, right)
}
