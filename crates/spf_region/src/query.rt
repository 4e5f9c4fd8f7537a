//! What can be asked of ranges in a list.
ghost use Rattle.std.specs.Prelude.{◌≡◌, not};
ghost use Rattle.std.specs.List.{list_any};
ghost use Rattle.spf_region.specs.Ranges.{offsets_of, covers, separate, disjoint, has_array};
ghost use Rattle.spf_region.specs.Ranges.{first_unseparated, first_meeting, IsNormal};
ghost use Rattle.spf_region.specs.Spanning.{spans};

use crate::range::Range;

// Returns whether `other` has the first and the last offset of `range`.
fn spans(range: &Range, other: &Range) -> bool
    ensures { result ≡ spans range.now other.now }
{
    match (*range, *other) {
        (
            Range::Affine {
                array,
                factor,
                from,
                to,
            },
            Range::Affine {
                array: other_array,
                factor: other_factor,
                from: other_from,
                to: other_to,
            },
        ) => {
            if array != other_array {
                return false;
            }
            if factor != other_factor {
                return false;
            }
            other_from <= from && to <= other_to
        }
        _ => false,
    }
}

// Returns whether one range of the list has the first and the last offset of `range`.
fn is_spanned(ranges: &[Range], range: &Range) -> bool
    ensures { result ≡ list_any (spans range.now) ranges.now }
{
    ranges.iter().any(|other| spans(range, other))
}

/// Returns whether `range` is affine, and the list has each of its offsets.
pub(crate) fn covers_offsets(ranges: &[Range], range: &Range) -> bool
    requires { IsNormal ranges.now }
    ensures { result ≡ covers (offsets_of ranges.now) range.now }
{
    match *range {
        Range::Whole { .. } => false,
        Range::Affine { from, to, .. } => {
            if to < from {
                true
            } else {
                is_spanned(ranges, range)
            }
        }
    }
}

/// Returns whether some range has that array.
pub(crate) fn has_array(ranges: &[Range], array: u32) -> bool
    ensures { result ≡ has_array ranges.now array }
{
    ranges.iter().any(|range| range.array() == array)
}

// Returns whether the range isn't separate from some range of the list.
fn is_unseparated(ranges: &[Range], range: &Range) -> bool
    ensures { result ≡ list_any (λ s. not (separate range.now s)) ranges.now }
{
    ranges.iter().any(|other| !range.is_separate(other))
}

// Returns whether the range isn't disjoint from some range of the list.
fn is_meeting(ranges: &[Range], range: &Range) -> bool
    ensures { result ≡ list_any (λ s. not (disjoint range.now s)) ranges.now }
{
    ranges.iter().any(|other| !range.is_disjoint(other))
}

/// The first range that isn't separate from each range of the list, itself included.
pub(crate) fn first_unseparated(ranges: &[Range]) -> Option<Range>
    ensures { result ≡ first_unseparated ranges.now }
{
    ranges
        .iter()
        .copied()
        .find(|range| is_unseparated(ranges, range))
}

/// The first range that isn't disjoint from each of the others.
pub(crate) fn first_meeting(ranges: &[Range], others: &[Range]) -> Option<Range>
    ensures { result ≡ first_meeting ranges.now others.now }
{
    ranges
        .iter()
        .copied()
        .find(|range| is_meeting(others, range))
}
