//! Ranges of cells, and when two of them can't share one.
ghost use Rattle.std.specs.Prelude.{◌≡◌, ◌-ℤ◌, pos, int_lt};
ghost use Rattle.std.specs.Int.{int_min, int_max};
ghost use Rattle.spf_region.specs.Ranges.{array_of, is_empty, separate, disjoint, separate_offsets};
ghost use Rattle.spf_region.specs.Ranges.{disjoint_offsets};

/// A whole array, or at block k the cells `factor * k + from` to `factor * k + to` of an array,
/// the last one included.
#[derive(Clone, Copy, PartialEq, Eq, Debug)]
pub enum Range {
    Whole {
        array: u32,
    },
    Affine {
        array: u32,
        factor: i64,
        from: i64,
        to: i64,
    },
}

impl Range {
    /// Returns the array of the range.
    pub fn array(&self) -> u32
        ensures array { result ≡ array_of self.now }
    {
        match *self {
            Range::Whole { array } => array,
            Range::Affine { array, .. } => array,
        }
    }

    /// Returns whether the range has no offset, and is no whole array.
    pub fn is_empty(&self) -> bool
        ensures empty { result ≡ is_empty self.now }
    {
        match *self {
            Range::Whole { .. } => false,
            Range::Affine { from, to, .. } => to < from,
        }
    }

    /// Returns whether the two share no cell at different blocks, as far as arrays, factor and
    /// offsets say.
    pub fn is_separate(&self, other: &Range) -> bool
        ensures separate { result ≡ separate self.now other.now }
    {
        match (*self, *other) {
            (
                Range::Affine {
                    array,
                    factor,
                    from,
                    to,
                },
                Range::Affine {
                    array: other_array,
                    factor: other_factor,
                    from: other_from,
                    to: other_to,
                },
            ) => array != other_array
                || are_separate_offsets(factor, from, to, other_factor, other_from, other_to),
            (one, two) => one.array() != two.array(),
        }
    }

    /// Returns whether the two share no cell at any blocks, as far as arrays, factor and offsets
    /// say.
    pub fn is_disjoint(&self, other: &Range) -> bool
        ensures disjoint { result ≡ disjoint self.now other.now }
    {
        match (*self, *other) {
            (
                Range::Affine {
                    array,
                    factor,
                    from,
                    to,
                },
                Range::Affine {
                    array: other_array,
                    factor: other_factor,
                    from: other_from,
                    to: other_to,
                },
            ) => array != other_array
                || are_disjoint_offsets(factor, from, to, other_factor, other_from, other_to),
            (one, two) => one.array() != two.array(),
        }
    }
}

// Returns whether offsets of an array have the same positive factor, and lie less than it apart.
fn are_separate_offsets(
    factor: i64,
    from: i64,
    to: i64,
    other_factor: i64,
    other_from: i64,
    other_to: i64,
) -> bool
    ensures { result ≡ separate_offsets factor from to other_factor other_from other_to }
{
    if factor != other_factor {
        return false;
    }
    if factor <= 0 {
        return false;
    }
    is_within(to, other_from, factor) && is_within(other_to, from, factor)
}

// Returns whether no offset is both from `from` to `to` and from `other_from` to `other_to`.
fn have_none_in_common(from: i64, to: i64, other_from: i64, other_to: i64) -> bool
    ensures { result ≡ int_lt (int_min to other_to) (int_max from other_from) }
{
    let last = to.min(other_to);
    let first = from.max(other_from);
    last < first
}

// Returns whether offsets of an array have factor 0, with none in common.
fn are_disjoint_offsets(
    factor: i64,
    from: i64,
    to: i64,
    other_factor: i64,
    other_from: i64,
    other_to: i64,
) -> bool
    ensures { result ≡ disjoint_offsets factor from to other_factor other_from other_to }
{
    if factor != 0 {
        return false;
    }
    if other_factor != 0 {
        return false;
    }
    have_none_in_common(from, to, other_from, other_to)
}

// Returns whether the offset `high` is less than `factor` above `low`.
fn is_within(high: i64, low: i64, factor: i64) -> bool
    ensures { result ≡ int_lt (high -ℤ low) factor }
{
    match high.checked_sub(low) {
        Some(difference) => difference < factor,
        None => high < low,
    }
}
