//! Lists of ranges in their normal form.
ghost use Rattle.std.specs.Prelude.{◌≡◌, [], ℕ, ◌+◌, ◌<◌, ◌^◌, length, true, OnOk, OnErr, IfOk};
ghost use Rattle.std.specs.List.{All};
ghost use Rattle.spf_region.specs.Cells.{in_spans, cells_at, AreAscending};
ghost use Rattle.spf_region.specs.Ranges.{offsets_of, wholes_of, joined, whole_joined};
ghost use Rattle.spf_region.specs.Ranges.{array_joined, in_either, whole_in_either, in_both};
ghost use Rattle.spf_region.specs.Ranges.{whole_in_both, covers, has_array, first_unseparated};
ghost use Rattle.spf_region.specs.Ranges.{first_meeting, IsNormal};

use crate::cells::spans_at;
use crate::merge::{add_range, intersect, merge};
use crate::query::{covers_offsets, first_meeting, first_unseparated, has_array};
use crate::range::Range;
use crate::span::Span;
use std::alloc::{AllocError, Global};
use std::marker::Model;

/// A list of ranges in normal form: by array; for each array the whole array first, then by factor,
/// then by offset, no range empty, and those of one array and factor with a gap between each and
/// the next.
///
/// A set of offsets and whole arrays has one such list.
#[derive(Drop)]
pub struct RangeList {
    items: Vec<Range>,
}

impl Model for RangeList {
    ghost use Rattle.std.specs.Prelude.{List};
    ghost use Rattle.spf_region.specs.declared.range.Range.{Range};
    ghost use Rattle.spf_region.specs.Ranges.{IsNormal};

    ghost Value = { List Range };

    ghost view = { λ list. list.items.items };

    ghost invariant = { λ list. IsNormal list.items.items };
}

impl RangeList {
    /// Makes the empty list. It takes no memory.
    pub fn new(alloc: Global) -> RangeList
        ensures empty { result ≡ [] }
    {
        RangeList {
            items: Vec::new(alloc),
        }
    }

    /// Adds a range. A range whose `from` is greater than its `to` adds nothing.
    ///
    /// # Errors
    ///
    /// `AllocError` where there is no memory for the list. It then stays as it was.
    pub fn add(&mut self, alloc: Global, range: Range) -> Result<(), AllocError>
        ensures offsets { OnOk result (offsets_of self.new ≡ joined range (offsets_of self.old)) }
        ensures wholes { OnOk result
            (wholes_of self.new ≡ whole_joined range (wholes_of self.old)) }
        ensures arrays { OnOk result
            (has_array self.new ≡ array_joined range (has_array self.old)) }
        ensures normal { IsNormal self.new }
        ensures unchanged { OnErr result (self.new ≡ self.old) }
    {
        let ranges = self.items.as_slice();
        if range.is_empty() {
            return Ok(());
        }
        let more = add_range(alloc, range, ranges)?;
        self.items = more;
        Ok(())
    }

    /// Returns the list of what either of two lists has.
    ///
    /// # Errors
    ///
    /// `AllocError` where there is no memory for it.
    pub fn join(&self, alloc: Global, other: &RangeList) -> Result<RangeList, AllocError>
        ensures offsets { IfOk result
            (λ list. offsets_of list ≡ in_either (offsets_of self.now) (offsets_of other.now)) }
        ensures wholes { IfOk result
            (λ list. wholes_of list ≡ whole_in_either (wholes_of self.now) (wholes_of other.now)) }
        ensures arrays { IfOk result
            (λ list. has_array list ≡ whole_in_either (has_array self.now) (has_array other.now)) }
        ensures normal { IfOk result (λ list. IsNormal list) }
    {
        Ok(RangeList {
            items: merge(alloc, &self.items, &other.items)?,
        })
    }

    /// Returns the list of what both of two lists have.
    ///
    /// # Errors
    ///
    /// `AllocError` where there is no memory for it.
    pub fn meet(&self, alloc: Global, other: &RangeList) -> Result<RangeList, AllocError>
        ensures offsets { IfOk result
            (λ list. offsets_of list ≡ in_both (offsets_of self.now) (offsets_of other.now)) }
        ensures wholes { IfOk result
            (λ list. wholes_of list ≡ whole_in_both (wholes_of self.now) (wholes_of other.now)) }
        ensures normal { IfOk result (λ list. IsNormal list) }
    {
        Ok(RangeList {
            items: intersect(alloc, &self.items, &other.items)?,
        })
    }

    /// Returns whether the range is affine, and each of its offsets stands in an affine range of
    /// the same array and factor.
    pub fn covers(&self, range: &Range) -> bool
        ensures covers { result ≡ covers (offsets_of self.now) range.now }
    {
        covers_offsets(&self.items, range)
    }

    /// Returns whether some range has that array.
    pub fn touches(&self, array: u32) -> bool
        ensures touches { result ≡ has_array self.now array }
    {
        has_array(&self.items, array)
    }

    /// Returns the ranges in their order.
    pub fn ranges(&self) -> &[Range]
        ensures list { result.now ≡ self.now }
        ensures normal { IsNormal self.now }
    {
        &self.items
    }

    /// Returns the first range that isn't separate from each range of the list, itself included.
    pub fn first_unseparated(&self) -> Option<Range>
        ensures first { result ≡ first_unseparated self.now }
    {
        first_unseparated(&self.items)
    }

    /// Returns the first range that isn't disjoint from each range of the other list.
    pub fn meeting(&self, others: &RangeList) -> Option<Range>
        ensures first { result ≡ first_meeting self.now others.now }
    {
        first_meeting(&self.items, &others.items)
    }

    /// Returns the cells of the ranges at block k, clipped to their arrays, as ascending spans,
    /// none empty and with a gap between each and the next.
    ///
    /// `extents` has the base and the size of each array.
    ///
    /// # Errors
    ///
    /// `AllocError` where there is no memory for the spans.
    pub fn spans_at(
        &self,
        alloc: Global,
        extents: &[(u64, u64)],
        k: i64,
    ) -> Result<Vec<Span>, AllocError>
        requires inside { (array : ℕ) → has_array self.now array ≡ true
            → array < length extents.now }
        requires fits { All (λ e. e.0 + e.1 < 2 ^ 64) extents.now }
        ensures cells { IfOk result
            (λ v. (cell : ℕ) → in_spans v.items cell ≡ cells_at extents.now k self.now cell) }
        ensures ascending { IfOk result (λ v. AreAscending v.items) }
    {
        spans_at(alloc, &self.items, extents, k)
    }
}
