//! What an analysis has found so far.
ghost use Rattle.std.specs.Prelude.{◌≡◌, ℕ, false, [], OnOk, IfOk, Some, None, if◌then◌else◌, ◌&&◌};
ghost use Rattle.std.specs.Prelude.{◌-ℤ◌, pos, int_lt};
ghost use Rattle.std.specs.Ordering.{int_eq};
ghost use Rattle.spf_region.specs.Ranges.{offsets_of, wholes_of, joined, is_whole};
ghost use Rattle.spf_effects_findings.specs.Extends.{Extends, Lists, KeepsCommon, IsSwept};
ghost use Rattle.spf_effects_findings.specs.Found.{reads_element, may_write_whole, writes_element};
ghost use Rattle.spf_effects_findings.specs.Found.{may_write_between, surely_writes_between};
ghost use Rattle.spf_effects_findings.specs.Found.{writes_range, ◌then◌};

use spf_region::bound::Bound;
use spf_region::list::RangeList;
use spf_region::range::Range;
use std::alloc::{AllocError, Global};
use std::marker::Model;

/// Returns whether two offsets are equal.
fn is_same(low: i64, high: i64) -> bool
    ensures { result ≡ int_eq low high }
{
    low == high
}

/// A list with the same offsets and whole arrays.
fn copy_of(alloc: Global, list: &RangeList) -> Result<RangeList, AllocError>
    ensures offsets { IfOk result (λ copy. offsets_of copy ≡ offsets_of list.now) }
    ensures wholes { IfOk result (λ copy. wholes_of copy ≡ wholes_of list.now) }
{
    let none = RangeList::new(alloc);
    list.join(alloc, &none)
}

/// The last offset from `first` up to but excluding `end`, where there is one.
fn last_between(first: i64, end: i64) -> Option<i64>
    ensures { result ≡ (if int_lt first end then Some (end -ℤ pos 1) else None) }
{
    if first < end { Some(end - 1) } else { None }
}

/// Returns the last offset of a range, where each end is one offset and the range isn't empty.
pub fn last_of_one(low: i64, high: i64, end_low: i64, end_high: i64) -> Option<i64>
    ensures { result
        ≡ (if int_eq low high && (int_eq end_low end_high && int_lt low end_low)
        then Some (end_low -ℤ pos 1) else None) }
{
    if low != high {
        return None;
    }
    if end_low != end_high {
        return None;
    }
    last_between(low, end_low)
}

/// An offset that lies between these, both included.
#[derive(Clone, Copy)]
struct Between {
    low: i64,
    high: i64,
}

/// What is read before it is surely written, what may be written, and what is surely written so
/// far.
#[derive(Drop)]
pub struct Findings {
    /// What is read before it is surely written.
    pub uncovered: RangeList,
    /// What may be written.
    pub may: RangeList,
    /// What is surely written.
    pub written: RangeList,
}

impl Model for Findings {
    ghost use Rattle.spf_effects_findings.specs.Extends.{Lists};

    ghost Value = { Lists };

    ghost view = { λ f. record { uncovered = f.uncovered; may = f.may; written = f.written } };
}

impl Findings {
    /// Makes findings with nothing in them.
    pub fn new(alloc: Global) -> Findings
        ensures { result ≡ record { uncovered = []; may = []; written = [] } }
    {
        Findings {
            uncovered: RangeList::new(alloc),
            may: RangeList::new(alloc),
            written: RangeList::new(alloc),
        }
    }

    /// Adds a range to what is surely written.
    pub fn surely_write(&mut self, alloc: Global, range: Range) -> Result<(), AllocError>
        requires affine { (array : ℕ) → is_whole range array ≡ false }
        ensures { OnOk result (IsSwept (joined range) self.old self.new) }
    {
        self.written.add(alloc, range)
    }

    /// Returns a list of what is surely written so far.
    pub fn surely_written(&self, alloc: Global) -> Result<RangeList, AllocError>
        ensures offsets { IfOk result (λ copy. offsets_of copy ≡ offsets_of self.now.written) }
        ensures wholes { IfOk result (λ copy. wholes_of copy ≡ wholes_of self.now.written) }
    {
        copy_of(alloc, &self.written)
    }

    /// Takes this list for what is surely written, and gives the one that was.
    pub fn exchange_written(&mut self, written: RangeList) -> RangeList
        ensures lists { self.new
            ≡ record { uncovered = self.old.uncovered; may = self.old.may; written = written } }
        ensures written { result ≡ self.old.written }
    {
        std::mem::replace(&mut self.written, written)
    }

    /// Ends a loop. What its body wrote isn't sure, so this list, from before the loop, is what is
    /// surely written.
    pub fn leave_loop(&mut self, before: RangeList)
        ensures { self.new
            ≡ record { uncovered = self.old.uncovered; may = self.old.may; written = before } }
    {
        self.written = before;
    }

    /// Keeps only that part of what is surely written which the other list has too.
    pub fn keep_common(&mut self, alloc: Global, other: &RangeList) -> Result<(), AllocError>
        ensures { OnOk result (KeepsCommon other.now self.old self.new) }
    {
        let common = other.meet(alloc, &self.written)?;
        self.written = common;
        Ok(())
    }

    /// Adds a read of an element whose index has this bound.
    pub fn read_element(
        &mut self,
        alloc: Global,
        array: u32,
        index: Bound,
    ) -> Result<(), AllocError>
        ensures { OnOk result (Extends (reads_element array index) self.old self.new) }
    {
        match index {
            Bound::Unknown => self.uncovered.add(alloc, Range::Whole { array }),
            Bound::Known { factor, low, high } => {
                let range = Range::Affine {
                    array,
                    factor,
                    from: low,
                    to: high,
                };
                if self.written.covers(&range) {
                    return Ok(());
                }
                self.uncovered.add(alloc, range)
            }
        }
    }

    /// Adds that any element of an array may be written.
    fn may_write_whole(&mut self, alloc: Global, array: u32) -> Result<(), AllocError>
        ensures { OnOk result (Extends (may_write_whole array) self.old self.new) }
    {
        self.may.add(alloc, Range::Whole { array })
    }

    /// Adds a write of an element whose index has this bound.
    pub fn write_element(
        &mut self,
        alloc: Global,
        array: u32,
        index: Bound,
    ) -> Result<(), AllocError>
        ensures { OnOk result (Extends (writes_element array index) self.old self.new) }
    {
        match index {
            Bound::Unknown => self.may_write_whole(alloc, array),
            Bound::Known { factor, low, high } => {
                let range = Range::Affine {
                    array,
                    factor,
                    from: low,
                    to: high,
                };
                self.may.add(alloc, range)?;
                if is_same(low, high) {
                    return self.written.add(alloc, range);
                }
                Ok(())
            }
        }
    }

    /// Adds that the elements from `first` up to but excluding `end` may be written.
    fn may_write_between(
        &mut self,
        alloc: Global,
        array: u32,
        factor: i64,
        first: i64,
        end: i64,
    ) -> Result<(), AllocError>
        ensures { OnOk result
            (Extends (may_write_between array factor first end) self.old self.new) }
    {
        match last_between(first, end) {
            None => Ok(()),
            Some(last) => {
                let range = Range::Affine {
                    array,
                    factor,
                    from: first,
                    to: last,
                };
                self.may.add(alloc, range)
            }
        }
    }

    /// Adds that the elements from a first offset up to but excluding an end offset are surely
    /// written, where each is a single offset.
    fn surely_write_between(
        &mut self,
        alloc: Global,
        array: u32,
        factor: i64,
        first: Between,
        end: Between,
    ) -> Result<(), AllocError>
        ensures { OnOk result (Extends
            (surely_writes_between array factor first.low first.high end.low end.high) self.old
            self.new) }
    {
        match last_of_one(first.low, first.high, end.low, end.high) {
            None => Ok(()),
            Some(last) => {
                let range = Range::Affine {
                    array,
                    factor,
                    from: first.low,
                    to: last,
                };
                self.written.add(alloc, range)
            }
        }
    }

    /// Adds a write of the elements from a first offset up to but excluding an end offset.
    fn write_between(
        &mut self,
        alloc: Global,
        array: u32,
        factor: i64,
        first: Between,
        end: Between,
    ) -> Result<(), AllocError>
        ensures { OnOk result (Extends (may_write_between array factor first.low end.high
            then surely_writes_between array factor first.low first.high end.low end.high) self.old
            self.new) }
    {
        self.may_write_between(alloc, array, factor, first.low, end.high)?;
        self.surely_write_between(alloc, array, factor, first, end)
    }

    /// Adds a write of a range whose ends have these bounds; the last end is excluded.
    pub fn write_range(
        &mut self,
        alloc: Global,
        array: u32,
        low: Bound,
        high: Bound,
    ) -> Result<(), AllocError>
        ensures { OnOk result (Extends (writes_range array low high) self.old self.new) }
    {
        match (low, high) {
            (
                Bound::Known { factor, low, high },
                Bound::Known {
                    factor: other_factor,
                    low: end_low,
                    high: end_high,
                },
            ) => {
                if is_same(factor, other_factor) {
                    let first = Between { low, high };
                    let end = Between {
                        low: end_low,
                        high: end_high,
                    };
                    return self.write_between(alloc, array, factor, first, end);
                }
                self.may_write_whole(alloc, array)
            }
            _ => self.may_write_whole(alloc, array),
        }
    }
}
