//! Tables of bounds, small lists of ranges, and cells of ranges at blocks.
ghost use Rattle.std.specs.Prelude.{◌≡◌, ℕ, ◌+◌, ◌<◌, ◌^◌, true, length};
ghost use Rattle.std.specs.List.{All};
ghost use Rattle.spf_region.specs.Ranges.{array_of};

use spf_region::bound::Bound;
use spf_region::list::RangeList;
use spf_region::range::Range;
use spf_region::span::Span;
use std::alloc::{AllocError, Global};
use std::test::Fail;

const EDGE: i64 = 1 << 40;

fn bound(factor: i64, low: i64, high: i64) -> Bound {
    Bound::Known { factor, low, high }
}

/// Bounds, each as `FACTOR,LOW,HIGH` or `?`: x, y, x + y and x - y.
const SUMS: &str = "1,0,0 0,3,5 1,3,5 1,-5,-3
2,-1,4 -2,1,2 0,0,6 4,-3,3
0,7,7 ? ? ?
? 0,7,7 ? ?
1099511627776,0,0 0,0,0 1099511627776,0,0 1099511627776,0,0
1099511627776,0,0 1,0,0 ? 1099511627775,0,0
-1099511627776,0,0 1,0,0 -1099511627775,0,0 ?
0,0,1099511627775 0,0,1 0,0,1099511627776 0,-1,1099511627775
0,0,1099511627776 0,0,1 ? 0,-1,1099511627776
0,-1099511627776,0 0,-1,0 ? 0,-1099511627776,1
0,9223372036854775807,9223372036854775807 0,1,1 ? ?";

/// Bounds: x, y, x * y, x % y and x & y.
const PRODUCTS: &str = "1,0,2 0,5,5 5,0,10 0,-4,4 0,0,5
0,5,5 1,0,2 5,0,10 ? 0,0,5
1,0,2 0,-3,-3 -3,-6,0 ? ?
0,5,5 0,3,3 0,15,15 0,0,2 0,0,3
0,0,9 0,1,1 0,0,9 0,0,0 0,0,1
0,-1,9 0,5,5 0,-5,45 0,-4,4 0,0,5
? 0,5,5 ? 0,-4,4 0,0,5
0,5,5 ? ? ? 0,0,5
0,3,3 0,-1,-1 0,-3,-3 ? 0,0,3
0,3,3 0,0,0 0,0,0 ? 0,0,0
1,0,0 1,0,0 ? ? ?
? 0,0,0 ? ? 0,0,0
? 0,1099511627776,1099511627776 ? 0,-1099511627775,1099511627775 0,0,1099511627776
? 0,1099511627777,1099511627777 ? 0,-1099511627776,1099511627776 ?
? 0,1099511627778,1099511627778 ? ? ?
549755813888,0,0 0,2,2 1099511627776,0,0 0,-1,1 0,0,2
549755813889,0,0 0,2,2 ? 0,-1,1 0,0,2
0,0,1099511627776 0,-1,-1 0,-1099511627776,0 ? ?
0,0,1099511627776 0,-2,-2 ? ? ?";

/// A number of a bound.
fn number(word: Option<&str>) -> Option<i64> {
    word?.parse::<i64>().ok()
}

/// The bound that a word says.
fn bound_of(word: Option<&str>) -> Option<Bound> {
    let word = word?;
    if word == "?" {
        return Some(Bound::Unknown);
    }
    let mut numbers = word.split(',');
    let factor = number(numbers.next())?;
    let low = number(numbers.next())?;
    let high = number(numbers.next())?;
    Some(bound(factor, low, high))
}

/// Returns whether a row of sums is right.
fn is_right_sum(row: &str) -> Option<bool> {
    let mut words = row.split(' ');
    let x = bound_of(words.next())?;
    let y = bound_of(words.next())?;
    let sum = bound_of(words.next())?;
    let difference = bound_of(words.next())?;
    Some([x.plus(y), x.minus(y)] == [sum, difference])
}

/// Returns whether a row of products is right.
fn is_right_product(row: &str) -> Option<bool> {
    let mut words = row.split(' ');
    let x = bound_of(words.next())?;
    let y = bound_of(words.next())?;
    let product = bound_of(words.next())?;
    let remainder = bound_of(words.next())?;
    let mask = bound_of(words.next())?;
    Some([x.times(y), x.rem(y), x.mask(y)] == [product, remainder, mask])
}

#[test]
fn bounds_are_computed(rt: HostRuntime) {
    for row in SUMS.lines() {
        assert!(rt; is_right_sum(row) == Some(true), "sums: {row}");
    }
    for row in PRODUCTS.lines() {
        assert!(rt; is_right_product(row) == Some(true), "products: {row}");
    }
}

#[test]
fn numbers_and_negatives(rt: HostRuntime) {
    let rows = [
        (EDGE, bound(0, EDGE, EDGE), bound(0, -EDGE, -EDGE)),
        (-EDGE, bound(0, -EDGE, -EDGE), bound(0, EDGE, EDGE)),
        (EDGE + 1, Bound::Unknown, Bound::Unknown),
        (-EDGE - 1, Bound::Unknown, Bound::Unknown),
    ];
    for &(n, bound, negative) in &rows {
        let number = Bound::number(n);
        assert!(rt;
            [number, number.negate()] == [bound, negative],
            "number {n}"
        );
    }
    assert!(rt; bound(3, -1, 2).negate() == bound(-3, -2, 1));
    assert!(rt; bound(0, i64::MIN, 0).negate() == Bound::Unknown);
}

fn affine(array: u32, factor: i64, from: i64, to: i64) -> Range {
    Range::Affine {
        array,
        factor,
        from,
        to,
    }
}

/// The list of these ranges.
fn list_of(alloc: Global, ranges: &[Range]) -> Result<RangeList, AllocError> {
    let mut list = RangeList::new(alloc);
    for range in ranges {
        list.add(alloc, *range)?;
    }
    Ok(list)
}

/// The join of the lists of these ranges.
fn join_of(alloc: Global, one: &[Range], other: &[Range]) -> Result<RangeList, AllocError> {
    let list = list_of(alloc, one)?;
    list.join(alloc, &list_of(alloc, other)?)
}

/// What the lists of these ranges have in common.
fn common_part(alloc: Global, one: &[Range], other: &[Range]) -> Result<RangeList, AllocError> {
    let list = list_of(alloc, one)?;
    list.meet(alloc, &list_of(alloc, other)?)
}

/// The first of these ranges that isn't separated.
fn find_unseparated(alloc: Global, ranges: &[Range]) -> Result<Option<Range>, AllocError> {
    let list = list_of(alloc, ranges)?;
    Ok(list.first_unseparated())
}

/// The first of these ranges that meets one of two others.
fn meeting(
    alloc: Global,
    ranges: &[Range],
    one: &[Range],
    other: &[Range],
) -> Result<Option<Range>, AllocError> {
    let others = join_of(alloc, one, other)?;
    let list = list_of(alloc, ranges)?;
    Ok(list.meeting(&others))
}

/// Ranges of two arrays, out of order, some of them empty, doubled or next to each other.
fn mixed_ranges() -> [Range; 10] {
    [
        affine(1, 1, 0, 1),
        affine(0, 2, 4, 4),
        affine(0, 1, 5, 6),
        affine(0, 1, 0, 1),
        affine(0, 1, 9, 3),
        Range::Whole { array: 1 },
        affine(0, 1, 2, 3),
        affine(0, 1, i64::MAX, i64::MAX),
        affine(0, 1, i64::MIN, i64::MIN),
        Range::Whole { array: 1 },
    ]
}

/// Their normal form.
fn normal_ranges() -> [Range; 7] {
    [
        affine(0, 1, i64::MIN, i64::MIN),
        affine(0, 1, 0, 3),
        affine(0, 1, 5, 6),
        affine(0, 1, i64::MAX, i64::MAX),
        affine(0, 2, 4, 4),
        Range::Whole { array: 1 },
        affine(1, 1, 0, 1),
    ]
}

#[test]
fn lists_are_in_normal_form(rt: HostRuntime) -> Result<(), Fail> {
    let list = list_of(rt.alloc(), &mixed_ranges())?;
    assert!(rt; list.ranges() == normal_ranges().as_slice());
    let touched = [list.touches(1), list.touches(2)];
    let covered = [
        list.covers(&affine(0, 1, 1, 3)),
        list.covers(&affine(0, 1, 3, 5)),
        list.covers(&affine(7, 7, 1, 0)),
    ];
    assert!(rt; touched == [true, false] && covered == [true, false, true]);
    Ok(())
}

#[test]
fn a_join_is_in_normal_form(rt: HostRuntime) -> Result<(), Fail> {
    let others = [affine(0, 1, 4, 4), affine(2, 0, 0, 0)];
    let joined = join_of(rt.alloc(), &mixed_ranges(), &others)?;
    assert!(rt; joined.ranges().get(1) == Some(&affine(0, 1, 0, 6)));
    assert!(rt; joined.touches(2) && joined.covers(&affine(0, 1, 3, 5)));
    assert!(rt; !joined.covers(&Range::Whole { array: 1 }));
    Ok(())
}

#[test]
fn common_parts(rt: HostRuntime) -> Result<(), Fail> {
    let both = common_part(rt.alloc(), &[affine(0, 1, 0, 3)], &[affine(0, 1, 2, 5)])?;
    assert!(rt; both.ranges() == [affine(0, 1, 2, 3)].as_slice());
    Ok(())
}

#[test]
fn ranges_that_break_and_ranges_that_meet(rt: HostRuntime) {
    let alloc = rt.alloc();
    let still = [affine(0, 0, 0, 1), affine(0, 0, 3, 4)];
    let other = [affine(0, 0, 2, 2), affine(1, 1, 0, 0)];
    let found = [
        find_unseparated(alloc, &[affine(0, 1, 0, 1)]),
        find_unseparated(alloc, &[affine(0, 2, 0, 1)]),
        find_unseparated(alloc, &still),
        meeting(alloc, &still, &other, &[]),
        meeting(alloc, &other, &still, &[]),
        meeting(alloc, &still, &other, &[affine(0, 0, 4, 9)]),
    ];
    let wanted = [
        Ok(Some(affine(0, 1, 0, 1))),
        Ok(None),
        Ok(Some(affine(0, 0, 0, 1))),
        Ok(None),
        Ok(None),
        Ok(Some(affine(0, 0, 3, 4))),
    ];
    assert!(rt; found == wanted);
}

/// The first three spans of two ranges at block k.
fn spans_of_two(
    alloc: Global,
    one: Range,
    two: Range,
    extents: &[(u64, u64)],
    k: i64,
) -> Result<[Option<Span>; 3], AllocError>
    requires one { array_of one < length extents.now }
    requires two { array_of two < length extents.now }
    requires fits { All (λ e. e.0 + e.1 < 2 ^ 64) extents.now }
{
    let mut list = RangeList::new(alloc);
    list.add(alloc, one)?;
    list.add(alloc, two)?;
    let spans = list.spans_at(alloc, extents, k)?;
    Ok([
        spans.get(0).copied(),
        spans.get(1).copied(),
        spans.get(2).copied(),
    ])
}

const fn span(from: u64, to: u64) -> Option<Span> {
    Some(Span { from, to })
}

#[test]
fn spans_are_clipped_and_joined(rt: HostRuntime) {
    let alloc = rt.alloc();
    let pair = Range::Affine {
        array: 0,
        factor: 2,
        from: 0,
        to: 1,
    };
    let whole = Range::Whole { array: 1 };
    let extents = [(10, 3), (5, 4)];
    let spans = [
        spans_of_two(alloc, pair, pair, &extents, 1),
        spans_of_two(alloc, pair, pair, &extents, -1),
        spans_of_two(alloc, pair, whole, &extents, 0),
        spans_of_two(alloc, pair, whole, &extents, i64::MIN),
    ];
    let wanted = [
        Ok([span(12, 13), None, None]),
        Ok([None; 3]),
        Ok([span(5, 9), span(10, 12), None]),
        Ok([span(5, 9), None, None]),
    ];
    assert!(rt; spans == wanted);
}
