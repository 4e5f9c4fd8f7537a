//! Which word a cell of a lane has.
ghost use Rattle.std.specs.Prelude.{ℕ, ◌+◌, ◌-◌, ◌^◌, ◌<◌, IfSome, IfNone, IfOk, length};
ghost use Rattle.std.specs.List.{Contains};
ghost use mathlib.Core.Option.{some};
ghost use Rattle.spf_cells.specs.Spans.{cells_of};
ghost use Rattle.spf_cells.specs.Segments.{Holds, HasNoCellTwice, AreSegmentsOf, IsOneOf, IsSearchable};

use spf_region::span::Span;
use std::alloc::{AllocError, Global};

/// A span, and the word of its first cell. Its other cells have the words after that one, in order.
#[derive(Clone, Copy)]
pub(crate) struct Segment {
    pub(crate) span: Span,
    pub(crate) word: usize,
}

impl Segment {
    /// The word of a cell, if the cell is in the span.
    fn word_of(&self, cell: u64) -> Option<usize>
        requires { self.now.span.from < self.now.span.to
            → self.now.word + (self.now.span.to - self.now.span.from) < 2 ^ 63 }
        ensures some { IfSome result (λ w. Holds self.now cell w) }
        ensures none { IfNone result ((w : ℕ) → ¬ Holds self.now cell w) }
    {
        if self.span.from <= cell && cell < self.span.to {
            Some(self.word + (cell - self.span.from) as usize)
        } else {
            None
        }
    }
}

/// The segment to try first: the first one, if there is one.
pub(crate) fn first_of(segments: &[Segment]) -> Segment
    ensures { IsOneOf result segments.now }
{
    match segments.first() {
        Some(segment) => *segment,
        None => Segment {
            span: Span { from: 0, to: 0 },
            word: 0,
        },
    }
}

/// The word of a cell, if it is in one of the segments. One of them is tried first.
pub(crate) fn find_word(first: &Segment, segments: &[Segment], cell: u64) -> Option<usize>
    requires first { IsOneOf first.now segments.now }
    requires order { IsSearchable segments.now }
    requires small { (s : Segment) → Contains segments.now s
        → s.word + (s.span.to - s.span.from) < 2 ^ 63 }
    ensures some { IfSome result (λ w. (s : Segment) × Contains segments.now s × Holds s cell w) }
    ensures none { IfNone result
        ((s : Segment) (w : ℕ) → Contains segments.now s → ¬ Holds s cell w) }
{
    if let Some(word) = first.word_of(cell) {
        return Some(word);
    }
    let count = segments.partition_point(|segment| segment.span.from <= cell);
    if count == 0 {
        return None;
    }
    segments[count - 1].word_of(cell)
}

/// The segments of spans whose cells have the words from `first` on, in ascending order of their
/// first cells.
pub(crate) fn segments_of(
    alloc: Global,
    spans: &[Span],
    first: usize,
) -> Result<Vec<Segment>, AllocError>
    requires once { HasNoCellTwice (cells_of spans.now) }
    requires small { first + length (cells_of spans.now) < 2 ^ 63 }
    ensures segments { IfOk result (λ v. AreSegmentsOf v.items (cells_of spans.now) first) }
    ensures order { IfOk result (λ v. IsSearchable v.items) }
{
    let mut segments = Vec::with_capacity(alloc, spans.len())?;
    let mut word = first;
    for span in spans {
        if span.from < span.to {
            segments.push(Segment { span: *span, word })?;
            word += (span.to - span.from) as usize;
        }
    }
    segments.sort_unstable_by_key(|segment| segment.span.from);
    Ok(segments)
}
