//! Takes over all lanes, and writes their contents back into a memory.
ghost use Rattle.std.specs.Prelude.{◌≡◌, ℕ, ◌+◌, ◌-◌, ◌^◌, ◌<◌, List, [], length};
ghost use mathlib.Core.Option.{some};
ghost use lib.ListN.{get_elem?};
ghost use Rattle.spf_cells.specs.Spans.{consecutive, cells_of, cells_with_blocks};
ghost use Rattle.spf_cells.specs.Values.{IsLaneOf, IsWardenOf, with_lane, content_at, spans_of};
ghost use Rattle.spf_cells.specs.Finish.{write_back, HasTaken, HaveWordsFrom};
ghost use Rattle.spf_cells.specs.Finish.{AreAllLanes, IsFinish};
ghost use Rattle.spf_cells.specs.Log.{IsLogOf};
ghost use Rattle.spf_cells.specs.Segments.{AreSegmentsOf, IsSearchable, first_word};

use crate::cells::Cells;
use crate::lane::Lane;
use crate::rule::{ReadBack, TakeOver};
use crate::segment::Segment;
use crate::warden::Warden;
use spf_region::span::Span;
use std::marker::Model;
use std::snapshot::Snapshot;

/// The logs of all lanes, which only contracts see: one for each block, in the order of blocks.
///
/// Only `Cells::finish` makes one, so each event in it was a step on the cells' table.
#[derive(Drop)]
pub struct Trace {
    /// Its view has the logs.
    warden: Warden,
}

impl Model for Trace {
    ghost use Rattle.std.specs.Prelude.{List, map};
    ghost use Rattle.spf_cells.specs.declared.view.LogEntry.{LogEntry};

    ghost Value = { List (List LogEntry) };

    ghost view = { λ t. map (λ x. x.log) t.warden.view.taken };
}

impl Warden {
    /// What the word of a cell of a lane that was taken over holds.
    fn read_back(&mut self, cells: &Cells, lane: &Snapshot<Lane>, cell: u64, word: usize) -> i64
        requires own { IsWardenOf cells.now self.old }
        requires taken { HasTaken self.old lane.now.value }
        requires setting { lane.now.value.setting ≡ cells.now.setting }
        requires word { (i : ℕ) × (word ≡ length cells.now.setting.plan + i)
            × (get_elem? (cells_with_blocks cells.now.setting.plan) i
            ≡ some (lane.now.value.block, cell)) }
        ensures same { self.new ≡ self.old }
        ensures value { result ≡ content_at lane.now.value cell }
    {
        let shared = &cells.table.shared;
        shared.load::<ReadBack>(&mut self.seat, word).cast_signed()
    }

    /// Writes the contents of one span back; `first` is the word of its first cell.
    fn write_back_span(
        &mut self,
        cells: &Cells,
        lane: &Snapshot<Lane>,
        first: usize,
        span: Span,
        into: &mut [i64],
    )
        requires own { IsWardenOf cells.now self.old }
        requires taken { HasTaken self.old lane.now.value }
        requires setting { lane.now.value.setting ≡ cells.now.setting }
        requires words { HaveWordsFrom cells.now.setting lane.now.value.block first
            (consecutive span.from (span.to - span.from)) }
        requires inside { (j c : ℕ)
            → get_elem? (consecutive span.from (span.to - span.from)) j ≡ some c
            → c < length into.old }
        requires small { first + (span.to - span.from) < 2 ^ 63 }
        ensures same { self.new ≡ self.old }
        ensures into { into.new
            ≡ write_back (content_at lane.now.value) (consecutive span.from (span.to - span.from))
            into.old }
    {
        for cell in span.from..span.to {
            let word = first + (cell - span.from) as usize;
            into[cell as usize] = self.read_back(cells, lane, cell, word);
        }
    }

    /// Writes the contents of all segments of a lane back.
    fn write_back_segments(
        &mut self,
        cells: &Cells,
        lane: &Snapshot<Lane>,
        segments: &[Segment],
        into: &mut [i64],
    )
        requires own { IsWardenOf cells.now self.old }
        requires taken { HasTaken self.old lane.now.value }
        requires setting { lane.now.value.setting ≡ cells.now.setting }
        requires segments { AreSegmentsOf segments.now (cells_of (spans_of lane.now.value))
            (first_word lane.now.value.setting lane.now.value.block) }
        requires order { IsSearchable segments.now }
        requires block { lane.now.value.block < length lane.now.value.setting.plan }
        requires inside { (j c : ℕ) → get_elem? (cells_of (spans_of lane.now.value)) j ≡ some c
            → c < length into.old }
        requires small { first_word lane.now.value.setting lane.now.value.block
            + length (cells_of (spans_of lane.now.value)) < 2 ^ 63 }
        ensures same { self.new ≡ self.old }
        ensures into { into.new
            ≡ write_back (content_at lane.now.value) (cells_of (spans_of lane.now.value)) into.old }
    {
        for segment in segments {
            self.write_back_span(cells, lane, segment.word, segment.span, into);
        }
    }

    /// Takes over a lane, and writes its contents back.
    fn collect(&mut self, cells: &Cells, lane: Lane, into: &mut [i64])
        requires own { IsWardenOf cells.now self.old }
        requires lane { IsLaneOf cells.now lane }
        requires inside { (j c : ℕ) → get_elem? (cells_of (spans_of lane)) j ≡ some c
            → c < length into.old }
        ensures taken { self.new ≡ with_lane self.old lane }
        ensures log { IsLogOf lane.setting lane.block lane.log }
        ensures into { into.new ≡ write_back (content_at lane) (cells_of (spans_of lane)) into.old }
    {
        let taken = Snapshot::of(&lane);
        let (seat, segments) = lane.into_parts();
        let shared = &cells.table.shared;
        shared.join_seat::<TakeOver>(&mut self.seat, seat);
        self.write_back_segments(cells, &taken, segments.as_slice(), into);
    }
}

impl Cells {
    /// Ends all steps: each cell of a lane's spans takes the lane's content, and every other cell
    /// of `into` stays as it is. `into` is as long as the entry.
    ///
    /// `lanes` are the lanes of all blocks, in the order of blocks. The trace has their logs, and
    /// each keeps what a lane's log keeps.
    pub fn finish(self, mut warden: Warden, lanes: Vec<Lane>, into: &mut [i64]) -> Trace
        requires warden { IsWardenOf self warden × (warden.view.taken ≡ []) }
        requires lanes { AreAllLanes self lanes.items }
        requires size { length into.old ≡ length self.setting.entry }
        ensures { IsFinish self lanes.items result into.old into.new }
    {
        let _table = &self.table;
        for lane in lanes {
            warden.collect(&self, lane, into);
        }
        Trace { warden }
    }
}
