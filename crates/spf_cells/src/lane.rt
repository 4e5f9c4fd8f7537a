//! A lane: the one seat that steps for its block.
ghost use Rattle.std.specs.Prelude.{◌≡◌, ◌≢◌, ℕ, ◌+◌, ◌-◌, ◌^◌, ◌<◌, ◌↔◌, [], length, true, false};
ghost use Rattle.std.specs.Prelude.{IsTrue, IfSome, IfNone, if◌then◌else◌};
ghost use Rattle.spf_region.specs.Cells.{in_spans};
ghost use Rattle.spf_cells.specs.Log.{IsLogOf, IsPossibleFlag};
ghost use Rattle.spf_cells.specs.Spans.{cells_of, Covers};
ghost use Rattle.spf_cells.specs.declared.view.LogEntry.TheVariants.{Load, Store, Turn};
ghost use Rattle.spf_cells.specs.Segments.{AreSegmentsOf, IsSearchable, first_word};
ghost use Rattle.spf_cells.specs.Rule.{lane_view};
ghost use Rattle.spf_cells.specs.Values.{spans_of, content_at, logged, IsWordOf};

use crate::cells::Cells;
use crate::rule::{CellSeat, Loaded, Polled, Stored};
use crate::segment::{Segment, find_word};
use std::marker::Model;

/// The one seat of a block: it alone steps on the words of the block's cells.
///
/// Contracts see of it the table, the setting, the block, and the log of its own steps in order.
/// The content of each of its cells is that of the entry with the log's stores made.
#[derive(Drop)]
pub struct Lane {
    /// The lane's block, which is also the number of its flag's word.
    pub(crate) block: usize,
    /// The segment that is tried first: most lanes have one.
    pub(crate) first: Segment,
    /// The spans of the block, in ascending order, with their words.
    pub(crate) segments: Vec<Segment>,
    /// The seat on the table, whose view has the log.
    pub(crate) seat: CellSeat,
}

impl Model for Lane {
    ghost use Rattle.spf_cells.specs.Values.{LaneValue};

    ghost Value = { LaneValue };

    ghost use Rattle.spf_cells.specs.Lane.{lane_value, IsLane};

    ghost view = { lane_value };

    ghost invariant = { IsLane };
}

impl Lane {
    pub(crate) fn block(&self) -> usize
        ensures is { result ≡ self.now.block }
        ensures inside { result < length self.now.setting.plan }
    {
        self.block
    }

    pub(crate) fn into_seat(self) -> CellSeat
        ensures table { result.table_id ≡ self.table }
        ensures view { result.me ≡ (lane_view self.setting self.block self.log, []) }
        ensures inside { self.block < length self.setting.plan }
    {
        let Lane {
            block: _,
            first: _,
            segments: _,
            seat,
        } = self;
        seat
    }

    /// The seat, and the segments.
    pub(crate) fn into_parts(self) -> (CellSeat, Vec<Segment>)
        ensures table { result.0.table_id ≡ self.table }
        ensures view { result.0.me ≡ (lane_view self.setting self.block self.log, []) }
        ensures log { IsLogOf self.setting self.block self.log }
        ensures segments { AreSegmentsOf result.1.items (cells_of (spans_of self))
            (first_word self.setting self.block) }
        ensures order { IsSearchable result.1.items }
        ensures small { first_word self.setting self.block + length (cells_of (spans_of self))
            < 2 ^ 63 }
        ensures inside { self.block < length self.setting.plan }
    {
        let Lane {
            block: _,
            first: _,
            segments,
            seat,
        } = self;
        (seat, segments)
    }

    /// What every lane's log keeps: each load gave the lane's own content, and each turn a possible
    /// flag of its block.
    pub fn log_facts(&self)
        ensures { IsLogOf self.now.setting self.now.block self.now.log }
    {
        let _block = &self.block;
    }

    /// The word of a cell, if the cell is in the lane's spans.
    fn word_of(&self, cell: u64) -> Option<usize>
        ensures inside { IfSome result (λ word. (in_spans (spans_of self.now) cell ≡ true)
            × IsWordOf self.now cell word × (word < self.now.table.words)) }
        ensures outside { IfNone result (in_spans (spans_of self.now) cell ≡ false) }
    {
        find_word(&self.first, self.segments.as_slice(), cell)
    }

    /// Returns whether the cell is in the lane's spans.
    pub fn has(&self, cell: u64) -> bool
        ensures { IsTrue result ↔ Covers (spans_of self.now) cell }
    {
        self.word_of(cell).is_some()
    }

    /// Returns the lane's own content of a cell, whoever else steps, if the cell is in the lane's
    /// spans. The load is then logged.
    pub fn try_load(&mut self, cells: &Cells, cell: u64) -> Option<i64>
        requires own { self.old.table ≡ cells.now.table }
        ensures inside { IfSome result (λ _. in_spans (spans_of self.old) cell ≡ true) }
        ensures value { IfSome result (λ word. word ≡ content_at self.old cell) }
        ensures log { IfSome result (λ word. self.new ≡ logged self.old (Load cell word)) }
        ensures outside { IfNone result
            ((in_spans (spans_of self.old) cell ≡ false) × (self.new ≡ self.old)) }
    {
        match self.word_of(cell) {
            Some(word) => {
                let shared = &cells.table.shared;
                Some(shared.load::<Loaded>(&mut self.seat, word).cast_signed())
            }
            None => None,
        }
    }

    /// Stores a word to a cell, if the cell is in the lane's spans, and tells whether it is. The
    /// store is then logged.
    pub fn try_store(&mut self, cells: &Cells, cell: u64, value: i64) -> bool
        requires own { self.old.table ≡ cells.now.table }
        ensures inside { result ≡ in_spans (spans_of self.old) cell }
        ensures content { IsTrue result → content_at self.new cell ≡ value }
        ensures others { (c : ℕ) → c ≢ cell → content_at self.new c ≡ content_at self.old c }
        ensures log { self.new ≡ (if result then logged self.old (Store cell value) else self.old) }
    {
        match self.word_of(cell) {
            Some(word) => {
                let shared = &cells.table.shared;
                shared.store::<Stored>(&mut self.seat, word, value.cast_unsigned());
                true
            }
            None => false,
        }
    }

    /// Returns the lane's own content of a cell of its spans, whoever else steps. The load is
    /// logged.
    pub fn load(&mut self, cells: &Cells, cell: u64) -> i64
        requires own { self.old.table ≡ cells.now.table }
        requires inside { Covers (spans_of self.old) cell }
        ensures value { result ≡ content_at self.old cell }
        ensures log { self.new ≡ logged self.old (Load cell result) }
    {
        self.try_load(cells, cell).unwrap()
    }

    /// Stores a word to a cell of the lane's spans. The store is logged.
    pub fn store(&mut self, cells: &Cells, cell: u64, value: i64)
        requires own { self.old.table ≡ cells.now.table }
        requires inside { Covers (spans_of self.old) cell }
        ensures content { content_at self.new cell ≡ value }
        ensures others { (c : ℕ) → c ≢ cell → content_at self.new c ≡ content_at self.old c }
        ensures log { self.new ≡ logged self.old (Store cell value) }
    {
        self.try_store(cells, cell, value);
    }

    /// Returns the flag of the lane's block. The turn is logged.
    pub fn poll(&mut self, cells: &Cells) -> u64
        requires own { self.old.table ≡ cells.now.table }
        ensures possible { IsPossibleFlag self.old.setting self.old.block result }
        ensures log { self.new ≡ logged self.old (Turn result) }
    {
        let shared = &cells.table.shared;
        shared.load::<Polled>(&mut self.seat, self.block)
    }
}
