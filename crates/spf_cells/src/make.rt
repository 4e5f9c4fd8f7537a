//! Makes cells, with their warden and their lanes.
ghost use Rattle.std.specs.Prelude.{◌≡◌, ℕ, ◌+◌, ◌-◌, ◌<◌, List, [], ◌++◌, map, length};
ghost use Rattle.std.specs.Prelude.{slice_index_or, ◌^◌, IfOk, pos};
ghost use Rattle.std.specs.Int.RustNames.{FitsSigned};
ghost use mir.Syntax.{w64};
ghost use mathlib.Core.Option.{some};
ghost use lib.ListN.{get_elem?};
ghost use Rattle.spf_cells.specs.declared.view.Setting.{Setting};
ghost use Rattle.spf_cells.specs.Spans.{consecutive, cells_of, cells_of_plan, entry_word};
ghost use Rattle.spf_cells.specs.Spans.{IsDisjointWithin};
ghost use Rattle.spf_cells.specs.Made.{spans_in, setting, first_words, new_warden, new_lane};
ghost use Rattle.spf_cells.specs.Made.{new_lanes};
ghost use Rattle.spf_cells.specs.Segments.{AreSegmentsOf, IsSearchable, first_word};
ghost use Rattle.spf_cells.specs.Values.{IsWardenOf};

use crate::cells::Cells;
use crate::lane::Lane;
use crate::rule::HandOut;
use crate::segment::{Segment, first_of, segments_of};
use crate::view::Setting;
use crate::warden::Warden;
use atomic_table::Table;
use spf_cells_key::key::{GhostKey, ghost_key};
use spf_region::span::{Plan, Span};
use std::alloc::{AllocError, Global};

/// A key with the setting that the caller names. The ghost argument of a call may mention only the
/// call's other arguments, so the entry and the plan are passed here though nothing reads them.
fn key_of_setting(entry: &[i64], plan: &Plan) -> GhostKey<Setting>
    ghost named: { Setting }
    ensures { result.value ≡ named }
{
    let _ = entry;
    let _ = plan;
    ghost_key::<Setting>()
}

/// Each element fits in 64 bits. A proof knows the range of an element once the element is read.
fn in_range(entry: &[i64])
    ensures { (i : ℕ) → i < length entry.now → FitsSigned w64 (slice_index_or entry.now i (pos 0)) }
{
    for value in entry {
        let _value = *value;
    }
}

/// Adds the words of a span's cells.
fn push_span(words: &mut Vec<u64>, entry: &[i64], span: Span) -> Result<(), AllocError>
    requires { (j c : ℕ) → get_elem? (consecutive span.from (span.to - span.from)) j ≡ some c
        → c < length entry.now }
    ensures { IfOk result (λ _. words.new.items
        ≡ words.old.items
        ++ map (entry_word entry.now) (consecutive span.from (span.to - span.from))) }
{
    for cell in span.from..span.to {
        words.push(entry[cell as usize].cast_unsigned())?;
    }
    Ok(())
}

/// Adds the words of the cells of a block's spans.
fn push_block(words: &mut Vec<u64>, entry: &[i64], spans: &[Span]) -> Result<(), AllocError>
    requires { (j c : ℕ) → get_elem? (cells_of spans.now) j ≡ some c → c < length entry.now }
    ensures { IfOk result (λ _.
        words.new.items ≡ words.old.items ++ map (entry_word entry.now) (cells_of spans.now)) }
{
    for span in spans {
        push_span(words, entry, *span)?;
    }
    Ok(())
}

/// How many cells the spans of a plan have, if the number fits.
fn cell_count(plan: &Plan) -> usize {
    let mut count: usize = 0;
    for spans in &plan.blocks {
        for span in spans.as_slice() {
            count = count.saturating_add(span.to.saturating_sub(span.from) as usize);
        }
    }
    count
}

/// The words of the table at the start: a flag of 0 for each block, and then each cell's word in
/// the entry.
fn words_of(alloc: Global, entry: &[i64], plan: &Plan) -> Result<Vec<u64>, AllocError>
    requires { (j c : ℕ) → get_elem? (cells_of_plan (spans_in plan.now)) j ≡ some c
        → c < length entry.now }
    ensures { IfOk result (λ v. v.items ≡ first_words (spans_in plan.now) entry.now) }
{
    let mut words = Vec::from_elem(alloc, 0u64, plan.blocks.len())?;
    words.reserve(cell_count(plan))?;
    for spans in &plan.blocks {
        push_block(&mut words, entry, spans.as_slice())?;
    }
    Ok(words)
}

impl Cells {
    /// The table, and the warden with all blocks.
    fn open(alloc: Global, entry: &[i64], plan: &Plan) -> Result<(Cells, Warden), AllocError>
        ghost raisable: { List ℕ }
        requires { IsDisjointWithin (spans_in plan.now) (length entry.now) }
        ensures setting { IfOk result (λ r. r.0.setting ≡ setting plan.now entry.now raisable) }
        ensures warden { IfOk result (λ r. r.1 ≡ new_warden r.0 0) }
        ensures small { IfOk result (λ _.
            length (spans_in plan.now) + length (cells_of_plan (spans_in plan.now)) < 2 ^ 63) }
    {
        let words = words_of(alloc, entry, plan)?;
        in_range(entry);
        let key = key_of_setting(entry, plan);
        let (table, seat) = Table::of_words(alloc, words.as_slice(), &key)?;
        Ok((Cells { table }, Warden { seat }))
    }

    /// Makes the cells of a plan's spans, their warden, and a lane for each block in order.
    ///
    /// `entry` is the whole memory, of which the plan's spans are disjoint parts. Each cell begins
    /// with its word there, all flags are 0 and all logs empty. The caller names the blocks whose
    /// flags may be raised; contracts alone see them.
    ///
    /// # Errors
    ///
    /// Where the allocator refuses memory.
    pub fn make(
        alloc: Global,
        entry: &[i64],
        plan: &Plan,
    ) -> Result<(Cells, Warden, Vec<Lane>), AllocError>
        ghost raisable: { List ℕ }
        requires disjoint { IsDisjointWithin (spans_in plan.now) (length entry.now) }
        ensures setting { IfOk result (λ r. r.0.setting ≡ setting plan.now entry.now raisable) }
        ensures warden { IfOk result (λ r. r.1 ≡ new_warden r.0 (length (spans_in plan.now))) }
        ensures lanes { IfOk result
            (λ r. r.2.items ≡ new_lanes r.0 0 (length (spans_in plan.now))) }
    {
        let (cells, mut warden) = Cells::open(alloc, entry, plan)?;
        let lanes = warden.hand_out_all(alloc, &cells, plan)?;
        Ok((cells, warden, lanes))
    }
}

/// How many cells spans have.
fn size_of_spans(spans: &[Span]) -> usize
    requires { length (cells_of spans.now) < 2 ^ 63 }
    ensures { result ≡ length (cells_of spans.now) }
{
    let mut size = 0;
    for span in spans {
        size += span.to.saturating_sub(span.from) as usize;
    }
    size
}

impl Warden {
    /// Gives each block a lane.
    fn hand_out_all(
        &mut self,
        alloc: Global,
        cells: &Cells,
        plan: &Plan,
    ) -> Result<Vec<Lane>, AllocError>
        requires fresh { self.old ≡ new_warden cells.now 0 }
        requires plan { cells.now.setting.plan ≡ spans_in plan.now }
        requires disjoint { IsDisjointWithin (spans_in plan.now) (length cells.now.setting.entry) }
        requires small { length (spans_in plan.now) + length (cells_of_plan (spans_in plan.now))
            < 2 ^ 63 }
        ensures warden { IfOk result
            (λ _. self.new ≡ new_warden cells.now (length (spans_in plan.now))) }
        ensures lanes { IfOk result
            (λ r. r.items ≡ new_lanes cells.now 0 (length (spans_in plan.now))) }
    {
        let mut first = plan.blocks.len();
        let mut lanes = Vec::with_capacity(alloc, first)?;
        for (block, spans) in plan.blocks.iter().enumerate() {
            let spans = spans.as_slice();
            let segments = segments_of(alloc, spans, first)?;
            lanes.push(self.hand_out(cells, block, segments))?;
            first += size_of_spans(spans);
        }
        Ok(lanes)
    }

    /// Gives the next block a lane.
    fn hand_out(&mut self, cells: &Cells, block: usize, segments: Vec<Segment>) -> Lane
        requires own { IsWardenOf cells.now self.old }
        requires next { (block ≡ self.old.view.made) × (block < length cells.now.setting.plan) }
        requires segments { AreSegmentsOf segments.items
            (cells_of (slice_index_or cells.now.setting.plan block []))
            (first_word cells.now.setting block) }
        requires order { IsSearchable segments.items }
        ensures lane { result ≡ new_lane cells.now block }
        ensures made { self.new
            ≡ record self.old { view = record self.old.view { made = self.old.view.made + 1 } } }
    {
        let shared = &cells.table.shared;
        let seat = shared.split_seat::<HandOut>(&mut self.seat);
        Lane {
            block,
            first: first_of(segments.as_slice()),
            segments,
            seat,
        }
    }
}
