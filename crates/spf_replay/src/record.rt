//! The memory of an attempt that is recorded.

ghost use Rattle.std.specs.Prelude.{◌≡◌, ◌≤◌, length};
ghost use Rattle.spf_replay.specs.Reading.{event_of};
ghost use Rattle.spf_replay.specs.Records.{AddsTo};

use crate::reader::is_in;
use crate::steps::word_of;
use spf_exec_memory::memory::{Emitted, Memory};
use spf_region::span::Span;
use spf_replay_log::log::Event;

/// The cells of the spans, and a record of the loads of these cells, of all stores, and of the
/// turns, which poll 0. A load of another cell gives its word at the entry. Where an event has no
/// room, the record is full, and the next turn stops.
#[derive(Drop)]
pub(crate) struct RecordMemory<'a> {
    pub(crate) spans: &'a [Span],
    /// The words of the cells of the spans, each at its cell. What lies elsewhere makes no
    /// difference.
    pub(crate) cells: Vec<i64>,
    pub(crate) entry: &'a [i64],
    pub(crate) room: Vec<Event>,
    /// How many events are recorded.
    pub(crate) count: usize,
    /// Whether an event had no room.
    pub(crate) full: bool,
    pub(crate) ghost inside: { count ≤ length room.items },
}

impl<'a> RecordMemory<'a> {
    /// Records an event, where there is room.
    fn add(&mut self, event: Event)
        ensures spans { self.new.spans ≡ self.old.spans }
        ensures entry { self.new.entry ≡ self.old.entry }
        ensures cells { self.new.cells ≡ self.old.cells }
        ensures room { length self.new.room.items ≡ length self.old.room.items }
        ensures record { AddsTo self.old.room self.old.count self.old.full (event_of event)
            self.new.room self.new.count self.new.full }
    {
        if self.full {
            return;
        }
        if self.count == self.room.len() {
            self.full = true;
            return;
        }
        self.room[self.count] = event;
        self.count += 1;
    }
}

impl<'a> Memory for RecordMemory<'a> {
    ghost use Rattle.std.specs.Prelude.{◌≡◌, length, Some, refl};
    ghost use Rattle.spf_exec_memory.specs.QuietMemory.{full_output};
    ghost use Rattle.spf_replay.specs.Recording.{in_record, LeadsInRecord};
    ghost use Rattle.spf_replay.specs.RecordingLaws.{record_laws, same_count};

    ghost leads = { λ es a b. LeadsInRecord es
        (in_record a.spans.now a.cells.items a.entry.now a.room.items a.count a.full)
        (in_record b.spans.now b.cells.items b.entry.now b.room.items b.count b.full) };

    ghost stop = { λ m. Some 1 };

    ghost cell_count = { λ m. length m.cells.items };

    ghost output = { λ m. full_output.bytes };

    ghost may_lack_memory = { ⊥ };

    ghost laws = { record_laws
        (λ m. in_record m.spans.now m.cells.items m.entry.now m.room.items m.count m.full) };

    ghost keeps_cells = { λ es a b l. same_count es
        (in_record a.spans.now a.cells.items a.entry.now a.room.items a.count a.full)
        (in_record b.spans.now b.cells.items b.entry.now b.room.items b.count b.full) l };

    fn load(&mut self, cell: u64) -> i64 {
        if !is_in(self.spans, cell) {
            return word_of(self.entry, cell);
        }
        let word = word_of(&self.cells, cell);
        self.add(Event::Load { cell, word });
        word
    }

    fn store(&mut self, cell: u64, value: i64) {
        self.cells[cell as usize] = value;
        self.add(Event::Store { cell, word: value });
    }

    fn turn(&mut self) -> Option<u64> {
        self.add(Event::Turn { number: 0 });
        if self.full { Some(1) } else { None }
    }

    fn emit(&mut self, _byte: u8) -> Emitted {
        Emitted::Full
    }
}
