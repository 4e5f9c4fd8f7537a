//! The memory of an attempt that is read from a log.

ghost use Rattle.std.specs.Prelude.{◌≡◌, ◌≤◌, length};

use crate::reader::{event_at, is_in, is_store, number_polled, word_loaded};
use spf_exec_memory::memory::{Emitted, Memory};
use spf_region::span::Span;
use spf_replay_log::log::Event;

/// A load of a cell of the spans, a store and a turn take the log's next event. Where that is
/// another one, the log doesn't fit: what is answered from then on says nothing, and the next turn
/// stops. A cell outside the spans has its word of the entry.
#[derive(Drop)]
pub(crate) struct LogMemory<'a> {
    pub(crate) spans: &'a [Span],
    pub(crate) entry: &'a [i64],
    pub(crate) log: &'a [Event],
    /// The index of the log's next event.
    pub(crate) at: usize,
    pub(crate) attempt: u64,
    /// Whether the log has fitted so far.
    pub(crate) fits: bool,
    pub(crate) ghost inside: { at ≤ length log.now },
}

impl<'a> Memory for LogMemory<'a> {
    ghost use Rattle.std.specs.Prelude.{◌≡◌, length, Some, refl};
    ghost use Rattle.std.proofs.Common.{ap};
    ghost use Rattle.spf_exec_memory.specs.QuietMemory.{full_output};
    ghost use Rattle.spf_replay.specs.Reading.{in_log, LeadsInLog};
    ghost use Rattle.spf_replay.specs.ReadingLaws.{log_laws};

    ghost leads = { λ es a b. LeadsInLog es
        (in_log a.spans.now a.entry.now a.attempt a.log.now a.at a.fits)
        (in_log b.spans.now b.entry.now b.attempt b.log.now b.at b.fits) };

    ghost stop = { λ m. Some m.attempt };

    ghost cell_count = { λ m. length m.entry.now };

    ghost output = { λ m. full_output.bytes };

    ghost may_lack_memory = { ⊥ };

    ghost laws = { log_laws
        (λ m. in_log m.spans.now m.entry.now m.attempt m.log.now m.at m.fits) };

    ghost keeps_cells = { λ es a b l. ap length l.entry };

    fn load(&mut self, cell: u64) -> i64 {
        if !is_in(self.spans, cell) {
            return self.entry[cell as usize];
        }
        if !self.fits {
            return 0;
        }
        match word_loaded(event_at(self.log, self.at), cell) {
            Some(word) => {
                self.at += 1;
                word
            }
            None => {
                self.fits = false;
                0
            }
        }
    }

    fn store(&mut self, cell: u64, value: i64) {
        if !self.fits {
            return;
        }
        if is_store(event_at(self.log, self.at), cell, value) {
            self.at += 1;
        } else {
            self.fits = false;
        }
    }

    fn turn(&mut self) -> Option<u64> {
        if !self.fits {
            return Some(self.attempt);
        }
        match number_polled(event_at(self.log, self.at)) {
            Some(number) => {
                self.at += 1;
                if number >= self.attempt {
                    Some(number)
                } else {
                    None
                }
            }
            None => {
                self.fits = false;
                Some(self.attempt)
            }
        }
    }

    fn emit(&mut self, _byte: u8) -> Emitted {
        Emitted::Full
    }
}
