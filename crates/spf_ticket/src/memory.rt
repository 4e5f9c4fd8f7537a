//! The memory of one attempt: the cells of a lane, and beside them the words of the entry.

ghost use Rattle.std.specs.Prelude.{◌≡◌};

use spf_cells::cells::Cells;
use spf_cells::lane::Lane;
use spf_exec_memory::memory::{Emitted, Memory};

/// A cell of the lane's spans goes through the lane; any other cell has its word of the entry, and
/// a store to it changes nothing. Each turn polls the block's flag once; a number that reaches the
/// attempt's stops the attempt.
#[derive(Drop)]
pub(crate) struct LaneMemory<'a> {
    pub(crate) cells: &'a Cells,
    pub(crate) lane: Lane,
    pub(crate) entry: &'a [i64],
    pub(crate) attempt: u64,
    pub(crate) ghost own: { lane.table ≡ cells.now.table },
}

impl<'a> Memory for LaneMemory<'a> {
    ghost use Rattle.std.specs.Prelude.{◌≡◌, length, Some, refl};
    ghost use Rattle.std.proofs.Common.{ap};
    ghost use Rattle.spf_exec_memory.specs.QuietMemory.{full_output};
    ghost use Rattle.spf_ticket.specs.InLane.{in_lane, LeadsInLane};
    ghost use Rattle.spf_ticket.specs.LaneLaws.{lane_laws};

    ghost leads = { λ es a b. LeadsInLane es
        (in_lane a.lane a.entry.now a.attempt) (in_lane b.lane b.entry.now b.attempt) };

    ghost stop = { λ m. Some m.attempt };

    ghost cell_count = { λ m. length m.entry.now };

    ghost output = { λ m. full_output.bytes };

    ghost may_lack_memory = { ⊥ };

    ghost laws = { lane_laws (λ m. in_lane m.lane m.entry.now m.attempt) };

    ghost keeps_cells = { λ es a b l. ap length l.entry };

    fn load(&mut self, cell: u64) -> i64 {
        match self.lane.try_load(self.cells, cell) {
            Some(word) => word,
            None => self.entry[cell as usize],
        }
    }

    fn store(&mut self, cell: u64, value: i64) {
        self.lane.try_store(self.cells, cell, value);
    }

    fn turn(&mut self) -> Option<u64> {
        let seen = self.lane.poll(self.cells);
        if seen >= self.attempt {
            Some(seen)
        } else {
            None
        }
    }

    fn emit(&mut self, _byte: u8) -> Emitted {
        Emitted::Full
    }
}
