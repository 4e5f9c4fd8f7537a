//! Memories that parts of constructs are performed on, which emit nothing.

use crate::memory::{Emitted, Memory};

/// Another memory, whose output counts as full, so that nothing is put into it and no memory is
/// needed for it.
#[derive(Drop)]
pub struct Quiet<'a, M> {
    pub memory: &'a mut M,
}

impl<'a, M: Memory> Memory for Quiet<'a, M> {
    ghost use Rattle.std.specs.Prelude.{◌≡◌, refl};
    ghost use Rattle.spf_exec_memory.specs.QuietMemory.{LeadsQuietly, full_output, quiet_laws};

    ghost leads = { LeadsQuietly M.leads M.output (λ m. m.memory.now) (λ m. m.memory.ghost_name) };

    ghost stop = { λ m. M.stop m.memory.now };

    ghost cell_count = { λ m. M.cell_count m.memory.now };

    ghost output = { λ m. full_output.bytes };

    ghost may_lack_memory = { ⊥ };

    ghost laws = { quiet_laws M.output (λ m. m.memory.now) (λ m. m.memory.ghost_name) M.laws };

    ghost keeps_cells = { λ es a b l. M.keeps_cells es a.memory.now b.memory.now l.led };

    fn load(&mut self, cell: u64) -> i64 {
        self.memory.load(cell)
    }

    fn store(&mut self, cell: u64, value: i64) {
        self.memory.store(cell, value);
    }

    fn turn(&mut self) -> Option<u64> {
        self.memory.turn()
    }

    fn emit(&mut self, _byte: u8) -> Emitted {
        Emitted::Full
    }
}

/// Cells that are only read: a load gives the word that is there, whatever was stored before.
#[derive(Drop)]
pub struct ReadOnly<'a> {
    pub cells: &'a [i64],
}

impl<'a> Memory for ReadOnly<'a> {
    ghost use Rattle.std.specs.Prelude.{◌≡◌, length, None, refl};
    ghost use Rattle.std.proofs.Common.{ap};
    ghost use Rattle.spf_exec_memory.specs.QuietMemory.{full_output};
    ghost use Rattle.spf_exec_memory.specs.ReadMemory.{LeadsUnstored, unstored_laws};

    ghost leads = { λ es a b. LeadsUnstored es a.cells.now b.cells.now };

    ghost stop = { λ m. None };

    ghost cell_count = { λ m. length m.cells.now };

    ghost output = { λ m. full_output.bytes };

    ghost may_lack_memory = { ⊥ };

    ghost laws = { unstored_laws (λ m. m.cells.now) };

    ghost keeps_cells = { λ es a b l. ap length l.same };

    fn load(&mut self, cell: u64) -> i64 {
        self.cells[cell as usize]
    }

    fn store(&mut self, _cell: u64, _value: i64) {}

    fn turn(&mut self) -> Option<u64> {
        None
    }

    fn emit(&mut self, _byte: u8) -> Emitted {
        Emitted::Full
    }
}
