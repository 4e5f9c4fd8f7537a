//! A memory of its own: a vector of cells, an output, and nothing that stops a turn.

use crate::memory::{Emitted, Memory};

/// How many bytes an output may have.
const MAX_OUTPUT: usize = 67108864;

/// A memory of its own, which nothing stops.
#[derive(Drop)]
pub struct Plain {
    /// The word of each cell.
    pub cells: Vec<i64>,
    /// The bytes that were emitted.
    pub output: Vec<u8>,
}

impl Memory for Plain {
    ghost use Rattle.std.specs.Prelude.{◌≡◌, ◌++◌, List, [], ◌∷◌, length, Option, None, refl};
    ghost use Rattle.spf_exec_memory.specs.PlainMemory.{LeadsPlainly, plain_laws, plain_keeps};

    ghost leads = { λ es a b. LeadsPlainly es a.cells.items b.cells.items };

    ghost stop = { λ m. None };

    ghost cell_count = { λ m. length m.cells.items };

    ghost output = { λ m. m.output.items };

    ghost may_lack_memory = { Unit {0} };

    ghost laws = { plain_laws (λ m. m.cells.items) };

    ghost keeps_cells = { λ es a b l. plain_keeps es a.cells.items b.cells.items l };

    fn load(&mut self, cell: u64) -> i64 {
        self.cells[cell as usize]
    }

    fn store(&mut self, cell: u64, value: i64) {
        self.cells[cell as usize] = value;
    }

    fn turn(&mut self) -> Option<u64> {
        None
    }

    fn emit(&mut self, byte: u8) -> Emitted {
        if self.output.len() >= MAX_OUTPUT {
            return Emitted::Full;
        }
        match self.output.push(byte) {
            Ok(()) => Emitted::Put,
            Err(_) => Emitted::NoMemory,
        }
    }
}
