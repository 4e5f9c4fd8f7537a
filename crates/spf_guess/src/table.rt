//! A predictor that keeps a table of values by block numbers.
ghost use Rattle.std.specs.Prelude.{◌≡◌, ℤ, pos, List, unwrap_or, IfOk};
ghost use Rattle.std.specs.List.{fold};
ghost use Rattle.spf_guess_statistics.specs.Guess.{Told};
ghost use Rattle.spf_guess.specs.Kinds.{table_answer};
ghost use Rattle.spf_guess.specs.Stores.{stored_of, table_step};

use crate::Predictor;
use crate::store::Store;
use std::alloc::{AllocError, Global};

/// Guesses for each block the real value that it was told last for a block of this number, or 0
/// where it was told none.
///
/// It keeps the first `room` different block numbers that it is told, and drops what is told of any
/// other.
#[derive(Drop)]
pub struct Table {
    reals: Store<i64>,
}

impl Table {
    /// Makes the table with room for `room` blocks, which was told nothing.
    ///
    /// # Errors
    ///
    /// `AllocError` where there is no memory for the room.
    pub fn make(alloc: Global, room: u64) -> Result<Table, AllocError>
        ensures { IfOk result (λ table. (pairs : List Told) (block : ℤ)
            → ⟦<Table as Predictor>⟧.answer table pairs block ≡ table_answer room pairs block) }
    {
        let reals = Store::make(alloc, room as usize)?;
        Ok(Table { reals })
    }
}

impl Predictor for Table {
    ghost answer = { λ table pairs block.
        unwrap_or ((fold table_step (stored_of table.reals) pairs).value block) (pos 0) };

    fn guess(&mut self, block: i64) -> i64 {
        self.reals.get(block).unwrap_or(0)
    }

    fn tell(&mut self, block: i64, real: i64) {
        self.reals.put(block, real);
    }
}
