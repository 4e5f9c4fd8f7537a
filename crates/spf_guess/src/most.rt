//! A predictor that guesses the value it was told most often.
ghost use Rattle.std.specs.Prelude.{◌≡◌, ℤ, List, IfOk};
ghost use Rattle.std.specs.List.{fold};
ghost use Rattle.spf_guess_statistics.specs.Guess.{Told};
ghost use Rattle.spf_guess.specs.Kinds.{most_answer, is_preferred as goes_before};
ghost use Rattle.spf_guess.specs.Counting.{counts_of};
ghost use Rattle.spf_guess.specs.Stores.{most_step};

use crate::Predictor;
use crate::store::Store;
use std::alloc::{AllocError, Global};

/// Guesses the real value that it was told most often, the smallest of several, whatever the block,
/// or 0 before it was told any.
///
/// It keeps the first `room` different values that it is told, and drops any other. A count
/// saturates at 2^64 - 1.
#[derive(Drop)]
pub struct Most {
    pub(crate) counts: Store<u64>,
    pub(crate) best: i64,
    pub(crate) best_count: u64,
}

/// Returns whether a value with this count is preferred to another value.
fn is_preferred(value: i64, count: u64, other: i64, count_of_other: u64) -> bool
    ensures { result ≡ goes_before value count other count_of_other }
{
    count > count_of_other || count == count_of_other && value < other
}

impl Most {
    /// Makes the predictor with room for `room` values, which was told nothing.
    ///
    /// # Errors
    ///
    /// `AllocError` where there is no memory for the room.
    pub fn make(alloc: Global, room: u64) -> Result<Most, AllocError>
        ensures { IfOk result (λ most. (pairs : List Told) (block : ℤ)
            → ⟦<Most as Predictor>⟧.answer most pairs block ≡ most_answer room pairs) }
    {
        let counts = Store::make(alloc, room as usize)?;
        Ok(Most {
            counts,
            best: 0,
            best_count: 0,
        })
    }
}

impl Predictor for Most {
    ghost answer = { λ most pairs _. (fold most_step (counts_of most) pairs).best };

    fn guess(&mut self, _block: i64) -> i64 {
        self.best
    }

    fn tell(&mut self, _block: i64, real: i64) {
        let count = self.counts.get(real).unwrap_or(0).saturating_add(1);
        if self.counts.put(real, count) && is_preferred(real, count, self.best, self.best_count) {
            self.best = real;
            self.best_count = count;
        }
    }
}
