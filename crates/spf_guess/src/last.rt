//! A predictor that guesses the value it was told last.
ghost use Rattle.std.specs.Prelude.{◌≡◌, Some, ℤ, pos, List, unwrap_or};
ghost use Rattle.std.specs.List.{last_or};
ghost use Rattle.spf_guess_statistics.specs.Guess.{Told};
ghost use Rattle.spf_guess.specs.Kinds.{reals_told, last_answer};

use crate::Predictor;

/// Guesses the real value that it was told last, whatever the block, or 0 before it was told any.
#[derive(Clone, Copy, PartialEq, Eq, Debug)]
pub struct Last {
    real: i64,
}

impl Last {
    /// Makes the predictor that was told nothing.
    pub fn make() -> Last
        ensures { (pairs : List Told) (block : ℤ)
            → ⟦<Last as Predictor>⟧.answer result pairs block ≡ last_answer pairs }
    {
        Last { real: 0 }
    }
}

impl Predictor for Last {
    ghost answer = { λ last pairs _.
        unwrap_or (last_or (Some last.real) (reals_told pairs)) (pos 0) };

    fn guess(&mut self, _block: i64) -> i64 {
        self.real
    }

    fn tell(&mut self, _block: i64, real: i64) {
        self.real = real;
    }
}
