//! A predictor that guesses one value.
ghost use Rattle.std.specs.Prelude.{◌≡◌, ℤ, List};
ghost use Rattle.spf_guess_statistics.specs.Guess.{Told};

use crate::Predictor;

/// Guesses the same value for each block, whatever it is told.
#[derive(Clone, Copy, PartialEq, Eq, Debug)]
pub struct Fixed {
    /// The value.
    pub value: i64,
}

impl Fixed {
    /// Makes the predictor that guesses this value.
    pub fn make(value: i64) -> Fixed
        ensures { (pairs : List Told) (block : ℤ)
            → ⟦<Fixed as Predictor>⟧.answer result pairs block ≡ value }
    {
        Fixed { value }
    }
}

impl Predictor for Fixed {
    ghost answer = { λ fixed _ _. fixed.value };

    fn guess(&mut self, _block: i64) -> i64 {
        self.value
    }

    fn tell(&mut self, _block: i64, _real: i64) {}
}
