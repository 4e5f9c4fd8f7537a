//! The trait of predictors that the caller supplies.
ghost use Rattle.std.specs.Prelude.{◌≡◌, []};
ghost use Rattle.spf_guess.specs.Answers.{Answers, AnswersAlike, WasTold};

/// Guesses parts of the rows at which blocks begin, by the blocks' numbers, and is told the real
/// ones.
///
/// What a predictor means is what it answers for each block number after each list of further pairs
/// that it may be told. So asking it changes nothing, and it may forget what it was told wherever
/// no answer depends on that. Neither call takes memory.
pub trait Predictor: Drop {
    /// What it answers after it was told further pairs.
    ghost answer: { Self → Answers };

    /// Guesses a part of the row at which the block of this number begins.
    fn guess(&mut self, block: i64) -> i64
        ensures answer { result ≡ answer self.old [] block }
        ensures same { AnswersAlike (answer self.old) (answer self.new) };

    /// Tells the predictor that the part was this word when the block of this number began.
    fn tell(&mut self, block: i64, real: i64)
        ensures told { WasTold (answer self.old) (record { block = block; real = real })
            (answer self.new) };
}
