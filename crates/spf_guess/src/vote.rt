//! A predictor that counts votes by block numbers.
ghost use Rattle.std.specs.Prelude.{◌≤◌, ◌+◌, length, All};
ghost use Rattle.std.specs.HashMap.{hash_map_len, spare};
ghost use Rattle.spf_guess.specs.Answers.{AnswersAlike};
ghost use Rattle.spf_guess.specs.Counting.{answer_of};
ghost use Rattle.spf_guess.specs.Stores.{untold};

use crate::most::Most;
use std::collections::HashMap;

/// Guesses for each block the real value that it was told most often for a block of this number,
/// the smallest of several, or 0 where it was told none.
///
/// It keeps the first `room` different block numbers that it is told, and for each of them the
/// first `each` different values, and drops what is told of any other. A count saturates at 2^64 -
/// 1.
#[derive(Drop)]
pub struct Vote {
    pub(crate) votes: HashMap<i64, Most>,
    /// Predictors that were told nothing, for blocks that have not come yet.
    pub(crate) fresh: Vec<Most>,
    pub(crate) room: usize,
    pub(crate) each: u64,
    ghost has_room: { room ≤ hash_map_len votes + spare votes },
    ghost has_fresh: { room ≤ hash_map_len votes + length fresh.items },
    ghost are_fresh: { All (λ most. AnswersAlike (untold each) (answer_of most)) fresh.items },
}
