//! How votes are counted, block by block.
ghost use Rattle.std.specs.Prelude.{◌≡◌, ◌≤◌, ◌<◌, ◌+◌, ℤ, pos, List, [], Some, None, IfOk};
ghost use Rattle.std.specs.Prelude.{if◌then◌else◌, unwrap_or, option_map};
ghost use Rattle.std.specs.HashMap.{get, hash_map_len, spare};
ghost use Rattle.std.specs.Ordering.{int_eq};
ghost use Rattle.std.specs.List.{fold};
ghost use Rattle.spf_guess_statistics.specs.Guess.{Told};
ghost use Rattle.spf_guess.specs.Counting.{answer_of};
ghost use Rattle.spf_guess.specs.Kinds.{vote_answer};
ghost use Rattle.spf_guess.specs.Stores.{vote_step, once_told, KeepsAlike};
ghost use Rattle.spf_guess.specs.Voting.{votes_of};

use crate::Predictor;
use crate::most::Most;
use crate::vote::Vote;
use std::alloc::{AllocError, Global};
use std::collections::HashMap;

/// Tells the predictor of a block a real value.
fn count_for(most: &mut Most, block: i64, real: i64)
    ensures { answer_of most.new
        ≡ once_told (answer_of most.old) (record { block = block; real = real }) }
{
    most.tell(block, real);
}

/// Keeps the predictor of a new block.
fn insert(votes: &mut HashMap<i64, Most>, block: i64, most: Most)
    requires new { get int_eq votes.old block ≡ None }
    requires room { 0 < spare votes.old }
    ensures values { (other : ℤ) → get int_eq votes.new other
        ≡ (if int_eq block other then Some most else get int_eq votes.old other) }
    ensures count { hash_map_len votes.new ≡ hash_map_len votes.old + 1 }
    ensures spare { spare votes.old ≤ spare votes.new + 1 }
{
    votes.insert(block, most).is_ok();
}

impl Vote {
    /// Makes the predictor with room for `room` blocks and for `each` values of each block, which
    /// was told nothing.
    ///
    /// # Errors
    ///
    /// `AllocError` where there is no memory for the room.
    pub fn make(alloc: Global, room: u64, each: u64) -> Result<Vote, AllocError>
        ensures { IfOk result (λ vote. (pairs : List Told) (block : ℤ)
            → ⟦<Vote as Predictor>⟧.answer vote pairs block ≡ vote_answer room each pairs block) }
    {
        let votes = HashMap::with_capacity(alloc, room as usize)?;
        let mut fresh = Vec::new(alloc);
        for _ in 0..room {
            fresh.push(Most::make(alloc, each)?)?;
        }
        Ok(Vote {
            votes,
            fresh,
            room: room as usize,
            each,
        })
    }

    /// Counts the first vote for a block.
    fn count_first(&mut self, block: i64, real: i64)
        requires new { get int_eq self.old.votes block ≡ None }
        requires room { hash_map_len self.old.votes < self.old.room }
        ensures each { self.new.each ≡ self.old.each }
        ensures votes { KeepsAlike
            (vote_step self.old.each (votes_of self.old) (record { block = block; real = real }))
            (votes_of self.new) }
    {
        if let Some(most) = self.fresh.pop() {
            let mut most = most;
            count_for(&mut most, block, real);
            insert(&mut self.votes, block, most);
        }
    }

    /// Counts a vote for a block that is kept, or for which there is room; drops any other.
    fn count(&mut self, block: i64, real: i64)
        ensures each { self.new.each ≡ self.old.each }
        ensures votes { KeepsAlike
            (vote_step self.old.each (votes_of self.old) (record { block = block; real = real }))
            (votes_of self.new) }
    {
        if let Some(most) = self.votes.get_mut(&block) {
            count_for(most, block, real);
            return;
        }
        if self.votes.len() < self.room {
            self.count_first(block, real);
        }
    }
}

impl Predictor for Vote {
    ghost answer = { λ vote pairs block. unwrap_or (option_map (λ answers. answers [] block)
        ((fold (vote_step vote.each) (votes_of vote) pairs).value block)) (pos 0) };

    fn guess(&mut self, block: i64) -> i64 {
        match self.votes.get(&block) {
            Some(most) => most.best,
            None => 0,
        }
    }

    fn tell(&mut self, block: i64, real: i64) {
        self.count(block, real);
    }
}
