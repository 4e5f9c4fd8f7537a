//! A predictor of any of the kinds that words ask for.
ghost use Rattle.std.specs.Prelude.{◌≡◌, ℤ, List, IfOk};
ghost use Rattle.spf_guess_statistics.specs.Guess.{Told};
ghost use Rattle.spf_cli_host_words.specs.Seen.{seen_kind};
ghost use Rattle.spf_cli_hosts.specs.Hosts.{answers_of};
ghost use Rattle.spf_cli_hosts.specs.Seen.{answer_by};

use spf_cli_host_words::HostKind;
use spf_guess::{Fixed, Last, Most, Predictor, Table, Vote};
use std::alloc::{AllocError, Global};

/// How many different values the host `most` counts.
const MOST_ROOM: u64 = 256;

/// For how many blocks the host `table` keeps a value.
const TABLE_ROOM: u64 = 4096;

/// For how many blocks the host `vote` counts votes.
const VOTE_ROOM: u64 = 4096;

/// How many different values the host `vote` counts for each block.
const VOTE_EACH: u64 = 8;

/// A predictor that words ask for.
#[derive(Drop)]
pub enum Host {
    /// It guesses one value.
    Fixed(Fixed),
    /// It guesses the value that it was told last.
    Last(Last),
    /// It guesses the value that it was told most often.
    Most(Most),
    /// It guesses for each block the value that it was told last for a block of this number.
    Table(Table),
    /// It guesses for each block the value that it was told most often for a block of this number.
    Vote(Vote),
}

impl Host {
    /// Makes the predictor of a kind, which was told nothing.
    ///
    /// # Errors
    ///
    /// `AllocError` where there is no memory for its room.
    pub fn make(alloc: Global, kind: HostKind) -> Result<Host, AllocError>
        ensures { IfOk result (λ host. (pairs : List Told) (block : ℤ)
            → ⟦<Host as Predictor>⟧.answer host pairs block
            ≡ answers_of (seen_kind kind) pairs block) }
    {
        match kind {
            HostKind::Fixed(value) => Ok(Host::Fixed(Fixed::make(value))),
            HostKind::Last => Ok(Host::Last(Last::make())),
            HostKind::Most => Ok(Host::Most(Most::make(alloc, MOST_ROOM)?)),
            HostKind::Table => Ok(Host::Table(Table::make(alloc, TABLE_ROOM)?)),
            HostKind::Vote => Ok(Host::Vote(Vote::make(alloc, VOTE_ROOM, VOTE_EACH)?)),
        }
    }
}

impl Predictor for Host {
    ghost answer = { answer_by ⟦<Fixed as Predictor>⟧.answer ⟦<Last as Predictor>⟧.answer
        ⟦<Most as Predictor>⟧.answer ⟦<Table as Predictor>⟧.answer
        ⟦<Vote as Predictor>⟧.answer };

    fn guess(&mut self, block: i64) -> i64 {
        match self {
            Host::Fixed(fixed) => fixed.guess(block),
            Host::Last(last) => last.guess(block),
            Host::Most(most) => most.guess(block),
            Host::Table(table) => table.guess(block),
            Host::Vote(vote) => vote.guess(block),
        }
    }

    fn tell(&mut self, block: i64, real: i64) {
        match self {
            Host::Fixed(fixed) => fixed.tell(block, real),
            Host::Last(last) => last.tell(block, real),
            Host::Most(most) => most.tell(block, real),
            Host::Table(table) => table.tell(block, real),
            Host::Vote(vote) => vote.tell(block, real),
        }
    }
}
