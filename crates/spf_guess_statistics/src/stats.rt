//! How good the guesses of a run are.

ghost use Rattle.std.specs.Prelude.{◌≡◌, ◌+◌, ◌<◌, ◌^◌};
ghost use Rattle.spf_guess_statistics.specs.Statistics.{none as no_blocks, plus as both};

/// How good the guesses of a run are, counted over its validated blocks.
#[derive(Clone, Copy, PartialEq, Eq, Debug)]
pub struct Stats {
    /// The validated blocks, one that trapped included.
    pub blocks: u64,
    /// Those of them that were guessed right.
    pub hits: u64,
    /// Those of them that were guessed wrong.
    pub misses: u64,
    /// Those of them of whose predictors one trapped; they count as hits or misses too.
    pub blind: u64,
}

impl Stats {
    /// Returns the statistics of no blocks.
    pub fn none() -> Stats
        ensures { result ≡ no_blocks }
    {
        Stats {
            blocks: 0,
            hits: 0,
            misses: 0,
            blind: 0,
        }
    }

    /// Returns the statistics of these blocks and of the others.
    pub fn plus(self, other: Stats) -> Stats
        requires blocks { self.blocks + other.blocks < 2 ^ 64 }
        requires hits { self.hits + other.hits < 2 ^ 64 }
        requires misses { self.misses + other.misses < 2 ^ 64 }
        requires blind { self.blind + other.blind < 2 ^ 64 }
        ensures { result ≡ both self other }
    {
        Stats {
            blocks: self.blocks + other.blocks,
            hits: self.hits + other.hits,
            misses: self.misses + other.misses,
            blind: self.blind + other.blind,
        }
    }
}
