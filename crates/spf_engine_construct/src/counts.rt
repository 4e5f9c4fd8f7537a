//! How good the guesses were.
ghost use Rattle.std.specs.Prelude.{◌≡◌, ◌≤◌, ◌+◌, length, map, drop, not, if◌then◌else◌};
ghost use Rattle.spf_ast.specs.Meaning.{max_blocks};
ghost use Rattle.spf_ast.specs.Carried.{same_carried};
ghost use Rattle.spf_engine_construct.specs.Guesses.{seen_guess, paired, counts_of, AreAtMost};

use spf_ast::row::Row;
use spf_guess_statistics::guess::Guess;
use spf_guess_statistics::stats::Stats;

/// 1 for true, 0 for false.
fn one_if(so: bool) -> u64
    ensures { result ≡ if so then 1 else 0 }
{
    if so { 1 } else { 0 }
}

/// The statistics with the counts of one more guess.
fn with_guess(stats: Stats, guess: &Guess, real: &Row) -> Stats
    requires room { AreAtMost stats max_blocks }
    ensures blocks { result.blocks ≡ stats.blocks }
    ensures hits { result.hits
        ≡ stats.hits + (if same_carried guess.now.value real.now then 1 else 0) }
    ensures misses { result.misses
        ≡ stats.misses + (if not (same_carried guess.now.value real.now) then 1 else 0) }
    ensures blind { result.blind ≡ stats.blind + (if guess.now.blind then 1 else 0) }
{
    let hit = guess.value.is_same(real);
    Stats {
        blocks: stats.blocks,
        hits: stats.hits + one_if(hit),
        misses: stats.misses + one_if(!hit),
        blind: stats.blind + one_if(guess.blind),
    }
}

/// Returns the statistics of blocks with these real rows: how many they are, and how good the
/// guesses for all but the first were.
pub fn count_blocks(reals: &[Row], guesses: &[Guess]) -> Stats
    requires few { length reals.now ≤ max_blocks }
    requires enough { length reals.now ≤ length guesses.now + 1 }
    ensures counts { result
        ≡ counts_of (length reals.now) (paired (map seen_guess guesses.now) (drop 1 reals.now)) }
    ensures few { AreAtMost result max_blocks }
{
    let mut stats = Stats::none();
    stats.blocks = reals.len() as u64;
    let Some((_, others)) = reals.split_first() else {
        return stats;
    };
    for index in 0..others.len() {
        stats = with_guess(stats, &guesses[index], &others[index]);
    }
    stats
}
