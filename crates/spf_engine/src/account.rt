//! What a run has counted and recorded so far.
ghost use Rattle.std.specs.Prelude.{◌≡◌, ◌<◌, ◌++◌, ◌∷◌, [], IfOk};
ghost use Rattle.spf_guess_statistics.specs.Statistics.{none as no_blocks, plus as both};
ghost use Rattle.spf_engine_construct.specs.Guesses.{AreAtMost};
ghost use Rattle.spf_engine.specs.Counts.{most_counted};

use spf_cells::finish::Trace;
use spf_guess_statistics::stats::Stats;
use std::alloc::{AllocError, Global};

/// The statistics and the traces of the constructs with blocks that a run has passed.
#[derive(Drop)]
pub(crate) struct Account {
    pub stats: Stats,
    pub traces: Vec<Trace>,
    ghost bounded: { AreAtMost stats most_counted },
}

impl Account {
    /// The account of a run that begins.
    pub(crate) fn new(alloc: Global) -> Account
        ensures stats { result.stats ≡ no_blocks }
        ensures traces { result.traces.items ≡ [] }
    {
        Account {
            stats: Stats::none(),
            traces: Vec::new(alloc),
        }
    }

    /// Adds the statistics of a construct, and its trace.
    pub(crate) fn add(&mut self, stats: Stats, trace: Trace) -> Result<(), AllocError>
        requires few { AreAtMost (both self.old.stats stats) most_counted }
        ensures stats { IfOk result (λ u. self.new.stats ≡ both self.old.stats stats) }
        ensures traces { IfOk result
            (λ u. self.new.traces.items ≡ self.old.traces.items ++ trace ∷ []) }
    {
        self.stats = self.stats.plus(stats);
        self.traces.push(trace)?;
        Ok(())
    }
}
