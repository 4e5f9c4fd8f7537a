//! Why there is no simulation.
ghost use Rattle.std.specs.Prelude.{◌≡◌};
ghost use Rattle.spf_replay_sim.specs.Errors.{error_of};

use spf_engine::error::EngineError;
use spf_replay::schedule::MAX_STEPS;
use thiserror::Error;

/// Why a run wasn't simulated to its end.
#[derive(Clone, Copy, PartialEq, Eq, Debug, Error)]
pub enum SimError {
    /// All arrays together have more cells than a run of the program's version may have. `count` is
    /// their number, or 2^128 - 1 where it is greater than that.
    #[error("too many cells: {count}")]
    TooManyCells { count: u128 },
    /// A construct names this host, and fewer are supplied.
    #[error("host {number} not handed in")]
    NoHost { number: u64 },
    /// The schedule has more than 1,000,000 steps.
    #[error("steps over {}", MAX_STEPS)]
    TooManySteps,
    /// There was no memory for the run.
    #[error("out of memory")]
    OutOfMemory,
}

impl From<EngineError> for SimError {
    ghost from_gives = { λ from error. error ≡ error_of from };

    fn from(error: EngineError) -> Self {
        match error {
            EngineError::TooManyCells { count } => SimError::TooManyCells { count },
            EngineError::NoHost { number } => SimError::NoHost { number },
            EngineError::OutOfMemory => SimError::OutOfMemory,
        }
    }
}
