//! Why a run doesn't reach its end.
ghost use Rattle.std.specs.Prelude.{◌≡◌};
ghost use Rattle.spf_engine.specs.declared.error.EngineError.TheVariants as engine_error;

use spf_exec_instance::layout::RunError;
use std::alloc::AllocError;
use thiserror::Error;

/// Why a program wasn't run to its end.
#[derive(Clone, Copy, PartialEq, Eq, Debug, Error)]
pub enum EngineError {
    /// All arrays together have more cells than a run of the program's version may have. `count` is
    /// their number, or 2^128 - 1 where it is greater than that.
    #[error("too many cells: {count}")]
    TooManyCells { count: u128 },
    /// A construct names this host, and fewer are supplied.
    #[error("host {number} not handed in")]
    NoHost { number: u64 },
    /// There was no memory for the run.
    #[error("out of memory")]
    OutOfMemory,
}

impl From<AllocError> for EngineError {
    ghost from_gives = { λ _ error. error ≡ engine_error.OutOfMemory };

    fn from(_: AllocError) -> Self {
        EngineError::OutOfMemory
    }
}
