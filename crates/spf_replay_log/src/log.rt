//! Logs, and why bytes are none.
ghost use Rattle.std.specs.Prelude.{◌≡◌};
ghost use Rattle.spf_replay_log.specs.declared.log.LogError.TheVariants.{OutOfMemory};

use std::alloc::AllocError;
use thiserror::Error;

/// How many blocks a section may speak of: the blocks of its steps are below it.
pub const MAX_BLOCKS: u16 = 4096;

/// One event of a block.
#[derive(Clone, Copy, PartialEq, Eq, Debug)]
pub enum Event {
    /// A load of a cell, which gave a word.
    Load {
        /// The index of the cell.
        cell: u64,
        /// The word that the load gave.
        word: i64,
    },
    /// A store to a cell.
    Store {
        /// The index of the cell.
        cell: u64,
        /// The word that was stored.
        word: i64,
    },
    /// A turn, at which the block's flag was polled.
    Turn {
        /// The number that was polled; 0 where the flag was not raised.
        number: u64,
    },
}

/// An event, and the block that it belongs to.
#[derive(Clone, Copy, PartialEq, Eq, Debug)]
pub struct Step {
    /// The index of the block in its construct.
    pub block: u64,
    /// What the block did.
    pub event: Event,
}

/// Why bytes can't be read as a log.
#[derive(Clone, Copy, PartialEq, Eq, Debug, Error)]
pub enum LogError {
    /// They are no log.
    #[error("not a log: byte {at}")]
    NotLog {
        /// Where the first wrong field begins, or the number of bytes where they end inside a
        /// field or a section.
        at: u64,
    },
    /// There is no memory for the log.
    #[error("out of memory")]
    OutOfMemory,
}

impl From<AllocError> for LogError {
    ghost from_gives = { λ _ error. error ≡ OutOfMemory };

    fn from(_: AllocError) -> Self {
        LogError::OutOfMemory
    }
}
