//! Why a batch ends early.
use thiserror::Error;

/// Why a batch was not run to its end. Places of names count from 0.
#[derive(Clone, Copy, PartialEq, Eq, Debug, Error)]
pub enum BatchError {
    /// The file of the name at this place could not be fetched.
    #[error("file {place} failed")]
    Fetch { place: u64 },
    /// The file at this place has more bytes than an input may have.
    #[error("file {place} too long")]
    TooLong { place: u64 },
    /// For the file at this place the arrays have more cells than a run of the program's version
    /// may have. `count` is their number, or 2^128 - 1 where it is greater than that.
    #[error("file {place}: too many cells: {count}")]
    TooManyCells { place: u64, count: u128 },
    /// A construct names this host, and fewer are supplied.
    #[error("host {number} not supplied")]
    NoHost { number: u64 },
    /// An answer could not be put.
    #[error("the output failed")]
    Put,
    /// Memory ran out.
    #[error("out of memory")]
    OutOfMemory,
}
