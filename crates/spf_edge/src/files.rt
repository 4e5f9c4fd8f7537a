//! Where files come from.
ghost use Rattle.std.specs.Prelude.{◌≡◌, [], ◌∷◌, Err};
ghost use Rattle.spf_edge.specs.declared.files.FetchError.TheVariants.{OutOfMemory};
ghost use Rattle.spf_edge.specs.Entries.{IsMissing};
ghost use Rattle.spf_edge.specs.Fetches.{FilesState, AreMade, fetch_of};

use std::alloc::{AllocError, Global};
use thiserror::Error;

/// Why a fetch gave no file.
#[derive(Clone, Copy, PartialEq, Eq, Debug, Error)]
pub enum FetchError {
    /// The names are known, and this one isn't among them.
    #[error("no such file")]
    Missing,
    /// The file could not be read.
    #[error("the file could not be read")]
    Failed,
    /// The file has more bytes than the limit allows.
    #[error("the file is too long")]
    TooLong,
    /// There was no memory for the content.
    #[error("out of memory")]
    OutOfMemory,
}

impl From<AllocError> for FetchError {
    ghost from_gives = { λ _ error. error ≡ OutOfMemory };

    fn from(_: AllocError) -> Self {
        FetchError::OutOfMemory
    }
}

/// A place that files are read from, by name.
pub trait Files {
    /// What they tell: names and contents, and the names that were fetched so far, where they tell
    /// them; and how often a fetch has failed, a count that saturates.
    ghost state: { Self → FilesState };

    /// Fetches the whole content of the file of that name, of at most `limit` bytes.
    fn fetch(&mut self, alloc: Global, name: &str, limit: u64) -> Result<Vec<u8>, FetchError>
        // This one fetch was made, and gave what the files hold, where they tell it.
        ensures made { AreMade (state self.old) (state self.new)
            (fetch_of name.now limit result ∷ []) }

        // A name that isn't among those told is missing, which is no fault.
        ensures missing { IsMissing (state self.old).told name.now
            → result ≡ Err FetchError.Missing }
        ensures no_fault { IsMissing (state self.old).told name.now
            → (state self.new).faults ≡ (state self.old).faults };
}
