//! Where output goes.
ghost use Rattle.std.specs.Prelude.{◌≡◌, ◌≤◌, Err, OnOk};
ghost use Rattle.spf_edge.specs.declared.sink.PutError.TheVariants.{OutOfMemory};
ghost use Rattle.spf_edge.specs.Bytes.{Adds, AddsPrefix};
ghost use Rattle.spf_edge.specs.Puts.{SinkState, HasPut, put_of};
ghost use Rattle.spf_edge.specs.Faults.{Rose};

use std::alloc::AllocError;
use thiserror::Error;

/// Why a put did not take its whole piece.
#[derive(Clone, Copy, PartialEq, Eq, Debug, Error)]
pub enum PutError {
    /// The device refused; it may have taken a prefix of the piece.
    #[error("the output could not be written")]
    Failed,
    /// There was no memory for the piece; nothing was taken.
    #[error("out of memory")]
    OutOfMemory,
}

impl From<AllocError> for PutError {
    ghost from_gives = { λ _ error. error ≡ OutOfMemory };

    fn from(_: AllocError) -> Self {
        PutError::OutOfMemory
    }
}

/// A device that takes bytes, one piece after another.
pub trait Sink {
    /// What it tells: the bytes taken and the puts so far, where it tells them, and how often a put
    /// has failed, a count that saturates.
    ghost state: { Self → SinkState };

    /// Takes the piece, after what was taken before.
    fn put(&mut self, piece: &[u8]) -> Result<(), PutError>
        ensures later { (state self.old).faults ≤ (state self.new).faults }

        // Whatever the answer, a prefix of the piece was taken and nothing else.
        ensures front { AddsPrefix (state self.old).taken (state self.new).taken piece.now }
        ensures added { OnOk result (Adds (state self.old).taken (state self.new).taken piece.now) }

        // One put was made of it, or none where there was no memory.
        ensures made { HasPut (state self.old).puts (state self.new).puts
            (put_of piece.now result) }
        ensures nothing { result ≡ Err PutError.OutOfMemory → state self.new ≡ state self.old }

        ensures failed { result ≡ Err PutError.Failed
            → Rose (state self.old).faults (state self.new).faults };
}
