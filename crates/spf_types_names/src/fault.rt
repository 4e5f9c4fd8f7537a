//! Why a raw program is refused.

use std::alloc::{AllocError, AllocFailed};
use thiserror::Error;

/// What is wrong at a point of a raw program.
#[derive(Clone, Copy, PartialEq, Eq, Debug, Error)]
pub enum TypeFault {
    /// A name is used that isn't visible.
    #[error("unknown name")]
    UnknownName,
    /// A name is declared that is visible already, or is that of an array or a function.
    #[error("declared twice")]
    Twice,
    /// A call has another number of arguments than the function has parameters, or a list of a
    /// construct's parts isn't as long as its names.
    #[error("wrong number of arguments")]
    Arity,
    /// A name or a value stands where one of another kind is wanted.
    #[error("wrong kind")]
    Kind,
    /// A function calls itself or one below it.
    #[error("calls later function")]
    CallsLater,
    /// The program passes a limit of the language.
    #[error("too large")]
    TooLarge,
    /// `emit` stands in a function.
    #[error("misplaced emit")]
    Misplaced,
    /// `break` stands outside of a loop.
    #[error("misplaced break")]
    MisplacedBreak,
}

/// Why a raw program isn't resolved.
#[derive(Clone, Copy, PartialEq, Eq, Debug, Error)]
pub enum TypeError {
    /// The program has this fault, the first one, on this line.
    #[error("line {line}: {fault}")]
    Refused { fault: TypeFault, line: u32 },
    /// There was too little memory.
    #[error("out of memory")]
    OutOfMemory,
}

impl From<AllocError> for TypeError {
    ghost use Rattle.std.specs.Prelude.{◌≡◌};
    ghost use Rattle.spf_types_names.specs.declared.fault.TypeError.TheVariants.{OutOfMemory};

    ghost from_gives = { λ _ e. e ≡ OutOfMemory };

    fn from(_: AllocError) -> Self {
        TypeError::OutOfMemory
    }
}

impl<T: Drop> From<AllocFailed<T>> for TypeError {
    ghost use Rattle.std.specs.Prelude.{◌≡◌};
    ghost use Rattle.spf_types_names.specs.declared.fault.TypeError.TheVariants.{OutOfMemory};

    ghost from_gives = { λ _ e. e ≡ OutOfMemory };

    fn from(_: AllocFailed<T>) -> Self {
        TypeError::OutOfMemory
    }
}
