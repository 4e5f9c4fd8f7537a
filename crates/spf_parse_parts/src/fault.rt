//! Why the parser stops.

use std::alloc::{AllocError, AllocFailed};

/// Why the parser stopped. A fault at a token has how many tokens are left from it on.
#[derive(Clone, Copy, PartialEq, Eq, Debug)]
pub enum Fault {
    /// The token there can't stand where it stands.
    Unexpected(usize),
    /// The limits alone forbid the token there.
    TooDeep(usize),
    /// There was no memory for what was read.
    OutOfMemory,
}

impl From<AllocError> for Fault {
    ghost use Rattle.std.specs.Prelude.{◌≡◌};
    ghost use Rattle.spf_parse_parts.specs.declared.fault.Fault.TheVariants.{OutOfMemory};

    ghost from_gives = { λ _ e. e ≡ OutOfMemory };

    fn from(_: AllocError) -> Self {
        Fault::OutOfMemory
    }
}

impl<T: Drop> From<AllocFailed<T>> for Fault {
    ghost use Rattle.std.specs.Prelude.{◌≡◌};
    ghost use Rattle.spf_parse_parts.specs.declared.fault.Fault.TheVariants.{OutOfMemory};

    ghost from_gives = { λ _ e. e ≡ OutOfMemory };

    fn from(_: AllocFailed<T>) -> Self {
        Fault::OutOfMemory
    }
}
