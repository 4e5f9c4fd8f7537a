//! Where the arrays of a program lie among the cells of a run, and why there can't be a run.

ghost use Rattle.std.specs.Prelude.{◌≡◌};
ghost use Rattle.spf_exec_instance.specs.declared.layout.RunError.TheVariants.{OutOfMemory};

use std::alloc::AllocError;
use std::marker::Model;
use thiserror::Error;

/// Where the arrays of a program lie among the cells of a run.
#[derive(Drop)]
pub struct Layout {
    pub(crate) extents: Vec<(u64, u64)>,
    pub(crate) cells: u64,
}

impl Model for Layout {
    ghost use Rattle.spf_exec_instance.specs.Layout.{LayoutValue};

    ghost Value = { LayoutValue };

    ghost view = { λ l. record { extents = l.extents.items; cells = l.cells } };
}

impl Layout {
    /// Returns the first cell and the number of elements of each array, in their order.
    pub fn extents(&self) -> &[(u64, u64)]
        ensures { result.now ≡ self.now.extents }
    {
        &self.extents
    }

    /// Returns the number of cells of all arrays.
    pub fn cells(&self) -> u64
        ensures { result ≡ self.now.cells }
    {
        self.cells
    }
}

/// Why a run can't be made.
#[derive(Clone, Copy, PartialEq, Eq, Debug, Error)]
pub enum RunError {
    /// All arrays together have more cells than a run of the program's version may have. `count` is
    /// their number, or 2^128 - 1 where it is greater than that.
    #[error("too many cells: {count}")]
    TooManyCells { count: u128 },
    /// There was no memory for the run.
    #[error("out of memory")]
    OutOfMemory,
}

impl From<AllocError> for RunError {
    ghost from_gives = { λ _ error. error ≡ OutOfMemory };

    fn from(_: AllocError) -> Self {
        RunError::OutOfMemory
    }
}
