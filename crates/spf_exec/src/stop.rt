//! How runs of single blocks end.

use spf_ast::outcome::Trap;
use spf_ast::row::Row;

/// How a block run ended.
#[derive(Clone, Copy, PartialEq, Eq, Debug)]
pub enum Stop {
    /// At its end: a body with the row of its `next`, a producer with that of its `give`, a
    /// consumer with its carried row.
    Ended(Row),
    /// By a trap.
    Trapped(Trap),
    /// At a turn whose number reached the memory's stopping number.
    Cancelled { seen: u64 },
}
