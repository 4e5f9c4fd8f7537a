//! The rule of the table, and what each step on it tells the seat that makes it.
use crate::view::{Setting, View};
use atomic_table::{Join, Play, Seat, Split, Table, TableRule};
use spf_cells_key::key::GhostKey;
use std::alloc::Global;

/// The rule, which holds at every moment, and the first view.
pub struct CellsRule;

impl TableRule<u64, View, GhostKey<Setting>> for CellsRule {
    ghost use Rattle.spf_cells.specs.Rule.{IsConsistentTable, first};

    ghost holds = { λ t. IsConsistentTable t.value };

    ghost first = { λ t. first t.value };
}

/// A lane's load of one of its cells.
pub struct Loaded;

impl Play<u64, View> for Loaded {
    ghost use Rattle.spf_cells.specs.Rule.{IsLoad};

    ghost then = { IsLoad };
}

/// A lane's store to one of its cells.
pub struct Stored;

impl Play<u64, View> for Stored {
    ghost use Rattle.spf_cells.specs.Rule.{IsStore};

    ghost then = { IsStore };
}

/// A lane's load of its block's flag.
pub struct Polled;

impl Play<u64, View> for Polled {
    ghost use Rattle.spf_cells.specs.Rule.{IsPoll};

    ghost then = { IsPoll };
}

/// The warden's step on a flag.
pub struct Raised;

impl Play<u64, View> for Raised {
    ghost use Rattle.spf_cells.specs.Rule.{IsRaise};

    ghost then = { IsRaise };
}

/// The warden's load of a cell of a lane that it has taken over.
pub struct ReadBack;

impl Play<u64, View> for ReadBack {
    ghost use Rattle.spf_cells.specs.Rule.{IsReadBack};

    ghost then = { IsReadBack };
}

/// The warden hands out the next block to a lane.
pub struct HandOut;

impl Split<View> for HandOut {
    ghost use Rattle.spf_cells.specs.Rule.{after_hand_out, handed_out};

    ghost left = { after_hand_out };

    ghost right = { handed_out };
}

/// The warden takes over a lane.
pub struct TakeOver;

impl Join<View> for TakeOver {
    ghost use Rattle.spf_cells.specs.Rule.{after_take_over, spent_view};

    ghost both = { after_take_over };

    ghost spent = { spent_view };
}

/// The table of flags and cells.
pub type CellTable = Table<u64, View, GhostKey<Setting>, CellsRule, Global>;

/// A lane's or the warden's seat on it.
pub type CellSeat = Seat<u64, View>;
