//! The words that threads share.
ghost use Rattle.spf_cells.specs.Cells.{AreCells};

use crate::rule::CellTable;
use std::marker::Model;

/// One atomic word for each cell of a plan's spans, as its 64 bits, and one flag for each block.
///
/// Contracts see of it the table and the setting: the plan, the entry, and the blocks that may be
/// raised.
#[derive(Drop)]
pub struct Cells {
    pub(crate) table: CellTable,
}

impl Model for Cells {
    ghost use Rattle.spf_cells.specs.Values.{CellsValue};

    ghost Value = { CellsValue };

    ghost use Rattle.spf_cells.specs.Cells.{cells_value, AreCells};

    ghost view = { cells_value };

    ghost invariant = { λ c. AreCells (cells_value c) };
}

impl Cells {
    /// What all cells keep: their plan is disjoint within the entry, and their table has a word for
    /// each block and each cell of it.
    pub fn plan_facts(&self)
        ensures { AreCells self.now }
    {
        let _table = &self.table;
    }
}
