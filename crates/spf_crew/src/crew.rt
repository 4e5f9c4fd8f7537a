//! What mates share.
use crate::rule::CrewTable;
use spf_cells::cells::Cells;
use std::marker::Model;

/// The sequence word, the ending word, the slot of the chain, and the cells.
///
/// Contracts see of it its table, and what is fixed for it: the site and the cells of its chain,
/// and how many mates it has.
#[derive(Drop)]
pub struct Crew {
    pub(crate) table: CrewTable,
    pub(crate) cells: Cells,
}

impl Model for Crew {
    ghost use Rattle.std.specs.Coded.{codes};
    ghost use Rattle.spf_crew.specs.contracts.view.CrewSetting as setting_row;

    ghost coded = { Prim.hlevel (codes, setting_row.the_row.coded) };

    ghost use Rattle.spf_crew.specs.Values.{CrewValue};

    ghost Value = { CrewValue };

    ghost use Rattle.spf_crew.specs.Crew.{crew_value, IsCrew};

    ghost view = { crew_value };

    ghost invariant = { IsCrew };
}
