//! The warden: the seat that raises flags and takes over lanes.
ghost use Rattle.std.specs.Prelude.{◌≡◌, ◌<◌, length};
ghost use Rattle.std.specs.List.{Contains};
ghost use Rattle.spf_cells.specs.Rule.{HasNoBlockTwice};
ghost use Rattle.spf_cells.specs.Values.{with_flag, with_lane, IsLaneOf, IsWardenOf};

use crate::cells::Cells;
use crate::lane::Lane;
use crate::rule::{CellSeat, Raised, TakeOver};
use std::marker::Model;

/// The one seat that raises flags.
///
/// Contracts see of it the table, the setting, all flags, and the lanes that it has taken over.
#[derive(Drop)]
pub struct Warden {
    pub(crate) seat: CellSeat,
}

impl Model for Warden {
    ghost use Rattle.spf_cells.specs.Values.{WardenValue};

    ghost Value = { WardenValue };

    ghost use Rattle.spf_cells.specs.Warden.{warden_value, IsWarden};

    ghost view = { warden_value };

    ghost invariant = { IsWarden };
}

impl Warden {
    /// Raises the flag of a block to the attempt's number, if it was below that. All other flags
    /// stay.
    pub fn raise(&mut self, cells: &Cells, block: u64, attempt: u64)
        requires own { IsWardenOf cells.now self.old }
        requires inside { block < length self.old.setting.plan }
        requires raisable { Contains self.old.setting.raisable block }
        requires attempt { attempt ≡ 1 }
        ensures flag { self.new ≡ with_flag self.old block attempt }
    {
        let shared = &cells.table.shared;
        shared.fetch_max::<Raised>(&mut self.seat, block as usize, attempt);
    }

    /// Takes over a lane. The warden then has no block twice; all words and flags stay.
    pub fn take(&mut self, cells: &Cells, lane: Lane)
        requires own { IsWardenOf cells.now self.old }
        requires lane { IsLaneOf cells.now lane }
        ensures taken { self.new ≡ with_lane self.old lane }
        ensures once { HasNoBlockTwice self.new.view.taken }
    {
        let block = lane.block();
        self.take_over(cells, lane);
        let shared = &cells.table.shared;
        shared.fetch_max::<Raised>(&mut self.seat, block, 0);
    }

    /// Takes over a lane's cells and log.
    fn take_over(&mut self, cells: &Cells, lane: Lane)
        requires own { IsWardenOf cells.now self.old }
        requires lane { IsLaneOf cells.now lane }
        ensures { self.new ≡ with_lane self.old lane }
    {
        let seat = lane.into_seat();
        let shared = &cells.table.shared;
        shared.join_seat::<TakeOver>(&mut self.seat, seat);
    }
}
