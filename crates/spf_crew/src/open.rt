//! Makes the table with the chain in its slot, splits seats off and joins them again, and takes
//! the chain back.
ghost use Rattle.std.specs.Prelude.{◌≡◌, ◌+◌, ◌<◌, true, false, IfOk};
ghost use Rattle.spf_chain.specs.Chains.{chain_cells};
ghost use Rattle.spf_chain.specs.Sites.{IsGround};
ghost use Rattle.spf_crew.specs.declared.view.CrewSetting.{CrewSetting};
ghost use Rattle.spf_crew.specs.Endings.{has_ended};
ghost use Rattle.spf_crew.specs.Rule.{IsChainOf};
ghost use Rattle.spf_crew.specs.Mates.{new_seat};
ghost use Rattle.spf_crew.specs.Values.{IsChainSeatOf, setting_of};

use crate::crew::Crew;
use crate::rule::{Dismisses, Enlists};
use crate::seat::ChainSeat;
use crate::view::CrewSetting;
use atomic_table::Table;
use spf_cells::cells::Cells;
use spf_cells_key::key::{GhostKey, ghost_key};
use spf_chain::chain::Chain;
use std::alloc::{AllocError, Global};

// A key with the setting of a crew. A ghost value is named by a call's arguments alone, so those
// that the name mentions are passed here.
pub(crate) fn key_of(chain: &Chain, mates: u64) -> GhostKey<CrewSetting>
    ensures { result.value ≡ setting_of chain.now mates }
{
    setting_key(chain, mates)
}

fn setting_key(chain: &Chain, mates: u64) -> GhostKey<CrewSetting>
    ghost setting: { CrewSetting }
    ensures { result.value ≡ setting }
{
    let _ = chain;
    let _ = mates;
    ghost_key::<CrewSetting>()
}

impl Crew {
    // The table with the chain, and a seat with all numbers.
    pub(crate) fn open(
        alloc: Global,
        chain: Chain,
        cells: Cells,
        mates: u64,
    ) -> Result<(Crew, ChainSeat), AllocError>
        requires cells { cells ≡ chain_cells chain }
        requires ground { IsGround chain.site cells }
        requires mates { 0 < mates }
        requires new { chain.reports ≡ 0 }
        ensures setting { IfOk result (λ r. r.0.setting ≡ setting_of chain mates) }
        ensures seat { IfOk result (λ r. r.1 ≡ new_seat r.0 0) }
    {
        let key = key_of(&chain, mates);
        let slots = Vec::from_array(alloc, [Some(chain)])?;
        let Ok((table, table_seat)) = Table::new(alloc, &[0, 0], slots, &key) else {
            return Err(AllocError);
        };
        let seat = ChainSeat {
            key,
            seen: 0,
            table_seat,
        };
        Ok((Crew { table, cells }, seat))
    }

    // The chain, which has ended, where one seat has all numbers and has read 1.
    pub(crate) fn end(self, seat: ChainSeat) -> (Chain, Cells)
        requires own { IsChainSeatOf self seat }
        requires all { (seat.from ≡ 0) × (seat.to ≡ self.setting.mates) }
        requires read { seat.read ≡ true }
        ensures same { IsChainOf self.setting result.0 }
        ensures ended { has_ended result.0 ≡ true }
        ensures cells { result.1 ≡ self.setting.cells }
    {
        let ChainSeat {
            key: _,
            seen: _,
            table_seat,
        } = seat;
        let Crew { table, cells } = self;
        let mut closed = table.close_with(table_seat);
        let chain = closed.take(0).unwrap();
        closed.free();
        (chain, cells)
    }
}

impl ChainSeat {
    // Gives the first number to a new seat.
    pub(crate) fn enlist(&mut self, crew: &Crew) -> ChainSeat
        requires own { IsChainSeatOf crew.now self.old }
        requires more { self.old.from + 1 < self.old.to }
        ensures new { result ≡ record self.old { to = self.old.from + 1 } }
        ensures rest { self.new ≡ record self.old { from = self.old.from + 1 } }
    {
        let shared = &crew.table.shared;
        let table_seat = shared.split_seat::<Enlists>(&mut self.table_seat);
        ChainSeat {
            key: self.key.again(),
            seen: self.seen,
            table_seat,
        }
    }

    // Takes over the numbers of the next seat.
    pub(crate) fn dismiss(&mut self, crew: &Crew, other: ChainSeat)
        requires own { IsChainSeatOf crew.now self.old }
        requires other { IsChainSeatOf crew.now other }
        requires next { other.from ≡ self.old.to }
        ensures { self.new ≡ record self.old { to = other.to } }
    {
        let ChainSeat {
            key: _,
            seen: _,
            table_seat,
        } = other;
        let shared = &crew.table.shared;
        shared.join_seat::<Dismisses>(&mut self.table_seat, table_seat);
    }
}
