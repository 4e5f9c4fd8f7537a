//! Closes a crew.
ghost use Rattle.std.specs.Prelude.{◌≡◌, true, length};
ghost use Rattle.spf_chain.specs.Chains.{chain_cells, HasEnded};
ghost use Rattle.spf_chain.specs.Finishing.{EveryMergingRuns};
ghost use Rattle.spf_chain.specs.Homes.{log_in};
ghost use Rattle.spf_crew.specs.Crews.{AreFirstMates, AreAllMates, HaveRead};
ghost use Rattle.spf_crew.specs.Values.{IsChainSeatOf};

use crate::crew::Crew;
use crate::mate::Mate;
use crate::seat::ChainSeat;
use spf_cells::cells::Cells;
use spf_chain::chain::Chain;

impl Crew {
    // Joins all seats.
    fn dismiss_all(&self, last: ChainSeat, mut mates: Vec<Mate>) -> ChainSeat
        requires last { IsChainSeatOf self.now last × (last.read ≡ true)
            × (last.from ≡ length mates.items) × (last.to ≡ self.now.setting.mates) }
        requires mates { AreFirstMates self.now mates.items × HaveRead mates.items }
        ensures { IsChainSeatOf self.now result × (result.read ≡ true) × (result.from ≡ 0)
            × (result.to ≡ self.now.setting.mates) }
    {
        let mut all = last;
        while let Some(mate) = mates.pop() {
            let mut seat = mate.into_seat();
            seat.dismiss(self, all);
            all = seat;
        }
        all
    }

    /// Ends the crew, whose mates these are, in their order. The chain has ended, since each mate
    /// has read 1 in the ending word. Every merging of the logs of its lanes is a speculative run.
    /// It takes no memory.
    pub fn close(self, mut mates: Vec<Mate>) -> (Chain, Cells)
        requires all { AreAllMates self mates.items }
        requires ended { HaveRead mates.items }
        ensures ended { HasEnded result.0 }
        ensures site { result.0.site ≡ self.setting.site }
        ensures own { result.1 ≡ chain_cells result.0 }
        ensures cells { result.1 ≡ self.setting.cells }
        ensures merging { EveryMergingRuns result.0 (log_in result.0.homes) }
    {
        let last = mates.pop().unwrap().into_seat();
        let all = self.dismiss_all(last, mates);
        let (chain, cells) = self.end(all);
        chain.merged_logs_are_speculative_runs();
        (chain, cells)
    }
}
