//! The logs of a crew's lanes, joined in two orders.
ghost use Rattle.std.specs.Prelude.{◌≡◌};
ghost use Rattle.spf_chain.specs.Chains.{chain_cells, HasEnded};
ghost use Rattle.spf_chain.specs.Homes.{log_in};
ghost use Rattle.spf_crew.specs.Crews.{AreAllMates, HaveRead};
ghost use Rattle.spf_speculation.specs.Steps.{joined};
ghost use Rattle.spf_crew.specs.Joined.{joined_down, IsSpeculativeRunOf};

use crate::crew::Crew;
use crate::mate::Mate;
use spf_cells::cells::Cells;
use spf_chain::chain::Chain;

/// Closes a crew. The logs of its lanes are a speculative run when joined block by block from block
/// 0 up, and also when joined from the last block down.
pub fn close_crew(crew: Crew, mates: Vec<Mate>) -> (Chain, Cells)
    requires all { AreAllMates crew mates.items }
    requires ended { HaveRead mates.items }
    ensures ended { HasEnded result.0 }
    ensures site { result.0.site ≡ crew.setting.site }
    ensures own { result.1 ≡ chain_cells result.0 }
    ensures up { IsSpeculativeRunOf result.0 (joined result.0.site.blocks (log_in result.0.homes)) }
    ensures down { IsSpeculativeRunOf result.0
        (joined_down result.0.site.blocks (log_in result.0.homes)) }
{
    // Law: logs that are joined block by block are a merging of them.
    spf_speculation::laws::speculative_runs_exist();
    crew.close(mates)
}
