//! What the blocks of a chain come to.
ghost use Rattle.std.specs.Prelude.{◌≡◌, ◌≤◌, [], length, map};
ghost use Rattle.spf_speculation_entry.specs.Entry.{plain_blocks};
ghost use Rattle.spf_speculation_entry.specs.Sites.{entry_at};
ghost use Rattle.spf_chain.specs.Chains.{HasEnded, chain_cells};
ghost use Rattle.spf_chain.specs.Homes.{log_in};
ghost use Rattle.spf_chain.specs.Finishing.{lanes_in, EveryMergingRuns, IsFinished};

use crate::block::Settled;
use crate::chain::Chain;
use spf_cells::cells::Cells;
use spf_cells::finish::Trace;
use spf_cells::lane::Lane;
use spf_ticket::ticket::Report;

/// Puts the lanes of the reports that are home into the room for them.
fn lanes_of(room: Vec<Lane>, mut homes: Vec<Option<Report>>) -> Vec<Lane>
    requires empty { room.items ≡ [] }
    requires enough { length homes.items ≤ room.cap }
    ensures { result.items ≡ lanes_in homes.items }
{
    let mut lanes = room;
    for index in 0..homes.len() {
        match homes[index].take() {
            Some(report) => match lanes.push(report.ticket.into_lane()) {
                Ok(()) => continue,
                Err(_) => unreachable!(),
            },
            None => continue,
        }
    }
    lanes
}

impl Chain {
    /// Each order in which the events of an ended chain's lanes may have happened is a speculative
    /// run, and the history has all real rows of the plain run.
    pub fn merged_logs_are_speculative_runs(&self)
        requires ended { HasEnded self.now }
        ensures merging { EveryMergingRuns self.now (log_in self.now.homes) }
        ensures values { map (λ b. b.row) self.now.history
            ≡ (plain_blocks (entry_at self.now.site)).values }
    {
        // Law: the plain run stands where the validated prefix leaves it.
        spf_speculation::laws::prefixes_grow();
        // Law: the logs of the lanes, merged in any order, are a speculative run.
        spf_speculation_lanes::laws::lanes_make_speculative_runs();
        let _ = &self.again;
    }

    /// Returns what the blocks came to: the row after the last one, or the trap of the last
    /// validated one. `into`, which is as long as the memory at the entry, takes the lanes'
    /// contents, and the trace has their logs. It takes no memory.
    pub fn finish(self, cells: Cells, into: &mut [i64]) -> (Settled, Trace)
        requires ended { HasEnded self }
        requires own { cells ≡ chain_cells self }
        requires size { length into.old ≡ length self.site.memory }
        ensures { IsFinished self result.0 result.1 into.old into.new }
    {
        // Law: the plain run stands where the validated prefix leaves it.
        spf_speculation::laws::prefixes_grow();
        // Law: the logs of the lanes, merged in any order, are a speculative run.
        spf_speculation_lanes::laws::lanes_make_speculative_runs();
        let Chain {
            site: _,
            warden,
            homes,
            room,
            again: _,
            validation,
            reports: _,
        } = self;
        let settled = validation.settled;
        let lanes = lanes_of(room, homes);
        let trace = cells.finish(warden, lanes, into);
        (settled, trace)
    }
}
