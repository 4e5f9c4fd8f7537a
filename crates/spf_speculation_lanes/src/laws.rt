//! The law of lanes, the contract of a function that does nothing.
ghost use Rattle.spf_speculation_lanes.specs.Lanes.{FinishedLanesAreForTheEntry};
ghost use Rattle.spf_speculation_lanes.specs.Lanes.{EveryMergingOfLanes, LanesGiveThePlainMemory};
ghost use Rattle.spf_speculation_lanes.specs.Lanes.{LanesStopNoSecondAttempt};

use spf_cells::laws::ascending_plans_are_disjoint;
use spf_speculation::laws::{
    every_merging_is_a_speculative_run, speculative_runs_mean_the_plain_run,
};

/// Every merging of the lanes' logs that keeps the order of each log is a speculative run, and
/// where no block traps, the lanes written back to the entry's memory give the plain one. No turn
/// of a lane stops a second attempt.
pub fn lanes_make_speculative_runs()
    ensures finished { FinishedLanesAreForTheEntry }
    ensures merging { EveryMergingOfLanes }
    ensures memory { LanesGiveThePlainMemory }
    ensures second { LanesStopNoSecondAttempt }
{
    ascending_plans_are_disjoint();
    every_merging_is_a_speculative_run();
    speculative_runs_mean_the_plain_run();
}
