//! Laws on speculative runs and schedules. Each is the contract of a function that does nothing.
ghost use Rattle.spf_replay.specs.Deciding.{RunsHaveTheirLogs, RunsLookAlike};
ghost use Rattle.spf_replay.specs.Expecting.{SchedulesOfRunsExist, SchedulesOfRunsAreOne};
ghost use Rattle.spf_replay.specs.Expecting.{SchedulesOfRunsAreRuns};
ghost use Rattle.spf_replay.specs.Laws.{SchedulesAreRuns, SchedulesExist, SchedulesAreOne};

use spf_ast::laws::each_form_has_one_plain_run;
use spf_check_rules::laws::blocks_overwrite;
use spf_speculation::laws::speculative_runs_see_visible_slots_alone;

/// Steps are a speculative run exactly where they share one memory and each block's log is one at
/// the block's real row in the plain run.
pub fn runs_have_their_logs()
    ensures { RunsHaveTheirLogs }
{
    each_form_has_one_plain_run();
    blocks_overwrite();
}

/// Which steps are a speculative run depends only on the slots of `main` that are visible at the
/// construct.
pub fn runs_look_alike()
    ensures { RunsLookAlike }
{
    speculative_runs_see_visible_slots_alone();
}

/// The steps of a construct's schedule are a speculative run, whatever is drawn.
pub fn schedules_are_runs()
    ensures { SchedulesAreRuns }
{
    each_form_has_one_plain_run();
    blocks_overwrite();
}

/// A construct has exactly one schedule from each state of the generator.
pub fn each_construct_has_one_schedule()
    ensures some { SchedulesExist }
    ensures one { SchedulesAreOne }
{}

/// A run has exactly one schedule from each seed, and the verdict on it is `Yes`.
pub fn each_run_has_one_schedule()
    ensures some { SchedulesOfRunsExist }
    ensures one { SchedulesOfRunsAreOne }
    ensures runs { SchedulesOfRunsAreRuns }
{
    schedules_are_runs();
}
