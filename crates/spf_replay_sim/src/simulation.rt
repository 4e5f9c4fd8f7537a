//! Whole simulations.
ghost use Rattle.std.specs.Prelude.{◌≡◌, ◌<◌, ◌≤◌, ℕ, List, length, map, None, IfOk, IfErr};
ghost use Rattle.std.specs.Prelude.{IsErrAnd};
ghost use Rattle.spf_ast.specs.Syntax.{Program};
ghost use Rattle.spf_ast.specs.View.{program as seen_program};
ghost use Rattle.spf_ast.specs.Construct.{constructs_in};
ghost use Rattle.spf_ast.specs.Program.{outcome as outcome_of, seen_outcome};
ghost use Rattle.spf_ast.specs.Program.{cell_count_of, max_cells};
ghost use Rattle.spf_exec_instance.specs.Instance.{program_of};
ghost use Rattle.spf_guess_statistics.specs.Guess.{Hosts};
ghost use Rattle.spf_guess_statistics.specs.Statistics.{tally};
ghost use Rattle.spf_guess.specs.Answers.{supplied, WereTold};
ghost use Rattle.spf_guess.specs.Missing.{missing_host};
ghost use Rattle.spf_engine.specs.Runs.{WereToldFirst};
ghost use Rattle.spf_replay_log.specs.Log.{sections_of};
ghost use Rattle.spf_replay.specs.Limits.{max_steps};
ghost use Rattle.spf_replay.specs.Expecting.{expected, IsSchedule};
ghost use Rattle.spf_replay.specs.Verdicts.{IsVerdict};
ghost use Rattle.spf_replay.specs.declared.verdict.Verdict.TheVariants.{Yes};
ghost use Rattle.spf_replay_walk.specs.Judging.{seen_log};
ghost use Rattle.spf_replay_sim.specs.Drawing.{step_count, AreOfFewBlocks};
ghost use Rattle.spf_replay_sim.specs.Drawing.{HasTooManySteps, HasDrawnWhole};
ghost use Rattle.spf_replay_sim.specs.Errors.{AreTooMany, IsNotSimulated};
ghost use Rattle.spf_replay_sim.specs.declared.error.SimError.TheVariants.{TooManySteps};
ghost use Rattle.spf_replay_sim.specs.Simulating.{ComesTo};

use crate::draw::nothing_drawn;
use crate::drawn::Drawn;
use crate::error::SimError;
use crate::laws::schedules_see_visible_slots_alone;
use spf_ast::outcome::Outcome;
use spf_check::checked::Checked;
use spf_engine::run::set_up;
use spf_exec_instance::instance::Instance;
use spf_guess::Predictor;
use spf_guess_statistics::stats::Stats;
use spf_replay::Step;
use spf_replay_walk::walk::{Walked, walk};
use std::alloc::{AllocError, Global};

/// The result of a simulated run.
#[derive(Drop)]
pub struct Simulated {
    /// A section for each construct that had blocks, in the order in which they were reached.
    pub log: Vec<Vec<Step>>,
    /// The output, and the cells or the trap.
    pub outcome: Outcome,
    /// How good the guesses were.
    pub stats: Stats,
}

/// What a walk came to, with the schedules that were drawn in it; `None` where they have too many
/// steps.
fn report_of(walked: Walked, drawn: Drawn) -> Option<Simulated>
    ensures { (hosts : Hosts) (p : Program) (input : List ℕ) (seed : ℕ)
        → seen_outcome walked.outcome ≡ outcome_of p input
        → walked.stats ≡ (tally hosts p input).stats
        → HasDrawnWhole seed hosts p input drawn → ComesTo hosts p input seed result }
{
    if drawn.over {
        return None;
    }
    Some(Simulated {
        log: drawn.log,
        outcome: walked.outcome,
        stats: walked.stats,
    })
}

/// Runs an instance of an accepted program, and draws the schedule of each construct from a seed.
/// All hosts that its constructs name are supplied. The answer is `None` where the schedules have
/// more than 1,000,000 steps.
///
/// # Errors
///
/// `AllocError` where there is no memory for the run; the hosts were told a prefix of what they
/// are told in the whole run.
pub fn simulate_instance(
    alloc: Global,
    checked: &Checked,
    instance: &Instance,
    hosts: &mut Vec<Box<dyn Predictor>>,
    seed: u64,
) -> Result<Option<Simulated>, AllocError>
    requires program { program_of instance.now ≡ seen_program checked.now }
    requires hosts { missing_host (length hosts.old.items)
        (constructs_in (program_of instance.now).main) ≡ None }
    ensures simulated { IfOk result (ComesTo (supplied answer hosts.old.items)
        (program_of instance.now) instance.now.input seed) }
    ensures told { IfOk result (λ s. WereTold (supplied answer hosts.old.items)
        (tally (supplied answer hosts.old.items) (program_of instance.now)
        instance.now.input).telling (supplied answer hosts.new.items)) }
    ensures told_first { IfErr result (λ why. WereToldFirst
        (supplied answer hosts.old.items) (program_of instance.now)
        instance.now.input (supplied answer hosts.new.items)) }
    ensures count { length hosts.new.items ≡ length hosts.old.items }
{
    // Law: a schedule depends on the visible slots alone.
    schedules_see_visible_slots_alone();
    // Law: so does a speculative run.
    spf_replay::laws::runs_look_alike();
    // Law: what is expected matters by its speculative runs alone.
    spf_replay::verdict::verdicts_are_exact();
    let mut drawn = nothing_drawn(alloc, seed);
    let walked = walk(alloc, checked, instance, hosts, &mut drawn)?;
    Ok(report_of(walked, drawn))
}

/// Simulates a run by blocks: the log of the one run whose schedule the seed draws, with the
/// outcome and the statistics, which are those of each run.
///
/// A schedule is drawn for one construct after another. Of the blocks that run, each draw picks
/// one; it goes on to its next turn, where it polls its flag, or to its end. Where an attempt ended
/// or was stopped, validation goes on as in a run by workers: flags are raised, and a block that
/// was mispredicted runs again. The program is run in the calling thread, and hosts are asked and
/// told as in `spf_engine::run::run_program`.
///
/// # Errors
///
/// `TooManyCells` where the arrays have more cells than a run of the program's version may have;
/// `NoHost` where the program names a host that isn't supplied; `TooManySteps` where the sections
/// have more than 1,000,000 steps together; and `OutOfMemory`. The hosts were told the first of
/// what they are told in the whole run; after the first two errors nothing.
pub fn sim(
    alloc: Global,
    checked: &Checked,
    input: &[u8],
    hosts: &mut Vec<Box<dyn Predictor>>,
    seed: u64,
) -> Result<Simulated, SimError>
    ensures log { IfOk result (λ s. IsSchedule (supplied answer hosts.old.items)
        (seen_program checked.now) input.now seed (seen_log s.log.items)) }
    ensures right { IfOk result (λ s. IsVerdict (expected (supplied answer hosts.old.items)
        (seen_program checked.now) input.now) (seen_log s.log.items) Yes) }
    ensures outcome { IfOk result
        (λ s. seen_outcome s.outcome ≡ outcome_of (seen_program checked.now) input.now) }
    ensures statistics { IfOk result (λ s. s.stats
        ≡ (tally (supplied answer hosts.old.items) (seen_program checked.now)
        input.now).stats) }
    ensures told { IfOk result (λ s. WereTold (supplied answer hosts.old.items)
        (tally (supplied answer hosts.old.items) (seen_program checked.now)
        input.now).telling (supplied answer hosts.new.items)) }
    ensures told_first { IfErr result (λ why. WereToldFirst
        (supplied answer hosts.old.items) (seen_program checked.now) input.now
        (supplied answer hosts.new.items)) }
    ensures blocks { IfOk result (λ s. AreOfFewBlocks (sections_of s.log.items)) }
    ensures few_steps { IfOk result (λ s. step_count (seen_log s.log.items) ≤ max_steps) }
    ensures too_many_steps { IfErr result (λ why. why ≡ TooManySteps
        → HasTooManySteps (supplied answer hosts.old.items) (seen_program checked.now)
        input.now seed) }
    ensures too_many { max_cells (seen_program checked.now)
        < cell_count_of (seen_program checked.now) (length input.now)
        → IsErrAnd result
        (AreTooMany (cell_count_of (seen_program checked.now) (length input.now))) }
    ensures complete { IfOk result (λ s.
        missing_host (length hosts.old.items) (constructs_in (seen_program checked.now).main)
        ≡ None) }
    ensures not_simulated { IfErr result (IsNotSimulated
        (cell_count_of (seen_program checked.now) (length input.now))
        (max_cells (seen_program checked.now))
        (missing_host (length hosts.old.items) (constructs_in (seen_program checked.now).main))
        (supplied answer hosts.old.items) (supplied answer hosts.new.items)) }
    ensures count { length hosts.new.items ≡ length hosts.old.items }
{
    let instance = set_up(alloc, checked, input, hosts.len() as u64)?;
    match simulate_instance(alloc, checked, &instance, hosts, seed) {
        Ok(Some(report)) => Ok(report),
        Ok(None) => Err(SimError::TooManySteps),
        Err(_) => Err(SimError::OutOfMemory),
    }
}
