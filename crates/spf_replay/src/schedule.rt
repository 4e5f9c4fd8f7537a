//! Schedules of constructs.
ghost use Rattle.std.specs.Prelude.{◌≡◌, ◌≤◌, ◌<◌, ◌+◌, ℕ, true, length};
ghost use Rattle.std.specs.Prelude.{IfOk, IfErr, OnOk};
ghost use Rattle.spf_ast.specs.Carried.{Carried};
ghost use Rattle.spf_replay.specs.declared.schedule.ScheduleError.TheVariants.{OutOfMemory};
ghost use Rattle.spf_replay.specs.declared.schedule.ScheduleError.TheVariants.{TooManySteps};
ghost use Rattle.spf_replay.specs.Entered.{entry_of, IsEntered, HasGuesses};
ghost use Rattle.spf_replay.specs.Limits.{max_steps};
ghost use Rattle.spf_replay.specs.Runners.{status_of, IsRunner, HasRoom, IsScratch};
ghost use Rattle.spf_replay.specs.Going.{Appends, PassesLimit, next_piece, status_next};
ghost use Rattle.spf_replay.specs.Going.{IsFirst, AreFirst, IsScheduleOf, SaysTooMany};

use crate::entered::{EnteredConstruct, first_row};
use crate::filing::{follow, running_of};
use crate::pick::pick;
use crate::runner::{Runner, take_piece};
use crate::scratch::{Scratch, extend_record};
use spf_apps_formats::generate::Draws;
use spf_ast::laws::each_form_has_one_plain_run;
use spf_check_rules::laws::blocks_overwrite;
use spf_replay_log::log::Step;
use std::alloc::{AllocError, Global};
use thiserror::Error;

/// How many steps the schedule of a run may have.
pub const MAX_STEPS: usize = 1_000_000;

/// Why there is no schedule.
#[derive(Clone, Copy, PartialEq, Eq, Debug, Error)]
pub enum ScheduleError {
    /// It has too many steps.
    #[error("steps over {}", MAX_STEPS)]
    TooManySteps,
    /// There is no memory for it.
    #[error("out of memory")]
    OutOfMemory,
}

impl From<AllocError> for ScheduleError {
    ghost from_gives = { λ _ error. error ≡ OutOfMemory };

    fn from(_: AllocError) -> Self {
        ScheduleError::OutOfMemory
    }
}

/// The schedule of a construct.
#[derive(Drop)]
pub struct Schedule {
    /// The steps of its blocks.
    pub steps: Vec<Step>,
    /// The state in which the generator is left.
    pub state: u64,
}

/// A block at the start.
fn first_runner(alloc: Global, entered: &EnteredConstruct, n: u64) -> Runner
    requires is { IsEntered entered.now }
    requires block { n < entered.now.header.blocks }
    ensures { IsFirst entered.now n result }
{
    Runner {
        attempt: 1,
        row: first_row(entered, n),
        running: true,
        ended: false,
        flag: 0,
        room: Vec::new(alloc),
        count: 0,
        full: true,
        taken: 0,
    }
}

/// All blocks at the start.
fn first_runners(alloc: Global, entered: &EnteredConstruct) -> Result<Vec<Runner>, AllocError>
    requires is { IsEntered entered.now }
    ensures { IfOk result (λ runners. AreFirst entered.now runners.items) }
{
    let mut runners = Vec::new(alloc);
    for n in 0..entered.header.blocks {
        runners.push(first_runner(alloc, entered, n))?;
    }
    Ok(runners)
}

/// Lets a running block go on: its next piece becomes steps, of which there may be at most `limit`.
fn go_on(
    alloc: Global,
    entered: &EnteredConstruct,
    n: u64,
    runner: &mut Runner,
    steps: &mut Vec<Step>,
    limit: usize,
    scratch: &mut Scratch,
) -> Result<(), ScheduleError>
    requires is { IsEntered entered.now }
    requires block { n < entered.now.header.blocks }
    requires runner { IsRunner (entry_of entered.now) n runner.old }
    requires running { runner.old.running ≡ true }
    requires few { length steps.old.items ≤ limit }
    requires limit { limit ≤ max_steps }
    requires scratch { IsScratch entered.now scratch.old }
    ensures runner { OnOk result (IsRunner (entry_of entered.now) n runner.new) }
    ensures status { OnOk result (status_of (entry_of entered.now) n runner.new
        ≡ status_next (entry_of entered.now) n runner.old) }
    ensures flag { OnOk result (runner.new.flag ≡ runner.old.flag) }
    ensures steps { OnOk result
        (Appends steps.old n (next_piece (entry_of entered.now) n runner.old) steps.new) }
    ensures few { OnOk result (length steps.new.items ≤ limit) }
    ensures too_many { IfErr result (λ why. why ≡ TooManySteps
        → PassesLimit limit steps.old (next_piece (entry_of entered.now) n runner.old)) }
    ensures scratch { IsScratch entered.now scratch.new }
{
    let most = limit - steps.len();
    if !extend_record(alloc, entered, n, runner, most, scratch)? {
        return Err(ScheduleError::TooManySteps);
    }
    take_piece(steps, n, runner)?;
    if steps.len() > limit {
        return Err(ScheduleError::TooManySteps);
    }
    Ok(())
}

/// Returns the schedule of a construct from a state of the generator, where `counted` steps of the
/// run came before it. The attempts are made over a scratch.
///
/// # Errors
///
/// `TooManySteps` where the run would have more than 1,000,000 steps then; `OutOfMemory`.
pub fn schedule_of(
    alloc: Global,
    entered: &EnteredConstruct,
    state: u64,
    counted: usize,
    scratch: &mut Scratch,
) -> Result<Schedule, ScheduleError>
    requires is { IsEntered entered.now }
    requires counted { counted ≤ max_steps }
    requires scratch { IsScratch entered.now scratch.old }
    ensures scheduled { (guess : ℕ → Carried) → HasGuesses entered.now guess
        → IfOk result (IsScheduleOf entered.now guess state) }
    ensures few { IfOk result (λ made. counted + length made.steps.items ≤ max_steps) }
    ensures too_many { (guess : ℕ → Carried) → HasGuesses entered.now guess
        → IfErr result (SaysTooMany entered.now guess state counted) }
    ensures room { HasRoom entered.now scratch.new }
{
    each_form_has_one_plain_run();
    blocks_overwrite();
    let limit = MAX_STEPS - counted;
    let mut runners = first_runners(alloc, entered)?;
    let mut running = running_of(alloc, &runners)?;
    let mut steps = Vec::new(alloc);
    let mut draws = Draws { state };
    while !running.is_empty() {
        let n = pick(&running, draws.next());
        let runner = &mut runners[n as usize];
        go_on(alloc, entered, n, runner, &mut steps, limit, scratch)?;
        follow(alloc, entered, n, &mut runners, &mut running)?;
    }
    Ok(Schedule {
        steps,
        state: draws.state,
    })
}
