//! Whole runs.
ghost use Rattle.std.specs.Prelude.{◌≡◌, ◌<◌, ◌≤◌, length, None, IfOk, IfErr};
ghost use Rattle.std.specs.Prelude.{IsErrAnd};
ghost use Rattle.spf_ast_lemmas.specs.Limits.{max_workers};
ghost use Rattle.spf_ast.specs.View.{program as seen_program};
ghost use Rattle.spf_ast.specs.Construct.{constructs_in};
ghost use Rattle.spf_ast.specs.Program.{outcome as outcome_of, seen_outcome, Done, Stopped};
ghost use Rattle.spf_exec_instance.specs.Instance.{program_of};
ghost use Rattle.spf_guess.specs.Answers.{supplied};
ghost use Rattle.spf_guess.specs.Missing.{missing_host};
ghost use Rattle.spf_engine_construct.specs.Guesses.{AreAtMost};
ghost use Rattle.spf_engine.specs.Counts.{most_counted};
ghost use Rattle.spf_engine.specs.Errors.{IsMissing, WereToldNothing};
ghost use Rattle.spf_engine.specs.Handed.{run_counts, AreTracesOf, WereToldAll, WereToldSome};
ghost use Rattle.spf_engine.specs.Handed.{HasTooManyCells, HasFewCells, SaysCells, SaysHost};
ghost use Rattle.spf_engine.specs.Handed.{SaysHostBeyond, HasItsCause};

use crate::account::Account;
use crate::error::EngineError;
use crate::runner::Runner;
use crate::step::Step;
use spf_ast::outcome::{Outcome, Trap};
use spf_cells::finish::Trace;
use spf_check::checked::Checked;
use spf_crew_threads::workers::Workers;
use spf_exec::pieces::Run;
use spf_exec::tables::fill_tables;
use spf_exec_instance::instance::Instance;
use spf_exec_instance::layout::RunError;
use spf_guess::Predictor;
use spf_guess::missing::first_missing;
use spf_guess_statistics::stats::Stats;
use spf_ticket_gate::Gate;
use std::alloc::{AllocError, Global};
use std::sync::Wait;
use std::thread::Threads;

/// The result of a whole run.
#[derive(Drop)]
pub struct RunReport {
    /// The output, and the cells or the trap.
    pub outcome: Outcome,
    /// How good the guesses were.
    pub stats: Stats,
    /// The logs of each construct that had blocks, in the order in which they were reached.
    pub traces: Vec<Trace>,
}

/// The report of a run that came to its end.
fn report_at_end(run: Run, account: Account) -> RunReport
    ensures outcome { seen_outcome result.outcome ≡ Done run.cells run.output }
    ensures stats { result.stats ≡ account.stats }
    ensures bounded { AreAtMost result.stats most_counted }
    ensures traces { result.traces.items ≡ account.traces.items }
{
    let (cells, output) = run.finish();
    RunReport {
        outcome: Outcome::Done { cells, output },
        stats: account.stats,
        traces: account.traces,
    }
}

/// The report of a run that trapped.
fn report_at_trap(run: Run, trap: Trap, account: Account) -> RunReport
    ensures outcome { seen_outcome result.outcome ≡ Stopped trap run.output }
    ensures stats { result.stats ≡ account.stats }
    ensures bounded { AreAtMost result.stats most_counted }
    ensures traces { result.traces.items ≡ account.traces.items }
{
    let (_, output) = run.finish();
    RunReport {
        outcome: Outcome::Trapped { trap, output },
        stats: account.stats,
        traces: account.traces,
    }
}

/// Runs an instance of an accepted program on 1 to 64 workers. All hosts that its constructs name
/// are supplied.
///
/// # Errors
///
/// `AllocError` where there is no memory for the run; the hosts were told a prefix of what they
/// are told in the whole run.
pub fn run_instance<R: Threads + Wait + Sync, G: Gate + Sync>(
    rt: &R,
    alloc: Global,
    checked: &Checked,
    instance: &Instance,
    workers: u64,
    hosts: &mut Vec<Box<dyn Predictor>>,
    gate: &G,
) -> Result<RunReport, AllocError>
    requires workers { (0 < workers) × (workers ≤ max_workers) }
    requires program { program_of instance.now ≡ seen_program checked.now }
    requires hosts { missing_host (length hosts.old.items)
        (constructs_in (program_of instance.now).main) ≡ None }
    ensures outcome { IfOk result
        (λ r. seen_outcome r.outcome ≡ outcome_of (program_of instance.now) instance.now.input) }
    ensures statistics { IfOk result (λ r. r.stats
        ≡ run_counts (supplied answer hosts.old.items) (program_of instance.now)
        instance.now.input) }
    ensures traces { IfOk result (λ r. AreTracesOf answer (program_of instance.now)
        instance.now.input hosts.old.items r.traces.items) }
    ensures told { IfOk result (λ r. WereToldAll answer (program_of instance.now) instance.now.input
        hosts.old.items hosts.new.items) }
    ensures told_first { IfErr result (λ why. WereToldSome answer (program_of instance.now)
        instance.now.input hosts.old.items hosts.new.items) }
    ensures bounded { IfOk result (λ r. AreAtMost r.stats most_counted) }
    ensures count { length hosts.new.items ≡ length hosts.old.items }
{
    // Law: a run in pieces goes on as the plain run does.
    spf_engine_laws::runs_in_pieces_go_on();
    let _program = checked.program();
    let runner = Runner {
        workers: Workers::new(rt, alloc, workers, gate),
        checked,
        instance,
    };
    let mut run = Run::start(alloc, instance)?;
    let mut account = Account::new(alloc);
    loop {
        match runner.take_step(&mut run, &mut account, hosts)? {
            Step::Next => {}
            Step::Finished => return Ok(report_at_end(run, account)),
            Step::Trapped(trap) => return Ok(report_at_trap(run, trap, account)),
        }
    }
}

/// Lays out the arrays of the program for the input.
///
/// # Errors
///
/// `TooManyCells` where the arrays have more cells than a run of the program's version may have,
/// and `OutOfMemory`.
fn lay_out<'a>(
    alloc: Global,
    checked: &'a Checked,
    input: &'a [u8],
) -> Result<Instance<'a>, EngineError>
    ensures program { IfOk result (λ i. program_of i ≡ seen_program checked.now) }
    ensures input { IfOk result (λ i. i.input ≡ input.now) }
    ensures few { IfOk result (λ i. HasFewCells (seen_program checked.now) input.now) }
    ensures too_many { HasTooManyCells (seen_program checked.now) input.now
        → IsErrAnd result (SaysCells (seen_program checked.now) input.now) }
    ensures error { HasFewCells (seen_program checked.now) input.now
        → IfErr result (IsMissing None) }
{
    // Law: no `break` of a lawful program leaves `main` or a part.
    spf_ast::laws::breaks_stay_in_their_loops();
    match Instance::make(alloc, checked.program(), input) {
        Ok(instance) => Ok(instance),
        Err(RunError::TooManyCells { count }) => Err(EngineError::TooManyCells { count }),
        Err(RunError::OutOfMemory) => Err(EngineError::OutOfMemory),
    }
}

/// Sets up the instance of an accepted program that runs on an input, where `hosts` hosts are
/// supplied. Answers of short functions are computed, where the input is long enough for it.
///
/// # Errors
///
/// `TooManyCells` where the arrays have more cells than a run of the program's version may have;
/// `NoHost` where the program names a host that isn't supplied; and `OutOfMemory`.
pub fn set_up<'a>(
    alloc: Global,
    checked: &'a Checked,
    input: &'a [u8],
    hosts: u64,
) -> Result<Instance<'a>, EngineError>
    ensures program { IfOk result (λ i. program_of i ≡ seen_program checked.now) }
    ensures input { IfOk result (λ i. i.input ≡ input.now) }
    ensures few { IfOk result (λ i. HasFewCells (seen_program checked.now) input.now) }
    ensures complete { IfOk result
        (λ i. missing_host hosts (constructs_in (seen_program checked.now).main) ≡ None) }
    ensures too_many { HasTooManyCells (seen_program checked.now) input.now
        → IsErrAnd result (SaysCells (seen_program checked.now) input.now) }
    ensures missing { HasFewCells (seen_program checked.now) input.now
        → IfErr result (SaysHostBeyond (seen_program checked.now) hosts) }
{
    let mut instance = lay_out(alloc, checked, input)?;
    if let Some(number) = first_missing(checked.program(), hosts) {
        return Err(EngineError::NoHost { number });
    }
    // Law: no function of a lawful program holds an `emit`.
    spf_ast::laws::lawful_programs_are_quiet_and_small();
    fill_tables(alloc, &mut instance)?;
    Ok(instance)
}

/// Runs an accepted program on an input by blocks, each from its guess, and those again whose
/// guesses were wrong. The result is the plain outcome, whatever the guesses are, and however the
/// attempts of the 1 to 64 workers interleave. Each worker has a thread of its own; where one can't
/// be started, the calling thread does its work. The call waits until all have ended.
///
/// `hosts` are the predictors that the program names by number. Each is asked once for each part
/// that names it of each block but the first, in the order of blocks and then of parts, before the
/// first attempt, and told these parts of the real rows, in that order, after the construct. `gate`
/// watches the attempts. The instance that was run comes back with the report: it says where the
/// arrays lie.
///
/// # Errors
///
/// `TooManyCells` where the arrays have more cells than a run of the program's version may have;
/// `NoHost` where the program names a host that isn't supplied; and `OutOfMemory`. The hosts were
/// told a prefix of what they are told in the whole run; after the first two errors nothing.
pub fn run_whole<'a, R: Threads + Wait + Sync, G: Gate + Sync>(
    rt: &R,
    alloc: Global,
    checked: &'a Checked,
    input: &'a [u8],
    workers: u64,
    hosts: &mut Vec<Box<dyn Predictor>>,
    gate: &G,
) -> Result<(Instance<'a>, RunReport), EngineError>
    requires workers { (0 < workers) × (workers ≤ max_workers) }
    ensures program { IfOk result (λ r. program_of r.0 ≡ seen_program checked.now) }
    ensures input { IfOk result (λ r. r.0.input ≡ input.now) }
    ensures outcome { IfOk result
        (λ r. seen_outcome r.1.outcome ≡ outcome_of (seen_program checked.now) input.now) }
    ensures statistics { IfOk result (λ r. r.1.stats
        ≡ run_counts (supplied answer hosts.old.items) (seen_program checked.now) input.now) }
    ensures traces { IfOk result (λ r. AreTracesOf answer (seen_program checked.now) input.now
        hosts.old.items r.1.traces.items) }
    ensures told { IfOk result (λ r. WereToldAll answer (seen_program checked.now) input.now
        hosts.old.items hosts.new.items) }
    ensures told_first { IfErr result (λ why. WereToldSome answer (seen_program checked.now)
        input.now hosts.old.items hosts.new.items) }
    ensures too_many { HasTooManyCells (seen_program checked.now) input.now
        → IsErrAnd result (SaysCells (seen_program checked.now) input.now) }
    ensures few { HasFewCells (seen_program checked.now) input.now
        → IfErr result (SaysHost (seen_program checked.now) hosts.old.items) }
    ensures complete { IfOk result (λ r.
        missing_host (length hosts.old.items) (constructs_in (seen_program checked.now).main)
        ≡ None) }
    ensures untold { IfErr result (λ why. WereToldNothing why
        (supplied answer hosts.old.items)
        (supplied answer hosts.new.items)) }
    ensures not_run { IfErr result (HasItsCause answer (seen_program checked.now) input.now
        hosts.old.items hosts.new.items) }
    ensures bounded { IfOk result (λ r. AreAtMost r.1.stats most_counted) }
    ensures count { length hosts.new.items ≡ length hosts.old.items }
{
    let instance = set_up(alloc, checked, input, hosts.len() as u64)?;
    let report = run_instance(rt, alloc, checked, &instance, workers, hosts, gate)?;
    Ok((instance, report))
}

/// Runs an accepted program on an input by blocks, as [`run_whole`] does, and gives the report
/// alone.
///
/// # Errors
///
/// Those of [`run_whole`].
pub fn run_program<R: Threads + Wait + Sync, G: Gate + Sync>(
    rt: &R,
    alloc: Global,
    checked: &Checked,
    input: &[u8],
    workers: u64,
    hosts: &mut Vec<Box<dyn Predictor>>,
    gate: &G,
) -> Result<RunReport, EngineError>
    requires workers { (0 < workers) × (workers ≤ max_workers) }
    ensures outcome { IfOk result
        (λ r. seen_outcome r.outcome ≡ outcome_of (seen_program checked.now) input.now) }
    ensures statistics { IfOk result (λ r. r.stats
        ≡ run_counts (supplied answer hosts.old.items) (seen_program checked.now) input.now) }
    ensures traces { IfOk result (λ r. AreTracesOf answer (seen_program checked.now) input.now
        hosts.old.items r.traces.items) }
    ensures told { IfOk result (λ r. WereToldAll answer (seen_program checked.now) input.now
        hosts.old.items hosts.new.items) }
    ensures told_first { IfErr result (λ why. WereToldSome answer (seen_program checked.now)
        input.now hosts.old.items hosts.new.items) }
    ensures too_many { HasTooManyCells (seen_program checked.now) input.now
        → IsErrAnd result (SaysCells (seen_program checked.now) input.now) }
    ensures few { HasFewCells (seen_program checked.now) input.now
        → IfErr result (SaysHost (seen_program checked.now) hosts.old.items) }
    ensures complete { IfOk result (λ r.
        missing_host (length hosts.old.items) (constructs_in (seen_program checked.now).main)
        ≡ None) }
    ensures untold { IfErr result (λ why. WereToldNothing why
        (supplied answer hosts.old.items)
        (supplied answer hosts.new.items)) }
    ensures not_run { IfErr result (HasItsCause answer (seen_program checked.now) input.now
        hosts.old.items hosts.new.items) }
    ensures bounded { IfOk result (λ r. AreAtMost r.stats most_counted) }
    ensures count { length hosts.new.items ≡ length hosts.old.items }
{
    let (_, report) = run_whole(rt, alloc, checked, input, workers, hosts, gate)?;
    Ok(report)
}
