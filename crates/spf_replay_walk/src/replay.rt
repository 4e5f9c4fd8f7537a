//! Whole logs.
ghost use Rattle.std.specs.Prelude.{◌≡◌, ◌<◌, length, None, IfOk, IfErr, IsErrAnd};
ghost use Rattle.spf_ast.specs.View.{program as seen_program};
ghost use Rattle.spf_ast.specs.Construct.{constructs_in};
ghost use Rattle.spf_exec_instance.specs.Instance.{program_of};
ghost use Rattle.spf_guess.specs.Answers.{supplied};
ghost use Rattle.spf_guess.specs.Missing.{missing_host};
ghost use Rattle.spf_engine.specs.Errors.{WereToldNothing};
ghost use Rattle.spf_engine.specs.Handed.{WereToldAll, WereToldSome, HasTooManyCells};
ghost use Rattle.spf_engine.specs.Handed.{HasFewCells, SaysCells, SaysHost, HasItsCause};
ghost use Rattle.spf_replay_walk.specs.Judging.{IsVerdictOn};

use crate::judging::Judge;
use crate::walk::walk;
use spf_check::checked::Checked;
use spf_engine::error::EngineError;
use spf_engine::run::set_up;
use spf_exec_instance::instance::Instance;
use spf_guess::Predictor;
use spf_replay::Step as LogStep;
use spf_replay::verdict::Verdict;
use std::alloc::{AllocError, Global};

/// Runs an instance of an accepted program and judges a log of it, section by section. All hosts
/// that its constructs name are supplied.
///
/// # Errors
///
/// `AllocError` where there is no memory for the run; the hosts were told a prefix of what they
/// are told in the whole run.
pub fn replay_instance(
    alloc: Global,
    checked: &Checked,
    instance: &Instance,
    hosts: &mut Vec<Box<dyn Predictor>>,
    log: &[Vec<LogStep>],
) -> Result<Verdict, AllocError>
    requires program { program_of instance.now ≡ seen_program checked.now }
    requires hosts { missing_host (length hosts.old.items)
        (constructs_in (program_of instance.now).main) ≡ None }
    ensures verdict { IfOk result (IsVerdictOn (supplied answer hosts.old.items)
        (program_of instance.now) instance.now.input log.now) }
    ensures told { IfOk result (λ r. WereToldAll answer (program_of instance.now) instance.now.input
        hosts.old.items hosts.new.items) }
    ensures told_first { IfErr result (λ why. WereToldSome answer (program_of instance.now)
        instance.now.input hosts.old.items hosts.new.items) }
    ensures count { length hosts.new.items ≡ length hosts.old.items }
{
    // Law: what is expected matters by its speculative runs alone.
    spf_replay::verdict::verdicts_are_exact();
    // Law: a speculative run depends on the visible slots alone.
    spf_replay::laws::runs_look_alike();
    let mut judge = Judge::new(log);
    walk(alloc, checked, instance, hosts, &mut judge)?;
    Ok(judge.verdict())
}

/// Tells whether a log is one of the program's speculative runs on this input: it is one if it has
/// one section for each construct with blocks that the run reaches, in order, and each is a
/// speculative run of the construct's blocks from the guesses for them. Otherwise the answer names
/// the first section that isn't, is missing, or is one too many.
///
/// The program is run as `spf_engine::run::run_program` does it, but in the calling thread, and
/// hosts are asked and told as there. The run goes on to its end also where a section was refused.
///
/// # Errors
///
/// `TooManyCells` where the arrays have more cells than a run of the program's version may have;
/// `NoHost` where the program names a host that isn't supplied; and `OutOfMemory`. The hosts were
/// told a prefix of what they are told in the whole run; after the first two errors nothing.
pub fn replay(
    alloc: Global,
    checked: &Checked,
    input: &[u8],
    hosts: &mut Vec<Box<dyn Predictor>>,
    log: &[Vec<LogStep>],
) -> Result<Verdict, EngineError>
    ensures verdict { IfOk result (IsVerdictOn (supplied answer hosts.old.items)
        (seen_program checked.now) input.now log.now) }
    ensures told { IfOk result (λ r. WereToldAll answer (seen_program checked.now) input.now
        hosts.old.items hosts.new.items) }
    ensures told_first { IfErr result (λ why. WereToldSome answer (seen_program checked.now)
        input.now hosts.old.items hosts.new.items) }
    ensures too_many { HasTooManyCells (seen_program checked.now) input.now
        → IsErrAnd result (SaysCells (seen_program checked.now) input.now) }
    ensures few { HasFewCells (seen_program checked.now) input.now
        → IfErr result (SaysHost (seen_program checked.now) hosts.old.items) }
    ensures complete { IfOk result (λ r.
        missing_host (length hosts.old.items) (constructs_in (seen_program checked.now).main)
        ≡ None) }
    ensures untold { IfErr result (λ why. WereToldNothing why
        (supplied answer hosts.old.items)
        (supplied answer hosts.new.items)) }
    ensures not_run { IfErr result (HasItsCause answer (seen_program checked.now) input.now
        hosts.old.items hosts.new.items) }
    ensures count { length hosts.new.items ≡ length hosts.old.items }
{
    let instance = set_up(alloc, checked, input, hosts.len() as u64)?;
    let verdict = replay_instance(alloc, checked, &instance, hosts, log)?;
    Ok(verdict)
}
