//! Walks: whole runs whose blocks are run plainly, in the calling thread.
ghost use Rattle.std.specs.Prelude.{◌≡◌, length, None, IfOk, IfErr, OnOk};
ghost use Rattle.spf_ast.specs.View.{program as seen_program};
ghost use Rattle.spf_ast.specs.Construct.{constructs_in};
ghost use Rattle.spf_ast.specs.Program.{outcome as outcome_of, seen_outcome, Done, Stopped};
ghost use Rattle.spf_exec_instance.specs.Instance.{program_of};
ghost use Rattle.spf_guess.specs.Answers.{supplied};
ghost use Rattle.spf_guess.specs.Missing.{missing_host};
ghost use Rattle.spf_engine.specs.Handed.{run_counts, WereToldAll, WereToldSome};
ghost use Rattle.spf_replay_walk.specs.Positions.{IsSpare};
ghost use Rattle.spf_replay_walk.specs.Visiting.{VisitsRun};

use crate::position::Spare;
use crate::visitor::Visitor;
use crate::walker::Walker;
use spf_ast::outcome::{Outcome, Trap};
use spf_check::checked::Checked;
use spf_engine::step::Step;
use spf_exec::frame::Frame;
use spf_exec::pieces::Run;
use spf_exec_instance::instance::Instance;
use spf_guess::Predictor;
use spf_guess_statistics::stats::Stats;
use spf_replay::scratch::Scratch;
use std::alloc::{AllocError, Global};

/// How a walk ended.
#[derive(Drop)]
pub struct Walked {
    /// The output, and the cells or the trap.
    pub outcome: Outcome,
    /// How good the guesses were.
    pub stats: Stats,
}

/// The outcome of a run that came to its end.
fn outcome_at_end(run: Run) -> Outcome
    ensures { seen_outcome result ≡ Done run.cells run.output }
{
    let (cells, output) = run.finish();
    Outcome::Done { cells, output }
}

/// The outcome of a run that trapped.
fn outcome_at_trap(run: Run, trap: Trap) -> Outcome
    ensures { seen_outcome result ≡ Stopped trap run.output }
{
    let (_, output) = run.finish();
    Outcome::Trapped { trap, output }
}

/// The memory of a walk beside the run's own.
///
/// # Errors
///
/// Fails where memory runs out.
fn spare_for(alloc: Global, instance: &Instance) -> Result<Spare, AllocError>
    ensures { IfOk result (IsSpare instance.now) }
{
    let count = instance.layout().cells() as usize;
    let scratch = Scratch {
        cells: vec![in alloc; 0i64; count]?,
        work: Frame::make(alloc, instance)?,
    };
    Ok(Spare {
        after: vec![in alloc; 0i64; count]?,
        scratch,
    })
}

/// Walks over an instance of an accepted program: runs it to its end, the blocks of each construct
/// plainly, one after another, and has a visitor take each construct that has blocks. Hosts are
/// asked and told as in a run by blocks; all that its constructs name are supplied.
///
/// # Errors
///
/// `AllocError` where there is no memory for the walk; the hosts were told a prefix of what they
/// are told in the whole run.
pub fn walk<V: Visitor>(
    alloc: Global,
    checked: &Checked,
    instance: &Instance,
    hosts: &mut Vec<Box<dyn Predictor>>,
    visitor: &mut V,
) -> Result<Walked, AllocError>
    requires program { program_of instance.now ≡ seen_program checked.now }
    requires hosts { missing_host (length hosts.old.items)
        (constructs_in (program_of instance.now).main) ≡ None }
    ensures outcome { IfOk result
        (λ r. seen_outcome r.outcome ≡ outcome_of (program_of instance.now) instance.now.input) }
    ensures statistics { IfOk result (λ r. r.stats
        ≡ run_counts (supplied answer hosts.old.items) (program_of instance.now)
        instance.now.input) }
    ensures visited { OnOk result (VisitsRun V.has_visited visitor.old visitor.new
        (supplied answer hosts.old.items) instance.now) }
    ensures told { IfOk result (λ r. WereToldAll answer (program_of instance.now) instance.now.input
        hosts.old.items hosts.new.items) }
    ensures told_first { IfErr result (λ why. WereToldSome answer (program_of instance.now)
        instance.now.input hosts.old.items hosts.new.items) }
    ensures count { length hosts.new.items ≡ length hosts.old.items }
{
    // Law: a run in pieces goes on as the plain run does.
    spf_engine_laws::runs_in_pieces_go_on();
    let _program = checked.program();
    let walker = Walker {
        alloc,
        checked,
        instance,
    };
    let mut run = Run::start(alloc, instance)?;
    let mut spare = spare_for(alloc, instance)?;
    let mut stats = Stats::none();
    loop {
        match walker.take_step(&mut run, &mut spare, visitor, &mut stats, hosts)? {
            Step::Next => {}
            Step::Finished => {
                let outcome = outcome_at_end(run);
                return Ok(Walked { outcome, stats });
            }
            Step::Trapped(trap) => {
                let outcome = outcome_at_trap(run, trap);
                return Ok(Walked { outcome, stats });
            }
        }
    }
}
