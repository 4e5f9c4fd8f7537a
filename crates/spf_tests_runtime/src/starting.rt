//! Chains of folds that programs have as their first construct, from their texts.
ghost use Rattle.std.specs.Prelude.{◌≡◌, ◌≤◌, ℕ, IfOk, IsTrue, MatchOption, Some, length};
ghost use Rattle.std.specs.Prelude.{slice_get};
ghost use Rattle.spf_ast.specs.View.{program as seen_program};
ghost use Rattle.spf_ast.specs.Construct.{constructs_in};
ghost use Rattle.spf_ast.specs.ConstructView.{construct as seen_construct};
ghost use Rattle.spf_ast.specs.Program.{cell_count_of};
ghost use Rattle.spf_chain.specs.Beginning.{IsStarted};
ghost use Rattle.spf_chain.specs.Jobs.{CanRun};
ghost use Rattle.spf_check.specs.Plans.{AreBlocksOf};
ghost use Rattle.spf_speculation_entry.specs.Sites.{entry_at};
ghost use Rattle.spf_exec_instance.specs.Instance.{program_of};
ghost use Rattle.spf_ticket.specs.Tickets.{IsJobOf};

use crate::programs::accept;
use spf_ast::construct::{ConstructKind, TopConstruct};
use spf_ast::row::Row;
use spf_cells::cells::Cells;
use spf_chain::chain::Chain;
use spf_check::checked::Checked;
use spf_exec::frame::Frame;
use spf_exec::pieces::Header;
use spf_guess_statistics::guess::Guess;
use spf_ticket::run::Job;
use spf_ticket::ticket::Ticket;
use std::alloc::{AllocError, Global};
use std::test::Fail;

/// A chain that has just started, with its cells and its tickets.
pub(crate) type Started = (Chain, Cells, Vec<Ticket>);

/// Returns whether a construct is a fold, which may have any number of blocks.
fn is_fold(construct: TopConstruct) -> bool
    ensures { IsTrue result → (n : ℕ) → AreBlocksOf (seen_construct construct.entry) n }
{
    match construct.kind {
        ConstructKind::Fold(_) => true,
        ConstructKind::Pair(_) => false,
    }
}

/// Guesses of one word each.
fn guesses_of(alloc: Global, values: &[i64]) -> Result<Vec<Guess>, AllocError>
    ensures { IfOk result (λ v. length v.items ≡ length values.now) }
{
    let mut guesses = Vec::new(alloc);
    for value in values {
        guesses.push(Guess {
            value: Row::one(*value),
            blind: false,
        })?;
    }
    Ok(guesses)
}

/// Starts the chain of the job's construct, which may have any number of blocks, at this value and
/// these guesses.
fn start_fold(
    alloc: Global,
    checked: &Checked,
    job: &Job,
    first: i64,
    guesses: &[Guess],
) -> Result<Started, Fail>
    requires program { program_of job.now.instance.now ≡ seen_program checked.now }
    requires construct { slice_get (constructs_in (program_of job.now.instance.now).main)
        job.now.index ≡ Some (seen_construct job.now.construct) }
    requires entry { length job.now.entry.now
        ≡ cell_count_of (program_of job.now.instance.now) (length job.now.instance.now.input) }
    requires fold { (n : ℕ) → AreBlocksOf (seen_construct job.now.construct) n }
    requires few { length guesses.now ≤ 4000 }
    ensures started { IfOk result (λ r. IsStarted r.0.site r.0 r.1 r.2.items) }
    ensures entry { IfOk result (λ r. IsJobOf (entry_at r.0.site) job.now) }
    ensures size { IfOk result (λ r. length r.0.site.memory ≡ length job.now.entry.now) }
{
    let header = Header {
        low: 0,
        blocks: guesses.len() as u64 + 1,
        start: Row::one(first),
    };
    let frame = Frame::make(alloc, job.instance)?;
    let started = Chain::start(
        alloc,
        checked,
        job.instance,
        job.index,
        header,
        &frame,
        job.entry,
        guesses,
    )?;
    Ok(started)
}

/// Starts the chain of the job's construct: a fold over rows of one word, which begins at this one
/// and has one more block than guesses.
pub(crate) fn start(
    alloc: Global,
    checked: &Checked,
    job: &Job,
    first: i64,
    values: &[i64],
) -> Result<Started, Fail>
    requires program { program_of job.now.instance.now ≡ seen_program checked.now }
    requires construct { slice_get (constructs_in (program_of job.now.instance.now).main)
        job.now.index ≡ Some (seen_construct job.now.construct) }
    requires entry { length job.now.entry.now
        ≡ cell_count_of (program_of job.now.instance.now) (length job.now.instance.now.input) }
    ensures started { IfOk result (λ r. IsStarted r.0.site r.0 r.1 r.2.items) }
    ensures entry { IfOk result (λ r. IsJobOf (entry_at r.0.site) job.now) }
    ensures size { IfOk result (λ r. length r.0.site.memory ≡ length job.now.entry.now) }
    ensures runs { IfOk result (λ _. CanRun job.now) }
{
    // Law: the blocks of an accepted program's constructs can be run as attempts.
    spf_chain::laws::accepted_constructs_can_run();
    let _program = checked.program();
    if !is_fold(job.construct) || values.len() > 4000 {
        return Err(Fail::new("no fold"));
    }
    let guesses = guesses_of(alloc, values)?;
    start_fold(alloc, checked, job, first, guesses.as_slice())
}
