//! Sections: whether the steps of a construct's blocks are a speculative run.
ghost use Rattle.std.specs.Prelude.{◌≡◌, ◌<◌, ◌↔◌, ℕ, IsTrue, length, IfOk};
ghost use Rattle.spf_ast.specs.Carried.{Carried};
ghost use Rattle.spf_replay.specs.Entered.{IsEntered, HasGuesses};
ghost use Rattle.spf_replay.specs.Runners.{HasRoom, IsScratch};
ghost use Rattle.spf_replay.specs.Sections.{IsLogOf, TellsRun};

use crate::block::{is_guessed_log, is_real_log};
use crate::entered::{EnteredConstruct, context_of, first_row, number_at, real_row};
use crate::laws::runs_have_their_logs;
use crate::logs::{log_in, logs_of};
use crate::scratch::Scratch;
use crate::steps::{are_below, are_consistent};
use spf_exec::block_run::BlockRun;
use spf_exec::frame::Frame;
use spf_replay_log::log::{Event, Step};
use std::alloc::{AllocError, Global};

/// Returns whether a log is that of block n.
fn is_log(entered: &EnteredConstruct, n: u64, log: &[Event], work: &mut Frame) -> bool
    requires is { IsEntered entered.now }
    requires block { n < entered.now.header.blocks }
    requires work { length work.old ≡ length entered.now.frame.now }
    ensures log { (guess : ℕ → Carried) → HasGuesses entered.now guess → IsTrue result
        ↔ IsLogOf entered.now guess n log.now }
    ensures work { length work.new ≡ length work.old }
{
    let context = context_of(entered, n);
    let block = BlockRun {
        construct: entered.construct,
        index: entered.index,
        part: entered.construct.part_of(n),
        number: number_at(entered.header.low, n),
        value: first_row(entered, n),
    };
    match real_row(entered, n) {
        Some(real) => is_real_log(context, &block, &real, log, work),
        None => is_guessed_log(context, &block, log, work),
    }
}

/// Returns whether the steps are a speculative run of the construct's blocks from their guesses.
/// The steps are made over a scratch, and leave it with any words.
///
/// # Errors
///
/// Fails where memory runs out.
pub fn is_speculative_run(
    alloc: Global,
    entered: &EnteredConstruct,
    steps: &[Step],
    scratch: &mut Scratch,
) -> Result<bool, AllocError>
    requires is { IsEntered entered.now }
    requires scratch { IsScratch entered.now scratch.old }
    ensures run { (guess : ℕ → Carried) → HasGuesses entered.now guess
        → IfOk result (TellsRun entered.now guess steps.now) }
    ensures room { HasRoom entered.now scratch.new }
{
    runs_have_their_logs();
    if !are_below(steps, entered.header.blocks) {
        return Ok(false);
    }
    let logs = logs_of(alloc, steps, entered.header.blocks)?;
    for n in 0..entered.header.blocks {
        if !is_log(entered, n, log_in(&logs, n), &mut scratch.work) {
            return Ok(false);
        }
    }
    Ok(are_consistent(&mut scratch.cells, steps))
}
