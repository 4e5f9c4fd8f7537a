//! What follows when an attempt is filed.
ghost use Rattle.std.specs.Prelude.{◌≡◌, ◌<◌, ◌==◌, ◌&&◌, ℕ, [], true, length};
ghost use Rattle.std.specs.Prelude.{IfOk, OnOk};
ghost use Rattle.spf_speculation_entry.specs.Entry.{Entry};
ghost use Rattle.spf_replay.specs.Entered.{entry_of, IsEntered};
ghost use Rattle.spf_replay.specs.Runners.{status_of, after_going_on, IsRunner, AreBlocksOf};
ghost use Rattle.spf_replay.specs.Schedule.{Situation, is_valid, is_to_raise as is_raised};
ghost use Rattle.spf_replay.specs.Schedule.{front, rerun, after_filing};
ghost use Rattle.spf_replay.specs.Going.{status_settled, flag_settled, Become};
ghost use Rattle.spf_replay.specs.Going.{AreRunningIn, RunningBecome};

use crate::entered::{EnteredConstruct, real_row};
use crate::runner::Runner;
use spf_ast::row::Row;
use std::alloc::{AllocError, Global};

/// Returns whether a block's attempt at its real row has ended.
fn has_ended(runner: &Runner, real: Option<Row>) -> bool
    ensures { (e : Entry) (n : ℕ) → result ≡ is_valid real (status_of e n runner.now) }
{
    match real {
        Some(real) => !runner.running && runner.ended && runner.row.is_same(&real),
        None => false,
    }
}

/// The front block: the first whose attempt at its real row has not ended. All blocks where there
/// is none.
fn front_of(entered: &EnteredConstruct, runners: &[Runner]) -> u64
    requires is { IsEntered entered.now }
    ensures { (s : Situation) → AreBlocksOf (entry_of entered.now) s runners.now
        → result ≡ front (entry_of entered.now) s.status }
{
    for n in 0..runners.len() {
        if !has_ended(&runners[n], real_row(entered, n as u64)) {
            return n as u64;
        }
    }
    runners.len() as u64
}

/// The front block.
#[derive(Drop)]
struct Front {
    /// Its index; that after all blocks where there is none.
    block: u64,
    /// Its real row, where it has one.
    real: Option<Row>,
}

/// Returns whether block n runs its first attempt, and that attempt is useless.
fn is_to_raise(runner: &Runner, n: u64, front: &Front) -> bool
    ensures { (e : Entry) → result
        ≡ is_raised front.now.block n front.now.real (status_of e n runner.now) }
{
    if !runner.running || runner.attempt != 1 {
        return false;
    }
    match &front.real {
        Some(real) => n == front.block && !runner.row.is_same(real),
        None => true,
    }
}

/// What the turns of block n poll from now on.
fn flag_after(runner: &Runner, n: u64, front: &Front) -> u64
    ensures { (e : Entry) → result ≡ flag_settled e n front.now runner.now }
{
    if is_to_raise(runner, n, front) {
        return 1;
    }
    runner.flag
}

/// Runs the front block again at its real row, where its attempt is filed at another row.
fn run_again(alloc: Global, runner: &mut Runner, front: &Front)
    ensures status { (e : Entry) (n : ℕ) → status_of e n runner.new
        ≡ rerun e [] n front.now.real (status_of e n runner.old) }
    ensures runner { (e : Entry) (n : ℕ) → IsRunner e n runner.old → IsRunner e n runner.new }
    ensures flag { runner.new.flag ≡ runner.old.flag }
{
    let real = front.real;
    let Some(real) = real else { return };
    if runner.running || runner.row.is_same(&real) {
        return;
    }
    runner.attempt = 2;
    runner.row = real;
    runner.running = true;
    runner.room = Vec::new(alloc);
    runner.count = 0;
    runner.full = true;
    runner.taken = 0;
}

/// What becomes of block n where an attempt was filed.
fn settle(alloc: Global, runner: &mut Runner, n: u64, front: &Front)
    ensures status { (e : Entry) → status_of e n runner.new
        ≡ status_settled e n front.now runner.old }
    ensures flag { (e : Entry) → runner.new.flag ≡ flag_settled e n front.now runner.old }
    ensures runner { (e : Entry) → IsRunner e n runner.old → IsRunner e n runner.new }
{
    runner.flag = flag_after(runner, n, front);
    if n == front.block {
        run_again(alloc, runner, front);
    }
}

/// What follows when an attempt is filed: flags are raised, and the front block may run again.
fn file(alloc: Global, entered: &EnteredConstruct, runners: &mut [Runner])
    requires is { IsEntered entered.now }
    ensures { Become entered.now (after_filing (entry_of entered.now)) runners.old runners.new }
{
    let block = front_of(entered, runners);
    let front = Front {
        block,
        real: real_row(entered, block),
    };
    for n in 0..runners.len() {
        settle(alloc, &mut runners[n], n as u64, &front);
    }
}

/// The blocks that run, in ascending order.
pub(crate) fn running_of(alloc: Global, runners: &[Runner]) -> Result<Vec<u64>, AllocError>
    ensures { (e : Entry) (s : Situation) → AreBlocksOf e s runners.now
        → IfOk result (λ running. AreRunningIn e s running.items) }
{
    let mut running = Vec::new(alloc);
    for n in 0..runners.len() {
        if runners[n].running {
            running.push(n as u64)?;
        }
    }
    Ok(running)
}

/// What follows once block n has gone on: where its attempt is filed, other blocks may run.
pub(crate) fn follow(
    alloc: Global,
    entered: &EnteredConstruct,
    n: u64,
    runners: &mut [Runner],
    running: &mut Vec<u64>,
) -> Result<(), AllocError>
    requires is { IsEntered entered.now }
    requires block { n < length runners.old }
    ensures runners { OnOk result
        (Become entered.now (after_going_on (entry_of entered.now) n) runners.old runners.new) }
    ensures running { OnOk result
        (RunningBecome entered.now n runners.old running.old.items running.new.items) }
{
    if runners[n as usize].running {
        return Ok(());
    }
    file(alloc, entered, runners);
    *running = running_of(alloc, runners)?;
    Ok(())
}
