//! Attempts in threads of their own, while the warden raises a flag.
ghost use Rattle.std.specs.Prelude.{◌≡◌, [], ◌<◌, length};
ghost use Rattle.std.specs.List.{Contains};
ghost use Rattle.spf_ast.specs.ConstructView.{construct as seen_construct};
ghost use Rattle.spf_exec_instance.specs.Frame.{frame_size};
ghost use Rattle.spf_exec_instance.specs.Instance.{program_of};
ghost use Rattle.spf_cells.specs.Values.{IsWardenOf};
ghost use Rattle.spf_tests_runtime.specs.CountingFold.{counting, counting_fold as fold_of_counting};
ghost use Rattle.spf_tests_runtime.specs.CountingFold.{counting_setting};

use crate::counting::{Raised, attempt, both_attempts, lane_of_block_one};
use spf_ast::row::Row;
use spf_cells::cells::Cells;
use spf_cells::warden::Warden;
use spf_exec::frame::Frame;
use spf_exec::stop::Stop;
use spf_ticket::run::Job;
use spf_ticket::ticket::Ticket;
use std::alloc::{AllocError, Global};
use std::test::Fail;
use std::thread::{Threads, join};

/// More turns than any attempt makes: they would take some minutes.
const LONG: i64 = 100_000_000_000;

/// Both attempts of block 1, the second one at 1: how they ended.
fn attempt_twice(cells: &Cells, job: &Job, ticket: Ticket) -> (Stop, Stop)
    requires program { program_of job.now.instance.now ≡ counting }
    requires input { job.now.instance.now.input ≡ [] }
    requires construct { seen_construct job.now.construct ≡ fold_of_counting }
    requires index { job.now.index ≡ 0 }
    requires entry { job.now.entry.now ≡ [] }
    requires setting { cells.now.setting ≡ counting_setting }
    requires table { ticket.lane.table ≡ cells.now.table }
    requires block { ticket.block ≡ 1 }
    requires attempt { ticket.attempt ≡ 1 }
    requires frame { length ticket.frame ≡ frame_size counting }
{
    let first = attempt(cells, job, ticket);
    let second = attempt(cells, job, first.ticket.again(Row::one(1)));
    (first.stop, second.stop)
}

/// Both attempts of block 1 in a thread of their own, while the warden raises the block's flag in
/// another one.
fn raised_meanwhile<R: Threads + Sync>(
    rt: &R,
    cells: &Cells,
    job: &Job,
    warden: &mut Warden,
    ticket: Ticket,
) -> (Stop, Stop)
    requires program { program_of job.now.instance.now ≡ counting }
    requires input { job.now.instance.now.input ≡ [] }
    requires construct { seen_construct job.now.construct ≡ fold_of_counting }
    requires index { job.now.index ≡ 0 }
    requires entry { job.now.entry.now ≡ [] }
    requires setting { cells.now.setting ≡ counting_setting }
    requires table { ticket.lane.table ≡ cells.now.table }
    requires block { ticket.block ≡ 1 }
    requires attempt { ticket.attempt ≡ 1 }
    requires frame { length ticket.frame ≡ frame_size counting }
    requires own { IsWardenOf cells.now warden.old }
    requires inside { 1 < length warden.old.setting.plan }
    requires raisable { Contains warden.old.setting.raisable 1 }
{
    let (stops, ()) = join(
        rt,
        || attempt_twice(cells, job, ticket),
        || warden.raise(cells, 1, 1),
    );
    stops
}

/// A first attempt of this job's block 1 on fresh cells, which would take minutes and is raised
/// meanwhile, and then the second one, at 1: how they ended.
pub(crate) fn attempt_meanwhile<R: Threads + Sync>(
    rt: &R,
    alloc: Global,
    job: &Job,
) -> Result<(Stop, Stop), AllocError>
    requires program { program_of job.now.instance.now ≡ counting }
    requires input { job.now.instance.now.input ≡ [] }
    requires construct { seen_construct job.now.construct ≡ fold_of_counting }
    requires index { job.now.index ≡ 0 }
    requires entry { job.now.entry.now ≡ [] }
{
    let frame = Frame::make(alloc, job.instance)?;
    let (cells, mut warden, lane) = lane_of_block_one(alloc)?;
    let ticket = Ticket::make(1, 1, Row::one(LONG), lane, frame);
    Ok(raised_meanwhile(rt, &cells, job, &mut warden, ticket))
}

#[test]
fn an_attempt_is_cancelled_that_is_raised_meanwhile(rt: HostRuntime) -> Result<(), Fail> {
    for _ in 0..20 {
        let stops = both_attempts(&rt, rt.alloc(), Raised::Meanwhile)?;
        assert!(rt; stops == Some((Stop::Cancelled { seen: 1 }, Stop::Ended(Row::one(1)))));
    }
    Ok(())
}
