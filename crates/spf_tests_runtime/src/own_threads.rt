//! Mates that take turns in threads of the test's own.
ghost use Rattle.std.specs.Prelude.{◌≡◌, ◌<◌, ◌≤◌, ℕ, IfOk, length, slice_index_or};
ghost use Rattle.spf_ast_lemmas.specs.Limits.{max_workers};
ghost use Rattle.std.specs.List.{All};
ghost use Rattle.spf_chain.specs.Beginning.{IsStarted};
ghost use Rattle.spf_chain.specs.Chains.{chain_cells, HasEnded};
ghost use Rattle.spf_chain.specs.Jobs.{CanRun};
ghost use Rattle.spf_crew.specs.Mates.{MateValue, IsMateOf};
ghost use Rattle.spf_crew_threads.specs.Driving.{HasReadAt, MakesAttempts};
ghost use Rattle.spf_speculation_entry.specs.Sites.{entry_at};
ghost use Rattle.spf_ticket.specs.Tickets.{IsJobOf};

use spf_cells::cells::Cells;
use spf_chain::chain::Chain;
use spf_crew::attempt::{Attempter, GatedJob, HasConstruct, HasInstance};
use spf_crew::crew::Crew;
use spf_crew::mate::Mate;
use spf_crew::merged::close_crew;
use spf_crew::turn::Turn;
use spf_ticket::run::Job;
use spf_ticket::ticket::Ticket;
use spf_ticket_gate::Open;
use std::alloc::{AllocError, Global};
use std::sync::Wait;
use std::thread::{self, Threads, for_each_mut};

/// Takes turns with a mate until it has ended.
fn take_turns<R: Wait, A: Attempter>(rt: &R, crew: &Crew, attempter: &A, mate: &mut Mate)
    requires own { IsMateOf crew.now mate.old }
    requires serves { A.serves crew.now.setting attempter.now }
    ensures { HasReadAt crew.now mate.old mate.new }
{
    for _ in rt.forever() {
        match mate.turn(crew, attempter) {
            Turn::Worked => {}
            Turn::Idle { why: _ } => thread::yield_now(),
            Turn::Ended => break,
        }
    }
}

/// Lets all mates take turns, each in a thread of its own.
fn in_threads<R: Threads + Wait + Sync, A: Attempter + Sync>(
    rt: &R,
    crew: &Crew,
    attempter: &A,
    mates: &mut [Mate],
)
    requires own { All (IsMateOf crew.now) mates.old }
    requires serves { A.serves crew.now.setting attempter.now }
    ensures count { length mates.new ≡ length mates.old }
    ensures each { (i : ℕ) (d : MateValue) → i < length mates.old
        → HasReadAt crew.now (slice_index_or mates.old i d) (slice_index_or mates.new i d) }
{
    for_each_mut(
        rt,
        mates,
        64,
        &|_, mate|
            requires own { IsMateOf crew.now mate.old }
            requires serves { A.serves crew.now.setting attempter.now }
            ensures { HasReadAt crew.entry.now mate.old mate.new }
        { take_turns(rt, crew, attempter, mate) },
    );
}

/// Lets all mates take turns, each in a thread of its own, and attempt a construct's blocks.
fn attempt_blocks<R: Threads + Wait + Sync, I: HasInstance + Sync, C: HasConstruct + Sync>(
    rt: &R,
    crew: &Crew,
    instance: &I,
    construct: &C,
    index: u32,
    entry: &[i64],
    mates: &mut [Mate],
)
    requires own { All (IsMateOf crew.now) mates.old }
    requires serves { MakesAttempts crew.now.setting (record {
      instance = I.instance instance.now;
      construct = C.construct construct.now;
      index = index;
      entry = entry;
    }) }
    ensures count { length mates.new ≡ length mates.old }
    ensures each { (i : ℕ) (d : MateValue) → i < length mates.old
        → HasReadAt crew.now (slice_index_or mates.old i d) (slice_index_or mates.new i d) }
{
    let attempter = GatedJob {
        instance,
        construct,
        index,
        entry,
        gate: &Open,
    };
    in_threads(rt, crew, &attempter, mates);
}

/// Lets all mates take turns, each in a thread of its own, and attempt the blocks of this job.
fn attempt_all<R: Threads + Wait + Sync>(rt: &R, crew: &Crew, job: Job, mates: &mut [Mate])
    requires own { All (IsMateOf crew.now) mates.old }
    requires serves { MakesAttempts crew.now.setting job }
    ensures count { length mates.new ≡ length mates.old }
    ensures each { (i : ℕ) (d : MateValue) → i < length mates.old
        → HasReadAt crew.now (slice_index_or mates.old i d) (slice_index_or mates.new i d) }
{
    attempt_blocks(
        rt,
        crew,
        &job.instance,
        &job.construct,
        job.index,
        job.entry,
        mates,
    );
}

/// Runs the blocks of a construct whose chain has just started, with `workers` mates.
pub(crate) fn run_on_threads<R: Threads + Wait + Sync>(
    rt: &R,
    alloc: Global,
    chain: Chain,
    cells: Cells,
    tickets: Vec<Ticket>,
    workers: u64,
    job: Job,
) -> Result<(Chain, Cells), AllocError>
    requires workers { (0 < workers) × (workers ≤ max_workers) }
    requires started { IsStarted chain.site chain cells tickets.items }
    requires job { CanRun job }
    requires entry { IsJobOf (entry_at chain.site) job }
    ensures ended { IfOk result (λ r. HasEnded r.0) }
    ensures site { IfOk result (λ r. r.0.site ≡ chain.site) }
    ensures own { IfOk result (λ r. r.1 ≡ chain_cells r.0) }
{
    let (crew, mut mates) = Crew::make(alloc, chain, cells, tickets, workers)?;
    attempt_all(rt, &crew, job, mates.as_mut_slice());
    Ok(close_crew(crew, mates))
}
