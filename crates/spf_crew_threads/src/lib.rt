//! Runs the mates of a crew, each in a thread of its own, until the chain has ended.
#![tactic(auto)]

ghost use Rattle.std.specs.Prelude.{◌≡◌, ◌<◌, length, IfOk};
ghost use Rattle.std.specs.List.{All};
ghost use Rattle.spf_chain.specs.Beginning.{IsStarted};
ghost use Rattle.spf_chain.specs.Chains.{chain_cells, HasEnded};
ghost use Rattle.spf_chain.specs.Finishing.{EveryMergingRuns};
ghost use Rattle.spf_chain.specs.Homes.{log_in};
ghost use Rattle.spf_chain.specs.Jobs.{CanRun};
ghost use Rattle.spf_speculation_entry.specs.Sites.{entry_at};
ghost use Rattle.spf_ticket.specs.Tickets.{IsJobOf};
ghost use Rattle.spf_crew.specs.Mates.{IsMateOf};
ghost use Rattle.spf_crew_threads.specs.Driving.{HasReadAt, HaveAllReadAt, MakesAttempts};

mod pauses;
pub mod workers;

use crate::pauses::Pauses;
use crate::workers::Workers;
use spf_cells::cells::Cells;
use spf_chain::chain::Chain;
use spf_crew::attempt::{Attempter, GatedJob, HasConstruct, HasInstance};
use spf_crew::crew::Crew;
use spf_crew::mate::Mate;
use spf_crew::turn::Turn;
use spf_ticket::run::Job;
use spf_ticket::ticket::Ticket;
use spf_ticket_gate::Gate;
use std::alloc::AllocError;
use std::sync::Wait;
use std::thread::{Threads, for_each_mut};

/// The most threads that run at the same time: as many as there may be workers.
const MOST_THREADS: usize = 64;

/// Takes turns with a mate until it has ended, and pauses after an idle turn.
fn drive<R: Wait, A: Attempter>(rt: &R, crew: &Crew, attempter: &A, mate: &mut Mate)
    requires own { IsMateOf crew.now mate.old }
    requires serves { A.serves crew.now.setting attempter.now }
    ensures { HasReadAt crew.now mate.old mate.new }
{
    let mut pauses = Pauses::new();
    for _ in rt.forever() {
        match mate.turn(crew, attempter) {
            Turn::Worked => pauses.reset(),
            Turn::Idle { why: _ } => pauses.pause(rt),
            Turn::Ended => break,
        }
    }
}

/// Lets the mates take turns, each in a thread of its own, until each has ended.
fn in_threads<R: Threads + Wait + Sync, A: Attempter + Sync>(
    rt: &R,
    crew: &Crew,
    attempter: &A,
    mates: &mut [Mate],
)
    requires own { All (IsMateOf crew.now) mates.old }
    requires serves { A.serves crew.now.setting attempter.now }
    ensures count { length mates.new ≡ length mates.old }
    ensures each { HaveAllReadAt crew.now mates.old mates.new }
{
    for_each_mut(
        rt,
        mates,
        MOST_THREADS,
        &|_, mate|
            requires own { IsMateOf crew.now mate.old }
            requires serves { A.serves crew.now.setting attempter.now }
            ensures { HasReadAt crew.entry.now mate.old mate.new }
        { drive(rt, crew, attempter, mate) },
    );
}

/// Lets the mates take turns, each in a thread of its own, and attempt a construct's blocks.
fn drive_blocks<
    R: Threads + Wait + Sync,
    I: HasInstance + Sync,
    C: HasConstruct + Sync,
    G: Gate + Sync,
>(rt: &R, crew: &Crew, attempter: &GatedJob<I, C, G>, mates: &mut [Mate])
    requires own { All (IsMateOf crew.now) mates.old }
    requires serves { MakesAttempts crew.now.setting (record {
      instance = I.instance attempter.now.instance.now;
      construct = C.construct attempter.now.construct.now;
      index = attempter.now.index;
      entry = attempter.now.entry;
    }) }
    ensures count { length mates.new ≡ length mates.old }
    ensures each { HaveAllReadAt crew.now mates.old mates.new }
{
    in_threads(rt, crew, attempter, mates);
}

/// Lets the mates take turns, each in a thread of its own, and attempt the blocks of this job.
fn drive_all<R: Threads + Wait + Sync, G: Gate + Sync>(
    rt: &R,
    crew: &Crew,
    job: Job,
    gate: &G,
    mates: &mut [Mate],
)
    requires own { All (IsMateOf crew.now) mates.old }
    requires serves { MakesAttempts crew.now.setting job }
    ensures count { length mates.new ≡ length mates.old }
    ensures each { HaveAllReadAt crew.now mates.old mates.new }
{
    let attempter = GatedJob {
        instance: &job.instance,
        construct: &job.construct,
        index: job.index,
        entry: job.entry,
        gate,
    };
    drive_blocks(rt, crew, &attempter, mates);
}

impl<'a, R: Threads + Wait + Sync, G: Gate + Sync> Workers<'a, R, G> {
    /// Runs the blocks of a construct whose chain has just started, each worker in a thread of its
    /// own. Where a thread can't be started, the calling thread does its work. Each block is
    /// attempted from its guess, and again from its real row where the guess was wrong; afterwards
    /// the chain has ended. `job` is the construct with the memory at its entry. The gate is called
    /// before and after each attempt. It waits until all workers have ended. No more than `most` of
    /// the workers are used.
    ///
    /// # Errors
    ///
    /// `AllocError` where there is no memory for the crew.
    pub fn run_crew(
        &self,
        chain: Chain,
        cells: Cells,
        tickets: Vec<Ticket>,
        most: u64,
        job: Job,
    ) -> Result<(Chain, Cells), AllocError>
        requires some { 0 < most }
        requires started { IsStarted chain.site chain cells tickets.items }
        requires job { CanRun job }
        requires entry { IsJobOf (entry_at chain.site) job }
        ensures ended { IfOk result (λ r. HasEnded r.0) }
        ensures site { IfOk result (λ r. r.0.site ≡ chain.site) }
        ensures own { IfOk result (λ r. r.1 ≡ chain_cells r.0) }
        ensures cells { IfOk result (λ r. r.1 ≡ cells) }
        ensures merging { IfOk result (λ r. EveryMergingRuns r.0 (log_in r.0.homes)) }
    {
        let mates = self.count.min(most);
        let (crew, mut mates) = Crew::make(self.alloc, chain, cells, tickets, mates)?;
        drive_all(self.rt, &crew, job, self.gate, mates.as_mut_slice());
        Ok(crew.close(mates))
    }
}
