//! Whole constructs, run by one worker and by many.
ghost use Rattle.std.specs.Prelude.{◌≡◌, ◌<◌, ◌≤◌, IfOk, Some, length, slice_get};
ghost use Rattle.spf_ast_lemmas.specs.Limits.{max_workers};
ghost use Rattle.spf_ast.specs.View.{program as seen_program};
ghost use Rattle.spf_ast.specs.Construct.{constructs_in};
ghost use Rattle.spf_ast.specs.ConstructView.{construct as seen_construct};
ghost use Rattle.spf_ast.specs.Program.{cell_count_of};
ghost use Rattle.spf_chain.specs.Beginning.{IsStarted};
ghost use Rattle.spf_chain.specs.Chains.{chain_cells, HasEnded};
ghost use Rattle.spf_chain.specs.Jobs.{CanRun};
ghost use Rattle.spf_speculation_entry.specs.Sites.{entry_at};
ghost use Rattle.spf_exec_instance.specs.Instance.{program_of};
ghost use Rattle.spf_ticket.specs.Tickets.{IsJobOf};

use crate::jobs::{Task, comes_right};
use crate::own_threads::run_on_threads;
use crate::starting::{Started, start};
use spf_ast::row::Row;
use spf_cells::cells::Cells;
use spf_chain::block::Settled;
use spf_chain::chain::Chain;
use spf_check::checked::Checked;
use spf_crew_threads::workers::Workers;
use spf_ticket::run::Job;
use spf_ticket_gate::Open;
use std::alloc::{AllocError, Global};
use std::sync::Wait;
use std::test::Fail;
use std::thread::Threads;

/// Each block fills its span and stores one of its cells, which its carried value chooses. Block 2
/// begins at a wrong guess.
const SCATTERED: &[u8] =
    b"array out[6]; main { specfold s = 0 for k in 0..3 predict 1 { fill out[2*k..2*k + 2] = 0; \
        out[2*k + (s & 1)] = 7; next s + 1; } }";

/// Block 1 traps.
const TRAPPING: &[u8] =
    b"array out[1]; main { specfold s = 0 for k in 0..4 predict 0 { out[k] = 1; next 0; } }";

/// Each of many blocks iterates, and nearly no guess is right.
const MANY: &[u8] =
    b"main { specfold s = 1 for k in 0..600 predict 0 { let t = s; for i in 0..50 { \
        t = (t * 5 + i) % 1009; } next t; } emit s & 255; }";

/// A program's first construct, which carries rows of one word, and what it comes to.
#[derive(Clone, Copy)]
pub(crate) struct Case<'a> {
    text: &'a [u8],
    /// The value at which block 0 begins.
    first: i64,
    /// Those at which the others are attempted first.
    guesses: &'a [i64],
    /// The values at which blocks begin, and where none traps the one after the last block.
    values: &'a [i64],
    /// The memory afterwards, where none traps.
    memory: &'a [i64],
}

/// What a construct came to.
#[derive(Drop)]
struct Came {
    values: Vec<i64>,
    memory: Vec<i64>,
}

impl Came {
    fn is_wanted(&self, case: &Case) -> bool {
        self.values.as_slice() == case.values && self.memory.as_slice() == case.memory
    }
}

/// What takes the turns of a crew's mates.
#[derive(Clone, Copy)]
pub(crate) enum By {
    Driver,
    OwnThreads,
}

/// The word of a row of one word.
fn word_of(row: Row) -> i64 {
    row.part(0)
}

/// The values at which a chain's blocks began.
fn values_at_blocks(alloc: Global, chain: &Chain) -> Result<Vec<i64>, AllocError> {
    let mut values = Vec::new(alloc);
    for validated in chain.history() {
        values.push(word_of(validated.row))?;
    }
    Ok(values)
}

/// What an ended chain came to, with its cells.
fn finish(alloc: Global, chain: Chain, cells: Cells, size: usize) -> Result<Came, AllocError>
    requires ended { HasEnded chain }
    requires own { cells ≡ chain_cells chain }
    requires size { size ≡ length chain.site.memory }
{
    let mut values = values_at_blocks(alloc, &chain)?;
    let mut memory = vec![in alloc; 0i64; size]?;
    let (settled, _trace) = chain.finish(cells, memory.as_mut_slice());
    match settled {
        Settled::Carried(last) => values.push(word_of(last))?,
        Settled::Trapped(_) => memory.clear(),
    }
    Ok(Came { values, memory })
}

/// Has the blocks of a construct whose chain has just started run by `workers` workers.
fn attempt_all<R: Threads + Wait + Sync>(
    rt: &R,
    alloc: Global,
    started: Started,
    workers: u64,
    job: Job,
    by: By,
) -> Result<(Chain, Cells), AllocError>
    requires workers { (0 < workers) × (workers ≤ max_workers) }
    requires started { IsStarted started.0.site started.0 started.1 started.2.items }
    requires job { CanRun job }
    requires entry { IsJobOf (entry_at started.0.site) job }
    ensures ended { IfOk result (λ r. HasEnded r.0) }
    ensures site { IfOk result (λ r. r.0.site ≡ started.0.site) }
    ensures own { IfOk result (λ r. r.1 ≡ chain_cells r.0) }
{
    let (chain, cells, tickets) = started;
    match by {
        By::Driver => {
            let driven = Workers::new(rt, alloc, workers, &Open);
            driven.run_crew(chain, cells, tickets, workers, job)
        }
        By::OwnThreads => run_on_threads(rt, alloc, chain, cells, tickets, workers, job),
    }
}

/// Returns whether a job's construct comes to what its case says, run by `workers` workers.
pub(crate) fn comes_to<R: Threads + Wait + Sync>(
    rt: &R,
    alloc: Global,
    checked: &Checked,
    job: Job,
    case: &Case,
    workers: u64,
    by: By,
) -> Result<bool, Fail>
    requires program { program_of job.instance.now ≡ seen_program checked.now }
    requires construct { slice_get (constructs_in (program_of job.instance.now).main) job.index
        ≡ Some (seen_construct job.construct) }
    requires entry { length job.entry.now
        ≡ cell_count_of (program_of job.instance.now) (length job.instance.now.input) }
{
    if workers == 0 || workers > 64 {
        return Err(Fail::new("a number of workers"));
    }
    let started = start(alloc, checked, &job, case.first, case.guesses)?;
    let (chain, cells) = attempt_all(rt, alloc, started, workers, job, by)?;
    let came = finish(alloc, chain, cells, job.entry.len())?;
    Ok(came.is_wanted(case))
}

/// The carried value after a block of `MANY`.
fn after_one(value: i64) -> i64 {
    let mut next = value;
    for i in 0..50i64 {
        next = next.wrapping_mul(5).wrapping_add(i) % 1009;
    }
    next
}

/// The values at which the first `blocks` blocks of `MANY` begin, and the one after the last block.
fn values_of(alloc: Global, blocks: usize) -> Result<Vec<i64>, AllocError> {
    let mut values = Vec::new(alloc);
    let mut value = 1;
    for _ in 0..blocks {
        values.push(value)?;
        value = after_one(value);
    }
    values.push(value)?;
    Ok(values)
}

/// How many workers run a construct, and what takes their turns.
const CREWS: [(u64, By); 5] = [
    (1, By::Driver),
    (2, By::Driver),
    (4, By::Driver),
    (8, By::Driver),
    (4, By::OwnThreads),
];

#[test]
fn any_number_of_workers_gives_the_plain_values(rt: HostRuntime) -> Result<(), Fail> {
    let cases = [
        Case {
            text: SCATTERED,
            first: 0,
            guesses: &[1, 1],
            values: &[0, 1, 2, 3],
            memory: &[7, 0, 0, 7, 7, 0],
        },
        Case {
            text: TRAPPING,
            first: 0,
            guesses: &[0, 0, 0],
            values: &[0, 0],
            memory: &[],
        },
    ];
    for case in &cases {
        for &(workers, by) in &CREWS {
            let task = Task::Run(case, workers, by);
            assert!(rt;
                comes_right(&rt, rt.alloc(), case.text, task)?,
                "{workers} workers"
            );
        }
    }
    Ok(())
}

#[test]
fn any_number_of_workers_gives_the_values_of_many_blocks(rt: HostRuntime) -> Result<(), Fail> {
    let values = values_of(rt.alloc(), 600)?;
    let many = Case {
        text: MANY,
        first: 1,
        guesses: &[0; 599],
        values: values.as_slice(),
        memory: &[],
    };
    for &(workers, by) in &CREWS {
        let task = Task::Run(&many, workers, by);
        assert!(rt;
            comes_right(&rt, rt.alloc(), MANY, task)?,
            "{workers} workers"
        );
    }
    Ok(())
}
