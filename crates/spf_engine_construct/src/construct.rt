//! Constructs, from their header on.
ghost use Rattle.std.specs.Prelude.{◌≡◌, ◌<◌, ◌≤◌, ◌+◌, ◌++◌, ◌+ℤ◌, ◌≤ℤ◌, List, length, map, pos};
ghost use Rattle.std.specs.Prelude.{IfOk, IfErr};
ghost use Rattle.spf_ast.specs.Meaning.{max_blocks};
ghost use Rattle.spf_ast.specs.View.{program as seen_program};
ghost use Rattle.spf_chain.specs.Beginning.{site_of};
ghost use Rattle.spf_chain.specs.Chains.{chain_cells, HasEnded};
ghost use Rattle.spf_ast.specs.ConstructView.{construct as seen_construct};
ghost use Rattle.spf_speculation_entry.specs.Entry.{plain_blocks};
ghost use Rattle.spf_exec.specs.Pieces.{seen_header};
ghost use Rattle.spf_guess_statistics.specs.Guess.{Hosts, Telling, tells};
ghost use Rattle.spf_guess.specs.Answers.{WereTold, supplied, WereToldNoMore};
ghost use Rattle.spf_engine_construct.specs.Guesses.{block_guess, AreAtMost, IsHandedIn};
ghost use Rattle.spf_engine_construct.specs.Guesses.{real_values};
ghost use Rattle.spf_chain.specs.Finishing.{IsFinished};
ghost use Rattle.spf_engine_construct.specs.Coming.{IsAtConstruct, CanBeWrittenBack, entry_of, ComeTo};

use crate::counts::count_blocks;
use crate::guesses::{ReachedConstruct, take_guesses};
use crate::telling::tell_history;
use spf_ast::row::Row;
use spf_cells::cells::Cells;
use spf_cells::finish::Trace;
use spf_chain::block::{ChainBlock, Settled};
use spf_chain::chain::Chain;
use spf_check::checked::Checked;
use spf_crew_threads::workers::Workers;
use spf_exec::frame::Frame;
use spf_exec::pieces::Header;
use spf_guess::Predictor;
use spf_guess_statistics::guess::Guess;
use spf_guess_statistics::stats::Stats;
use spf_ticket::run::Job;
use spf_ticket_gate::Gate;
use std::alloc::{AllocError, Global};
use std::sync::Wait;
use std::thread::Threads;

/// What the blocks of a construct came to.
#[derive(Drop)]
pub struct ConstructReport {
    /// The carried row after the last block, or the trap.
    pub settled: Settled,
    /// How good the guesses were.
    pub stats: Stats,
    /// The logs of all attempts, those from wrong guesses too.
    pub trace: Trace,
}

/// The blocks of a construct when all are run: what is left is to write their cells back.
#[derive(Drop)]
pub struct Blocks {
    /// Their chain, which has ended.
    pub chain: Chain,
    /// Its cells.
    pub cells: Cells,
    /// How good the guesses were.
    pub stats: Stats,
}

/// Runs the blocks, each from its guess, and again from its real row where
/// the guess was wrong, until all are validated or one has trapped.
fn run_from<R: Threads + Wait + Sync, G: Gate + Sync>(
    workers: &Workers<R, G>,
    checked: &Checked,
    at: ReachedConstruct,
    header: &Header,
    guesses: &[Guess],
) -> Result<(Chain, Cells), AllocError>
    requires there { IsAtConstruct (seen_program checked.now) at header.now }
    requires fits { (header.now.low +ℤ pos header.now.blocks) ≤ℤ i64.MAX }
    requires guesses { length guesses.now + 1 ≡ header.now.blocks }
    ensures site { IfOk result (λ r. r.0.site
        ≡ site_of at.entry.instance.now at.entry.index header.now at.entry.frame.now
        at.entry.cells.now guesses.now) }
    ensures ended { IfOk result (λ r. HasEnded r.0) }
    ensures own { IfOk result (λ r. r.1 ≡ chain_cells r.0) }
{
    // Law: the blocks of an accepted program's constructs can be run as attempts.
    spf_chain::laws::accepted_constructs_can_run();
    let _program = checked.program();
    let (chain, cells, tickets) = Chain::start(
        workers.alloc,
        checked,
        at.instance,
        at.index,
        *header,
        at.frame,
        at.cells,
        guesses,
    )?;
    let job = Job {
        instance: at.instance,
        construct: at.construct,
        index: at.index,
        entry: at.cells,
    };
    workers.run_crew(chain, cells, tickets, header.blocks, job)
}

/// The real rows of validated blocks.
fn real_rows(alloc: Global, history: &[ChainBlock]) -> Result<Vec<Row>, AllocError>
    ensures rows { IfOk result (λ r. r.items ≡ real_values history.now) }
{
    let mut rows = Vec::with_capacity(alloc, history.len())?;
    for block in history {
        rows.push(block.row)?;
    }
    Ok(rows)
}

/// Runs the blocks of a top construct whose header is done. `at` is where the run stands. Each of
/// the workers has a thread of its own; no more of them are used than there are blocks. Before the
/// first attempt the workers compute what expressions guess, and a host is asked once for each part
/// that names it of each block but the first, in the order of blocks and then of parts. A host is
/// told these parts of the real rows, in that order, when all is run.
///
/// # Errors
///
/// `AllocError` where there is no memory for the blocks; nothing was told then.
pub fn run_blocks<R: Threads + Wait + Sync, G: Gate + Sync>(
    workers: &Workers<R, G>,
    checked: &Checked,
    at: ReachedConstruct,
    header: &Header,
    hosts: &mut Vec<Box<dyn Predictor>>,
) -> Result<Blocks, AllocError>
    requires there { IsAtConstruct (seen_program checked.now) at header.now }
    requires fits { (header.now.low +ℤ pos header.now.blocks) ≤ℤ i64.MAX }
    requires host { IsHandedIn (length hosts.old.items) (seen_construct at.construct) }
    ensures ready { IfOk result CanBeWrittenBack }
    ensures size { IfOk result (λ b. length b.chain.site.memory ≡ length at.entry.cells.now) }
    ensures came { IfOk result (λ b. (before : Hosts) (telling : List Telling)
        → WereTold before telling (supplied answer hosts.old.items)
        → ComeTo (entry_of at.entry header.now) (block_guess before telling at.entry header.now)
        b) }
    ensures told { IfOk result (λ b. (before : Hosts) (telling : List Telling)
        → WereTold before telling (supplied answer hosts.old.items)
        → WereTold before (telling
        ++ tells (seen_construct at.entry.construct) (seen_header header.now)
        (plain_blocks (entry_of at.entry header.now)).values)
        (supplied answer hosts.new.items)) }
    ensures nothing_told { IfErr result (λ why.
        WereToldNoMore (supplied answer hosts.old.items) (supplied answer hosts.new.items)) }
    ensures count { length hosts.new.items ≡ length hosts.old.items }
    ensures few { IfOk result (λ b. AreAtMost b.stats max_blocks) }
{
    // Law: a speculative run depends on the visible slots alone.
    spf_speculation::laws::speculative_runs_see_visible_slots_alone();
    // Law: functions emit nothing, and there are fewer than 2^32 top constructs.
    spf_ast::laws::lawful_programs_are_quiet_and_small();
    // Law: no `break` of a lawful program leaves `main` or a part.
    spf_ast::laws::breaks_stay_in_their_loops();
    let _program = checked.program();
    let guesses = take_guesses(workers.rt, workers.alloc, at, header, workers.count, hosts)?;
    let (chain, cells) = run_from(workers, checked, at, header, &guesses)?;
    chain.merged_logs_are_speculative_runs();
    let history = chain.history();
    let reals = real_rows(workers.alloc, history)?;
    let stats = count_blocks(&reals, &guesses);
    tell_history(at.construct, header, &reals, hosts);
    Ok(Blocks {
        chain,
        cells,
        stats,
    })
}

impl Blocks {
    /// Writes the blocks' cells back to the run's. Where no block trapped, these are then the
    /// memory after the blocks.
    pub fn write_back(self, into: &mut [i64]) -> ConstructReport
        requires ready { CanBeWrittenBack self }
        requires size { length into.old ≡ length self.chain.site.memory }
        ensures finished { IsFinished self.chain result.settled result.trace into.old into.new }
        ensures stats { result.stats ≡ self.stats }
    {
        let (settled, trace) = self.chain.finish(self.cells, into);
        ConstructReport {
            settled,
            stats: self.stats,
            trace,
        }
    }
}
