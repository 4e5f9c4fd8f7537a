//! Files reports.
ghost use Rattle.std.specs.Prelude.{◌≡◌, ◌≢◌, ◌<◌, ◌≤◌, ◌==◌, ◌↔◌, IsTrue, if◌then◌else◌, ℕ, false};
ghost use Rattle.std.specs.Prelude.{length, slice_get, Some, None, MatchOption};
ghost use Rattle.spf_chain.specs.declared.block.Settled.TheVariants.{Carried as Gave, Trapped};
ghost use Rattle.spf_ast.specs.Carried.{Carried as CarriedValue};
ghost use Rattle.std.specs.List.{Contains};
ghost use Rattle.spf_cells.specs.Values.{IsWardenOf};
ghost use Rattle.spf_ticket.specs.declared.ticket.Report.{Report as SeenReport};
ghost use Rattle.spf_ticket.specs.Tickets.{IsLawfulReport};
ghost use Rattle.spf_speculation_entry.specs.Sites.{entry_at, guess_at};
ghost use Rattle.spf_chain.specs.Homes.{known_in};
ghost use Rattle.spf_chain.specs.Chains.{HasRaised, Raises, IsToRaise, IsFiled, chain_cells};
ghost use Rattle.spf_chain.specs.Chains.{next_block, IsOut, came_home, Validates, IsFiledAnswer};
ghost use Rattle.spf_chain.specs.Chains.{IsExact, HasTrapped, IsSameChain};
ghost use Rattle.spf_ast_lemmas.specs.Counts.{one_more};

use crate::block::Settled;
use crate::chain::{Chain, Filed};
use spf_ast::row::Row;
use spf_cells::cells::Cells;
use spf_cells::warden::Warden;
use spf_ticket::ticket::Report;

// Returns whether the block at an index has no report.
fn is_out(homes: &[Option<Report>], index: usize) -> bool
    requires { index < length homes.now }
    ensures { IsTrue result ↔ (slice_get homes.now index ≡ Some None) }
{
    match &homes[index] {
        Some(_) => false,
        None => true,
    }
}

// The lowest index without a report.
fn lowest_out(homes: &[Option<Report>]) -> Option<u64>
    ensures { MatchOption result ((n : ℕ) → slice_get homes.now n ≢ Some None) (λ b.
        (slice_get homes.now b ≡ Some None)
        × ((n : ℕ) → n < b → slice_get homes.now n ≢ Some None)) }
{
    for block in 0..homes.len() {
        if is_out(homes, block) {
            return Some(block as u64);
        }
    }
    None
}

// Returns whether the second attempt is still out, once a report of a block came home.
fn still_again(again: bool, block: usize, next_block: usize) -> bool
    ensures { result ≡ (if block == next_block then false else again) }
{
    if block == next_block { false } else { again }
}

impl Chain {
    // Brings a report home. Its home is free, since the report has its block's only lane.
    fn come_home(&mut self, cells: &Cells, report: Report)
        requires own { cells.now ≡ chain_cells self.old }
        requires lawful { IsLawfulReport (entry_at self.old.site) (guess_at self.old.site) cells.now
            report }
        ensures state { self.new ≡ came_home self.old report }
        ensures free { IsOut self.old report.ticket.block }
    {
        // Law: the plain run stands where the validated prefix leaves it.
        spf_speculation::laws::prefixes_grow();
        let block = report.ticket.block() as usize;
        report.ticket.log_facts();
        match self.homes[block].take() {
            Some(other) => {
                other.ticket.log_facts();
                self.warden.take(cells, other.ticket.into_lane());
                self.warden.take(cells, report.ticket.into_lane());
                unreachable!()
            }
            None => {
                self.homes[block] = Some(report);
                self.again = still_again(self.again, block, self.validation.count);
                self.reports = self.reports.saturating_add(1);
            }
        }
    }

    // Validates blocks.
    fn validate(&mut self)
        ensures validates { Validates self.old self.new }
        ensures trapped { HasTrapped self.old → self.new ≡ self.old }
        ensures second { (r : SeenReport)
            → slice_get self.old.homes (next_block self.old) ≡ Some (Some r) → r.ticket.attempt ≡ 2
            → next_block self.old < next_block self.new }
    {
        // Law: the plain run stands where the validated prefix leaves it.
        spf_speculation::laws::prefixes_grow();
        // Law: what a block run leaves in its lane's log is an attempt.
        spf_speculation::laws::block_runs_are_attempts();
        // Law: the logs of the lanes, merged in any order, are a speculative run.
        spf_speculation_lanes::laws::lanes_make_speculative_runs();
        self.validation.advance(&self.homes);
    }

    // What is to be done where the next block's real row is known.
    fn answer_next(&mut self, real: Row) -> Filed
        requires carried { self.old.settled ≡ Gave real }
        requires done { known_in real (slice_get self.old.homes (next_block self.old)) ≡ None }
        ensures { IsFiledAnswer self.old result self.new }
    {
        // Law: the plain run stands where the validated prefix leaves it.
        spf_speculation::laws::prefixes_grow();
        // Law: what a block run leaves in its lane's log is an attempt.
        spf_speculation::laws::block_runs_are_attempts();
        // Law: the logs of the lanes, merged in any order, are a speculative run.
        spf_speculation_lanes::laws::lanes_make_speculative_runs();
        let next_block = self.validation.count;
        if next_block == self.homes.len() {
            return Filed::Ended;
        }
        if is_out(&self.homes, next_block) {
            return Filed::Waiting {
                block: next_block as u64,
            };
        }
        match self.homes[next_block].take() {
            Some(report) => {
                self.again = true;
                Filed::Rerun(report.ticket.again(real))
            }
            None => unreachable!(),
        }
    }

    // What is to be done after a trap.
    fn answer_trapped(&self) -> Filed
        requires { HasTrapped self.now }
        ensures { IsFiledAnswer self.now result self.now }
    {
        match lowest_out(&self.homes) {
            Some(block) => Filed::Waiting { block },
            None => Filed::Ended,
        }
    }
}

// Raises the flags of all blocks from this one on that have no report.
fn raise_out(warden: &mut Warden, cells: &Cells, homes: &[Option<Report>], from: usize)
    requires own { IsWardenOf cells.now warden.old }
    requires inside { length homes.now ≤ length warden.old.setting.plan }
    requires flags { length homes.now ≤ length warden.old.view.flags }
    requires raisable { (n : ℕ) → from ≤ n → n < length homes.now
        → Contains warden.old.setting.raisable n }
    ensures { HasRaised (λ n. (from ≤ n) × (slice_get homes.now n ≡ Some None)) warden.old
        warden.new }
{
    for block in from..homes.len() {
        if !is_out(homes, block) {
            continue;
        }
        warden.raise(cells, block as u64, 1);
    }
}

impl Chain {
    // What is to be done.
    fn answer(&mut self) -> Filed
        requires done { (v : CarriedValue) → self.old.settled ≡ Gave v
            → known_in v (slice_get self.old.homes (next_block self.old)) ≡ None }
        ensures answer { IsFiledAnswer self.old result self.new }
        ensures exact { IsExact self.old result }
    {
        self.answers_are_exact();
        let settled = self.validation.settled;
        match settled {
            Settled::Carried(real) => self.answer_next(real),
            Settled::Trapped(_) => self.answer_trapped(),
        }
    }

    // Returns whether the next block's flag is to be raised, where its real row is known.
    fn is_next_mispredicted(&self, real: Row) -> bool
        requires { self.now.settled ≡ Gave real }
        ensures { IsTrue result ↔ IsToRaise self.now (next_block self.now) }
    {
        let next_block = self.validation.count;
        if next_block == self.homes.len() {
            return false;
        }
        if self.again {
            return false;
        }
        if !is_out(&self.homes, next_block) {
            return false;
        }
        !self.validation.blocks[next_block].row.is_same(&real)
    }

    // Raises the next block's flag where that is to be done.
    fn raise_next(&mut self, cells: &Cells, real: Row)
        requires own { cells.now ≡ chain_cells self.old }
        requires carried { self.old.settled ≡ Gave real }
        ensures { Raises self.old self.new }
    {
        // Law: the plain run stands where the validated prefix leaves it.
        spf_speculation::laws::prefixes_grow();
        if !self.is_next_mispredicted(real) {
            return;
        }
        self.warden.raise(cells, self.validation.count as u64, 1);
    }

    // Raises the flags of all blocks that are out, after a trap.
    fn raise_rest(&mut self, cells: &Cells)
        requires own { cells.now ≡ chain_cells self.old }
        requires trapped { HasTrapped self.old }
        ensures { Raises self.old self.new }
    {
        raise_out(&mut self.warden, cells, &self.homes, self.validation.count);
    }

    // Raises the flags that are to be raised.
    fn raise(&mut self, cells: &Cells)
        requires own { cells.now ≡ chain_cells self.old }
        ensures { Raises self.old self.new }
    {
        let settled = self.validation.settled;
        match settled {
            Settled::Carried(real) => self.raise_next(cells, real),
            Settled::Trapped(_) => self.raise_rest(cells),
        }
    }

    /// Files a report: its ticket comes home, the next blocks that are home and were run at their
    /// real rows are validated, and the flags of attempts that can't be of use are raised. Says
    /// what is to be done next. One more report is filed then. Takes no memory.
    pub fn file(&mut self, cells: &Cells, report: Report) -> Filed
        requires own { cells.now ≡ chain_cells self.old }
        requires lawful { IsLawfulReport (entry_at self.old.site) (guess_at self.old.site) cells.now
            report }
        ensures filed { IsFiled self.old report result self.new }
        ensures free { IsOut self.old report.ticket.block }
        ensures same { IsSameChain self.old self.new }
        ensures reports { self.new.reports ≡ one_more self.old.reports }
    {
        self.come_home(cells, report);
        self.validate();
        self.raise(cells);
        self.answer()
    }
}
