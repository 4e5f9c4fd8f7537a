//! The construct that stands next in a run.
ghost use Rattle.std.specs.Prelude.{◌≡◌, ◌<◌, ◌≤◌, ◌+ℤ◌, ◌≤ℤ◌, length, pos};
ghost use Rattle.std.specs.Prelude.{slice_get, Some, None, IfOk, IfErr};
ghost use Rattle.spf_ast.specs.Meaning.{max_blocks};
ghost use Rattle.spf_ast.specs.View.{program as seen_program};
ghost use Rattle.spf_ast.specs.ConstructView.{construct as seen_construct};
ghost use Rattle.spf_ast.specs.Construct.{constructs_in};
ghost use Rattle.spf_check.specs.Plans.{AreBlocksOf};
ghost use Rattle.spf_exec.specs.Pieces.{IsStateOf};
ghost use Rattle.spf_exec_instance.specs.Instance.{program_of};
ghost use Rattle.spf_guess.specs.Answers.{supplied, WereToldNoMore};
ghost use Rattle.spf_guess.specs.Missing.{missing_host};
ghost use Rattle.spf_engine_construct.specs.Guesses.{AreAtMost, IsHandedIn};
ghost use Rattle.spf_engine.specs.Runs.{CountsAreBounded, ComesFurther, IsReadyAt};
ghost use Rattle.spf_engine.specs.Handed.{BlocksGive, RowsTold, TakesStepAt, StopsWithoutMemoryAt};

use crate::account::Account;
use crate::runner::Runner;
use crate::step::{Step, settle};
use spf_ast::construct::TopConstruct;
use spf_engine_construct::construct::{ConstructReport, run_blocks};
use spf_engine_construct::guesses::ReachedConstruct;
use spf_exec::pieces::{Header, Run};
use spf_guess::Predictor;
use spf_ticket_gate::Gate;
use std::alloc::AllocError;
use std::sync::Wait;
use std::thread::Threads;

impl<'a, R: Threads + Wait + Sync, G: Gate + Sync> Runner<'a, R, G> {
    /// Runs the blocks of the construct that stands next, whose header is done.
    fn run_at(
        &self,
        construct: TopConstruct,
        number: u32,
        header: &Header,
        run: &mut Run,
        hosts: &mut Vec<Box<dyn Predictor>>,
    ) -> Result<ConstructReport, AllocError>
        requires program { program_of self.now.instance.now ≡ seen_program self.now.checked.now }
        requires run { IsStateOf (program_of self.now.instance.now)
            (length self.now.instance.now.input) run.old }
        requires construct { slice_get (constructs_in (program_of self.now.instance.now).main)
            number ≡ Some (seen_construct construct) }
        requires blocks { AreBlocksOf (seen_construct construct) header.now.blocks }
        requires some { 1 ≤ header.now.blocks }
        requires few { header.now.blocks ≤ max_blocks }
        requires fits { (header.now.low +ℤ pos header.now.blocks) ≤ℤ i64.MAX }
        requires host { IsHandedIn (length hosts.old.items) (seen_construct construct) }
        ensures came { IfOk result (λ r. BlocksGive answer self.now.instance.now
            construct.entry header.now run.old hosts.old r run.new) }
        ensures told { IfOk result (λ r. RowsTold answer self.now.instance.now
            construct.entry header.now run.old hosts.old hosts.new) }
        ensures nothing_told { IfErr result (λ why.
            WereToldNoMore (supplied answer hosts.old.items) (supplied answer hosts.new.items)) }
        ensures count { length hosts.new.items ≡ length hosts.old.items }
        ensures few { IfOk result (λ r. AreAtMost r.stats max_blocks) }
        ensures run { IsStateOf (program_of self.now.instance.now)
            (length self.now.instance.now.input) run.new }
        ensures others { record run.new { cells = run.old.cells } ≡ run.old }
    {
        let at = ReachedConstruct {
            instance: self.instance,
            construct,
            index: number,
            frame: run.frame(),
            cells: run.cells(),
        };
        let blocks = run_blocks(&self.workers, self.checked, at, header, hosts)?;
        Ok(blocks.write_back(run.cells_mut()))
    }

    /// Steps past the construct that stands next, whose header is done, and adds to the account what
    /// it counted and recorded.
    pub(crate) fn pass(
        &self,
        construct: TopConstruct,
        number: u32,
        header: &Header,
        run: &mut Run,
        account: &mut Account,
        hosts: &mut Vec<Box<dyn Predictor>>,
    ) -> Result<Step, AllocError>
        requires program { program_of self.now.instance.now ≡ seen_program self.now.checked.now }
        requires hosts { missing_host (length hosts.old.items)
            (constructs_in (program_of self.now.instance.now).main) ≡ None }
        requires run { IsStateOf (program_of self.now.instance.now)
            (length self.now.instance.now.input) run.old }
        requires ready { IsReadyAt (program_of self.now.instance.now) number
            (seen_construct construct) header.now run.old }
        requires few { CountsAreBounded (program_of self.now.instance.now)
            run.old account.old.stats }
        ensures steps { IfOk result (λ s. TakesStepAt answer self.now.instance.now
            construct.entry header.now run.old account.old hosts.old
            s run.new account.new hosts.new) }
        ensures told_first { IfErr result (λ why. StopsWithoutMemoryAt answer self.now.instance.now
            construct.entry header.now run.old hosts.old hosts.new) }
        ensures count { length hosts.new.items ≡ length hosts.old.items }
        ensures run { IsStateOf (program_of self.now.instance.now)
            (length self.now.instance.now.input) run.new }
        ensures further { IfOk result (λ s.
            ComesFurther (program_of self.now.instance.now) s run.old run.new account.new.stats) }
    {
        // Law: a run in pieces goes on as the plain run does.
        spf_engine_laws::runs_in_pieces_go_on();
        // Law: functions emit nothing, and there are fewer than 2^32 top constructs.
        spf_ast::laws::lawful_programs_are_quiet_and_small();
        let _program = self.checked.program();
        let report = self.run_at(construct, number, header, run, hosts)?;
        let step = settle(run, self.instance, construct, report.settled);
        account.add(report.stats, report.trace)?;
        Ok(step)
    }
}
