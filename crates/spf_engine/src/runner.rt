//! Runs whose blocks are run by workers.
ghost use Rattle.std.specs.Prelude.{◌≡◌, ◌<◌, length, None, IfOk, IfErr};
ghost use Rattle.spf_ast.specs.View.{program as seen_program};
ghost use Rattle.spf_ast.specs.Construct.{constructs_in};
ghost use Rattle.spf_exec.specs.Pieces.{IsStateOf};
ghost use Rattle.spf_exec_instance.specs.Instance.{program_of};
ghost use Rattle.spf_guess.specs.Missing.{missing_host};
ghost use Rattle.spf_engine.specs.Runs.{CountsAreBounded, ComesFurther};
ghost use Rattle.spf_engine.specs.Handed.{TakesStep, StopsWithoutMemory};

use crate::account::Account;
use crate::step::{Arrival, Step, arrive};
use spf_check::checked::Checked;
use spf_crew_threads::workers::Workers;
use spf_exec::pieces::Run;
use spf_exec_instance::instance::Instance;
use spf_guess::Predictor;
use spf_ticket_gate::Gate;
use std::alloc::AllocError;
use std::sync::Wait;
use std::thread::Threads;

/// What all steps of a run share: the workers, and the instance of an accepted program.
#[derive(Drop)]
pub(crate) struct Runner<'a, R: Threads + Wait + Sync, G: Gate + Sync> {
    pub workers: Workers<'a, R, G>,
    pub checked: &'a Checked,
    pub instance: &'a Instance<'a>,
}

impl<'a, R: Threads + Wait + Sync, G: Gate + Sync> Runner<'a, R, G> {
    /// Runs `main` up to the next construct and past it, or to its end.
    pub(crate) fn take_step(
        &self,
        run: &mut Run,
        account: &mut Account,
        hosts: &mut Vec<Box<dyn Predictor>>,
    ) -> Result<Step, AllocError>
        requires program { program_of self.now.instance.now ≡ seen_program self.now.checked.now }
        requires hosts { missing_host (length hosts.old.items)
            (constructs_in (program_of self.now.instance.now).main) ≡ None }
        requires run { IsStateOf (program_of self.now.instance.now)
            (length self.now.instance.now.input) run.old }
        requires few { CountsAreBounded (program_of self.now.instance.now)
            run.old account.old.stats }
        ensures steps { IfOk result (λ s. TakesStep answer self.now.instance.now
            run.old account.old hosts.old s run.new account.new hosts.new) }
        ensures told_first { IfErr result (λ why. StopsWithoutMemory answer
            self.now.instance.now run.old hosts.old hosts.new) }
        ensures count { length hosts.new.items ≡ length hosts.old.items }
        ensures run { IsStateOf (program_of self.now.instance.now)
            (length self.now.instance.now.input) run.new }
        ensures further { IfOk result (λ s.
            ComesFurther (program_of self.now.instance.now) s run.old run.new account.new.stats) }
    {
        let arrival = match arrive(self.checked, self.instance, run) {
            Ok(arrival) => arrival,
            Err(error) => return Err(error),
        };
        match arrival {
            Arrival::AtBlocks {
                number,
                construct,
                header,
            } => self.pass(construct, number, &header, run, account, hosts),
            Arrival::Over(step) => Ok(step),
        }
    }
}
