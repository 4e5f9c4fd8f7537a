//! Steps of a walk: a run whose blocks are run plainly, and a visitor that takes each construct.
ghost use Rattle.std.specs.Prelude.{◌≡◌, ◌<◌};
ghost use Rattle.std.specs.Prelude.{length, None, IfOk, IfErr, OnOk};
ghost use Rattle.std.specs.List.{All};
ghost use Rattle.spf_ast.specs.Meaning.{max_blocks};
ghost use Rattle.spf_ast.specs.View.{program as seen_program};
ghost use Rattle.spf_ast.specs.ConstructView.{construct as seen_construct};
ghost use Rattle.spf_ast.specs.Construct.{constructs_in};
ghost use Rattle.spf_exec.specs.Pieces.{IsStateOf, seen_header};
ghost use Rattle.spf_exec_instance.specs.Instance.{program_of};
ghost use Rattle.spf_guess.specs.Answers.{supplied, WereToldNoMore};
ghost use Rattle.spf_guess.specs.Missing.{missing_host};
ghost use Rattle.spf_speculation_entry.specs.Entry.{IsEntry};
ghost use Rattle.spf_engine_construct.specs.Guesses.{AreAtMost, IsHandedIn};
ghost use Rattle.spf_engine.specs.Handed.{StopsWithoutMemory, StopsWithoutMemoryAt};
ghost use Rattle.spf_engine.specs.Runs.{CountsAreBounded, ComesFurther, IsReadyAt};
ghost use Rattle.spf_replay.specs.Copying.{HasOwnSpans};
ghost use Rattle.spf_replay_walk.specs.Positions.{entry_at, spans_of, IsAtConstruct, IsSpare};
ghost use Rattle.spf_replay_walk.specs.Examining.{ComePlainlyTo, VisitsAt, CountsAt, TellsAt};
ghost use Rattle.spf_replay_walk.specs.Steps.{TakesStep, TakesStepAt};

use crate::plainly::run_plainly;
use crate::position::{Position, Spare};
use crate::visitor::Visitor;
use spf_ast::construct::TopConstruct;
use spf_chain::block::Settled;
use spf_check::checked::Checked;
use spf_engine::step::{Arrival, Step, arrive, settle};
use spf_engine_construct::counts::count_blocks;
use spf_engine_construct::guesses::{ReachedConstruct, take_guesses_alone};
use spf_engine_construct::telling::tell_history;
use spf_exec::pieces::{Header, Run};
use spf_exec_instance::instance::Instance;
use spf_guess::Predictor;
use spf_guess_statistics::stats::Stats;
use spf_region::span::Plan;
use spf_replay::copying::copy_plan;
use spf_replay::entered::EnteredConstruct;
use std::alloc::{AllocError, Global};

/// What all steps of a walk share: the instance of an accepted program.
#[derive(Clone, Copy)]
pub(crate) struct Walker<'a> {
    pub(crate) alloc: Global,
    pub(crate) checked: &'a Checked,
    pub(crate) instance: &'a Instance<'a>,
}

/// A construct with blocks that stands next in a run, with its header done.
#[derive(Clone, Copy)]
struct Site<'a> {
    /// How many top constructs stand before it.
    number: u32,
    construct: TopConstruct<'a>,
    header: Header,
}

/// What the blocks of a construct came to.
#[derive(Drop)]
struct Examined {
    /// The row after the last block, or the trap.
    settled: Settled,
    /// The word of each cell after them.
    cells: Vec<i64>,
    /// How good the guesses for them were.
    stats: Stats,
}

/// Each byte is below 256. A proof knows the range of an element once the element is read.
fn are_bytes(input: &[u8])
    ensures { All (λ b. b < 256) input.now }
{
    for byte in input {
        let _byte = *byte;
    }
}

impl<'a> Walker<'a> {
    /// The spans of the blocks of the construct at which a run stands with these cells.
    ///
    /// # Errors
    ///
    /// Fails where memory runs out.
    fn plan_of(
        &self,
        position: Position,
        header: &Header,
        cells: &[i64],
    ) -> Result<Plan, AllocError>
        requires there { IsAtConstruct (seen_program self.now.checked.now) position header.now
            cells.now }
        ensures entry { IsEntry (entry_at position.entry header.now cells.now) }
        ensures plan { IfOk result
            (λ plan. HasOwnSpans (entry_at position.entry header.now cells.now) (spans_of plan)) }
    {
        are_bytes(position.instance.input());
        let _program = self.checked.program();
        let _ = cells;
        let layout = position.instance.layout();
        self.checked.plan(
            self.alloc,
            position.index,
            layout,
            header.low,
            header.blocks,
        )
    }

    /// Takes the guesses for the blocks of the construct at which a run stands with these cells,
    /// runs the blocks, hands the construct over, and tells hosts the real rows.
    ///
    /// # Errors
    ///
    /// Fails where memory runs out; nothing was told then.
    fn examine<V: Visitor>(
        &self,
        position: Position,
        header: &Header,
        cells: Vec<i64>,
        spare: &mut Spare,
        visitor: &mut V,
        hosts: &mut Vec<Box<dyn Predictor>>,
    ) -> Result<Examined, AllocError>
        requires there { IsAtConstruct (seen_program self.now.checked.now) position header.now
            cells.items }
        requires spare { IsSpare position.instance.now spare.old }
        requires host { IsHandedIn (length hosts.old.items) (seen_construct position.construct) }
        ensures plain { IfOk result (λ r. ComePlainlyTo
            (entry_at position.entry header.now cells.items) r.settled r.cells.items) }
        ensures size { IfOk result (λ r. length r.cells.items ≡ length cells.items) }
        ensures visited { OnOk result (VisitsAt V.has_visited position.entry header.now cells answer
            hosts.old.items visitor.old visitor.new) }
        ensures statistics { IfOk result (λ r.
            CountsAt position.entry header.now cells answer hosts.old.items r.stats) }
        ensures few { IfOk result (λ r. AreAtMost r.stats max_blocks) }
        ensures told { OnOk result
            (TellsAt position.entry header.now cells answer hosts.old.items hosts.new.items) }
        ensures nothing_told { IfErr result (λ why.
            WereToldNoMore (supplied answer hosts.old.items) (supplied answer hosts.new.items)) }
        ensures count { length hosts.new.items ≡ length hosts.old.items }
        ensures spare { IsSpare position.entry.instance.now spare.new }
    {
        // Law: functions emit nothing, and there are fewer than 2^32 top constructs.
        spf_ast::laws::lawful_programs_are_quiet_and_small();
        // Law: no `break` of a lawful program leaves `main` or a part.
        spf_ast::laws::breaks_stay_in_their_loops();
        // Law: a form has exactly one plain run on a memory.
        spf_ast::laws::each_form_has_one_plain_run();
        // Law: a block overwrites its cells, whatever they held.
        spf_check_rules::laws::blocks_overwrite();
        let _program = self.checked.program();
        let stand = ReachedConstruct {
            instance: position.instance,
            construct: position.construct,
            index: position.index,
            frame: position.frame,
            cells: &cells,
        };
        let guesses = take_guesses_alone(self.alloc, stand, header, hosts)?;
        let plan = self.plan_of(position, header, &cells)?;
        let blocks = run_plainly(
            self.alloc,
            self.checked,
            position,
            header,
            cells,
            &plan,
            spare,
        )?;
        let mut cells = blocks.cells;
        let entered = EnteredConstruct {
            instance: position.instance,
            construct: position.construct,
            index: position.index,
            header: *header,
            frame: position.frame,
            cells: &cells,
            plan: &plan,
            guesses: &guesses,
            reals: &blocks.reals,
        };
        visitor.visit(self.alloc, &entered, &mut spare.scratch)?;
        let stats = count_blocks(&blocks.reals, &guesses);
        tell_history(position.construct, header, &blocks.reals, hosts);
        copy_plan(&mut cells, &spare.after, &plan);
        Ok(Examined {
            settled: blocks.settled,
            cells,
            stats,
        })
    }

    /// Passes the construct that stands next, hands it to a visitor, and adds how good its guesses
    /// were.
    fn pass<V: Visitor>(
        &self,
        site: &Site<'a>,
        run: &mut Run,
        spare: &mut Spare,
        visitor: &mut V,
        stats: &mut Stats,
        hosts: &mut Vec<Box<dyn Predictor>>,
    ) -> Result<Step, AllocError>
        requires program { program_of self.now.instance.now ≡ seen_program self.now.checked.now }
        requires hosts { missing_host (length hosts.old.items)
            (constructs_in (program_of self.now.instance.now).main) ≡ None }
        requires run { IsStateOf (program_of self.now.instance.now)
            (length self.now.instance.now.input) run.old }
        requires ready { IsReadyAt (program_of self.now.instance.now) site.now.number
            (seen_construct site.now.construct) site.now.header run.old }
        requires few { CountsAreBounded (program_of self.now.instance.now) run.old stats.old }
        requires spare { IsSpare self.now.instance.now spare.old }
        ensures steps { IfOk result (λ s. TakesStepAt V.has_visited answer
            self.now.instance.now site.now run.old visitor.old stats.old hosts.old.items
            s run.new visitor.new stats.new hosts.new.items) }
        ensures told_first { IfErr result (λ why. StopsWithoutMemoryAt answer self.now.instance.now
            site.now.construct site.now.header run.old hosts.old hosts.new) }
        ensures count { length hosts.new.items ≡ length hosts.old.items }
        ensures run { OnOk result (IsStateOf (program_of self.now.instance.now)
            (length self.now.instance.now.input) run.new) }
        ensures spare { IsSpare self.now.instance.now spare.new }
        ensures further { IfOk result (λ s.
            ComesFurther (program_of self.now.instance.now) s run.old run.new stats.new) }
    {
        // Law: a run in pieces goes on as the plain run does.
        spf_engine_laws::runs_in_pieces_go_on();
        // Law: functions emit nothing, and there are fewer than 2^32 top constructs.
        spf_ast::laws::lawful_programs_are_quiet_and_small();
        let _program = self.checked.program();
        let construct = site.construct;
        let mut cells = Vec::new(self.alloc);
        run.swap_cells(&mut cells);
        let position = Position {
            instance: self.instance,
            construct,
            index: site.number,
            frame: run.frame(),
        };
        let mut examined = self.examine(position, &site.header, cells, spare, visitor, hosts)?;
        run.swap_cells(&mut examined.cells);
        *stats = stats.plus(examined.stats);
        Ok(settle(run, self.instance, construct, examined.settled))
    }

    /// Runs `main` up to the next construct and past it, or to its end.
    pub(crate) fn take_step<V: Visitor>(
        &self,
        run: &mut Run,
        spare: &mut Spare,
        visitor: &mut V,
        stats: &mut Stats,
        hosts: &mut Vec<Box<dyn Predictor>>,
    ) -> Result<Step, AllocError>
        requires program { program_of self.now.instance.now ≡ seen_program self.now.checked.now }
        requires hosts { missing_host (length hosts.old.items)
            (constructs_in (program_of self.now.instance.now).main) ≡ None }
        requires run { IsStateOf (program_of self.now.instance.now)
            (length self.now.instance.now.input) run.old }
        requires few { CountsAreBounded (program_of self.now.instance.now) run.old stats.old }
        requires spare { IsSpare self.now.instance.now spare.old }
        ensures steps { IfOk result (λ s. TakesStep V.has_visited answer
            self.now.instance.now run.old visitor.old stats.old hosts.old.items
            s run.new visitor.new stats.new hosts.new.items) }
        ensures told_first { IfErr result (λ why. StopsWithoutMemory answer
            self.now.instance.now run.old hosts.old hosts.new) }
        ensures count { length hosts.new.items ≡ length hosts.old.items }
        ensures run { OnOk result (IsStateOf (program_of self.now.instance.now)
            (length self.now.instance.now.input) run.new) }
        ensures spare { IsSpare self.now.instance.now spare.new }
        ensures further { IfOk result (λ s.
            ComesFurther (program_of self.now.instance.now) s run.old run.new stats.new) }
    {
        let arrival = match arrive(self.checked, self.instance, run) {
            Ok(arrival) => arrival,
            Err(error) => return Err(error),
        };
        match arrival {
            Arrival::AtBlocks {
                number,
                construct,
                header,
            } => {
                let site = Site {
                    number,
                    construct,
                    header,
                };
                self.pass(&site, run, spare, visitor, stats, hosts)
            }
            Arrival::Over(step) => Ok(step),
        }
    }
}
