//! Steps of a run: from one construct past the next. A run goes up to each construct by itself, and
//! past it where it has no blocks; whoever runs the blocks settles it with what they came to.
ghost use Rattle.std.specs.Prelude.{◌≡◌, ◌<◌, ◌≤◌, ◌+◌, length, Some, slice_get, IfOk};
ghost use Rattle.spf_ast.specs.View.{program as seen_program};
ghost use Rattle.spf_ast.specs.ConstructView.{construct as seen_construct};
ghost use Rattle.spf_ast.specs.Construct.{constructs_in};
ghost use Rattle.spf_ast.specs.Pieces.{construct_first};
ghost use Rattle.spf_exec.specs.Pieces.{IsStateOf, ahead};
ghost use Rattle.spf_exec_instance.specs.Instance.{program_of};
ghost use Rattle.spf_engine.specs.Runs.{IsSettledBy, Arrives, CanBeRun, ComesNearer};

use spf_ast::construct::TopConstruct;
use spf_ast::outcome::Trap;
use spf_chain::block::Settled;
use spf_check::checked::Checked;
use spf_exec::pieces::{Header, Pause, Run};
use spf_exec_instance::instance::Instance;
use std::alloc::AllocError;

/// Where a step ends.
#[derive(Clone, Copy, PartialEq, Eq, Debug)]
pub enum Step {
    /// After a construct.
    Next,
    /// At the end of `main`.
    Finished,
    /// At a trap.
    Trapped(Trap),
}

/// Where a run stands after it went up to its next construct.
#[derive(Clone, Copy)]
pub enum Arrival<'a> {
    /// Before a construct with blocks, whose header is done.
    AtBlocks {
        /// Its number: how many top constructs stand before it.
        number: u32,
        construct: TopConstruct<'a>,
        header: Header,
    },
    /// The end of a step in which no blocks are run.
    Over(Step),
}

/// Settles the construct that stands next with what its blocks came to.
pub fn settle(run: &mut Run, instance: &Instance, construct: TopConstruct, settled: Settled) -> Step
    requires run { IsStateOf (program_of instance.now) (length instance.now.input) run.old }
    requires construct { construct_first (ahead (program_of instance.now) run.old)
        ≡ Some (seen_construct construct) }
    ensures settled { IsSettledBy (program_of instance.now) (seen_construct construct.entry) run.old
        run.new settled result }
    ensures run { IsStateOf (program_of instance.now) (length instance.now.input) run.new }
{
    match settled {
        Settled::Carried(value) => {
            run.settle(instance, construct, value);
            Step::Next
        }
        Settled::Trapped(trap) => Step::Trapped(trap),
    }
}

/// Performs the header of the construct that stands next. The run stays before the construct where
/// it has blocks, and goes past it where it has none.
fn enter<'a>(
    checked: &Checked,
    instance: &Instance,
    construct: TopConstruct<'a>,
    number: u32,
    run: &mut Run,
) -> Arrival<'a>
    requires program { program_of instance.now ≡ seen_program checked.now }
    requires run { IsStateOf (program_of instance.now) (length instance.now.input) run.old }
    requires next { construct_first (ahead (program_of instance.now) run.old)
        ≡ Some (seen_construct construct) }
    requires construct { slice_get (constructs_in (program_of instance.now).main) number
        ≡ Some (seen_construct construct) }
    ensures arrived { Arrives instance.now run.old result run.new }
    ensures ready { CanBeRun (program_of instance.now) result run.new }
    ensures nearer { ComesNearer (program_of instance.now) run.old result run.new }
    ensures run { IsStateOf (program_of instance.now) (length instance.now.input) run.new }
{
    // Law: a run in pieces goes on as the plain run does.
    spf_engine_laws::runs_in_pieces_go_on();
    // Law: functions emit nothing, and there are fewer than 2^32 top constructs.
    spf_ast::laws::lawful_programs_are_quiet_and_small();
    let _program = checked.program();
    let header = match run.header(instance, construct) {
        Ok(header) => header,
        Err(trap) => return Arrival::Over(Step::Trapped(trap)),
    };
    if header.blocks == 0 {
        let settled = Settled::Carried(header.start);
        return Arrival::Over(settle(run, instance, construct, settled));
    }
    Arrival::AtBlocks {
        number,
        construct,
        header,
    }
}

/// Runs `main` up to the next construct and does its header; past it where it has no blocks, or to
/// the end of `main`.
///
/// # Errors
///
/// `AllocError` where there is no memory for the output.
pub fn arrive<'a>(
    checked: &Checked,
    instance: &Instance<'a>,
    run: &mut Run,
) -> Result<Arrival<'a>, AllocError>
    requires program { program_of instance.now ≡ seen_program checked.now }
    requires run { IsStateOf (program_of instance.now) (length instance.now.input) run.old }
    ensures arrived { IfOk result (λ a. Arrives instance.now run.old a run.new) }
    ensures ready { IfOk result (λ a. CanBeRun (program_of instance.now) a run.new) }
    ensures nearer { IfOk result
        (λ a. ComesNearer (program_of instance.now) run.old a run.new) }
    ensures run { IsStateOf (program_of instance.now) (length instance.now.input) run.new }
{
    // Law: a run in pieces goes on as the plain run does.
    spf_engine_laws::runs_in_pieces_go_on();
    // Law: functions emit nothing, and there are fewer than 2^32 top constructs.
    spf_ast::laws::lawful_programs_are_quiet_and_small();
    let _program = checked.program();
    match run.advance(instance)? {
        Pause::Finished => Ok(Arrival::Over(Step::Finished)),
        Pause::Trapped(trap) => Ok(Arrival::Over(Step::Trapped(trap))),
        Pause::AtConstruct { number, construct } => {
            Ok(enter(checked, instance, construct, number, run))
        }
    }
}
