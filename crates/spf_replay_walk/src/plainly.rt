//! The blocks of a construct, run plainly in place.
ghost use Rattle.std.specs.Prelude.{◌≡◌, IfOk, OnOk};
ghost use Rattle.spf_ast.specs.View.{program as seen_program};
ghost use Rattle.spf_chain.specs.Finishing.{result_as};
ghost use Rattle.spf_speculation_entry.specs.Entry.{IsEntry};
ghost use Rattle.spf_replay.specs.Copying.{HasOwnSpans};
ghost use Rattle.spf_replay_walk.specs.Positions.{entry_at, spans_of, IsAtConstruct, IsSpare};
ghost use Rattle.spf_replay_walk.specs.Examining.{plain_at, AgreeIn};

use crate::position::{Position, Spare};
use spf_ast::outcome::Trap;
use spf_ast::row::Row;
use spf_chain::block::Settled;
use spf_check::checked::Checked;
use spf_exec::pieces::Header;
use spf_exec_memory::plain::Plain;
use spf_region::span::Plan;
use spf_replay::copying::copy_plan;
use spf_replay::plain::run_blocks;
use std::alloc::{AllocError, Global};

/// What blocks came to that were run plainly.
#[derive(Drop)]
pub(crate) struct PlainBlocks {
    /// The row at which each block began that was run.
    pub(crate) reals: Vec<Row>,
    /// The row after the last block, or the trap.
    pub(crate) settled: Settled,
    /// The words of all cells, which are those of the entry again.
    pub(crate) cells: Vec<i64>,
}

/// What blocks came to.
fn settled_as(came: Result<Row, Trap>) -> Settled
    ensures { result_as result ≡ came }
{
    match came {
        Ok(row) => Settled::Carried(row),
        Err(trap) => Settled::Trapped(trap),
    }
}

/// Runs the blocks of the construct at which a run stands, one after another, in the run's cells.
/// What they left in their cells is kept, and these cells get their words of the entry again.
///
/// # Errors
///
/// Fails where memory runs out.
pub(crate) fn run_plainly(
    alloc: Global,
    checked: &Checked,
    position: Position,
    header: &Header,
    cells: Vec<i64>,
    plan: &Plan,
    spare: &mut Spare,
) -> Result<PlainBlocks, AllocError>
    requires there { IsAtConstruct (seen_program checked.now) position header.now cells.items }
    requires entry { IsEntry (entry_at position header.now cells.items) }
    requires plan { HasOwnSpans (entry_at position header.now cells.items) (spans_of plan.now) }
    requires spare { IsSpare position.instance.now spare.old }
    ensures reals { IfOk result (λ b. b.reals.items
        ≡ (plain_at position.entry header.now cells.items).values) }
    ensures result { IfOk result (λ b. result_as b.settled
        ≡ (plain_at position.entry header.now cells.items).result) }
    ensures cells { IfOk result (λ b. b.cells.items ≡ cells.items) }
    ensures before { OnOk result (AgreeIn plan.now spare.new.scratch.cells.items cells.items) }
    ensures after { OnOk result (AgreeIn plan.now spare.new.after.items
        (plain_at position.entry header.now cells.items).memory) }
    ensures spare { IsSpare position.entry.instance.now spare.new }
{
    // Law: functions emit nothing, and there are fewer than 2^32 top constructs.
    spf_ast::laws::lawful_programs_are_quiet_and_small();
    // Law: a form has exactly one plain run on a memory.
    spf_ast::laws::each_form_has_one_plain_run();
    // Law: a block overwrites its cells, whatever they held.
    spf_check_rules::laws::blocks_overwrite();
    let _program = checked.program();
    copy_plan(&mut spare.scratch.cells, &cells, plan);
    let mut memory = Plain {
        cells,
        output: Vec::new(alloc),
    };
    let (reals, result) = run_blocks(
        alloc,
        position.instance,
        position.construct,
        position.index,
        header,
        position.frame,
        &mut memory,
    )?;
    copy_plan(&mut spare.after, &memory.cells, plan);
    copy_plan(&mut memory.cells, &spare.scratch.cells, plan);
    Ok(PlainBlocks {
        reals,
        settled: settled_as(result),
        cells: memory.cells,
    })
}
