//! Blocks that are run plainly, one after another.
ghost use Rattle.std.specs.Prelude.{◌≡◌, ◌≢◌, ◌≤◌, ◌+ℤ◌, ◌≤ℤ◌, ℕ, pos, Some, length};
ghost use Rattle.std.specs.Prelude.{slice_get, IfOk};
ghost use Rattle.spf_ast.specs.declared.syntax.Part.TheVariants.{Predictor};
ghost use Rattle.spf_ast.specs.Construct.{constructs_in, part_of};
ghost use Rattle.spf_ast.specs.ConstructView.{construct as seen_construct};
ghost use Rattle.spf_ast.specs.Meaning.{max_blocks};
ghost use Rattle.spf_ast.specs.Program.{cell_count_of};
ghost use Rattle.spf_ast.specs.Silence.{FunctionsAreSilent, PartIsSilent};
ghost use Rattle.spf_exec_instance.specs.Frame.{frame_size};
ghost use Rattle.spf_exec_instance.specs.Instance.{program_of};
ghost use Rattle.spf_exec.specs.Instances.{block_asks};
ghost use Rattle.spf_replay.specs.Plainly.{BlockGives, BlocksGive};

use crate::entered::number_at;
use spf_ast::construct::TopConstruct;
use spf_ast::outcome::Trap;
use spf_ast::row::Row;
use spf_exec::block_run::{BlockRun, exec_block};
use spf_exec::frame::Frame;
use spf_exec::pieces::Header;
use spf_exec::stop::Stop;
use spf_exec_instance::instance::Instance;
use spf_exec_memory::plain::Plain;
use std::alloc::{AllocError, Global};

/// Runs a block plainly, from the slots of a frame. What the working frame holds makes no
/// difference.
fn run_block(
    instance: &Instance,
    block: &BlockRun,
    frame: &Frame,
    memory: &mut Plain,
    work: &mut Frame,
) -> Result<Row, Trap>
    requires construct { slice_get (constructs_in (program_of instance.now).main) block.now.index
        ≡ Some (seen_construct block.now.construct) }
    requires cells { length memory.old.cells.items
        ≡ cell_count_of (program_of instance.now) (length instance.now.input) }
    requires frame { length frame.now ≡ frame_size (program_of instance.now) }
    requires work { length work.old ≡ length frame.now }
    requires silent { PartIsSilent (seen_construct block.now.construct) block.now.part }
    requires functions_silent { FunctionsAreSilent (program_of instance.now).functions }
    requires run { block.now.part ≢ Predictor }
    ensures gives { BlockGives (block_asks instance.now block.now frame.now)
        memory.old.cells.items result memory.new.cells.items }
    ensures cells { length memory.new.cells.items ≡ length memory.old.cells.items }
    ensures work { length work.new ≡ length work.old }
{
    work.restore(frame);
    match exec_block(instance, block, work, memory) {
        Stop::Ended(row) => Ok(row),
        Stop::Trapped(trap) => Err(trap),
        Stop::Cancelled { .. } => unreachable!(),
    }
}

/// BlockRun n of a construct, at a row.
fn block_at<'a>(
    construct: TopConstruct<'a>,
    index: u32,
    header: &Header,
    n: u64,
    row: Row,
) -> BlockRun<'a>
    requires few { n ≤ max_blocks }
    requires fits { (header.now.low +ℤ pos n) ≤ℤ i64.MAX }
    ensures same_construct { result.construct ≡ construct.entry }
    ensures index { result.index ≡ index }
    ensures part { result.part ≡ part_of (seen_construct construct.entry) n }
    ensures number { result.number ≡ header.now.low +ℤ pos n }
    ensures row { result.value ≡ row }
{
    BlockRun {
        construct,
        index,
        part: construct.part_of(n),
        number: number_at(header.low, n),
        value: row,
    }
}

/// Runs the blocks of a construct plainly, one after another, on a memory. Gives the row at which
/// each began that was run, and the row after the last one, or the trap that ended it.
///
/// # Errors
///
/// Fails where memory runs out.
pub fn run_blocks(
    alloc: Global,
    instance: &Instance,
    construct: TopConstruct,
    index: u32,
    header: &Header,
    frame: &Frame,
    memory: &mut Plain,
) -> Result<(Vec<Row>, Result<Row, Trap>), AllocError>
    requires construct { slice_get (constructs_in (program_of instance.now).main) index
        ≡ Some (seen_construct construct) }
    requires cells { length memory.old.cells.items
        ≡ cell_count_of (program_of instance.now) (length instance.now.input) }
    requires frame { length frame.now ≡ frame_size (program_of instance.now) }
    requires silent { (n : ℕ)
        → PartIsSilent (seen_construct construct) (part_of (seen_construct construct) n) }
    requires functions_silent { FunctionsAreSilent (program_of instance.now).functions }
    requires few { header.now.blocks ≤ max_blocks }
    requires fits { (header.now.low +ℤ pos header.now.blocks) ≤ℤ i64.MAX }
    ensures plain { IfOk result (λ r.
        BlocksGive instance.now construct.entry header.now frame.now memory.old r memory.new) }
    ensures cells { length memory.new.cells.items ≡ length memory.old.cells.items }
{
    let mut work = frame.copy(alloc)?;
    let mut reals = Vec::with_capacity(alloc, header.blocks as usize)?;
    let mut row = header.start;
    for n in 0..header.blocks {
        reals.push(row)?;
        let block = block_at(construct, index, header, n, row);
        match run_block(instance, &block, frame, memory, &mut work) {
            Ok(next) => row = next,
            Err(trap) => return Ok((reals, Err(trap))),
        }
    }
    Ok((reals, Ok(row)))
}
