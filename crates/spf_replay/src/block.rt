//! Logs of single blocks.
ghost use Rattle.std.specs.Prelude.{◌≡◌, ◌↔◌, IsTrue, length};
ghost use Rattle.spf_replay.specs.Deciding.{IsWholeEnd, IsReadEnd};
ghost use Rattle.spf_replay.specs.Contexts.{CanRun};
ghost use Rattle.spf_replay.specs.Sections.{TellsLog};

use crate::attempt::read_attempt;
use crate::context::BlockContext;
use spf_ast::row::Row;
use spf_exec::block_run::BlockRun;
use spf_exec::frame::Frame;
use spf_exec::stop::Stop;
use spf_replay_log::log::Event;

/// Returns whether an attempt ended with a row or a trap at the end of its log.
fn is_whole(end: &Option<(Stop, usize)>, size: usize) -> bool
    ensures { IsTrue result ↔ IsWholeEnd end.now size }
{
    match end {
        Some((Stop::Ended(_), at)) => *at == size,
        Some((Stop::Trapped(_), at)) => *at == size,
        Some((Stop::Cancelled { .. }, _)) => false,
        None => false,
    }
}

/// Returns whether an attempt was read to the end of its log.
fn is_read(end: &Option<(Stop, usize)>, size: usize) -> bool
    ensures { IsTrue result ↔ IsReadEnd end.now size }
{
    match end {
        Some((_, at)) => *at == size,
        None => false,
    }
}

/// Returns whether a log is that of a block without a real row: one attempt from its guess, whole
/// or chopped.
pub(crate) fn is_guessed_log(
    context: BlockContext,
    block: &BlockRun,
    log: &[Event],
    work: &mut Frame,
) -> bool
    requires can { CanRun context block.now }
    requires work { length work.old ≡ length context.frame.now }
    ensures guessed { TellsLog context.entry block.now None log.now result }
    ensures work { length work.new ≡ length work.old }
{
    let end = read_attempt(context, block, 1, log, 0, work);
    is_read(&end, log.len())
}

/// Returns whether a log is that of a block at its real row: right away where the first attempt, at
/// the block's row, began there; otherwise a first attempt, whole or chopped, and then a whole one.
pub(crate) fn is_real_log(
    context: BlockContext,
    block: &BlockRun,
    real: &Row,
    log: &[Event],
    work: &mut Frame,
) -> bool
    requires can { CanRun context block.now }
    requires work { length work.old ≡ length context.frame.now }
    ensures real { TellsLog context.entry block.now (Some real.now) log.now result }
    ensures work { length work.new ≡ length work.old }
{
    let end = read_attempt(context, block, 1, log, 0, work);
    if block.value.is_same(real) {
        return is_whole(&end, log.len());
    }
    match end {
        Some((_, at)) => {
            let second = BlockRun {
                construct: block.construct,
                index: block.index,
                part: block.part,
                number: block.number,
                value: *real,
            };
            let end = read_attempt(context, &second, 2, log, at, work);
            is_whole(&end, log.len())
        }
        None => false,
    }
}
