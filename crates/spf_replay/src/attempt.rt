//! Attempts that are read from a log.
ghost use Rattle.std.specs.Prelude.{◌≡◌, ◌≤◌, Some, length};
ghost use Rattle.spf_replay.specs.Attempts.{ComesTo};
ghost use Rattle.spf_replay.specs.Contexts.{CanRun};
ghost use Rattle.spf_replay.specs.Sections.{attempt_read};

use crate::context::BlockContext;
use crate::memory::LogMemory;
use spf_exec::block_run::{BlockRun, exec_block};
use spf_exec::frame::Frame;
use spf_exec::stop::Stop;
use spf_replay_log::log::Event;

/// Reads an attempt of a block from its log, from an index on. Gives how it ended and the index
/// after its last event, or nothing where the log doesn't fit. What the working frame holds makes
/// no difference.
pub(crate) fn read_attempt(
    context: BlockContext,
    block: &BlockRun,
    attempt: u64,
    log: &[Event],
    at: usize,
    work: &mut Frame,
) -> Option<(Stop, usize)>
    requires can { CanRun context block.now }
    requires work { length work.old ≡ length context.frame.now }
    requires at { at ≤ length log.now }
    ensures came { ComesTo (attempt_read context.entry block.now attempt log.now at) log.now
        result }
    ensures work { length work.new ≡ length work.old }
{
    work.restore(context.frame);
    let mut memory = LogMemory {
        spans: context.spans,
        entry: context.entry,
        log,
        at,
        attempt,
        fits: true,
    };
    let stop = exec_block(context.instance, block, work, &mut memory);
    if memory.fits {
        Some((stop, memory.at))
    } else {
        None
    }
}
