//! Attempts that are recorded.
ghost use Rattle.std.specs.Prelude.{◌≡◌, ◌≤◌, ℕ, true, false, length};
ghost use Rattle.spf_ast.specs.Event.{word_at};
ghost use Rattle.spf_region.specs.Cells.{in_spans};
ghost use Rattle.spf_replay.specs.Contexts.{CanRun};
ghost use Rattle.spf_replay.specs.Records.{RecordsAttempt, KeepsOthers};

use crate::context::BlockContext;
use crate::record::RecordMemory;
use spf_exec::block_run::{BlockRun, exec_block};
use spf_exec::frame::Frame;
use spf_replay_log::log::Event;

/// The first events of an attempt that nothing stops, at the front of a room; all of them where it
/// isn't full.
#[derive(Drop)]
pub(crate) struct Record {
    /// The cells as the attempt left them.
    pub(crate) cells: Vec<i64>,
    pub(crate) room: Vec<Event>,
    /// How many events are recorded.
    pub(crate) count: usize,
    /// Whether an event had no room.
    pub(crate) full: bool,
}

/// Runs an attempt of a block, and records its events in a room. The cells have the words of the
/// entry in the spans of the block; there the attempt changes them. What the working frame holds
/// makes no difference.
pub(crate) fn record_attempt(
    context: BlockContext,
    block: &BlockRun,
    cells: Vec<i64>,
    room: Vec<Event>,
    work: &mut Frame,
) -> Record
    requires can { CanRun context block.now }
    requires cells { length cells.items ≡ length context.entry.now }
    requires words { (cell : ℕ) → in_spans context.spans.now cell ≡ true
        → word_at cells.items cell ≡ word_at context.entry.now cell }
    requires work { length work.old ≡ length context.frame.now }
    ensures record { RecordsAttempt context.entry block.now (length room.items) result }
    ensures outside { KeepsOthers context.entry block.now cells.items result.cells.items }
    ensures room { length result.room.items ≡ length room.items }
    ensures inside { result.count ≤ length result.room.items }
    ensures cells { length result.cells.items ≡ length cells.items }
    ensures work { length work.new ≡ length work.old }
{
    work.restore(context.frame);
    let mut memory = RecordMemory {
        spans: context.spans,
        cells,
        entry: context.entry,
        room,
        count: 0,
        full: false,
    };
    exec_block(context.instance, block, work, &mut memory);
    Record {
        cells: memory.cells,
        room: memory.room,
        count: memory.count,
        full: memory.full,
    }
}
