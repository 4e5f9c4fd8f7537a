//! Blocks of a schedule: an attempt's events are recorded, and taken piece by piece.
ghost use Rattle.std.specs.Prelude.{◌≡◌, ◌≤◌, ◌<◌, IsTrue, [], true, false};
ghost use Rattle.std.specs.Prelude.{length, drop, None, IfOk, OnOk};
ghost use Rattle.spf_speculation_entry.specs.Entry.{Entry};
ghost use Rattle.spf_replay.specs.Entered.{entry_of, IsEntered};
ghost use Rattle.spf_replay.specs.Runners.{status_of, seen_by, IsRunner, HasPiece};
ghost use Rattle.spf_replay.specs.Runners.{AreOwnWords};
ghost use Rattle.spf_replay.specs.Schedule.{attempt_events, piece, after_piece};
ghost use Rattle.spf_replay.specs.Records.{Records};
ghost use Rattle.spf_replay.specs.Going.{Appends, next_piece, status_next};

use crate::copying::copy_spans;
use crate::entered::{EnteredConstruct, context_of, number_at};
use crate::piece::{piece_end, push_piece};
use crate::recording::{Record, record_attempt};
use spf_ast::row::Row;
use spf_exec::block_run::BlockRun;
use spf_exec::frame::Frame;
use spf_replay_log::log::{Event, Step};
use std::alloc::{AllocError, Global};

/// A block of a schedule.
#[derive(Drop)]
pub(crate) struct Runner {
    /// The number of its attempt: 1 or 2.
    pub(crate) attempt: u64,
    /// The row at which the attempt began.
    pub(crate) row: Row,
    /// Whether the attempt still runs.
    pub(crate) running: bool,
    /// Whether the attempt came to its end, where it doesn't run.
    pub(crate) ended: bool,
    /// What its turns poll.
    pub(crate) flag: u64,
    /// The attempt's first events.
    pub(crate) room: Vec<Event>,
    /// How many events are recorded.
    pub(crate) count: usize,
    /// Whether there may be events that had no room.
    pub(crate) full: bool,
    /// How many of the events became steps.
    pub(crate) taken: usize,
}

/// Records a block's attempt at a row in a room. The cells of each block have the words of the
/// entry, and have them again after it.
pub(crate) fn record_block(
    entered: &EnteredConstruct,
    n: u64,
    row: Row,
    cells: Vec<i64>,
    room: Vec<Event>,
    work: &mut Frame,
) -> Record
    requires is { IsEntered entered.now }
    requires block { n < entered.now.header.blocks }
    requires cells { length cells.items ≡ length entered.now.cells.now }
    requires words { AreOwnWords entered.now cells.items }
    requires work { length work.old ≡ length entered.now.frame.now }
    ensures record { Records (attempt_events (entry_of entered.now) n row []) (length room.items)
        result }
    ensures room { length result.room.items ≡ length room.items }
    ensures inside { result.count ≤ length result.room.items }
    ensures cells { length result.cells.items ≡ length cells.items }
    ensures words { AreOwnWords entered.now result.cells.items }
    ensures work { length work.new ≡ length work.old }
{
    let context = context_of(entered, n);
    let block = BlockRun {
        construct: entered.construct,
        index: entered.index,
        part: entered.construct.part_of(n),
        number: number_at(entered.header.low, n),
        value: row,
    };
    let mut record = record_attempt(context, &block, cells, room, work);
    copy_spans(&mut record.cells, entered.cells, context.spans);
    record
}

/// A room for `size` events.
pub(crate) fn room_of(alloc: Global, size: usize) -> Result<Vec<Event>, AllocError>
    ensures { IfOk result (λ room. length room.items ≡ size) }
{
    let mut room = Vec::with_capacity(alloc, size)?;
    room.resize(size, Event::Turn { number: 0 })?;
    Ok(room)
}

/// Returns whether a block's record has the next piece whole.
pub(crate) fn has_piece(runner: &Runner) -> bool
    requires inside { runner.now.count ≤ length runner.now.room.items }
    requires taken { runner.now.taken ≤ runner.now.count }
    ensures whole { IsTrue result → HasPiece runner.now }
    ensures cut { result ≡ false
        → (runner.now.full ≡ true)
        × (after_piece (drop runner.now.taken (seen_by runner.now)) ≡ None) }
{
    if !runner.full {
        return true;
    }
    match piece_end(&runner.room[..runner.count], runner.taken) {
        Some(_) => true,
        None => false,
    }
}

/// Takes the next piece of a block that runs: its events become steps, and the turn that ends it
/// polls the block's flag. The block's attempt ends, or is stopped there, or runs on.
pub(crate) fn take_piece(
    steps: &mut Vec<Step>,
    n: u64,
    runner: &mut Runner,
) -> Result<(), AllocError>
    requires running { runner.old.running ≡ true }
    requires inside { runner.old.count ≤ length runner.old.room.items }
    requires taken { runner.old.taken ≤ runner.old.count }
    requires piece { HasPiece runner.old }
    ensures steps { (e : Entry) → IsRunner e n runner.old
        → OnOk result (Appends steps.old n (next_piece e n runner.old) steps.new) }
    ensures status { (e : Entry) → IsRunner e n runner.old
        → OnOk result (status_of e n runner.new ≡ status_next e n runner.old) }
    ensures runner { (e : Entry) → IsRunner e n runner.old → OnOk result (IsRunner e n runner.new) }
    ensures attempt { runner.new.attempt ≡ runner.old.attempt }
    ensures row { runner.new.row ≡ runner.old.row }
    ensures flag { runner.new.flag ≡ runner.old.flag }
{
    let record = &runner.room[..runner.count];
    let end = piece_end(record, runner.taken);
    push_piece(steps, n, &record[runner.taken..], runner.flag)?;
    match end {
        Some(end) => {
            if runner.flag < runner.attempt {
                runner.taken = end;
                return Ok(());
            }
            runner.running = false;
            runner.ended = false;
            return Ok(());
        }
        None => {
            runner.running = false;
            runner.ended = true;
            return Ok(());
        }
    }
}
