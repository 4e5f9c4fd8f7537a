//! Records of attempts that grow until they have the next piece.
ghost use Rattle.std.specs.Prelude.{◌≡◌, ◌≤◌, ◌<◌, IsTrue, true, false};
ghost use Rattle.std.specs.Prelude.{IfOk, OnOk};
ghost use Rattle.spf_replay.specs.Entered.{entry_of, IsEntered};
ghost use Rattle.spf_replay.specs.Limits.{max_steps};
ghost use Rattle.spf_replay.specs.Runners.{with_record_of, IsRunner, IsScratch, HasPiece};
ghost use Rattle.spf_replay.specs.Going.{PieceIsOver, events_left};

use crate::entered::EnteredConstruct;
use crate::runner::{Runner, has_piece, record_block, room_of};
use spf_exec::frame::Frame;
use std::alloc::{AllocError, Global};
use std::mem;

/// The room of a block's first record.
const FIRST_ROOM: usize = 1024;

/// What attempts are made over.
#[derive(Drop)]
pub struct Scratch {
    /// The words of the cells of the blocks, each at its cell. What lies elsewhere makes no
    /// difference.
    pub cells: Vec<i64>,
    /// A frame, whatever its registers hold.
    pub work: Frame,
}

/// Records a block's attempt from its start, in a new room.
fn record_anew(
    alloc: Global,
    entered: &EnteredConstruct,
    n: u64,
    runner: &mut Runner,
    size: usize,
    scratch: &mut Scratch,
) -> Result<(), AllocError>
    requires is { IsEntered entered.now }
    requires block { n < entered.now.header.blocks }
    requires runner { IsRunner (entry_of entered.now) n runner.old }
    requires size { runner.old.count ≤ size }
    requires scratch { IsScratch entered.now scratch.old }
    ensures runner { OnOk result (IsRunner (entry_of entered.now) n runner.new) }
    ensures same { OnOk result (runner.new ≡ with_record_of runner.new runner.old) }
    ensures full { OnOk result (runner.new.full ≡ true → runner.new.count ≡ size) }
    ensures scratch { IsScratch entered.now scratch.new }
{
    let room = room_of(alloc, size)?;
    let cells = mem::replace(&mut scratch.cells, Vec::new(alloc));
    let record = record_block(entered, n, runner.row, cells, room, &mut scratch.work);
    scratch.cells = record.cells;
    runner.room = record.room;
    runner.count = record.count;
    runner.full = record.full;
    Ok(())
}

/// The room of a block's next record: twice as much, up to the largest.
fn next_size(size: usize, largest: usize) -> usize
    requires { size < largest }
    ensures more { size < result }
    ensures most { result ≤ largest }
{
    size.saturating_mul(2).max(FIRST_ROOM).min(largest)
}

/// Records a block's attempt again, each time with more room, until the record has the next piece
/// whole. Tells whether it has: it has not where the piece has more events than `most`.
pub(crate) fn extend_record(
    alloc: Global,
    entered: &EnteredConstruct,
    n: u64,
    runner: &mut Runner,
    most: usize,
    scratch: &mut Scratch,
) -> Result<bool, AllocError>
    requires is { IsEntered entered.now }
    requires block { n < entered.now.header.blocks }
    requires runner { IsRunner (entry_of entered.now) n runner.old }
    requires most { most ≤ max_steps }
    requires scratch { IsScratch entered.now scratch.old }
    ensures runner { OnOk result (IsRunner (entry_of entered.now) n runner.new) }
    ensures same { OnOk result (runner.new ≡ with_record_of runner.new runner.old) }
    ensures whole { IfOk result (λ whole. IsTrue whole → HasPiece runner.new) }
    ensures long { IfOk result (λ whole. whole ≡ false
        → PieceIsOver most (events_left (entry_of entered.now) n runner.old)) }
    ensures scratch { IsScratch entered.now scratch.new }
{
    let largest = runner.taken + most + 1;
    let mut size = runner.count;
    while !has_piece(runner) {
        if size >= largest {
            return Ok(false);
        }
        size = next_size(size, largest);
        record_anew(alloc, entered, n, runner, size, scratch)?;
    }
    Ok(true)
}
