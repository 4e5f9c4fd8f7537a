//! Attempts on two threads, each with a lane of its own, at a gate.
ghost use Rattle.std.specs.Prelude.{◌≡◌, pos};
ghost use Rattle.spf_cells.specs.Spans.{Covers};
ghost use Rattle.spf_cells.specs.Values.{spans_of, logged};
ghost use Rattle.spf_cells.specs.declared.view.LogEntry.TheVariants.{Store};

use crate::cells::{finish_both, two_lanes};
use spf_cells::cells::Cells;
use spf_cells::lane::Lane;
use spf_ticket_gate::{Barrier, Gate, Open, Place};
use std::alloc::Global;
use std::test::Fail;
use std::thread::{Threads, join_mut};

/// Enough iterations for the other thread to begin meanwhile: some seconds.
const LONG: u64 = 500_000_000;

/// The first attempt of a block, which stores 9 to a cell.
fn attempt<G: Gate + Sync>(gate: &G, cells: &Cells, lane: &mut Lane, block: u64, cell: u64)
    requires table { lane.old.table ≡ cells.now.table }
    requires inside { Covers (spans_of lane.old) cell }
    ensures { lane.new ≡ logged lane.old (Store cell (pos 9)) }
{
    gate.at(block, 1, Place::Begin);
    lane.store(cells, cell, 9);
    gate.at(block, 1, Place::End);
}

/// Both attempts, each in a thread of its own.
fn attempt_both<R: Threads + Sync, G: Gate + Sync>(
    rt: &R,
    gate: &G,
    cells: &Cells,
    one: &mut Lane,
    two: &mut Lane,
)
    requires one { (one.old.table ≡ cells.now.table) × Covers (spans_of one.old) 0 }
    requires two { (two.old.table ≡ cells.now.table) × Covers (spans_of two.old) 3 }
    ensures one { one.new ≡ logged one.old (Store 0 (pos 9)) }
    ensures two { two.new ≡ logged two.old (Store 3 (pos 9)) }
{
    join_mut(
        rt,
        &mut ||
            requires { (one.now.table ≡ cells.now.table) × Covers (spans_of one.now) 0 }
            ensures { one.exit.now ≡ logged one.entry.now (Store 0 (pos 9)) }
        { attempt(gate, cells, one, 0, 0) },
        &mut ||
            requires { (two.now.table ≡ cells.now.table) × Covers (spans_of two.now) 3 }
            ensures { two.exit.now ≡ logged two.entry.now (Store 3 (pos 9)) }
        { attempt(gate, cells, two, 1, 3) },
    );
}

/// Both attempts on fresh cells, and the memory after them.
fn run_gated<R: Threads + Sync, G: Gate + Sync>(
    rt: &R,
    alloc: Global,
    gate: &G,
) -> Result<[i64; 4], Fail> {
    let (cells, warden, mut one, mut two) = two_lanes(alloc)?;
    attempt_both(rt, gate, &cells, &mut one, &mut two);
    let mut into = [1, 2, 3, 4];
    let _trace = finish_both(alloc, cells, warden, one, two, &mut into)?;
    Ok(into)
}

#[test]
fn a_barrier_is_met_by_two_threads(rt: HostRuntime) -> Result<(), Fail> {
    let barrier = Barrier::make(2, LONG);
    assert!(rt; run_gated(&rt, rt.alloc(), &barrier)? == [9, 2, 3, 9]);
    assert!(rt; barrier.have_met());
    Ok(())
}

#[test]
fn a_barrier_that_is_not_met_lets_go(rt: HostRuntime) -> Result<(), Fail> {
    let barrier = Barrier::make(3, 1000);
    assert!(rt; run_gated(&rt, rt.alloc(), &barrier)? == [9, 2, 3, 9]);
    assert!(rt; !barrier.have_met());
    Ok(())
}

#[test]
fn an_open_gate_changes_no_answer(rt: HostRuntime) -> Result<(), Fail> {
    assert!(rt; run_gated(&rt, rt.alloc(), &Open)? == [9, 2, 3, 9]);
    Ok(())
}
