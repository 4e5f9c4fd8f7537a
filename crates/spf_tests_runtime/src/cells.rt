//! The worked example on one thread and on two, spans out of order, and four lanes of interleaved
//! spans, each on a thread of its own, while the warden raises.
ghost use Rattle.std.specs.Prelude.{◌≡◌, ◌+◌, ◌<◌, ◌≤◌, [], ◌∷◌, All, IfOk, length, pos};
ghost use Rattle.std.specs.List.{Contains};
ghost use Rattle.spf_cells.specs.Spans.{Covers};
ghost use Rattle.spf_cells.specs.Finish.{AreAllLanes, IsFinish};
ghost use Rattle.spf_cells.specs.Made.{spans_in, new_warden, new_lane};
ghost use Rattle.spf_tests_runtime.specs.Examples.{two_blocks_spans, four_blocks_spans};
ghost use Rattle.spf_tests_runtime.specs.Examples.{mixed_spans, AreSameLanes};
ghost use Rattle.spf_cells.specs.Values.{IsSameLane, spans_of, content_at, logged, IsWardenOf};
ghost use Rattle.spf_cells.specs.Values.{IsLaneOf};
ghost use Rattle.spf_cells.specs.declared.view.LogEntry.TheVariants.{Load, Store, Turn};

use spf_cells::cells::Cells;
use spf_cells::finish::Trace;
use spf_cells::lane::Lane;
use spf_cells::warden::Warden;
use spf_region::span::{Plan, Span};
use std::alloc::{AllocError, Global};
use std::test::Fail;
use std::thread::{Threads, for_each_mut, join_mut};

/// Block 0 with the span 0..2, and block 1 with the span 3..4.
fn two_blocks(alloc: Global) -> Result<Plan, AllocError>
    ensures { IfOk result (λ p. spans_in p ≡ two_blocks_spans) }
{
    let mut front = Vec::new(alloc);
    front.push(Span { from: 0, to: 2 })?;
    let mut back = Vec::new(alloc);
    back.push(Span { from: 3, to: 4 })?;
    let mut blocks = Vec::new(alloc);
    blocks.push(front)?;
    blocks.push(back)?;
    Ok(Plan { blocks })
}

/// The cells of these blocks over the entry `1 2 3 4`, and both lanes. Block 1 may be raised.
pub(crate) fn two_lanes(alloc: Global) -> Result<(Cells, Warden, Lane, Lane), AllocError>
    ensures setting { IfOk result (λ r. r.0.setting
        ≡ record {
          plan = two_blocks_spans;
          entry = pos 1 ∷ pos 2 ∷ pos 3 ∷ pos 4 ∷ [];
          raisable = 1 ∷ [];
        }) }
    ensures warden { IfOk result (λ r. r.1 ≡ new_warden r.0 2) }
    ensures lanes { IfOk result (λ r. (r.2 ≡ new_lane r.0 0) × (r.3 ≡ new_lane r.0 1)) }
{
    let plan = two_blocks(alloc)?;
    // Law: blocks with ascending spans have no cell in common.
    spf_cells::laws::ascending_plans_are_disjoint();
    let (cells, warden, mut lanes) = Cells::make(alloc, &[1, 2, 3, 4], &plan)?;
    let two = lanes.pop().unwrap();
    let one = lanes.pop().unwrap();
    Ok((cells, warden, one, two))
}

/// Takes over both lanes of two blocks, and writes their cells back.
pub(crate) fn finish_both(
    alloc: Global,
    cells: Cells,
    warden: Warden,
    one: Lane,
    two: Lane,
    into: &mut [i64],
) -> Result<Trace, AllocError>
    requires warden { IsWardenOf cells warden × (warden.view.taken ≡ []) }
    requires one { IsLaneOf cells one × (one.block ≡ 0) }
    requires two { IsLaneOf cells two × (two.block ≡ 1) }
    requires blocks { length cells.setting.plan ≡ 2 }
    requires size { length into.old ≡ length cells.setting.entry }
    ensures { IfOk result (λ r. IsFinish cells (one ∷ two ∷ []) r into.old into.new) }
{
    let mut lanes = Vec::new(alloc);
    lanes.push(one)?;
    lanes.push(two)?;
    Ok(cells.finish(warden, lanes, into))
}

/// The steps of the worked example on one thread: what the load and both polls gave.
fn step_both(cells: &Cells, warden: &mut Warden, one: &mut Lane, two: &mut Lane) -> (i64, u64, u64)
    requires one { (one.old.table ≡ cells.now.table) × Covers (spans_of one.old) 0 }
    requires two { (two.old.table ≡ cells.now.table) × Covers (spans_of two.old) 3 }
    requires warden { IsWardenOf cells.now warden.old }
    requires inside { 1 < length warden.old.setting.plan }
    requires raisable { Contains warden.old.setting.raisable 1 }
    ensures one { one.new ≡ logged (logged one.old (Store 0 (pos 9))) (Turn result.2) }
    ensures two { two.new ≡ logged (logged two.old (Load 3 result.0)) (Turn result.1) }
    ensures found { result.0 ≡ content_at two.old 3 }
    ensures warden { IsWardenOf cells.now warden.new
        × (warden.new.view.taken ≡ warden.old.view.taken) }
{
    one.store(cells, 0, 9);
    let found = two.load(cells, 3);
    warden.raise(cells, 1, 1);
    let turn = two.poll(cells);
    (found, turn, one.poll(cells))
}

/// The worked example, with the logs of its trace. What `finish` says of them is that block 0
/// polled 0, since it may not be raised.
fn worked_example(alloc: Global, into: &mut [i64]) -> Result<((i64, u64, u64), Trace), AllocError>
    requires { length into.old ≡ 4 }
    ensures trace { IfOk result
        (λ r. r.1 ≡ (Store 0 (pos 9) ∷ Turn r.0.2 ∷ []) ∷ (Load 3 (pos 4) ∷ Turn r.0.1 ∷ []) ∷ []) }
    ensures turns { IfOk result (λ r. (r.0.1 ≤ 1) × (r.0.2 ≡ 0)) }
{
    let (cells, mut warden, mut one, mut two) = two_lanes(alloc)?;
    let found = step_both(&cells, &mut warden, &mut one, &mut two);
    let trace = finish_both(alloc, cells, warden, one, two, into)?;
    Ok((found, trace))
}

#[test]
fn two_lanes_in_turn(rt: HostRuntime) -> Result<(), Fail> {
    let mut into = [5, 5, 5, 5];
    let (found, _trace) = worked_example(rt.alloc(), &mut into)?;
    assert!(rt; found == (4, 1, 0) && into == [9, 2, 5, 4]);
    Ok(())
}

/// One lane stores, the other loads, each in a thread of its own.
fn both<R: Threads + Sync>(rt: &R, cells: &Cells, one: &mut Lane, two: &mut Lane) -> i64
    requires one { (one.old.table ≡ cells.now.table) × Covers (spans_of one.old) 0 }
    requires two { (two.old.table ≡ cells.now.table) × Covers (spans_of two.old) 3 }
    ensures stored { one.new ≡ logged one.old (Store 0 (pos 9)) }
    ensures loaded { two.new ≡ logged two.old (Load 3 result) }
    ensures value { result ≡ content_at two.old 3 }
{
    let (_, found) = join_mut(
        rt,
        &mut || one.store(cells, 0, 9),
        &mut || two.load(cells, 3),
    );
    found
}

/// Both lanes poll, each in a thread of its own.
fn poll_both<R: Threads + Sync>(rt: &R, cells: &Cells, one: &mut Lane, two: &mut Lane) -> (u64, u64)
    requires { (one.old.table ≡ cells.now.table) × (two.old.table ≡ cells.now.table) }
    ensures one { one.new ≡ logged one.old (Turn result.0) }
    ensures two { two.new ≡ logged two.old (Turn result.1) }
{
    join_mut(rt, &mut || one.poll(cells), &mut || two.poll(cells))
}

#[test]
fn two_lanes_in_threads(rt: HostRuntime) -> Result<(), Fail> {
    let (cells, mut warden, mut one, mut two) = two_lanes(rt.alloc())?;
    let found = both(&rt, &cells, &mut one, &mut two);
    warden.raise(&cells, 1, 1);
    let turns = poll_both(&rt, &cells, &mut one, &mut two);
    let mut into = [5, 5, 5, 5];
    let _trace = finish_both(rt.alloc(), cells, warden, one, two, &mut into)?;
    assert!(rt; found == 4 && turns == (0, 1) && into == [9, 2, 5, 4]);
    Ok(())
}

/// Block 0 with the spans 6..8, 0..2 and 3..4, and block 1 with the spans 4..6 and 2..3: out of
/// order, and each between the other's.
fn mixed_blocks(alloc: Global) -> Result<Plan, AllocError>
    ensures { IfOk result (λ p. spans_in p ≡ mixed_spans) }
{
    let mut front = Vec::new(alloc);
    front.push(Span { from: 6, to: 8 })?;
    front.push(Span { from: 0, to: 2 })?;
    front.push(Span { from: 3, to: 4 })?;
    let mut back = Vec::new(alloc);
    back.push(Span { from: 4, to: 6 })?;
    back.push(Span { from: 2, to: 3 })?;
    let mut blocks = Vec::new(alloc);
    blocks.push(front)?;
    blocks.push(back)?;
    Ok(Plan { blocks })
}

/// The cells of these blocks over the entry `0 10 20 .. 70`, and both lanes. No block may be
/// raised.
fn mixed_lanes(alloc: Global) -> Result<(Cells, Warden, Lane, Lane), AllocError>
    ensures plan { IfOk result (λ r. r.0.setting.plan ≡ mixed_spans) }
    ensures entry { IfOk result (λ r. length r.0.setting.entry ≡ 8) }
    ensures warden { IfOk result (λ r. r.1 ≡ new_warden r.0 2) }
    ensures lanes { IfOk result (λ r. (r.2 ≡ new_lane r.0 0) × (r.3 ≡ new_lane r.0 1)) }
{
    let plan = mixed_blocks(alloc)?;
    let entry = [0, 10, 20, 30, 40, 50, 60, 70];
    let (cells, warden, mut lanes) = Cells::make(alloc, &entry, &plan)?;
    let two = lanes.pop().unwrap();
    let one = lanes.pop().unwrap();
    Ok((cells, warden, one, two))
}

/// Which of the cells up to 8 the lane has.
fn cells_held(lane: &Lane) -> [bool; 9] {
    let mut held = [false; 9];
    for cell in 0..9 {
        held[cell] = lane.has(cell as u64);
    }
    held
}

/// Stores the values to those cells that the lane has, and then loads each of its cells. A cell
/// that it has not gives -1.
fn store_and_load(cells: &Cells, lane: &mut Lane, values: &[(u64, i64)]) -> [i64; 8]
    requires { lane.old.table ≡ cells.now.table }
    ensures { IsSameLane lane.old lane.new }
{
    for &(cell, value) in values {
        if lane.has(cell) {
            lane.store(cells, cell, value);
        }
    }
    let mut found = [-1; 8];
    for cell in 0..8 {
        if lane.has(cell as u64) {
            found[cell] = lane.load(cells, cell as u64);
        }
    }
    found
}

/// Which cells both lanes have.
fn mixed_cells(alloc: Global) -> Result<([bool; 9], [bool; 9]), AllocError> {
    let (_cells, _warden, one, two) = mixed_lanes(alloc)?;
    Ok((cells_held(&one), cells_held(&two)))
}

#[test]
fn spans_out_of_order(rt: HostRuntime) -> Result<(), Fail> {
    let (one, two) = mixed_cells(rt.alloc())?;
    assert!(rt; one == [true, true, false, true, false, false, true, true, false]);
    assert!(rt; two == [false, false, true, false, true, true, false, false, false]);
    Ok(())
}

/// Has both lanes store and load: what each found, and the memory afterwards.
fn store_in_both(alloc: Global) -> Result<[[i64; 8]; 3], AllocError> {
    let (cells, warden, mut one, mut two) = mixed_lanes(alloc)?;
    let values = [(7, 97), (2, 92), (0, 90), (5, 95), (3, 93)];
    let first = store_and_load(&cells, &mut one, &values);
    let second = store_and_load(&cells, &mut two, &values);
    let mut into = [5; 8];
    let _trace = finish_both(alloc, cells, warden, one, two, &mut into)?;
    Ok([first, second, into])
}

#[test]
fn stores_to_spans_out_of_order(rt: HostRuntime) -> Result<(), Fail> {
    let [first, second, into] = store_in_both(rt.alloc())?;
    assert!(rt; first == [90, 10, -1, 93, -1, -1, 60, 97]);
    assert!(rt; second == [-1, -1, 92, -1, 40, 95, -1, -1]);
    assert!(rt; into == [90, 10, 92, 93, 40, 95, 60, 97]);
    Ok(())
}

/// Two spans of one cell each.
fn two_spans(alloc: Global, first: u64, second: u64) -> Result<Vec<Span>, AllocError>
    requires { (first < 8) × (second < 8) }
    ensures { IfOk result (λ v. v.items
        ≡ record { from = first; to = first + 1 } ∷ record { from = second; to = second + 1 }
        ∷ []) }
{
    let mut spans = Vec::new(alloc);
    spans.push(Span {
        from: first,
        to: first + 1,
    })?;
    spans.push(Span {
        from: second,
        to: second + 1,
    })?;
    Ok(spans)
}

/// Four blocks: block n has the cells n and n + 4.
fn four_blocks(alloc: Global) -> Result<Plan, AllocError>
    ensures { IfOk result (λ p. spans_in p ≡ four_blocks_spans) }
{
    let mut blocks = Vec::new(alloc);
    blocks.push(two_spans(alloc, 0, 4)?)?;
    blocks.push(two_spans(alloc, 1, 5)?)?;
    blocks.push(two_spans(alloc, 2, 6)?)?;
    blocks.push(two_spans(alloc, 3, 7)?)?;
    Ok(Plan { blocks })
}

/// The cells of these blocks, with their warden and lanes. The odd blocks may be raised.
fn interleaved_cells(alloc: Global) -> Result<(Cells, Warden, Vec<Lane>), AllocError>
    ensures warden { IfOk result (λ r. IsWardenOf r.0 r.1 × (r.1.view.taken ≡ [])) }
    ensures lanes { IfOk result (λ r. AreAllLanes r.0 r.2.items) }
    ensures tables { IfOk result (λ r. All (λ l. l.table ≡ r.0.table) r.2.items) }
    ensures entry { IfOk result (λ r. length r.0.setting.entry ≡ 8) }
    ensures blocks { IfOk result (λ r. length r.0.setting.plan ≡ 4) }
    ensures raisable { IfOk result (λ r. r.0.setting.raisable ≡ 1 ∷ 3 ∷ []) }
{
    let plan = four_blocks(alloc)?;
    Cells::make(alloc, &[0, 10, 20, 30, 40, 50, 60, 70], &plan)
}

/// Adds 1 to each cell of the lane 20000 times, and polls between. Once the flag has fallen, it
/// adds 1000000, so that the cells show it.
fn count(cells: &Cells, lane: &mut Lane)
    requires { lane.old.table ≡ cells.now.table }
    ensures { IsSameLane lane.old lane.new }
{
    let mut step = 1;
    let mut last = 0;
    for _ in 0..20000 {
        for cell in 0..8 {
            if lane.has(cell) {
                let found = lane.load(cells, cell);
                lane.store(cells, cell, found.wrapping_add(step));
            }
        }
        let turn = lane.poll(cells);
        if turn < last {
            step = 1000000;
        }
        last = turn;
    }
}

/// The random number that comes after `count` others.
fn random_after(count: u64) -> u64 {
    let mut random = count;
    for _ in 0..count {
        random = random
            .wrapping_mul(6364136223846793005)
            .wrapping_add(1442695040888963407);
    }
    random >> 40
}

/// Raises both odd blocks, in an order and at moments that the seed decides, and then both again.
fn raise_odd(cells: &Cells, warden: &mut Warden, seed: u64)
    requires own { IsWardenOf cells.now warden.old }
    requires blocks { length cells.now.setting.plan ≡ 4 }
    requires raisable { cells.now.setting.raisable ≡ 1 ∷ 3 ∷ [] }
    ensures own { IsWardenOf cells.now warden.new }
    ensures taken { warden.new.view.taken ≡ warden.old.view.taken }
{
    if random_after(seed & 0x7fffff) & 1 == 0 {
        warden.raise(cells, 1, 1);
    }
    if random_after((seed >> 24) & 0x7fffff) & 1 == 0 {
        warden.raise(cells, 3, 1);
    }
    warden.raise(cells, 1, 1);
    warden.raise(cells, 3, 1);
}

/// Each lane counts, in threads of their own.
fn count_each<R: Threads + Sync>(rt: &R, cells: &Cells, lanes: &mut [Lane])
    requires { All (λ l. l.table ≡ cells.now.table) lanes.old }
    ensures { AreSameLanes lanes.old lanes.new }
{
    for_each_mut(rt, lanes, 4, &|_, lane| count(cells, lane));
}

/// Each lane counts, and meanwhile the warden raises.
fn count_and_raise<R: Threads + Sync>(
    rt: &R,
    cells: &Cells,
    warden: &mut Warden,
    lanes: &mut [Lane],
    seed: u64,
)
    requires own { IsWardenOf cells.now warden.old }
    requires blocks { length cells.now.setting.plan ≡ 4 }
    requires raisable { cells.now.setting.raisable ≡ 1 ∷ 3 ∷ [] }
    requires lanes { All (λ l. l.table ≡ cells.now.table) lanes.old }
    ensures own { IsWardenOf cells.now warden.new }
    ensures taken { warden.new.view.taken ≡ warden.old.view.taken }
    ensures lanes { AreSameLanes lanes.old lanes.new }
{
    join_mut(
        rt,
        &mut ||
            requires { All (λ l. l.table ≡ cells.now.table) lanes.now }
            ensures { AreSameLanes lanes.entry.now lanes.exit.now }
        { count_each(rt, cells, lanes) },
        &mut || raise_odd(cells, warden, seed),
    );
}

/// What all cells hold after four lanes counted while the warden raised.
fn count_in_threads<R: Threads + Sync>(
    rt: &R,
    alloc: Global,
    seed: u64,
) -> Result<[i64; 8], AllocError> {
    let (cells, mut warden, mut lanes) = interleaved_cells(alloc)?;
    count_and_raise(rt, &cells, &mut warden, lanes.as_mut_slice(), seed);
    let mut into = [0; 8];
    let _trace = cells.finish(warden, lanes, &mut into);
    Ok(into)
}

#[test]
fn four_lanes_in_threads(rt: HostRuntime) -> Result<(), Fail> {
    for round in 1..21u64 {
        let seed = random_after(round) ^ (random_after(round + 20) << 24);
        let into = count_in_threads(&rt, rt.alloc(), seed)?;
        assert!(rt; into == [20000, 20010, 20020, 20030, 20040, 20050, 20060, 20070]);
    }
    Ok(())
}
