//! Outcomes, statistics and attempts of whole runs, on one worker and on many.
use crate::programs::{
    BREAKING, DOUBLING, GUESSED, HALF_GUESSED, PAIR, PAIR_OF_WORDS, SCATTERED, SUMS, TRAPS, counts,
    gave, no_attempts, run,
};
use spf_ast::outcome::Outcome;
use std::alloc::Global;
use std::sync::Wait;
use std::sync::atomic::Ordering;
use std::test::Fail;
use std::thread::Threads;

/// Numbers of workers: one alone, two, more than blocks, and the greatest.
const WORKERS: [u64; 4] = [1, 2, 8, 64];

/// A program of one construct, its output, and how many blocks it has, how many right guesses and
/// how many wrong ones.
type Row<'a> = (&'a [u8], &'a [u8], u64, u64, u64);

const ROWS: [Row<'static>; 8] = [
    // mispredicted blocks are attempted twice
    (DOUBLING, &[32], 5, 0, 4),
    // blocks with right guesses are attempted once
    (GUESSED, &[32], 5, 4, 0),
    // a wrong attempt leaves no cell behind
    (SCATTERED, &[7, 0, 0, 7, 7, 0], 3, 1, 1),
    // a pair has two blocks
    (PAIR, &[9], 2, 0, 1),
    // a guess is right where all parts are
    (SUMS, &[5, 8], 5, 1, 3),
    (HALF_GUESSED, &[5, 8], 5, 2, 2),
    // a consumer runs again where one part is wrong
    (PAIR_OF_WORDS, &[3, 2], 2, 0, 1),
    // a loop that breaks off leaves the other cells
    (BREAKING, &[1, 0, 0, 0], 2, 0, 1),
];

/// Returns whether a program's run on this many workers comes to what its row says, where each
/// block is attempted once, and once more where its guess was wrong.
fn comes_to<R: Threads + Wait + Sync>(
    rt: &R,
    alloc: Global,
    row: &Row,
    workers: u64,
) -> Result<bool, Fail> {
    let (text, output, blocks, hits, misses) = *row;
    let attempts = no_attempts();
    let mut hosts = Vec::new(alloc);
    let report = run(rt, alloc, text, workers, &mut hosts, &attempts)?;
    Ok(
        gave(&report.outcome, output)
            && report.stats == counts(blocks, hits, misses, 0)
            && report.traces.len() == 1
            && attempts.first.load(Ordering::SeqCst) == blocks
            && attempts.second.load(Ordering::SeqCst) == misses,
    )
}

#[test]
fn any_number_of_workers_gives_the_plain_outcome(rt: HostRuntime) -> Result<(), Fail> {
    for (number, row) in ROWS.iter().enumerate() {
        for &workers in &WORKERS {
            let right = comes_to(&rt, rt.alloc(), row, workers)?;
            assert!(rt; right, "row {number} on {workers} workers");
        }
    }
    Ok(())
}

/// Returns whether a run ended with a trap in line 1.
fn is_trapped(outcome: &Outcome) -> bool {
    match outcome {
        Outcome::Trapped { trap, .. } => trap.line == 1,
        Outcome::Done { .. } => false,
    }
}

/// Returns whether the first block of `TRAPS` traps on this many workers, and is counted.
fn is_counted<R: Threads + Wait + Sync>(rt: &R, alloc: Global, workers: u64) -> Result<bool, Fail> {
    let attempts = no_attempts();
    let mut hosts = Vec::new(alloc);
    let report = run(rt, alloc, TRAPS, workers, &mut hosts, &attempts)?;
    Ok(is_trapped(&report.outcome) && report.stats == counts(1, 0, 0, 0))
}

#[test]
fn a_trap_is_counted_with_its_block(rt: HostRuntime) -> Result<(), Fail> {
    for &workers in &WORKERS {
        assert!(rt; is_counted(&rt, rt.alloc(), workers)?, "{workers} workers");
    }
    Ok(())
}
