//! Runs the examples in its folder, and the command lines of a table, and says whether each was
//! answered as expected.
//!
//! `expected.txt` lists the runs of the examples, which read real files, and `answers.txt` the
//! command lines, which read files in memory.
#![tactic(auto)]

mod answers;
mod barrier;
mod example;
mod table;

use crate::answers::is_right;
use crate::barrier::run_at_gate;
use crate::example::{is_as_expected, read_runs};
use crate::table::Reader;
use spf_edge::RealFiles;
use std::process::ExitCode;
use std::sync::Wait;
use std::thread::Threads;
use std::{fs, io, rt};

/// Runs the examples. Gives how many are answered otherwise than expected.
fn run_examples<R: Print + rt::Files + AllocGlobal + Threads + Wait + Sync>(
    rt: &R,
) -> io::Result<u64> {
    let alloc = rt.alloc();
    let mut files = RealFiles::make(rt);
    let table = fs::read_to_string(rt, "expected.txt")?;
    let mut wrong = 0u64;
    for run in read_runs(alloc, &table)?.iter() {
        if is_as_expected(rt, alloc, &mut files, run).unwrap_or(false) {
            println!(rt; "as expected: {}", run.words)?;
        } else {
            println!(rt; "WRONG: {}", run.words)?;
            wrong = wrong.saturating_add(1);
        }
    }
    Ok(wrong)
}

/// Runs the command lines. Gives how many there are, and how many of them are answered otherwise
/// than wanted.
fn run_table<R: Print + rt::Files + AllocGlobal + Threads + Wait + Sync>(
    rt: &R,
) -> io::Result<(u64, u64)> {
    let alloc = rt.alloc();
    let table = fs::read_to_string(rt, "answers.txt")?;
    let mut reader = Reader::make(alloc);
    let mut count = 0u64;
    let mut wrong = 0u64;
    for line in table.lines() {
        if let Some(row) = reader.ended(line) {
            count = count.saturating_add(1);
            if !is_right(rt, alloc, &reader, &row).unwrap_or(false) {
                println!(rt; "WRONG: {count} {}", row.words)?;
                wrong = wrong.saturating_add(1);
            }
        }
        reader.read(line)?;
    }
    Ok((count, wrong))
}

/// Runs two blocks on two workers, and on one. Gives whether they ran at the same time on two, and
/// one after the other on one.
fn run_gates<R: AllocGlobal + Threads + Wait + Sync>(rt: &R) -> io::Result<bool> {
    let alloc = rt.alloc();
    let on_two = run_at_gate(rt, alloc, "2", 100_000_000)?;
    let on_one = run_at_gate(rt, alloc, "1", 1000)?;
    Ok(on_two == (true, true) && on_one == (true, false))
}

fn main(rt: HostRuntime) -> io::Result<ExitCode> {
    let wrong_runs = run_examples(&rt)?;
    let (count, wrong) = run_table(&rt)?;
    println!(&rt; "{count} command lines, {wrong} of them answered otherwise than wanted")?;
    let are_at_once = run_gates(&rt)?;
    println!(&rt; "two workers attempt two blocks at once, and one does not: {are_at_once}")?;
    Ok(match (wrong_runs, wrong, are_at_once) {
        (0, 0, true) => ExitCode::SUCCESS,
        _ => ExitCode::FAILURE,
    })
}
