//! Whether the command runs blocks at the same time.

use spf_cli::spf_main;
use spf_edge::{MemFiles, MemSink};
use spf_ticket_gate::Barrier;
use std::alloc::{AllocError, Global};
use std::sync::Wait;
use std::thread::Threads;

/// A program whose blocks are guessed right.
const PROGRAM: &[u8] =
    b"main { specfold s = 1 for k in 0..5 predict 1 << k { next s * 2; } emit s; }";

/// Runs the program by the top call on `workers` workers, with a gate that holds the first attempts
/// of two blocks for at most `limit` iterations. Gives whether the answer is right, and whether the
/// two attempts ran at the same time.
pub fn run_at_gate<R: Threads + Wait + Sync>(
    rt: &R,
    alloc: Global,
    workers: &str,
    limit: u64,
) -> Result<(bool, bool), AllocError> {
    let mut entries = Vec::new(alloc);
    entries.push((String::from_str(alloc, "P")?, PROGRAM.to_vec(alloc)?))?;
    entries.push((String::from_str(alloc, "I")?, Vec::new(alloc)))?;
    let mut files = MemFiles::make(entries, Vec::new(alloc));
    let mut words = Vec::new(alloc);
    for word in ["run", "P", "I", "--workers", workers] {
        words.push(String::from_str(alloc, word)?)?;
    }
    let mut out = MemSink::make(Vec::new(alloc), 0);
    let mut err = MemSink::make(Vec::new(alloc), 0);
    let gate = Barrier::make(2, limit);
    let hosts = Vec::new(alloc);
    let status = spf_main(
        rt, alloc, &words, &mut files, &mut out, &mut err, hosts, &gate,
    );
    let is_right = status == 0 && out.bytes() == [32].as_slice() && err.bytes().is_empty();
    Ok((is_right, gate.have_met()))
}
