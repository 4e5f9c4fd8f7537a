//! Runs the command lines of a table over files and sinks in memory.

use crate::table::{Reader, Row, words};
use spf_apps_formats::toy::toy_machine;
use spf_cli::run_file;
use spf_cli_shell::run_words;
use spf_edge::{MemFiles, MemSink};
use spf_guess::{Last, Predictor};
use spf_ticket_gate::Open;
use std::alloc::{AllocError, Global};
use std::sync::Wait;
use std::thread::Threads;

/// How many workers run the blocks of a program at hand.
const WORKERS: u64 = 4;

/// A file.
fn file(alloc: Global, name: &str, content: Vec<u8>) -> Result<(String, Vec<u8>), AllocError> {
    Ok((String::from_str(alloc, name)?, content))
}

/// The files of a command line.
fn files(alloc: Global, reader: &Reader, row: &Row) -> Result<MemFiles, AllocError> {
    let mut files = Vec::new(alloc);
    files.push(file(alloc, "P", reader.program.to_vec(alloc)?)?)?;
    files.push(file(alloc, "I", reader.input.to_vec(alloc)?)?)?;
    files.push(file(alloc, "M", toy_machine(alloc)?)?)?;
    for (name, content) in &reader.others {
        files.push(file(alloc, name, content.to_vec(alloc)?)?)?;
    }
    Ok(MemFiles::make(files, row.failing_fetches.to_vec(alloc)?))
}

/// A sink that takes all, or fails at the put with this number after this many bytes of it.
fn sink(alloc: Global, failing: Option<(u64, u64)>) -> Result<MemSink, AllocError> {
    let mut numbers = Vec::new(alloc);
    let Some((number, keeps)) = failing else {
        return Ok(MemSink::make(numbers, 0));
    };
    numbers.push(number)?;
    Ok(MemSink::make(numbers, keeps))
}

/// Returns whether these files were fetched, in this order.
fn are_fetched(names: &str, files: &MemFiles) -> bool {
    match files.fetches() {
        Some(fetches) => names
            .split(' ')
            .eq(fetches.iter().map(|name| name.as_str())),
        None => false,
    }
}

/// Returns whether the output was put in pieces of these lengths.
fn are_pieces(alloc: Global, lengths: &str, out: &MemSink) -> Result<bool, AllocError> {
    let mut found = String::new(alloc);
    for put in out.puts() {
        if !found.is_empty() {
            found.push(' ')?;
        }
        let length = format!(in alloc; "{}", put.piece.len())?;
        found.push_str(&length)?;
    }
    Ok(found.as_str() == lengths)
}

/// Returns whether the files were fetched and the output was put as the table says, where it says
/// it.
fn is_done_so(
    alloc: Global,
    row: &Row,
    files: &MemFiles,
    out: &MemSink,
) -> Result<bool, AllocError> {
    let fetched = match row.fetched {
        Some(names) => are_fetched(names, files),
        None => true,
    };
    let put = match row.pieces {
        Some(lengths) => are_pieces(alloc, lengths, out)?,
        None => true,
    };
    Ok(fetched && put)
}

/// Returns whether the sinks have what a command line is to put, with this status.
fn is_wanted(row: &Row, status: u8, out: &MemSink, err: &MemSink) -> bool {
    u64::from(status) == row.status && *out.bytes() == *row.output && *err.bytes() == *row.messages
}

/// Returns whether a command line is answered as wanted.
fn is_answered<R: Threads + Wait + Sync>(
    rt: &R,
    alloc: Global,
    reader: &Reader,
    row: &Row,
) -> Result<bool, AllocError> {
    let words = words(alloc, row.words)?;
    let mut files = files(alloc, reader, row)?;
    let mut out = sink(alloc, row.failing_put)?;
    let mut err = sink(alloc, row.failing_line)?;
    let status = run_words(rt, alloc, &words, &mut files, &mut out, &mut err);
    Ok(is_wanted(row, status, &out, &err) && is_done_so(alloc, row, &files, &out)?)
}

/// Returns whether a run over the program and the input at hand, without the command line, is
/// answered as wanted.
fn is_answered_at_hand<R: Threads + Wait + Sync>(
    rt: &R,
    alloc: Global,
    reader: &Reader,
    row: &Row,
) -> Result<bool, AllocError> {
    let mut out = sink(alloc, row.failing_put)?;
    let mut err = sink(alloc, row.failing_line)?;
    let mut hosts: Vec<Box<dyn Predictor>> = Vec::new(alloc);
    if row.words.starts_with("--host last ") {
        hosts.push(Box::new(alloc, Last::make())?)?;
    }
    let status = run_file(
        rt,
        alloc,
        &reader.program,
        &reader.input,
        WORKERS,
        &mut hosts,
        &Open,
        &mut out,
        &mut err,
    );
    Ok(is_wanted(row, status, &out, &err))
}

/// Returns whether a command line is answered as wanted, and, where it shows the statistics of a
/// run and fetches both files, the same run at hand.
pub fn is_right<R: Threads + Wait + Sync>(
    rt: &R,
    alloc: Global,
    reader: &Reader,
    row: &Row,
) -> Result<bool, AllocError> {
    if !is_answered(rt, alloc, reader, row)? {
        return Ok(false);
    }
    if row.words.ends_with("run P I --stats") && row.failing_fetches.is_empty() {
        return is_answered_at_hand(rt, alloc, reader, row);
    }
    Ok(true)
}
