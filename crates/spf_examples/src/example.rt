//! Runs of the examples, and what is expected of them.
//!
//! `expected.txt` lists them. A line that isn't indented has the words of a run. The indented lines
//! after it are what is expected: `status N`, where the status isn't 0; `output FILE`, where there
//! is an output; and the lines of the error stream.

use crate::table::words;
use spf_cli_shell::run_words;
use spf_edge::{FetchError, Files, MemSink};
use std::alloc::{AllocError, Global};
use std::sync::Wait;
use std::thread::Threads;

/// How many bytes a file of the examples may have.
const MAX_FILE: u64 = 1_048_576;

/// A run and what is expected of it.
#[derive(Drop)]
pub struct Run<'a> {
    pub words: &'a str,
    status: &'a str,
    /// The name of the file that has the output.
    output: Option<&'a str>,
    messages: Vec<u8>,
}

impl<'a> Run<'a> {
    /// A run that is to end with status 0, with nothing on both streams.
    fn of(alloc: Global, words: &'a str) -> Run<'a> {
        Run {
            words,
            status: "0",
            output: None,
            messages: Vec::new(alloc),
        }
    }

    /// Adds a line of what is expected.
    fn expect(&mut self, line: &'a str) -> Result<(), AllocError> {
        if let Some(status) = line.strip_prefix("status ") {
            self.status = status;
        } else if let Some(file) = line.strip_prefix("output ") {
            self.output = Some(file);
        } else {
            self.messages.extend_from_slice(line.as_bytes())?;
            self.messages.push(b'\n')?;
        }
        Ok(())
    }
}

/// The runs that a table lists.
pub fn read_runs<'a>(alloc: Global, table: &'a str) -> Result<Vec<Run<'a>>, AllocError> {
    let mut runs: Vec<Run<'a>> = Vec::new(alloc);
    for line in table.lines() {
        if line.starts_with('#') {
            continue;
        }
        match line.strip_prefix("  ") {
            None => runs.push(Run::of(alloc, line))?,
            Some(expected) => {
                if let Some(run) = runs.last_mut() {
                    run.expect(expected)?;
                }
            }
        }
    }
    Ok(runs)
}

/// Returns whether a run is answered as expected.
pub fn is_as_expected<R: Threads + Wait + Sync, F: Files>(
    rt: &R,
    alloc: Global,
    files: &mut F,
    run: &Run,
) -> Result<bool, FetchError> {
    let words = words(alloc, run.words)?;
    let output = match run.output {
        None => Vec::new(alloc),
        Some(name) => files.fetch(alloc, name, MAX_FILE)?,
    };
    let mut out = MemSink::make(Vec::new(alloc), 0);
    let mut err = MemSink::make(Vec::new(alloc), 0);
    let status = run_words(rt, alloc, &words, files, &mut out, &mut err);
    let is_status = run
        .status
        .parse::<u8>()
        .is_ok_and(|wanted| wanted == status);
    Ok(is_status && *out.bytes() == *output && *err.bytes() == *run.messages)
}
