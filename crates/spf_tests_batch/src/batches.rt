//! Batches over three files.
ghost use Rattle.std.specs.Prelude.{MatchOption};
ghost use Rattle.spf_ast.specs.View.{program as seen_program};
ghost use Rattle.spf_ast.specs.Lawful.{IsLawful};

use spf_ast::syntax::Program;
use spf_batch::{BatchError, Totals, run_batch};
use spf_check::check::check;
use spf_check::checked::Checked;
use spf_edge::{MemFiles, MemSink};
use spf_guess::{Predictor, Table, Vote};
use spf_guess_statistics::stats::Stats;
use spf_parse::parse;
use spf_ticket_gate::Open;
use spf_types::resolve;
use std::alloc::Global;
use std::sync::Wait;
use std::test::Fail;
use std::thread::Threads;

/// It emits the last byte of its input; host 0 guesses each byte before it.
const LAST_BYTE: &[u8] =
    b"main { specfold s = 0 for k in 0..len predict host 0 { next input[k]; } emit s; }";

/// The files, in the order of their names.
const FILES: [(&str, [u8; 3]); 3] = [("a", [5, 7, 1]), ("b", [5, 9, 1]), ("c", [5, 7, 1])];

/// The answers of all three.
const ANSWERS: &[u8] = b"a done length 1\n\x01\nb done length 1\n\x01\nc done length 1\n\x01\n";

/// The program of a text.
fn read(alloc: Global, text: &[u8]) -> Option<Program>
    ensures { MatchOption result (Unit {0}) (λ p. IsLawful (seen_program p)) }
{
    let Ok(raw) = parse(alloc, text) else {
        return None;
    };
    match resolve(alloc, raw) {
        Ok(program) => Some(program),
        Err(_) => None,
    }
}

/// A program that the rules accept.
fn accept(alloc: Global, text: &[u8]) -> Result<Checked, Fail> {
    let Some(program) = read(alloc, text) else {
        return Err(Fail::new("no program"));
    };
    match check(alloc, program) {
        Ok(checked) => Ok(checked),
        Err(_) => Err(Fail::new("not accepted")),
    }
}

/// The three files; the fetches with these numbers fail.
fn files(alloc: Global, failing: &[u64]) -> Result<MemFiles, Fail> {
    let mut entries = Vec::new(alloc);
    for (name, content) in FILES {
        entries.push((String::from_str(alloc, name)?, content.to_vec(alloc)?))?;
    }
    Ok(MemFiles::make(entries, failing.to_vec(alloc)?))
}

/// Names of files.
fn names(alloc: Global, names: &[&str]) -> Result<Vec<String>, Fail> {
    let mut owned = Vec::new(alloc);
    for name in names {
        owned.push(String::from_str(alloc, name)?)?;
    }
    Ok(owned)
}

/// What a batch over these names gives, on two workers.
fn run<R: Threads + Wait + Sync>(
    rt: &R,
    alloc: Global,
    listed: &[&str],
    files: &mut MemFiles,
    hosts: &mut Vec<Box<dyn Predictor>>,
    out: &mut MemSink,
) -> Result<Result<Totals, BatchError>, Fail> {
    if listed.len() > 1000 {
        return Err(Fail::new("too many names"));
    }
    let checked = accept(alloc, LAST_BYTE)?;
    let names = names(alloc, listed)?;
    if names.len() > 1000 {
        return Err(Fail::new("too many names"));
    }
    Ok(run_batch(rt, alloc, &checked, &names, files, 2, hosts, &Open, out))
}

/// The totals of `files` files and `blocks` blocks, none of which is blind.
fn totals(files: u64, blocks: u64, hits: u64, misses: u64) -> Totals {
    Totals {
        files,
        stats: Stats {
            blocks,
            hits,
            misses,
            blind: 0,
        },
    }
}

#[test]
fn a_table_learns_from_file_to_file(rt: HostRuntime) -> Result<(), Fail> {
    let alloc = rt.alloc();
    let mut hosts: Vec<Box<dyn Predictor>> = Vec::new(alloc);
    let host: Box<dyn Predictor> = Box::new(alloc, Table::make(alloc, 8)?)?;
    hosts.push(host)?;
    let mut files = files(alloc, &[])?;
    let mut out = MemSink::make(Vec::new(alloc), 0);
    let came = run(
        &rt,
        alloc,
        &["a", "b", "c"],
        &mut files,
        &mut hosts,
        &mut out,
    )?;
    assert!(rt; came == Ok(totals(3, 9, 2, 4)));
    assert!(rt; out.bytes() == ANSWERS);
    assert!(rt; out.puts().len() == 3);
    Ok(())
}

#[test]
fn votes_are_counted_over_all_files(rt: HostRuntime) -> Result<(), Fail> {
    let alloc = rt.alloc();
    let mut hosts: Vec<Box<dyn Predictor>> = Vec::new(alloc);
    let host: Box<dyn Predictor> = Box::new(alloc, Vote::make(alloc, 8, 8)?)?;
    hosts.push(host)?;
    let mut files = files(alloc, &[])?;
    let mut out = MemSink::make(Vec::new(alloc), 0);
    let came = run(
        &rt,
        alloc,
        &["a", "b", "c"],
        &mut files,
        &mut hosts,
        &mut out,
    )?;
    // At c, block 2 has 7 and 9 once each: the smallest is guessed.
    assert!(rt; came == Ok(totals(3, 9, 3, 3)));
    assert!(rt; out.bytes() == ANSWERS);
    Ok(())
}

#[test]
fn no_names_are_a_batch(rt: HostRuntime) -> Result<(), Fail> {
    let alloc = rt.alloc();
    let mut hosts: Vec<Box<dyn Predictor>> = Vec::new(alloc);
    let host: Box<dyn Predictor> = Box::new(alloc, Table::make(alloc, 8)?)?;
    hosts.push(host)?;
    let mut files = files(alloc, &[])?;
    let mut out = MemSink::make(Vec::new(alloc), 0);
    let came = run(&rt, alloc, &[], &mut files, &mut hosts, &mut out)?;
    assert!(rt; came == Ok(totals(0, 0, 0, 0)));
    assert!(rt; out.bytes().is_empty());
    Ok(())
}

#[test]
fn batches_stop_where_a_file_is_not_had(rt: HostRuntime) -> Result<(), Fail> {
    let alloc = rt.alloc();
    let mut hosts: Vec<Box<dyn Predictor>> = Vec::new(alloc);
    let host: Box<dyn Predictor> = Box::new(alloc, Table::make(alloc, 8)?)?;
    hosts.push(host)?;
    let mut failing = files(alloc, &[1])?;
    let mut out = MemSink::make(Vec::new(alloc), 0);
    let came = run(
        &rt,
        alloc,
        &["a", "b", "c"],
        &mut failing,
        &mut hosts,
        &mut out,
    )?;
    assert!(rt; came == Err(BatchError::Fetch { place: 1 }));
    assert!(rt; out.bytes() == &ANSWERS[..18]);
    let mut all = files(alloc, &[])?;
    let mut out = MemSink::make(Vec::new(alloc), 0);
    let came = run(&rt, alloc, &["a", "x"], &mut all, &mut hosts, &mut out)?;
    assert!(rt; came == Err(BatchError::Fetch { place: 1 }));
    assert!(rt; out.bytes() == &ANSWERS[..18]);
    Ok(())
}

#[test]
fn batches_stop_where_the_output_fails(rt: HostRuntime) -> Result<(), Fail> {
    let alloc = rt.alloc();
    let mut hosts: Vec<Box<dyn Predictor>> = Vec::new(alloc);
    let host: Box<dyn Predictor> = Box::new(alloc, Table::make(alloc, 8)?)?;
    hosts.push(host)?;
    let mut files = files(alloc, &[])?;
    let mut out = MemSink::make([1].to_vec(alloc)?, 3);
    let came = run(
        &rt,
        alloc,
        &["a", "b", "c"],
        &mut files,
        &mut hosts,
        &mut out,
    )?;
    assert!(rt; came == Err(BatchError::Put));
    assert!(rt; out.bytes() == &ANSWERS[..21]);
    Ok(())
}

#[test]
fn a_missing_host_comes_first(rt: HostRuntime) -> Result<(), Fail> {
    let alloc = rt.alloc();
    let mut hosts: Vec<Box<dyn Predictor>> = Vec::new(alloc);
    let mut files = files(alloc, &[0])?;
    let mut out = MemSink::make(Vec::new(alloc), 0);
    let came = run(&rt, alloc, &["a"], &mut files, &mut hosts, &mut out)?;
    assert!(rt; came == Err(BatchError::NoHost { number: 0 }));
    assert!(rt; files.fetches().is_some_and(|names| names.is_empty()));
    Ok(())
}
