//! What hosts are asked and told in whole runs.
ghost use Rattle.spf_tests_runtime.specs.Digits.{digits};

use crate::programs::{HOSTED, HOSTED_WORDS, WIDE, accept, counts, gave, no_attempts, run};
use spf_engine::error::EngineError;
use spf_engine::run::{RunReport, run_program};
use spf_guess::{Last, Predictor, Table};
use spf_ticket_gate::{Gate, Place};
use std::alloc::Global;
use std::sync::atomic::{AtomicU64, Ordering};
use std::sync::{Arc, Wait};
use std::test::Fail;
use std::thread::Threads;

/// A predictor whose guess shows all that it was told, and in which order: each pair adds two
/// digits, the block and its word. It counts how often it is asked.
#[derive(Drop)]
struct Digits {
    number: i64,
    asked: Arc<AtomicU64>,
}

impl Predictor for Digits {
    ghost answer = { λ host pairs _. digits host.number pairs };

    fn guess(&mut self, _block: i64) -> i64 {
        let _before = self.asked.fetch_add(1, Ordering::SeqCst);
        self.number
    }

    fn tell(&mut self, block: i64, real: i64) {
        let shifted = self.number.wrapping_mul(100);
        self.number = shifted
            .wrapping_add(block.wrapping_mul(10))
            .wrapping_add(real);
    }
}

/// Adds up, over all first attempts, how often a host was asked before the attempt began.
#[derive(Drop)]
struct Askings<'a> {
    asked: &'a AtomicU64,
    sum: AtomicU64,
}

impl<'a> Gate for Askings<'a> {
    fn at(&self, _block: u64, attempt: u64, place: Place) {
        if attempt == 1 && place == Place::Begin {
            let asked = self.asked.load(Ordering::SeqCst);
            let _before = self.sum.fetch_add(asked, Ordering::SeqCst);
        }
    }
}

/// Asks the last one of some hosts for its guess; `None` where there is none.
fn last_guess(hosts: Vec<Box<dyn Predictor>>) -> Option<i64> {
    let mut hosts = hosts;
    let mut host = hosts.pop()?;
    Some(host.guess(0))
}

/// One host in a list.
fn one_host(alloc: Global, host: Box<dyn Predictor>) -> Result<Vec<Box<dyn Predictor>>, Fail> {
    let mut hosts = Vec::new(alloc);
    hosts.push(host)?;
    Ok(hosts)
}

/// A list of one host, which shows all that it was told, and counts how often it is asked.
fn digits_host(alloc: Global, asked: Arc<AtomicU64>) -> Result<Vec<Box<dyn Predictor>>, Fail> {
    one_host(alloc, Box::new(alloc, Digits { number: 0, asked })?)
}

/// Returns whether a run gave 7 twice, and its blocks had these numbers of right and wrong guesses.
fn gave_sevens(report: &RunReport, hits: u64, misses: u64) -> bool {
    gave(&report.outcome, &[7, 7])
        && report.stats == counts(6, hits, misses, 0)
        && report.traces.len() == 2
}

/// Runs `HOSTED` on two workers with a host that is never right: whether it comes to its outcome,
/// and how often the host was asked, added up over all first attempts before they began.
fn run_asking<R: Threads + Wait + Sync>(
    rt: &R,
    alloc: Global,
    hosts: &mut Vec<Box<dyn Predictor>>,
    asked: &AtomicU64,
) -> Result<(bool, u64), Fail> {
    let askings = Askings {
        asked,
        sum: AtomicU64::new(0),
    };
    let report = run(rt, alloc, HOSTED, 2, hosts, &askings)?;
    let sum = askings.sum.load(Ordering::SeqCst);
    Ok((gave_sevens(&report, 0, 4), sum))
}

#[test]
fn a_host_is_asked_once_for_each_guess_and_told_in_order(rt: HostRuntime) -> Result<(), Fail> {
    let asked = Arc::new(rt.alloc(), AtomicU64::new(0))?;
    let mut hosts = digits_host(rt.alloc(), asked.clone()?)?;
    let (right, sum) = run_asking(&rt, rt.alloc(), &mut hosts, &asked)?;
    assert!(rt; right && asked.load(Ordering::SeqCst) == 4);
    // each block of the first fold began after two askings, each block of the second one after four
    assert!(rt; sum == 3 * 2 + 3 * 4);
    assert!(rt; last_guess(hosts) == Some(17_271_727));
    Ok(())
}

/// Returns whether a program gives 7 twice on two workers, with these numbers of right and wrong
/// guesses.
fn learns<R: Threads + Wait + Sync>(
    rt: &R,
    alloc: Global,
    text: &[u8],
    host: Box<dyn Predictor>,
    hits: u64,
    misses: u64,
) -> Result<bool, Fail> {
    let mut hosts = one_host(alloc, host)?;
    let report = run(rt, alloc, text, 2, &mut hosts, &no_attempts())?;
    Ok(gave_sevens(&report, hits, misses))
}

#[test]
fn a_host_learns_between_constructs(rt: HostRuntime) -> Result<(), Fail> {
    let host = Box::new(rt.alloc(), Last::make())?;
    assert!(rt; learns(&rt, rt.alloc(), HOSTED, host, 2, 2)?);
    Ok(())
}

#[test]
fn a_host_of_two_parts_is_told_both(rt: HostRuntime) -> Result<(), Fail> {
    let host = Box::new(rt.alloc(), Last::make())?;
    assert!(rt; learns(&rt, rt.alloc(), HOSTED_WORDS, host, 0, 4)?);
    Ok(())
}

#[test]
fn a_table_learns_by_block(rt: HostRuntime) -> Result<(), Fail> {
    let host = Box::new(rt.alloc(), Table::make(rt.alloc(), 8)?)?;
    assert!(rt; learns(&rt, rt.alloc(), HOSTED, host, 2, 2)?);
    Ok(())
}

/// Returns whether a program's run without hosts is refused with this error, before any attempt.
fn is_refused<R: Threads + Wait + Sync>(
    rt: &R,
    alloc: Global,
    text: &[u8],
    error: EngineError,
) -> Result<bool, Fail> {
    let attempts = no_attempts();
    let mut hosts = Vec::new(alloc);
    let checked = accept(alloc, text)?;
    let run = run_program(rt, alloc, &checked, &[], 2, &mut hosts, &attempts);
    Ok(run.err() == Some(error) && attempts.first.load(Ordering::SeqCst) == 0)
}

#[test]
fn a_missing_host_is_named(rt: HostRuntime) -> Result<(), Fail> {
    let error = EngineError::NoHost { number: 0 };
    assert!(rt; is_refused(&rt, rt.alloc(), HOSTED, error)?);
    Ok(())
}

#[test]
fn cells_are_counted_before_hosts(rt: HostRuntime) -> Result<(), Fail> {
    let error = EngineError::TooManyCells { count: 4_194_305 };
    assert!(rt; is_refused(&rt, rt.alloc(), WIDE, error)?);
    Ok(())
}
