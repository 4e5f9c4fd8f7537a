//! Programs by their texts, runs of them, and a gate that counts attempts.
ghost use Rattle.std.specs.Prelude.{MatchOption};
ghost use Rattle.spf_ast.specs.View.{program as seen_program};
ghost use Rattle.spf_ast.specs.Lawful.{IsLawful};

use spf_ast::outcome::Outcome;
use spf_ast::syntax::Program;
use spf_check::check::check;
use spf_check::checked::Checked;
use spf_engine::run::{RunReport, run_program};
use spf_guess::Predictor;
use spf_guess_statistics::stats::Stats;
use spf_parse::parse;
use spf_ticket_gate::{Gate, Place};
use spf_types::resolve;
use std::alloc::Global;
use std::sync::Wait;
use std::sync::atomic::{AtomicU64, Ordering};
use std::test::Fail;
use std::thread::Threads;

/// Each block doubles the carried word; no guess is right.
pub(crate) const DOUBLING: &[u8] =
    b"main { specfold s = 1 for k in 0..5 predict k { next s * 2; } emit s; }";

/// Each block doubles the carried word; each guess is right.
pub(crate) const GUESSED: &[u8] =
    b"main { specfold s = 1 for k in 0..5 predict 1 << k { next s * 2; } emit s; }";

/// Each block fills its span and stores one of its cells, which its carried word chooses. Block 2
/// begins at a wrong guess.
pub(crate) const SCATTERED: &[u8] =
    b"array out[6]; main { specfold s = 0 for k in 0..3 predict 1 { fill out[2*k..2*k + 2] = 0; \
        out[2*k + (s & 1)] = 7; next s + 1; } for i in 0..6 { emit out[i]; } }";

/// The consumer begins at a wrong guess.
pub(crate) const PAIR: &[u8] =
    b"array out[2]; main { spec x = { give 3; } predict 4 { out[0] = x; out[1] = x * x; } \
        emit out[1]; }";

/// The first block traps.
pub(crate) const TRAPS: &[u8] =
    b"array out[1]; main { specfold s = 0 for k in -1..1 predict 0 { out[k] = 1; next 0; } }";

/// Two folds whose guesses are those of host 0.
pub(crate) const HOSTED: &[u8] = b"main { specfold s = 7 for k in 0..3 predict host 0 { next s; } \
        specfold t = 7 for k in 0..3 predict host 0 { next t; } emit s; emit t; }";

/// Each block goes on by one word of a sequence in which a word is the sum of the two before it.
/// The guess of block 1 is right; those of the others are right in one part at most.
pub(crate) const SUMS: &[u8] =
    b"main { specfold (a, b) = (0, 1) for k in 0..5 predict (k, 1) { next (b, a + b); } emit a; \
        emit b; }";

/// The blocks of `SUMS`; the guesses of blocks 1 and 2 are right, and that of block 3 in its second
/// part alone.
pub(crate) const HALF_GUESSED: &[u8] =
    b"main { specfold (a, b) = (0, 1) for k in 0..5 predict (1, k) { next (b, a + b); } emit a; \
        emit b; }";

/// The consumer begins at a guess that is right in its first part alone.
pub(crate) const PAIR_OF_WORDS: &[u8] =
    b"main { spec (q, r) = { give (17 / 5, 17 % 5); } predict (3, 0) { } emit q; emit r; }";

/// Two folds over rows of two words, whose guesses are both those of host 0.
pub(crate) const HOSTED_WORDS: &[u8] =
    b"main { specfold (a, b) = (7, 1) for k in 0..3 predict (host 0, host 0) { next (a, b); } \
        specfold (c, d) = (7, 1) for k in 0..3 predict (host 0, host 0) { next (c, d); } \
        emit a; emit c; }";

/// Each block breaks off a loop, the second one before its first store. The guess is wrong.
pub(crate) const BREAKING: &[u8] =
    b"version 2; array out[4]; main { specfold s = 0 for k in 0..2 predict 0 { \
        fill out[2*k..2*k + 2] = 0; for i in 2*k..2*k + 2 { if i > s { break; } out[i] = 1; } \
        next 1; } for i in 0..4 { emit out[i]; } }";

/// Arrays with one cell too many.
pub(crate) const WIDE: &[u8] =
    b"array a[4194305]; main { specfold s = 7 for k in 0..3 predict host 0 { next s; } }";

/// Counts first attempts and second attempts.
#[derive(Drop)]
pub(crate) struct Attempts {
    pub(crate) first: AtomicU64,
    pub(crate) second: AtomicU64,
}

impl Gate for Attempts {
    fn at(&self, _block: u64, attempt: u64, place: Place) {
        if place == Place::Begin {
            let counter = if attempt == 1 {
                &self.first
            } else {
                &self.second
            };
            let _before = counter.fetch_add(1, Ordering::SeqCst);
        }
    }
}

/// No attempt yet.
pub(crate) fn no_attempts() -> Attempts {
    Attempts {
        first: AtomicU64::new(0),
        second: AtomicU64::new(0),
    }
}

/// The program of a text.
fn read(alloc: Global, text: &[u8]) -> Option<Program>
    ensures { MatchOption result (Unit {0}) (λ p. IsLawful (seen_program p)) }
{
    let Ok(raw) = parse(alloc, text) else {
        return None;
    };
    match resolve(alloc, raw) {
        Ok(program) => Some(program),
        Err(_) => None,
    }
}

/// A program that the rules accept.
pub(crate) fn accept(alloc: Global, text: &[u8]) -> Result<Checked, Fail> {
    let Some(program) = read(alloc, text) else {
        return Err(Fail::new("no program"));
    };
    match check(alloc, program) {
        Ok(checked) => Ok(checked),
        Err(_) => Err(Fail::new("not accepted")),
    }
}

/// Runs a text's program on an empty input, on `workers` workers.
pub(crate) fn run<R: Threads + Wait + Sync, G: Gate + Sync>(
    rt: &R,
    alloc: Global,
    text: &[u8],
    workers: u64,
    hosts: &mut Vec<Box<dyn Predictor>>,
    gate: &G,
) -> Result<RunReport, Fail> {
    if workers == 0 || workers > 64 {
        return Err(Fail::new("a number of workers"));
    }
    let checked = accept(alloc, text)?;
    match run_program(rt, alloc, &checked, &[], workers, hosts, gate) {
        Ok(report) => Ok(report),
        Err(_) => Err(Fail::new("no run")),
    }
}

/// Returns whether a run ended with this output.
pub(crate) fn gave(outcome: &Outcome, wanted: &[u8]) -> bool {
    match outcome {
        Outcome::Done { output, .. } => output.as_slice() == wanted,
        Outcome::Trapped { .. } => false,
    }
}

/// Statistics from their four counts.
pub(crate) fn counts(blocks: u64, hits: u64, misses: u64, blind: u64) -> Stats {
    Stats {
        blocks,
        hits,
        misses,
        blind,
    }
}
