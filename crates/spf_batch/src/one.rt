//! One file of a batch.
ghost use Rattle.std.specs.Prelude.{◌≡◌, ◌≤◌, ◌<◌, ◌∷◌, [], length, None, Ok};
ghost use Rattle.std.specs.Prelude.{IfOk, IfErr, OnOk};
ghost use Rattle.spf_ast_lemmas.specs.Limits.{max_workers};
ghost use Rattle.spf_ast.specs.View.{program as seen_program};
ghost use Rattle.spf_ast.specs.Construct.{constructs_in};
ghost use Rattle.spf_guess.specs.Answers.{supplied};
ghost use Rattle.spf_guess.specs.Missing.{missing_host};
ghost use Rattle.spf_engine_construct.specs.Guesses.{AreAtMost};
ghost use Rattle.spf_engine.specs.Counts.{most_counted};
ghost use Rattle.spf_edge.specs.Faults.{Rose};
ghost use Rattle.spf_edge.specs.Fetches.{AreMade};
ghost use Rattle.spf_batch.specs.World.{world, fetch_giving, ArePut, IsPutInPart};
ghost use Rattle.spf_batch.specs.One.{IsUnfetched, IsPutError, IsRun, IsStoppedBy, error_for};

use crate::error::BatchError;
use crate::text::answer;
use spf_check::checked::Checked;
use spf_edge::{FetchError, Files, PutError, Sink};
use spf_edge_pieces::put_pieces;
use spf_engine::error::EngineError;
use spf_engine::run::run_program;
use spf_guess::Predictor;
use spf_guess_statistics::stats::Stats;
use spf_ticket_gate::Gate;
use std::alloc::{AllocError, Global};
use std::sync::Wait;
use std::thread::Threads;

/// How many bytes a file may have.
const MAX_INPUT: u64 = 4_194_304;

/// What the runs of a batch share: the program, and what runs its blocks.
#[derive(Drop)]
pub(crate) struct Batch<'a, R: Threads + Wait + Sync, G: Gate + Sync> {
    pub rt: &'a R,
    pub alloc: Global,
    pub checked: &'a Checked,
    pub workers: u64,
    pub gate: &'a G,
    ghost few: { (0 < workers) × (workers ≤ max_workers) },
}

/// The content of the file of a name, which stands at this place of the list.
fn fetch<F: Files>(
    alloc: Global,
    files: &mut F,
    name: &str,
    place: u64,
) -> Result<Vec<u8>, BatchError>
    ensures content { IfOk result (λ content. AreMade (F.state files.old) (F.state files.new)
        (fetch_giving name.now (Ok content.items) ∷ [])) }
    ensures left { IfErr result
        (IsUnfetched name.now place (F.state files.old) (F.state files.new)) }
{
    match files.fetch(alloc, name, MAX_INPUT) {
        Ok(content) => Ok(content),
        Err(FetchError::Missing) => Err(BatchError::Fetch { place }),
        Err(FetchError::Failed) => Err(BatchError::Fetch { place }),
        Err(FetchError::TooLong) => Err(BatchError::TooLong { place }),
        Err(FetchError::OutOfMemory) => Err(BatchError::OutOfMemory),
    }
}

/// The error where the run on the file at this place was not begun, or memory ran out in it.
fn not_run(place: u64, error: EngineError) -> BatchError
    ensures { result ≡ error_for place error }
{
    match error {
        EngineError::TooManyCells { count } => BatchError::TooManyCells { place, count },
        EngineError::NoHost { number } => BatchError::NoHost { number },
        EngineError::OutOfMemory => BatchError::OutOfMemory,
    }
}

/// Puts an answer, in pieces.
fn put_answer<S: Sink>(out: &mut S, bytes: &[u8]) -> Result<(), BatchError>
    ensures whole { OnOk result (ArePut (bytes.now ∷ []) (S.state out.old) (S.state out.new)) }
    ensures part { IsPutInPart bytes.now (S.state out.old) (S.state out.new) }
    ensures failed { IfErr result
        (IsPutError (Rose (S.state out.old).faults (S.state out.new).faults)) }
{
    match put_pieces(out, bytes) {
        Ok(()) => Ok(()),
        Err(PutError::Failed) => Err(BatchError::Put),
        Err(PutError::OutOfMemory) => Err(BatchError::OutOfMemory),
    }
}

impl<'a, R: Threads + Wait + Sync, G: Gate + Sync> Batch<'a, R, G> {
    /// Runs the program on the file of a name, which stands at this place of the list, and puts its
    /// answer.
    pub(crate) fn run_file<F: Files, S: Sink>(
        &self,
        name: &str,
        place: u64,
        files: &mut F,
        hosts: &mut Vec<Box<dyn Predictor>>,
        out: &mut S,
    ) -> Result<Stats, BatchError>
        requires hosts { missing_host (length hosts.old.items)
            (constructs_in (seen_program self.now.checked.now).main) ≡ None }
        ensures ran { IfOk result (IsRun (seen_program self.now.checked.now) name.now
            (world (F.state files.old) (S.state out.old) (supplied answer hosts.old.items))
            (world (F.state files.new) (S.state out.new) (supplied answer hosts.new.items))) }
        ensures bounded { IfOk result (λ stats. AreAtMost stats most_counted) }
        ensures stopped { IfErr result
            (IsStoppedBy (seen_program self.now.checked.now) name.now place
            (world (F.state files.old) (S.state out.old) (supplied answer hosts.old.items))
            (world (F.state files.new) (S.state out.new) (supplied answer hosts.new.items))) }
        ensures count { length hosts.new.items ≡ length hosts.old.items }
    {
        let input = fetch(self.alloc, files, name, place)?;
        let report = match run_program(
            self.rt,
            self.alloc,
            self.checked,
            &input,
            self.workers,
            hosts,
            self.gate,
        ) {
            Ok(report) => report,
            Err(error) => return Err(not_run(place, error)),
        };
        let bytes = match answer(self.alloc, name, &report.outcome) {
            Ok(bytes) => bytes,
            Err(AllocError) => return Err(BatchError::OutOfMemory),
        };
        match put_answer(out, &bytes) {
            Ok(()) => Ok(report.stats),
            Err(error) => Err(error),
        }
    }
}
