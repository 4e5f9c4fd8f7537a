//! Whole batches.
ghost use Rattle.std.specs.Prelude.{◌≡◌, ◌<◌, ◌≤◌, ℕ, length, map, string_bytes, Some, Err};
ghost use Rattle.std.specs.Prelude.{IfOk, IfErr};
ghost use Rattle.spf_ast_lemmas.specs.Limits.{max_workers};
ghost use Rattle.spf_ast.specs.View.{program as seen_program};
ghost use Rattle.spf_ast.specs.Construct.{constructs_in};
ghost use Rattle.spf_guess.specs.Answers.{supplied};
ghost use Rattle.spf_guess.specs.Missing.{missing_host};
ghost use Rattle.spf_batch.specs.Batch.{max_files};
ghost use Rattle.spf_batch.specs.World.{world};
ghost use Rattle.spf_batch.specs.Many.{IsDone, IsStopped};

use crate::error::BatchError;
use crate::one::Batch;
use spf_check::checked::Checked;
use spf_edge::{Files, Sink};
use spf_guess::Predictor;
use spf_guess::missing::first_missing;
use spf_guess_statistics::stats::Stats;
use spf_ticket_gate::Gate;
use std::alloc::Global;
use std::sync::Wait;
use std::thread::Threads;

/// What a batch gives beside the answers.
#[derive(Clone, Copy, PartialEq, Eq, Debug)]
pub struct Totals {
    /// The number of files.
    pub files: u64,
    /// The sums of their statistics.
    pub stats: Stats,
}

/// Runs an accepted program on the files of these names, at most 1,000, one after another, and puts
/// the answer of each on `out`, in pieces of 4,096 bytes of which only the last may be shorter.
/// Each answer is that of the file alone. `hosts` are the predictors that the program names by
/// number; the same ones serve all files, so at each file they were told the pairs of all files
/// before it. The runs go by blocks, on 1 to 64 workers; the call waits for their threads. `gate`
/// watches the attempts.
///
/// # Errors
///
/// `NoHost` where the program names a host that isn't supplied; nothing is fetched then. After the
/// other errors the answers of the files before this one are on `out`: `Fetch` where a file is not
/// among those told or could not be read, `TooLong` where it has more than 4,194,304 bytes,
/// `TooManyCells` where its run would have more cells than the program's version allows. After
/// `Put`, where the output failed, and `OutOfMemory`, a prefix of the present answer follows.
pub fn run_batch<R: Threads + Wait + Sync, F: Files, S: Sink, G: Gate + Sync>(
    rt: &R,
    alloc: Global,
    checked: &Checked,
    names: &[String],
    files: &mut F,
    workers: u64,
    hosts: &mut Vec<Box<dyn Predictor>>,
    gate: &G,
    out: &mut S,
) -> Result<Totals, BatchError>
    requires workers { (0 < workers) × (workers ≤ max_workers) }
    requires names { length names.now ≤ max_files }
    ensures done { IfOk result
        (IsDone (seen_program checked.now) (map string_bytes names.now)
        (world (F.state files.old) (S.state out.old) (supplied answer hosts.old.items))
        (world (F.state files.new) (S.state out.new) (supplied answer hosts.new.items))) }
    ensures stopped { IfErr result
        (IsStopped (seen_program checked.now) (map string_bytes names.now)
        (missing_host (length hosts.old.items) (constructs_in (seen_program checked.now).main))
        (world (F.state files.old) (S.state out.old) (supplied answer hosts.old.items))
        (world (F.state files.new) (S.state out.new) (supplied answer hosts.new.items))) }
    ensures no_host { (number : ℕ)
        → missing_host (length hosts.old.items) (constructs_in (seen_program checked.now).main)
        ≡ Some number
        → result ≡ Err (BatchError.NoHost number) }
{
    if let Some(number) = first_missing(checked.program(), hosts.len() as u64) {
        return Err(BatchError::NoHost { number });
    }
    let batch = Batch {
        rt,
        alloc,
        checked,
        workers,
        gate,
    };
    let mut stats = Stats::none();
    for (place, name) in names.iter().enumerate() {
        match batch.run_file(name.as_str(), place as u64, files, hosts, out) {
            Ok(file) => stats = stats.plus(file),
            Err(error) => return Err(error),
        }
    }
    Ok(Totals {
        files: names.len() as u64,
        stats,
    })
}
