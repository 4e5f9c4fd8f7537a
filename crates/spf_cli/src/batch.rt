//! Batches, whose answers are put as they come.

ghost use Rattle.std.specs.Prelude.{◌≡◌, [], None, length, map, string_bytes};
ghost use Rattle.spf_ast.specs.View.{program as seen_program};
ghost use Rattle.spf_ast.specs.Construct.{constructs_in};
ghost use Rattle.spf_guess.specs.Answers.{supplied};
ghost use Rattle.spf_guess.specs.Missing.{missing_host};
ghost use Rattle.spf_cli_answers.specs.Batched.{RunsFiles};
ghost use Rattle.spf_cli.specs.Answered.{sinks, IsAnswered};

use crate::putting::{put_lines, put_status};
use spf_batch::run_batch;
use spf_cli_answers::{Batch, Context, number};
use spf_edge::{Files, Sink};
use spf_guess::Predictor;
use spf_ticket_gate::Gate;
use std::sync::Wait;
use std::thread::Threads;

/// Runs a batch: puts the answer of each file as it comes, and then the line of how the batch
/// ended. Gives the status.
pub(crate) fn put_batch<R: Threads + Wait + Sync, F: Files, S: Sink, G: Gate + Sync>(
    context: &Context<'_, R, G>,
    batch: &Batch,
    files: &mut F,
    hosts: &mut Vec<Box<dyn Predictor>>,
    out: &mut S,
    err: &mut S,
) -> u8
    requires complete { missing_host (length hosts.old.items)
        (constructs_in (seen_program batch.now.checked).main) ≡ None }
    ensures { IsAnswered (RunsFiles (supplied answer hosts.old.items)
        (seen_program batch.now.checked) [] (map string_bytes batch.now.names.items))
        (F.state files.old) (F.state files.new) result
        (sinks (S.state out.old) (S.state out.new) (S.state err.old) (S.state err.new)) }
{
    let came = run_batch(
        context.rt,
        context.alloc,
        &batch.checked,
        &batch.names,
        files,
        batch.workers,
        hosts,
        context.gate,
        out,
    );
    match batch.ending(context.alloc, came) {
        Ok(ending) => match put_lines(err, &ending.messages) {
            Ok(()) => number(ending.status),
            Err(error) => number(put_status(error)),
        },
        Err(status) => number(status),
    }
}
