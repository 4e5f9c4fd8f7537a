//! The top call: all that the program does.

ghost use Rattle.std.specs.Prelude.{◌≡◌, ◌⊎◌, List, Some, map, string_bytes};
ghost use Rattle.spf_edge.specs.Entries.{Entry};
ghost use Rattle.spf_edge.specs.Faults.{Rose};
ghost use Rattle.spf_cli_answers.specs.Following.{given_by};
ghost use Rattle.spf_cli_answers.specs.Whole.{AskForNothing, Whole};
ghost use Rattle.spf_cli.specs.Answered.{sinks, IsAnswered};

use crate::batch::put_batch;
use crate::putting::{put, put_status};
use spf_cli_answers::{Context, Reply, Status, answer_words, number};
use spf_edge::{Files, Sink};
use spf_guess::Predictor;
use spf_ticket_gate::Gate;
use std::alloc::{AllocError, Global};
use std::sync::Wait;
use std::thread::Threads;

/// Does all that the program does: reads the words of its command line, fetches the files that they
/// name, and puts the answer. The output is put in pieces of 4,096 bytes, of which only the last
/// may be shorter, and then each line on the error stream. After a put that failed, nothing more is
/// put. A batch puts the answer of each file before it fetches the next one, each in pieces of its
/// own.
///
/// `words` are the words after the program's name and after those that ask for hosts. `hosts` are
/// the predictors that a program names by number; they are asked, told and dropped here. `gate`
/// watches the attempts. Blocks run in threads, and the call waits for them.
///
/// Returns the number of the [`Status`] with which the program ends.
pub fn spf_main<R: Threads + Wait + Sync, F: Files, S: Sink, G: Gate + Sync>(
    rt: &R,
    alloc: Global,
    words: &[String],
    files: &mut F,
    out: &mut S,
    err: &mut S,
    hosts: Vec<Box<dyn Predictor>>,
    gate: &G,
) -> u8
    // The files of the command are fetched, each once and in order, and the one answer to what they
    // give is put whole; or its first pieces are, until a sink failed or memory ran out. A batch
    // may be broken off between its files, too.
    ensures answered { IsAnswered
        (Whole (given_by answer hosts.items) (map string_bytes words.now))
        (F.state files.old) (F.state files.new) result
        (sinks (S.state out.old) (S.state out.new) (S.state err.old) (S.state err.new)) }

    // So a status for words, a file or a sink is given only where words aren't understood, or a
    // file or a sink has failed.
    ensures understood { result ≡ 2 → AskForNothing (map string_bytes words.now) }
    ensures file_fault { result ≡ 5 → Rose (F.state files.old).faults (F.state files.new).faults
        ⊎ ((told : List Entry) × ((F.state files.old).told ≡ Some told)) }
    ensures put_fault { result ≡ 6 → Rose (S.state out.old).faults (S.state out.new).faults
        ⊎ Rose (S.state err.old).faults (S.state err.new).faults }
{
    // Law: statuses 2 and 5 come from their causes alone, and 6 and 8 never from the program.
    spf_cli_answers::laws::each_status_has_its_cause();
    let mut hosts = hosts;
    match answer_words(rt, alloc, words, files, &mut hosts, gate) {
        Ok(Reply::Answer(given)) => match put(&given, out, err) {
            Ok(()) => number(given.status),
            Err(error) => number(put_status(error)),
        },
        Ok(Reply::Batch(batch)) => {
            let context = Context { rt, alloc, gate };
            put_batch(&context, &batch, files, &mut hosts, out, err)
        }
        Err(AllocError) => number(Status::NoMemory),
    }
}
