//! A run over bytes at hand.

ghost use Rattle.std.specs.Prelude.{◌≡◌, ◌⊎◌, ◌≤◌, ◌<◌, []};
ghost use Rattle.spf_ast_lemmas.specs.Limits.{max_workers};
ghost use Rattle.spf_ast.specs.Syntax.{Program};
ghost use Rattle.spf_guess_statistics.specs.Statistics.{tally};
ghost use Rattle.spf_guess.specs.Answers.{WereTold, supplied};
ghost use Rattle.spf_engine.specs.Runs.{WereToldFirst};
ghost use Rattle.spf_edge.specs.Faults.{Rose};
ghost use Rattle.spf_cli_answers.specs.Reading.{IsTextVerdict, TextRefusal, Refuses, Says};
ghost use Rattle.spf_cli_answers.specs.Following.{given_by};
ghost use Rattle.spf_cli_answers.specs.Whole.{RunsText};
ghost use Rattle.spf_cli.specs.Answered.{sinks, IsPut, IsUntouched};

use crate::putting::{put, put_status};
use spf_cli_answers::{Status, answer_text, number};
use spf_edge::Sink;
use spf_guess::Predictor;
use spf_ticket_gate::Gate;
use std::alloc::Global;
use std::sync::Wait;
use std::thread::Threads;

/// Runs a program over an input, both at hand: `run` with `--stats`, without files and without
/// limits on their lengths.
///
/// `program` is the text. `hosts` are the predictors that it names by number; they are asked before
/// a construct's blocks run, and told the real values after. `gate` watches the attempts. Blocks
/// run on 1 to 64 workers, in threads, and the call waits for them. The bytes that the program
/// emits go to `out`, and the line of a refusal or a trap, and that of the statistics, to `err`.
///
/// Returns the number of the [`Status`] with which it ended: there are no words to be understood,
/// and no files to be read.
pub fn run_file<R: Threads + Wait + Sync, S: Sink, G: Gate + Sync>(
    rt: &R,
    alloc: Global,
    program: &[u8],
    input: &[u8],
    workers: u64,
    hosts: &mut Vec<Box<dyn Predictor>>,
    gate: &G,
    out: &mut S,
    err: &mut S,
) -> u8
    requires workers { (0 < workers) × (workers ≤ max_workers) }
    // The one answer is put whole; or its first pieces are, until a sink failed or memory ran out.
    ensures answered { IsPut
        (RunsText (given_by answer hosts.old.items) workers program.now input.now)
        result (sinks (S.state out.old) (S.state out.new) (S.state err.old) (S.state err.new))
        ⊎ IsUntouched result
        (sinks (S.state out.old) (S.state out.new) (S.state err.old) (S.state err.new)) }

    // The hosts were told a prefix of what they are told in the whole run of the program that the
    // text says.
    ensures told_first { (p : Program) → IsTextVerdict program.now (Says p)
        → WereToldFirst (supplied answer hosts.old.items) p input.now
        (supplied answer hosts.new.items) }
    // They were told all of it where the program was run to its end or to its trap, and nothing
    // where the text says no program.
    ensures told { (p : Program) → IsTextVerdict program.now (Says p) → (result ≡ 0) ⊎ (result ≡ 1)
        → WereTold (supplied answer hosts.old.items)
        (tally (supplied answer hosts.old.items) p input.now).telling
        (supplied answer hosts.new.items) }
    ensures untold { (refusal : TextRefusal) → IsTextVerdict program.now (Refuses refusal)
        → WereTold (supplied answer hosts.old.items) []
        (supplied answer hosts.new.items) }
    // Nor were they told anything where the rules or a limit left the program unrun.
    ensures unrun { (result ≡ 4) ⊎ (result ≡ 7)
        → WereTold (supplied answer hosts.old.items) []
        (supplied answer hosts.new.items) }
    ensures put_fault { result ≡ 6 → Rose (S.state out.old).faults (S.state out.new).faults
        ⊎ Rose (S.state err.old).faults (S.state err.new).faults }
{
    // Law: statuses 2 and 5 come from their causes alone, and 6 and 8 never from the program.
    spf_cli_answers::laws::each_status_has_its_cause();
    let Ok(given) = answer_text(rt, alloc, program, input, workers, hosts, gate) else {
        return number(Status::NoMemory);
    };
    match put(&given, out, err) {
        Ok(()) => number(given.status),
        Err(error) => number(put_status(error)),
    }
}
