//! What the program does with the words after its name: the help and the version, the hosts, and
//! the command.
#![tactic(auto)]

ghost use Rattle.std.specs.Prelude.{◌≡◌, ℕ, List, map, drop, string_bytes, IfOk, IfErr, Err};
ghost use Rattle.spf_cli_host_words.specs.HostWords.{Reading, Say, SayNothing};
ghost use Rattle.spf_cli_words.specs.declared.command.WordsError.TheVariants.{NotUnderstood};
ghost use Rattle.spf_cli_answers.specs.Status.{status_number};
ghost use Rattle.spf_cli_answers.specs.Whole.{handed, Whole};
ghost use Rattle.spf_cli.specs.Answered.{sinks, IsAnswered};
ghost use Rattle.spf_cli_help.specs.Pages.{IsAnswer};
ghost use Rattle.spf_cli_hosts.specs.Hosts.{answers_of};
ghost use Rattle.spf_cli_shell.specs.Shell.{AskForNoPage, IsTextPut, IsShown, AreRefused};

use spf_cli::spf_main;
use spf_cli_answers::{Status, number};
use spf_cli_help::usage;
use spf_cli_host_words::read_hosts;
use spf_cli_hosts::Host;
use spf_cli_words::WordsError;
use spf_edge::{Files, PutError, Sink};
use spf_guess::Predictor;
use spf_ticket_gate::Open;
use std::alloc::Global;
use std::sync::Wait;
use std::thread::Threads;

/// Makes the hosts that the words ask for, does what the words after them ask for, and gives the
/// status.
fn run_command<R: Threads + Wait + Sync, F: Files, S: Sink>(
    rt: &R,
    alloc: Global,
    words: &[String],
    files: &mut F,
    out: &mut S,
    err: &mut S,
) -> Result<u8, WordsError>
    ensures answered { (reading : Reading) → Say (map string_bytes words.now) reading
        → IfOk result (λ status. IsAnswered (Whole (handed (map answers_of reading.kinds))
        (drop reading.rest (map string_bytes words.now))) (F.state files.old) (F.state files.new)
        status (sinks (S.state out.old) (S.state out.new) (S.state err.old) (S.state err.new))) }
    ensures says { IfOk result
        (λ _. (reading : Reading) × Say (map string_bytes words.now) reading) }
    ensures nothing { result ≡ Err NotUnderstood → SayNothing (map string_bytes words.now) }
    ensures unput { IfErr result (λ _.
        (S.state out.new ≡ S.state out.old) × (S.state err.new ≡ S.state err.old)) }
    ensures unfetched { IfErr result (λ _. F.state files.new ≡ F.state files.old) }
{
    let asked = read_hosts(alloc, words)?;
    let mut hosts: Vec<Box<dyn Predictor>> = Vec::new(alloc);
    for kind in &asked.kinds {
        hosts.push(Box::new(alloc, Host::make(alloc, *kind)?)?)?;
    }
    let (_, command) = words.split_at((asked.rest as usize).min(words.len()));
    Ok(spf_main(rt, alloc, command, files, out, err, hosts, &Open))
}

/// Puts a text, and gives this status, or that of a put that failed or found no memory.
fn put_text<S: Sink>(sink: &mut S, text: &str, status: Status) -> u8
    ensures { IsTextPut text.now (status_number status) result (S.state sink.old)
        (S.state sink.new) }
{
    match sink.put(text.as_bytes()) {
        Ok(()) => number(status),
        Err(PutError::Failed) => number(Status::PutFailed),
        Err(PutError::OutOfMemory) => number(Status::NoMemory),
    }
}

/// Does what the words after the program's name ask for, and gives the status with which the
/// program ends: 0 where the help or the version is shown, 2 where the words for hosts aren't
/// understood and the error stream took the line that says so, and else that of [`spf_main`].
pub fn run_words<R: Threads + Wait + Sync, F: Files, S: Sink>(
    rt: &R,
    alloc: Global,
    words: &[String],
    files: &mut F,
    out: &mut S,
    err: &mut S,
) -> u8
    // The help or the version is shown, and no file is fetched.
    ensures shown { (text : List ℕ) → IsAnswer (map string_bytes words.now) text
        → IsShown text result
        (sinks (S.state out.old) (S.state out.new) (S.state err.old) (S.state err.new))
        × (F.state files.new ≡ F.state files.old) }

    // Words with a broken pair for a host aren't understood, and no file is fetched.
    ensures not_understood { AskForNoPage (map string_bytes words.now)
        → SayNothing (map string_bytes words.now)
        → AreRefused result
        (sinks (S.state out.old) (S.state out.new) (S.state err.old) (S.state err.new))
        × (F.state files.new ≡ F.state files.old) }

    // Any others are answered as the words after the pairs are, with hosts of the kinds that these
    // ask for.
    ensures answered { (reading : Reading) → AskForNoPage (map string_bytes words.now)
        → Say (map string_bytes words.now) reading
        → IsAnswered (Whole (handed (map answers_of reading.kinds))
        (drop reading.rest (map string_bytes words.now))) (F.state files.old) (F.state files.new)
        result (sinks (S.state out.old) (S.state out.new) (S.state err.old) (S.state err.new)) }
{
    if let Some(text) = usage(words) {
        return put_text(out, text, Status::Done);
    }
    match run_command(rt, alloc, words, files, out, err) {
        Ok(status) => status,
        Err(WordsError::NotUnderstood) => {
            let line = "words not understood\n";
            put_text(err, line, Status::NotUnderstood)
        }
        Err(WordsError::OutOfMemory) => number(Status::NoMemory),
    }
}
