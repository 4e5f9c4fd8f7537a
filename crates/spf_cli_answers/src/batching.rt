//! The command `batch`: what comes before its first file, and how it ends.

ghost use Rattle.std.specs.Prelude.{◌≡◌, ◌∷◌, [], map, string_bytes, IfOk, IfErr};
ghost use Rattle.std.specs.Prelude.{MatchResult, None};
ghost use Rattle.spf_ast.specs.Construct.{constructs_in};
ghost use Rattle.spf_ast.specs.View.{program as seen_program};
ghost use Rattle.spf_guess.specs.Missing.{missing_host};
ghost use Rattle.spf_ast_lemmas.specs.Limits.{max_workers};
ghost use Rattle.spf_batch_lists.specs.Lists.{AreNames};
ghost use Rattle.spf_cli_words.specs.Command.{Batch as batch_command, IsUpTo};
ghost use Rattle.spf_cli_answers.specs.Answer.{not_a_name as not_a_name_answer};
ghost use Rattle.spf_cli_answers.specs.Answering.{lines_of, seen_answer};
ghost use Rattle.spf_cli_answers.specs.Ending.{BreaksWith, NamesOneOf};
ghost use Rattle.spf_cli_answers.specs.Message.{files_line as files_line_of};
ghost use Rattle.spf_cli_answers.specs.Replying.{IsHostExit, IsList, IsListExit, IsNoList};
ghost use Rattle.spf_cli_answers.specs.Status.{status_number};
ghost use Rattle.spf_cli_answers.specs.Following.{BatchAnswers, BatchBegins, IsEndingOf};

use crate::answer::{Answer, Exit, MAX_INPUT, fetch, refuse, without_host, worker_count};
use crate::batch::Batch;
use crate::context::Context;
use crate::message::{failed_line, files_line, host_line, long_line, not_name_line, too_many_line};
use crate::programs::fetch_accepted;
use crate::status::Status;
use spf_ast::syntax::Program;
use spf_batch::{BatchError, Totals};
use spf_batch_lists::{ListError, read_names};
use spf_edge::Files;
use spf_exec_instance::arrays::max_cells_of;
use spf_guess::missing::first_missing;
use spf_ticket_gate::Gate;
use std::alloc::{AllocError, Global};
use std::sync::Wait;
use std::thread::Threads;

/// How many bytes the file of a list may have.
const MAX_LIST: u64 = 1_048_576;

/// How a batch ended, beside the answers of its files.
#[derive(Drop)]
pub struct Ending {
    /// The status.
    pub status: Status,
    /// The line for the error stream.
    pub messages: Vec<Vec<u8>>,
}

/// The answer where this line of a list isn't a name.
fn not_a_name(alloc: Global, number: u64) -> Result<Answer, AllocError>
    ensures { IfOk result (λ a. seen_answer a ≡ not_a_name_answer number) }
{
    refuse(alloc, Status::WrongFormat, not_name_line(alloc, number)?)
}

/// The names of a list.
fn names_of(alloc: Global, list: &[u8]) -> Result<Vec<String>, Exit>
    ensures names { IfOk result (λ names. AreNames list.now (map string_bytes names.items)) }
    ensures left { IfErr result (IsListExit list.now) }
{
    match read_names(alloc, list) {
        Ok(names) => Ok(names),
        Err(ListError::NotAName { line }) => Err(Exit::Answered(not_a_name(alloc, line)?)),
        Err(ListError::OutOfMemory) => Err(Exit::NoMemory),
    }
}

/// The names that the file of a list has.
fn fetch_names<F: Files>(alloc: Global, list: &str, files: &mut F) -> Result<Vec<String>, Exit>
    ensures names { IfOk result (λ names. IsList (F.state files.old) (F.state files.new) list.now
        (map string_bytes names.items)) }
    ensures left { IfErr result (IsNoList (F.state files.old) (F.state files.new) list.now) }
{
    let content = fetch(alloc, files, list, MAX_LIST)?;
    names_of(alloc, &content)
}

/// Looks whether the hosts of a program are supplied, where they are this many.
fn all_supplied(alloc: Global, program: &Program, hosts: u64) -> Result<(), Exit>
    ensures all { IfOk result
        (λ _. missing_host hosts (constructs_in (seen_program program.now).main) ≡ None) }
    ensures left { IfErr result
        (IsHostExit (missing_host hosts (constructs_in (seen_program program.now).main))) }
{
    match first_missing(program, hosts) {
        Some(host) => Err(Exit::Answered(without_host(alloc, host)?)),
        None => Ok(()),
    }
}

/// One line, as messages.
fn one_line(alloc: Global, line: String) -> Result<Vec<Vec<u8>>, AllocError>
    ensures { IfOk result (λ messages. lines_of messages.items ≡ string_bytes line ∷ []) }
{
    let mut messages = Vec::new(alloc);
    messages.push(line.into_bytes())?;
    Ok(messages)
}

/// The ending of a batch whose files all have their answers.
fn all_answered(alloc: Global, totals: Totals) -> Result<Ending, AllocError>
    ensures status { IfOk result (λ ending. status_number ending.status ≡ 0) }
    ensures lines { IfOk result (λ ending. lines_of ending.messages.items
        ≡ files_line_of totals.files totals.stats ∷ []) }
{
    let line = files_line(alloc, totals.files, totals.stats)?;
    Ok(Ending {
        status: Status::Done,
        messages: one_line(alloc, line)?,
    })
}

impl<'a, R: Threads + Wait + Sync, G: Gate + Sync> Context<'a, R, G> {
    /// The batch of a program and of the files that a list names, where `hosts` hosts are supplied.
    pub(crate) fn read_batch<F: Files>(
        &self,
        program: &str,
        list: &str,
        workers: Option<u64>,
        hosts: u64,
        files: &mut F,
    ) -> Result<Batch, Exit>
        requires workers { IsUpTo max_workers workers }
        ensures ready { BatchBegins hosts (batch_command program.now list.now workers)
            (F.state files.old) (F.state files.new) result }
        ensures left { BatchAnswers hosts (batch_command program.now list.now workers)
            (F.state files.old) (F.state files.new) result }
    {
        // Laws: a program has one verdict, and a list is names or has a first bad line.
        crate::laws::rules_say_one_thing();
        spf_batch_lists::laws::lists_have_one_verdict();
        let checked = fetch_accepted(self.alloc, program, files)?;
        let names = fetch_names(self.alloc, list, files)?;
        all_supplied(self.alloc, checked.program(), hosts)?;
        Ok(Batch {
            checked,
            names,
            workers: worker_count(workers),
        })
    }
}

impl Batch {
    /// Returns the ending of a batch that came to this.
    ///
    /// # Errors
    ///
    /// The status alone, where there is no line: after a put that failed, or without memory.
    pub fn ending(&self, alloc: Global, came: Result<Totals, BatchError>) -> Result<Ending, Status>
        requires named { IfErr came (NamesOneOf (map string_bytes self.now.names.items)) }
        ensures { MatchResult result
            (IsEndingOf self.now came)
            (λ status. BreaksWith came (status_number status)) }
    {
        let (status, line) = match came {
            Ok(totals) => return Ok(all_answered(alloc, totals)?),
            Err(BatchError::Fetch { place }) => {
                let name = &self.names[place as usize];
                (Status::FileFailed, failed_line(alloc, name)?)
            }
            Err(BatchError::TooLong { place }) => {
                let name = &self.names[place as usize];
                (Status::OverLimit, long_line(alloc, name, MAX_INPUT)?)
            }
            Err(BatchError::TooManyCells { count, .. }) => {
                let limit = max_cells_of(self.checked.program());
                (Status::OverLimit, too_many_line(alloc, count, limit)?)
            }
            Err(BatchError::NoHost { number }) => (Status::OverLimit, host_line(alloc, number)?),
            Err(BatchError::Put) => return Err(Status::PutFailed),
            Err(BatchError::OutOfMemory) => return Err(Status::NoMemory),
        };
        Ok(Ending {
            status,
            messages: one_line(alloc, line)?,
        })
    }
}
