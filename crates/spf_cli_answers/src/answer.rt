//! What the program answers, before any of it is put on a sink.

ghost use Rattle.std.specs.Prelude.{◌≡◌, ◌≤◌, ◌<◌, ◌++◌, ◌∷◌, [], IfOk, IfErr, map};
ghost use Rattle.std.specs.Prelude.{string_bytes, length, true, false};
ghost use Rattle.spf_ast_lemmas.specs.Limits.{max_workers};
ghost use Rattle.spf_ast.specs.View.{program as seen_program, array as seen_array};
ghost use Rattle.spf_ast.specs.Program.{extents_from, outcome as outcome_of, seen_outcome};
ghost use Rattle.spf_ast.specs.Silence.{FunctionsAreSilent};
ghost use Rattle.spf_exec_instance.specs.Instance.{program_of};
ghost use Rattle.spf_guess_statistics.specs.Statistics.{none};
ghost use Rattle.spf_ast.specs.Lawful.{IsLawful};
ghost use Rattle.spf_cli_answers.specs.Message.{array_lines};
ghost use Rattle.spf_cli_words.specs.Command.{Check as check_command};
ghost use Rattle.spf_cli_words.specs.Command.{Explain as explain_command, Print as print_command};
ghost use Rattle.spf_cli_words.specs.Command.{IsUpTo, HasNumbers};
ghost use Rattle.spf_cli_answers.specs.Reading.{IsTextVerdict, Says};
ghost use Rattle.spf_check.specs.Accepting.{IsAccepted};
ghost use Rattle.spf_cli_answers.specs.Answer.{refused as refused_answer};
ghost use Rattle.spf_cli_answers.specs.Answer.{not_understood as not_understood_answer};
ghost use Rattle.spf_cli_answers.specs.Answer.{asked, accepted as accepted_answer};
ghost use Rattle.spf_cli_answers.specs.Answer.{rule_refused as refused_by_rule, file_failed};
ghost use Rattle.spf_cli_answers.specs.Answer.{too_many_cells, host_missing, stats_lines};
ghost use Rattle.spf_cli_words.specs.Asked.{seen_command, seen_options};
ghost use Rattle.spf_cli_answers.specs.Status.{status_number};
ghost use Rattle.spf_cli_words.specs.Only.{IsOnly};
ghost use Rattle.spf_cli_answers.specs.Whole.{Handed};
ghost use Rattle.spf_cli_answers.specs.Answering.{lines_of, seen_answer, IsFetchExit, IsReadExit};
ghost use Rattle.spf_cli_answers.specs.Answering.{IsAnswerToError, IsRuleExit, IsNotAccepted, IsRefusedRun};
ghost use Rattle.spf_cli_answers.specs.Replying.{IsBatch};
ghost use Rattle.spf_cli_answers.specs.Answering.{AnswersWith, IsLeftUnrun};
ghost use Rattle.spf_cli_answers.specs.Following.{Adds, AnswersRun, Follows, FollowsPlainRun};
ghost use Rattle.spf_cli_answers.specs.Following.{FollowsAllowedRun, FollowsRun, FollowsWith};
ghost use Rattle.spf_cli_answers.specs.Following.{IsFetched, IsReplyTo};
ghost use Rattle.spf_cli_answers.specs.Following.{RepliesTo, ToldAll, ToldFirst, Untold};
ghost use Rattle.spf_cli_answers.specs.Following.{given_by, ran_there, run_of};

use crate::context::Context;
use crate::message::{
    array_line, failed_line, host_line, long_line, rule_line, stats_line, too_many_line, trap_line,
    words_line,
};
use crate::programs::fetch_accepted;
use crate::reading::{Unread, read_program, refusal_line};
use crate::replaying::{replay_files, sim_files};
use crate::reply::{Reply, reply_with, reply_with_batch};
use crate::status::Status;
use crate::texts::{build_file, show_file};
use spf_ast::outcome::Outcome;
use spf_ast::syntax::{Array, Program};
use spf_check::check::check;
use spf_check::checked::Checked;
use spf_check::explain::explain;
use spf_check::rule::{CheckError, Refusal};
use spf_cli_words::{Command, Options, WordsError, read_words};
use spf_edge::{FetchError, Files};
use spf_engine::error::EngineError;
use spf_engine::run::{RunReport, run_whole};
use spf_exec::plain_run;
use spf_exec::tables::fill_tables;
use spf_exec_instance::arrays::max_cells_of;
use spf_exec_instance::instance::Instance;
use spf_exec_instance::layout::RunError;
use spf_guess::Predictor;
use spf_guess_statistics::stats::Stats;
use spf_print::print;
use spf_ticket_gate::Gate;
use std::alloc::{AllocError, Global};
use std::sync::Wait;
use std::thread::Threads;

/// How many bytes the file of a program may have.
pub(crate) const MAX_PROGRAM: u64 = 1_048_576;

/// How many bytes the file of an input may have.
pub(crate) const MAX_INPUT: u64 = 4_194_304;

/// How many workers run the blocks where the words don't say so.
const DEFAULT_WORKERS: u64 = 4;

/// A status, with the bytes for the output and the lines for the error stream.
#[derive(Drop)]
pub struct Answer {
    /// How the command ended.
    pub status: Status,
    /// What goes to the output.
    pub output: Vec<u8>,
    /// What goes to the error stream, line by line.
    pub messages: Vec<Vec<u8>>,
}

/// Why there is no more to do: the answer stands, or memory runs out.
#[derive(Drop)]
pub(crate) enum Exit {
    Answered(Answer),
    NoMemory,
}

impl From<AllocError> for Exit {
    ghost use Rattle.std.specs.Prelude.{◌≡◌};
    ghost use Rattle.spf_cli_answers.specs.declared.answer.Exit.TheVariants.{NoMemory};

    ghost from_gives = { λ _ left. left ≡ NoMemory };

    fn from(_: AllocError) -> Self {
        Exit::NoMemory
    }
}

/// Adds a line to messages.
pub(crate) fn push_line(messages: &mut Vec<Vec<u8>>, line: String) -> Result<(), AllocError>
    ensures { IfOk result
        (λ _. lines_of messages.new.items ≡ lines_of messages.old.items ++ string_bytes line ∷ []) }
{
    messages.push(line.into_bytes())?;
    Ok(())
}

/// An answer with one line, and nothing on the output.
fn answer_with_line(alloc: Global, status: Status, line: Vec<u8>) -> Result<Answer, AllocError>
    ensures { IfOk result (λ a. seen_answer a ≡ refused_answer (status_number status) line.items) }
{
    let mut messages = Vec::new(alloc);
    messages.push(line)?;
    Ok(Answer {
        status,
        output: Vec::new(alloc),
        messages,
    })
}

/// An answer with one line, given as text, and nothing on the output.
pub(crate) fn refuse(alloc: Global, status: Status, line: String) -> Result<Answer, AllocError>
    ensures { IfOk result
        (λ a. seen_answer a ≡ refused_answer (status_number status) (string_bytes line)) }
{
    answer_with_line(alloc, status, line.into_bytes())
}

/// The answer where the words aren't understood.
fn not_understood(alloc: Global) -> Result<Answer, AllocError>
    ensures { IfOk result (λ a. seen_answer a ≡ not_understood_answer) }
{
    refuse(alloc, Status::NotUnderstood, words_line(alloc)?)
}

/// The answer where a file can't be fetched.
fn answer_unfetched(alloc: Global, name: &str) -> Result<Answer, AllocError>
    ensures { IfOk result (λ a. seen_answer a ≡ file_failed name.now) }
{
    refuse(alloc, Status::FileFailed, failed_line(alloc, name)?)
}

/// The content of a file.
pub(crate) fn fetch<F: Files>(
    alloc: Global,
    files: &mut F,
    name: &str,
    limit: u64,
) -> Result<Vec<u8>, Exit>
    ensures content { IfOk result (λ content.
        IsFetched (F.state files.old) (F.state files.new) name.now limit content.items) }
    ensures left { IfErr result
        (IsFetchExit (F.state files.old) (F.state files.new) name.now limit) }
{
    match files.fetch(alloc, name, limit) {
        Ok(content) => Ok(content),
        Err(FetchError::Missing) => Err(Exit::Answered(answer_unfetched(alloc, name)?)),
        Err(FetchError::Failed) => Err(Exit::Answered(answer_unfetched(alloc, name)?)),
        Err(FetchError::TooLong) => Err(Exit::Answered(refuse(
            alloc,
            Status::OverLimit,
            long_line(alloc, name, limit)?,
        )?)),
        Err(FetchError::OutOfMemory) => Err(Exit::NoMemory),
    }
}

/// The program that a text says.
pub(crate) fn read(alloc: Global, text: &[u8]) -> Result<Program, Exit>
    ensures program { IfOk result (λ p. IsOnly (IsTextVerdict text.now) (Says (seen_program p))) }
    ensures left { IfErr result (IsReadExit text.now) }
{
    match read_program(alloc, text) {
        Ok(program) => Ok(program),
        Err(Unread::Refused(refusal)) => Err(Exit::Answered(refuse(
            alloc,
            Status::NoProgram,
            refusal_line(alloc, refusal)?,
        )?)),
        Err(Unread::NoMemory) => Err(Exit::NoMemory),
    }
}

/// The answer where a program keeps the rules.
fn answer_accepted(alloc: Global) -> Result<Answer, AllocError>
    ensures { IfOk result (λ a. seen_answer a ≡ accepted_answer) }
{
    answer_with_line(alloc, Status::Done, b"accepted\n".to_vec(alloc)?)
}

/// The answer where a top construct of a program breaks a rule.
fn rule_refused(alloc: Global, program: &Program, refusal: Refusal) -> Result<Answer, AllocError>
    ensures { IfOk result (λ a. seen_answer a
        ≡ refused_by_rule (seen_program program.now) refusal.rule refusal.line refusal.range) }
{
    let line = rule_line(alloc, &program.arrays, refusal)?;
    answer_with_line(alloc, Status::Refused, line)
}

/// What is left where a program isn't accepted.
fn not_accepted(alloc: Global, error: CheckError) -> Exit
    ensures { IsNotAccepted error result }
{
    match error {
        CheckError::Refused { program, refusal } => match rule_refused(alloc, &program, refusal) {
            Ok(given) => Exit::Answered(given),
            Err(_) => Exit::NoMemory,
        },
        CheckError::OutOfMemory { .. } => Exit::NoMemory,
    }
}

/// Has the rules accept a program.
pub(crate) fn accept(alloc: Global, program: Program) -> Result<Checked, Exit>
    requires lawful { IsLawful (seen_program program) }
    ensures same { IfOk result (λ checked. checked ≡ program) }
    ensures accepted { IfOk result (λ _. IsAccepted (seen_program program)) }
    ensures left { IfErr result (IsRuleExit (seen_program program)) }
{
    match check(alloc, program) {
        Ok(checked) => Ok(checked),
        Err(error) => Err(not_accepted(alloc, error)),
    }
}

/// Adds the statistics, where they are asked for.
fn push_stats(
    alloc: Global,
    messages: &mut Vec<Vec<u8>>,
    options: Options,
    stats: Stats,
) -> Result<(), AllocError>
    ensures { IfOk result (λ _. lines_of messages.new.items
        ≡ lines_of messages.old.items ++ stats_lines (seen_options options) stats) }
{
    if options.stats {
        let line = stats_line(alloc, stats.blocks, stats.hits, stats.misses, stats.blind)?;
        push_line(messages, line)?;
    }
    Ok(())
}

/// Adds the lines of arrays, whose cells follow each other, for an input of `len` bytes.
fn push_arrays(
    alloc: Global,
    messages: &mut Vec<Vec<u8>>,
    arrays: &[Array],
    extents: &[(u64, u64)],
    len: u64,
    cells: &[i64],
) -> Result<(), AllocError>
    requires { extents.now ≡ extents_from len 0 (map seen_array arrays.now) }
    ensures { IfOk result (λ _. Adds messages.old.items messages.new.items
        (array_lines len (map seen_array arrays.now) cells.now)) }
{
    let mut rest = cells;
    for (index, array) in arrays.iter().enumerate() {
        let (_, size) = extents[index];
        let (own, others) = rest.split_at((size as usize).min(rest.len()));
        messages.push(array_line(alloc, &array.name, own)?)?;
        rest = others;
    }
    Ok(())
}

/// Adds the lines of an instance's cells, where they are asked for.
fn push_cells(
    alloc: Global,
    messages: &mut Vec<Vec<u8>>,
    options: Options,
    instance: &Instance,
    cells: &[i64],
) -> Result<(), AllocError>
    ensures { IfOk result (λ _. Adds messages.old.items messages.new.items (asked options.cells
        (array_lines (length instance.now.input) (program_of instance.now).arrays cells.now))) }
{
    if options.cells {
        push_arrays(
            alloc,
            messages,
            &instance.program().arrays,
            instance.layout().extents(),
            instance.input().len() as u64,
            cells,
        )?;
    }
    Ok(())
}

/// The answer of a run that ended so.
fn answer_of_run(
    alloc: Global,
    options: Options,
    instance: &Instance,
    outcome: Outcome,
    stats: Stats,
) -> Result<Answer, AllocError>
    ensures { IfOk result (λ a. seen_answer a
        ≡ ran_there options instance.now (seen_outcome outcome) stats) }
{
    let mut messages = Vec::new(alloc);
    match outcome {
        Outcome::Done { cells, output } => {
            push_stats(alloc, &mut messages, options, stats)?;
            push_cells(alloc, &mut messages, options, instance, &cells)?;
            Ok(Answer {
                status: Status::Done,
                output,
                messages,
            })
        }
        Outcome::Trapped { trap, output } => {
            push_line(&mut messages, trap_line(alloc, trap)?)?;
            push_stats(alloc, &mut messages, options, stats)?;
            Ok(Answer {
                status: Status::Trapped,
                output,
                messages,
            })
        }
    }
}

/// The answer of a run by blocks that came to its end.
fn answer_of_blocks(
    alloc: Global,
    options: Options,
    run: (Instance, RunReport),
) -> Result<Answer, AllocError>
    ensures { IfOk result (λ a. seen_answer a
        ≡ ran_there options run.entry.0 (seen_outcome run.entry.1.outcome) run.entry.1.stats) }
{
    let (instance, report) = run;
    answer_of_run(alloc, options, &instance, report.outcome, report.stats)
}

/// The answer where the arrays of a program have too many cells, or memory runs out.
fn not_run(alloc: Global, program: &Program, error: RunError) -> Exit
    ensures { IsRefusedRun (seen_program program.now) error result }
{
    match error {
        RunError::TooManyCells { count } => match too_many(alloc, count, max_cells_of(program)) {
            Ok(given) => Exit::Answered(given),
            Err(_) => Exit::NoMemory,
        },
        RunError::OutOfMemory => Exit::NoMemory,
    }
}

/// The answer where the arrays have `count` cells, which is over the limit.
fn too_many(alloc: Global, count: u128, limit: u32) -> Result<Answer, AllocError>
    ensures { IfOk result (λ a. seen_answer a ≡ too_many_cells count limit) }
{
    refuse(
        alloc,
        Status::OverLimit,
        too_many_line(alloc, count, limit)?,
    )
}

/// The answer where a host isn't supplied.
pub(crate) fn without_host(alloc: Global, host: u64) -> Result<Answer, AllocError>
    ensures { IfOk result (λ a. seen_answer a ≡ host_missing host) }
{
    refuse(alloc, Status::OverLimit, host_line(alloc, host)?)
}

/// The answer where a run by blocks did not reach its end.
pub(crate) fn answer_of_error(
    alloc: Global,
    program: &Program,
    error: EngineError,
) -> Result<Answer, Exit>
    ensures { AnswersWith (IsAnswerToError (seen_program program.now) error) result }
{
    match error {
        EngineError::TooManyCells { count } => {
            Ok(too_many(alloc, count, max_cells_of(program))?)
        }
        EngineError::NoHost { number } => Ok(without_host(alloc, number)?),
        EngineError::OutOfMemory => Err(Exit::NoMemory),
    }
}

/// The answer of an instance that is run by the plain meaning.
fn answer_plainly(
    alloc: Global,
    options: Options,
    mut instance: Instance,
) -> Result<Answer, AllocError>
    requires { FunctionsAreSilent (program_of instance).functions }
    ensures { IfOk result (λ a. seen_answer a ≡ ran_there options instance.entry
        (outcome_of (program_of instance.entry) instance.entry.input) none) }
{
    fill_tables(alloc, &mut instance)?;
    let outcome = plain_run::run_instance(alloc, &instance)?;
    answer_of_run(alloc, options, &instance, outcome, Stats::none())
}

/// The answer of a run by the plain meaning.
fn run_plainly(
    alloc: Global,
    options: Options,
    program: &Program,
    input: &[u8],
) -> Result<Answer, Exit>
    requires lawful { IsLawful (seen_program program.now) }
    requires plain { options.plain ≡ true }
    ensures { (given : Handed)
        → AnswersRun (seen_options options) given (seen_program program.now) input.now result }
{
    // Laws: no `break` of a lawful program leaves `main` or a part, and no function of it emits.
    spf_ast::laws::breaks_stay_in_their_loops();
    spf_ast::laws::lawful_programs_are_quiet_and_small();
    match Instance::make(alloc, program, input) {
        Ok(instance) => Ok(answer_plainly(alloc, options, instance)?),
        Err(error) => Err(not_run(alloc, program, error)),
    }
}

/// How many workers run the blocks: as many as the words say, otherwise 4.
pub(crate) fn worker_count(said: Option<u64>) -> u64
    requires workers { IsUpTo max_workers said }
    ensures { (0 < result) × (result ≤ max_workers) }
{
    said.unwrap_or(DEFAULT_WORKERS)
}

/// The answer of `run` with `--plain` over a program, on the file of an input.
fn run_plainly_on<F: Files>(
    alloc: Global,
    program: &Program,
    input: &str,
    options: Options,
    files: &mut F,
) -> Result<Answer, Exit>
    requires lawful { IsLawful (seen_program program.now) }
    requires plain { options.plain ≡ true }
    ensures { FollowsPlainRun options input.now (seen_program program.now)
        (F.state files.old) (F.state files.new) result }
{
    let content = fetch(alloc, files, input, MAX_INPUT)?;
    run_plainly(alloc, options, program, &content)
}

/// The answer of `check` over a file.
fn check_file<F: Files>(alloc: Global, program: &str, files: &mut F) -> Result<Answer, Exit>
    ensures { Follows (check_command program.now) (F.state files.old) (F.state files.new) result }
{
    // Law: a program has one verdict and one explanation.
    crate::laws::rules_say_one_thing();
    fetch_accepted(alloc, program, files)?;
    Ok(answer_accepted(alloc)?)
}

/// The answer of `explain` over a file.
fn explain_file<F: Files>(alloc: Global, program: &str, files: &mut F) -> Result<Answer, Exit>
    ensures { Follows (explain_command program.now) (F.state files.old) (F.state files.new) result }
{
    // Law: a program has one verdict and one explanation.
    crate::laws::rules_say_one_thing();
    let text = fetch(alloc, files, program, MAX_PROGRAM)?;
    let parsed = read(alloc, &text)?;
    let explanation = explain(alloc, &parsed)?;
    Ok(Answer {
        status: Status::Done,
        output: explanation,
        messages: Vec::new(alloc),
    })
}

/// The answer of `print` over a file.
fn print_file<F: Files>(alloc: Global, program: &str, files: &mut F) -> Result<Answer, Exit>
    ensures { Follows (print_command program.now) (F.state files.old) (F.state files.new) result }
{
    let text = fetch(alloc, files, program, MAX_PROGRAM)?;
    let parsed = read(alloc, &text)?;
    Ok(Answer {
        status: Status::Done,
        output: print(alloc, &parsed)?,
        messages: Vec::new(alloc),
    })
}

impl<'a, R: Threads + Wait + Sync, G: Gate + Sync> Context<'a, R, G> {
    /// The answer of a run by blocks from guesses.
    pub(crate) fn run_by_blocks(
        &self,
        options: Options,
        checked: &Checked,
        input: &[u8],
        hosts: &mut Vec<Box<dyn Predictor>>,
    ) -> Result<Answer, Exit>
        requires blocks { options.plain ≡ false }
        requires workers { IsUpTo max_workers options.workers }
        ensures answer { AnswersRun (seen_options options) (given_by answer hosts.old.items)
            (seen_program checked.now) input.now result }
        ensures told_first { ToldFirst answer hosts.old.items hosts.new.items
            (seen_program checked.now) input.now }
        ensures told { AnswersWith
            (ToldAll answer hosts.old.items hosts.new.items (seen_program checked.now) input.now)
            result }
        ensures unrun { AnswersWith (λ a. IsLeftUnrun a
            → Untold answer hosts.old.items hosts.new.items) result }
    {
        let workers = worker_count(options.workers);
        match run_whole(
            self.rt, self.alloc, checked, input, workers, hosts, self.gate,
        ) {
            Ok(run) => Ok(answer_of_blocks(self.alloc, options, run)?),
            Err(error) => answer_of_error(self.alloc, checked.program(), error),
        }
    }

    /// The answer of `run` over an accepted program, on the file of an input.
    fn run_by_blocks_on<F: Files>(
        &self,
        checked: &Checked,
        input: &str,
        options: Options,
        files: &mut F,
        hosts: &mut Vec<Box<dyn Predictor>>,
    ) -> Result<Answer, Exit>
        requires blocks { options.plain ≡ false }
        requires workers { IsUpTo max_workers options.workers }
        ensures { FollowsRun answer hosts.old.items options input.now checked.now
            (F.state files.old) (F.state files.new) result }
    {
        let content = fetch(self.alloc, files, input, MAX_INPUT)?;
        self.run_by_blocks(options, checked, &content, hosts)
    }

    /// The answer of `run` with a program, on the file of an input.
    fn run_parsed<F: Files>(
        &self,
        program: Program,
        input: &str,
        options: Options,
        files: &mut F,
        hosts: &mut Vec<Box<dyn Predictor>>,
    ) -> Result<Answer, Exit>
        requires lawful { IsLawful (seen_program program) }
        requires workers { IsUpTo max_workers options.workers }
        ensures { FollowsAllowedRun answer hosts.old.items options input.now program
            (F.state files.old) (F.state files.new) result }
    {
        // Law: a program has one verdict and one explanation.
        crate::laws::rules_say_one_thing();
        if options.plain {
            return run_plainly_on(self.alloc, &program, input, options, files);
        }
        let checked = accept(self.alloc, program)?;
        self.run_by_blocks_on(&checked, input, options, files, hosts)
    }

    /// The answer of `run` over two files.
    fn run_files<F: Files>(
        &self,
        program: &str,
        input: &str,
        options: Options,
        files: &mut F,
        hosts: &mut Vec<Box<dyn Predictor>>,
    ) -> Result<Answer, Exit>
        requires workers { IsUpTo max_workers options.workers }
        ensures { FollowsWith answer hosts.old.items (run_of program.now input.now options)
            (F.state files.old) (F.state files.new) result }
    {
        let text = fetch(self.alloc, files, program, MAX_PROGRAM)?;
        let parsed = read(self.alloc, &text)?;
        self.run_parsed(parsed, input, options, files, hosts)
    }

    /// The reply to a command.
    fn answer_command<F: Files>(
        &self,
        command: Command,
        files: &mut F,
        hosts: &mut Vec<Box<dyn Predictor>>,
    ) -> Result<Reply, Exit>
        requires numbers { HasNumbers (seen_command command) }
        ensures reply { RepliesTo (given_by answer hosts.old.items) (seen_command command.entry)
            (F.state files.old) (F.state files.new) result }
        ensures idle { IfOk result (λ reply. IsBatch reply → hosts.new ≡ hosts.old) }
    {
        match command {
            Command::Run {
                program,
                input,
                options,
            } => reply_with(self.run_files(program, input, options, files, hosts)),
            Command::Check { program } => reply_with(check_file(self.alloc, program, files)),
            Command::Explain { program } => reply_with(explain_file(self.alloc, program, files)),
            Command::Print { program } => reply_with(print_file(self.alloc, program, files)),
            Command::Unpack { input, options } => reply_with(self.unpack_file(
                input, options, files,
            )),
            Command::Unhuff { input, options } => reply_with(self.unhuff_file(
                input, options, files,
            )),
            Command::Lex {
                machine,
                input,
                options,
            } => reply_with(self.lex_files(machine, input, options, files)),
            Command::Show { machine } => reply_with(show_file(self.alloc, machine, files)),
            Command::Build { text } => reply_with(build_file(self.alloc, text, files)),
            Command::Sim {
                program,
                input,
                seed,
            } => reply_with(sim_files(self.alloc, program, input, seed, files, hosts)),
            Command::Replay {
                program,
                input,
                log,
            } => reply_with(replay_files(self.alloc, program, input, log, files, hosts)),
            Command::Batch {
                program,
                list,
                workers,
            } => {
                let count = hosts.len() as u64;
                reply_with_batch(self.read_batch(program, list, workers, count, files))
            }
            Command::Demo {
                kind,
                seed,
                size,
                workers,
            } => reply_with(self.demo(kind, seed, size, workers)),
        }
    }
}

/// Returns the reply to the words of a command line: the whole answer, or a batch that can begin.
///
/// `words` are the words after the program's name and after those that ask for hosts. `files` are
/// those that the words name. `hosts` are the predictors that a program names by number; they are
/// asked and told here, but not by a batch, which is still to be run. `gate` watches the attempts.
/// Blocks run in threads, and the call waits for them.
pub fn answer_words<R: Threads + Wait + Sync, F: Files, G: Gate + Sync>(
    rt: &R,
    alloc: Global,
    words: &[String],
    files: &mut F,
    hosts: &mut Vec<Box<dyn Predictor>>,
    gate: &G,
) -> Result<Reply, AllocError>
    // The files that the command needs are fetched, each once and in order, and what they give
    // decides the answer. Of a batch those before its first file are fetched.
    ensures reply { IfOk result (IsReplyTo (given_by answer hosts.old.items) words.now
        (F.state files.old) (F.state files.new)) }
    ensures idle { IfOk result (λ reply. IsBatch reply → hosts.new ≡ hosts.old) }
{
    let command = match read_words(alloc, words) {
        Ok(command) => command,
        Err(WordsError::NotUnderstood) => {
            let given = not_understood(alloc)?;
            return Ok(Reply::Answer(given));
        }
        Err(WordsError::OutOfMemory) => return Err(AllocError),
    };
    let context = Context { rt, alloc, gate };
    match context.answer_command(command, files, hosts) {
        Ok(reply) => Ok(reply),
        Err(Exit::Answered(given)) => Ok(Reply::Answer(given)),
        Err(Exit::NoMemory) => Err(AllocError),
    }
}
