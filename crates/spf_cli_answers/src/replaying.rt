//! The answers of `sim` and `replay`: logs of runs.

ghost use Rattle.std.specs.Prelude.{◌≡◌, ◌++◌, IfOk, IfErr, None, length};
ghost use Rattle.spf_ast.specs.Construct.{constructs_in};
ghost use Rattle.spf_ast.specs.View.{program as seen_program};
ghost use Rattle.spf_ast.specs.Program.{seen_outcome};
ghost use Rattle.spf_exec_instance.specs.Instance.{program_of};
ghost use Rattle.spf_guess.specs.Missing.{missing_host};
ghost use Rattle.spf_replay_log.specs.Log.{IsLog, sections_of};
ghost use Rattle.spf_replay_sim.specs.Drawing.{AreOfFewBlocks};
ghost use Rattle.spf_cli_words.specs.Command.{Sim as sim, Replay as replay};
ghost use Rattle.spf_cli_words.specs.Only.{IsOnly};
ghost use Rattle.spf_cli_answers.specs.Answer.{not_a_log as not_a_log_answer};
ghost use Rattle.spf_cli_answers.specs.Answer.{too_many_steps as too_many_steps_answer};
ghost use Rattle.spf_cli_answers.specs.Answer.{end_status, trap_lines};
ghost use Rattle.spf_cli_answers.specs.Answer.{judged as judged_answer};
ghost use Rattle.spf_cli_answers.specs.Answering.{lines_of, seen_answer, AnswersWith};
ghost use Rattle.spf_cli_answers.specs.Logs.{IsLogExit, IsReadLog, IsNoLog};
ghost use Rattle.spf_cli_answers.specs.Status.{status_number};
ghost use Rattle.spf_cli_answers.specs.Whole.{Simulates};
ghost use Rattle.spf_cli_answers.specs.Following.{AnswersDrawn, AnswersReplay, AnswersRuled};
ghost use Rattle.spf_cli_answers.specs.Following.{FollowsReplay, FollowsWith, given_by};
ghost use Rattle.spf_cli_answers.specs.Following.{simulated_so};

use crate::answer::{Answer, Exit, MAX_INPUT, answer_of_error, fetch, push_line, refuse};
use crate::message::{not_log_line, stats_line, steps_line, trap_line, verdict_line};
use crate::programs::fetch_accepted;
use crate::status::Status;
use spf_ast::outcome::Outcome;
use spf_check::checked::Checked;
use spf_edge::Files;
use spf_engine::run::set_up;
use spf_exec_instance::instance::Instance;
use spf_guess::Predictor;
use spf_replay::verdict::Verdict;
use spf_replay::{LogError, Step, read_log, write_log};
use spf_replay_sim::{Simulated, simulate_instance};
use spf_replay_walk::replay::replay_instance;
use std::alloc::{AllocError, Global};

/// How many bytes the file of a log may have.
const MAX_LOG: u64 = 20_971_520;

/// Adds the line of a run's trap, where it trapped, and gives the status of the run.
fn push_trap(
    alloc: Global,
    messages: &mut Vec<Vec<u8>>,
    outcome: &Outcome,
) -> Result<Status, AllocError>
    ensures status { IfOk result (λ s. status_number s ≡ end_status (seen_outcome outcome.now)) }
    ensures lines { IfOk result (λ _. lines_of messages.new.items
        ≡ lines_of messages.old.items ++ trap_lines (seen_outcome outcome.now)) }
{
    match outcome {
        Outcome::Done { .. } => Ok(Status::Done),
        Outcome::Trapped { trap, .. } => {
            push_line(messages, trap_line(alloc, *trap)?)?;
            Ok(Status::Trapped)
        }
    }
}

/// The answer where a run was simulated.
fn answer_of_simulation(alloc: Global, made: &Simulated) -> Result<Answer, AllocError>
    requires { AreOfFewBlocks (sections_of made.now.log.items) }
    ensures { IfOk result (λ a. seen_answer a ≡ simulated_so made.now) }
{
    let mut messages = Vec::new(alloc);
    let status = push_trap(alloc, &mut messages, &made.outcome)?;
    let stats = made.stats;
    let line = stats_line(alloc, stats.blocks, stats.hits, stats.misses, stats.blind)?;
    push_line(&mut messages, line)?;
    Ok(Answer {
        status,
        output: write_log(alloc, &made.log)?,
        messages,
    })
}

/// The answer where a schedule has too many steps.
fn too_many_steps(alloc: Global) -> Result<Answer, AllocError>
    ensures { IfOk result (λ a. seen_answer a ≡ too_many_steps_answer) }
{
    refuse(alloc, Status::OverLimit, steps_line(alloc)?)
}

/// The answer of a simulation of an instance.
fn simulate_on(
    alloc: Global,
    checked: &Checked,
    instance: &Instance,
    seed: u64,
    hosts: &mut Vec<Box<dyn Predictor>>,
) -> Result<Answer, Exit>
    requires program { program_of instance.now ≡ seen_program checked.now }
    requires hosts { missing_host (length hosts.old.items)
        (constructs_in (program_of instance.now).main) ≡ None }
    ensures { AnswersDrawn answer hosts.old.items instance.now seed result }
{
    // Law: a run has exactly one schedule from each seed.
    spf_replay::laws::each_run_has_one_schedule();
    match simulate_instance(alloc, checked, instance, hosts, seed)? {
        Some(made) => Ok(answer_of_simulation(alloc, &made)?),
        None => Ok(too_many_steps(alloc)?),
    }
}

/// The answer of a simulation of an accepted program on an input.
fn simulate(
    alloc: Global,
    checked: &Checked,
    input: &[u8],
    seed: u64,
    hosts: &mut Vec<Box<dyn Predictor>>,
) -> Result<Answer, Exit>
    ensures { AnswersWith (IsOnly (Simulates (given_by answer hosts.old.items) seed
        (seen_program checked.now) input.now)) result }
{
    match set_up(alloc, checked, input, hosts.len() as u64) {
        Ok(instance) => simulate_on(alloc, checked, &instance, seed, hosts),
        Err(error) => answer_of_error(alloc, checked.program(), error),
    }
}

/// The answer where a file is no log.
fn not_a_log(alloc: Global, offset: u64) -> Result<Answer, AllocError>
    ensures { IfOk result (λ a. seen_answer a ≡ not_a_log_answer offset) }
{
    refuse(alloc, Status::WrongFormat, not_log_line(alloc, offset)?)
}

/// The log that a file is.
fn log_of(alloc: Global, file: &[u8]) -> Result<Vec<Vec<Step>>, Exit>
    ensures log { IfOk result (λ log. IsLog (sections_of log.items) file.now) }
    ensures left { IfErr result (IsLogExit file.now) }
{
    match read_log(alloc, file) {
        Ok(log) => Ok(log),
        Err(LogError::NotLog { at }) => Err(Exit::Answered(not_a_log(alloc, at)?)),
        Err(LogError::OutOfMemory) => Err(Exit::NoMemory),
    }
}

/// The log that the file of this name is.
fn fetch_log<F: Files>(alloc: Global, name: &str, files: &mut F) -> Result<Vec<Vec<Step>>, Exit>
    ensures log { IfOk result (λ log. IsReadLog (F.state files.old) (F.state files.new) name.now
        (sections_of log.items)) }
    ensures left { IfErr result (IsNoLog (F.state files.old) (F.state files.new) name.now) }
{
    let content = fetch(alloc, files, name, MAX_LOG)?;
    log_of(alloc, &content)
}

/// The answer with the verdict on a log.
fn answer_of_verdict(alloc: Global, verdict: Verdict) -> Result<Answer, AllocError>
    ensures { IfOk result (λ a. seen_answer a ≡ judged_answer verdict) }
{
    let status = match verdict {
        Verdict::Yes => Status::Done,
        Verdict::No { .. } => Status::WrongLog,
    };
    Ok(Answer {
        status,
        output: verdict_line(alloc, verdict)?.into_bytes(),
        messages: Vec::new(alloc),
    })
}

/// The answer to a log that is checked against the runs of an instance.
fn judge_on(
    alloc: Global,
    checked: &Checked,
    instance: &Instance,
    log: &[Vec<Step>],
    hosts: &mut Vec<Box<dyn Predictor>>,
) -> Result<Answer, Exit>
    requires program { program_of instance.now ≡ seen_program checked.now }
    requires hosts { missing_host (length hosts.old.items)
        (constructs_in (program_of instance.now).main) ≡ None }
    ensures { AnswersRuled answer hosts.old.items instance.now (sections_of log.now) result }
{
    // Law: a log has one verdict.
    spf_replay::verdict::verdicts_are_exact();
    let verdict = replay_instance(alloc, checked, instance, hosts, log)?;
    Ok(answer_of_verdict(alloc, verdict)?)
}

/// The answer to a log that is checked against the runs of an accepted program on an input.
fn judge(
    alloc: Global,
    checked: &Checked,
    input: &[u8],
    log: &[Vec<Step>],
    hosts: &mut Vec<Box<dyn Predictor>>,
) -> Result<Answer, Exit>
    ensures { AnswersReplay (given_by answer hosts.old.items) (seen_program checked.now) input.now
        (sections_of log.now) result }
{
    match set_up(alloc, checked, input, hosts.len() as u64) {
        Ok(instance) => judge_on(alloc, checked, &instance, log, hosts),
        Err(error) => answer_of_error(alloc, checked.program(), error),
    }
}

/// The answer of `sim` over two files.
pub(crate) fn sim_files<F: Files>(
    alloc: Global,
    program: &str,
    input: &str,
    seed: u64,
    files: &mut F,
    hosts: &mut Vec<Box<dyn Predictor>>,
) -> Result<Answer, Exit>
    ensures { FollowsWith answer hosts.old.items (sim program.now input.now seed)
        (F.state files.old) (F.state files.new) result }
{
    // Law: a program has one verdict and one explanation.
    crate::laws::rules_say_one_thing();
    let checked = fetch_accepted(alloc, program, files)?;
    let content = fetch(alloc, files, input, MAX_INPUT)?;
    simulate(alloc, &checked, &content, seed, hosts)
}

/// The answer of `replay` with an accepted program, over the files of an input and of a log.
fn replay_on<F: Files>(
    alloc: Global,
    checked: &Checked,
    input: &str,
    log: &str,
    files: &mut F,
    hosts: &mut Vec<Box<dyn Predictor>>,
) -> Result<Answer, Exit>
    ensures { FollowsReplay answer hosts.old.items input.now log.now checked.now
        (F.state files.old) (F.state files.new) result }
{
    // Law: bytes are one log at most, and break at one offset at most.
    spf_replay_log::laws::bytes_have_one_reading();
    let content = fetch(alloc, files, input, MAX_INPUT)?;
    let sections = fetch_log(alloc, log, files)?;
    judge(alloc, checked, &content, &sections, hosts)
}

/// The answer of `replay` over three files.
pub(crate) fn replay_files<F: Files>(
    alloc: Global,
    program: &str,
    input: &str,
    log: &str,
    files: &mut F,
    hosts: &mut Vec<Box<dyn Predictor>>,
) -> Result<Answer, Exit>
    ensures { FollowsWith answer hosts.old.items (replay program.now input.now log.now)
        (F.state files.old) (F.state files.new) result }
{
    // Law: a program has one verdict and one explanation.
    crate::laws::rules_say_one_thing();
    let checked = fetch_accepted(alloc, program, files)?;
    replay_on(alloc, &checked, input, log, files, hosts)
}
