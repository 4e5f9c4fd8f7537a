//! The answer of a run over bytes at hand.

ghost use Rattle.std.specs.Prelude.{◌≤◌, ◌<◌, IfOk};
ghost use Rattle.spf_ast_lemmas.specs.Limits.{max_workers};
ghost use Rattle.spf_ast.specs.Syntax.{Program};
ghost use Rattle.spf_cli_answers.specs.Reading.{IsTextVerdict, TextRefusal, Refuses, Says};
ghost use Rattle.spf_cli_words.specs.Only.{IsOnly};
ghost use Rattle.spf_cli_answers.specs.Whole.{RunsText};
ghost use Rattle.spf_cli_answers.specs.Answering.{AnswersWith, IsLeftUnrun};
ghost use Rattle.spf_cli_answers.specs.Answering.{seen_answer};
ghost use Rattle.spf_cli_answers.specs.Following.{ToldAllOf, ToldFirst, Untold, given_by};

use crate::answer::{Answer, Exit};
use crate::context::Context;
use crate::programs::read_accepted;
use spf_cli_words::Options;
use spf_guess::Predictor;
use spf_ticket_gate::Gate;
use std::alloc::{AllocError, Global};
use std::sync::Wait;
use std::thread::Threads;

impl<'a, R: Threads + Wait + Sync, G: Gate + Sync> Context<'a, R, G> {
    /// Runs a program's text on an input, and shows the statistics.
    fn run_text(
        &self,
        text: &[u8],
        input: &[u8],
        workers: u64,
        hosts: &mut Vec<Box<dyn Predictor>>,
    ) -> Result<Answer, Exit>
        requires workers { (0 < workers) × (workers ≤ max_workers) }
        ensures answer { AnswersWith (IsOnly
            (RunsText (given_by answer hosts.old.items) workers text.now input.now))
            result }
        ensures told_first { (p : Program) → IsTextVerdict text.now (Says p)
            → ToldFirst answer hosts.old.items hosts.new.items p input.now }
        ensures told { AnswersWith
            (ToldAllOf answer hosts.old.items hosts.new.items text.now input.now) result }
        ensures untold { (refusal : TextRefusal) → IsTextVerdict text.now (Refuses refusal)
            → Untold answer hosts.old.items hosts.new.items }
        ensures unrun { AnswersWith (λ a. IsLeftUnrun a
            → Untold answer hosts.old.items hosts.new.items) result }
    {
        // Law: a program has one verdict and one explanation.
        crate::laws::rules_say_one_thing();
        let checked = read_accepted(self.alloc, text)?;
        let options = Options {
            workers: Some(workers),
            stats: true,
            cells: false,
            plain: false,
        };
        self.run_by_blocks(options, &checked, input, hosts)
    }
}

/// Returns the answer of a run with statistics over a program's text and an input, both at hand.
///
/// `hosts` are the predictors that the program names by number; they are asked before a construct's
/// blocks run, and told the real values after. `gate` watches the attempts. Blocks run on 1 to 64
/// workers, in threads, and the call waits for them.
pub fn answer_text<R: Threads + Wait + Sync, G: Gate + Sync>(
    rt: &R,
    alloc: Global,
    text: &[u8],
    input: &[u8],
    workers: u64,
    hosts: &mut Vec<Box<dyn Predictor>>,
    gate: &G,
) -> Result<Answer, AllocError>
    requires workers { (0 < workers) × (workers ≤ max_workers) }
    ensures answer { IfOk result (λ a. IsOnly
        (RunsText (given_by answer hosts.old.items) workers text.now input.now)
        (seen_answer a)) }
    ensures told_first { (p : Program) → IsTextVerdict text.now (Says p)
        → ToldFirst answer hosts.old.items hosts.new.items p input.now }
    ensures told { IfOk result
        (λ a. ToldAllOf answer hosts.old.items hosts.new.items text.now input.now (seen_answer a)) }
    ensures untold { (refusal : TextRefusal) → IsTextVerdict text.now (Refuses refusal)
        → Untold answer hosts.old.items hosts.new.items }
    ensures unrun { IfOk result (λ a. IsLeftUnrun (seen_answer a)
        → Untold answer hosts.old.items hosts.new.items) }
{
    let context = Context { rt, alloc, gate };
    match context.run_text(text, input, workers, hosts) {
        Ok(given) => Ok(given),
        Err(Exit::Answered(given)) => Ok(given),
        Err(Exit::NoMemory) => Err(AllocError),
    }
}
