//! The verdict on a log, section by section.
ghost use Rattle.std.specs.Prelude.{◌≡◌, ◌<◌, ◌≤◌, [], ℕ, List, length, slice_get, Some, IfOk};
ghost use Rattle.spf_ast.specs.Carried.{Carried};
ghost use Rattle.spf_engine_laws.specs.Passed.{PassedConstruct};
ghost use Rattle.spf_speculation.specs.Steps.{Step as SeenStep};
ghost use Rattle.spf_replay.specs.declared.verdict.Verdict.TheVariants.{Yes, No};
ghost use Rattle.spf_replay.specs.SeenSteps.{seen_steps};
ghost use Rattle.spf_replay.specs.Entered.{IsEntered, HasGuesses};
ghost use Rattle.spf_replay.specs.Runners.{HasRoom, IsScratch};
ghost use Rattle.spf_replay_walk.specs.Judging.{seen_log, HasJudged};
ghost use Rattle.spf_replay_walk.specs.Judging.{HasJudgedLog};
ghost use Rattle.spf_replay_walk.specs.Judging.{JudgesNext, IsAfterSection};
ghost use Rattle.spf_replay_walk.specs.Judging.{IsVerdictAfter, GivesVerdict};

use crate::visitor::Visitor;
use spf_replay::Step;
use spf_replay::entered::EnteredConstruct;
use spf_replay::scratch::Scratch;
use spf_replay::section::is_speculative_run;
use spf_replay::verdict::Verdict;
use std::alloc::{AllocError, Global};

/// The verdict on the sections of the constructs that a run has passed.
#[derive(Clone, Copy)]
pub(crate) struct Judged {
    /// The index of the section that comes next, where all before it were right.
    pub(crate) next: usize,
    pub(crate) verdict: Verdict,
}

/// The verdict on no section.
pub(crate) fn nothing_judged() -> Judged
    ensures { (log : List (List SeenStep)) → HasJudged [] log result }
{
    Judged {
        next: 0,
        verdict: Verdict::Yes,
    }
}

/// Returns the verdict that the section at an index is the first that isn't as expected.
fn no_at(n: usize) -> Verdict
    ensures { result ≡ No n }
{
    Verdict::No { section: n as u64 }
}

/// Returns the verdict that the section that comes next isn't one of the construct that was passed.
fn refuse(next: usize) -> Judged
    ensures { result.verdict ≡ No next }
{
    Judged {
        next,
        verdict: no_at(next),
    }
}

/// The section at an index.
fn section_at(log: &[Vec<Step>], n: usize) -> &[Step]
    requires { n < length log.now }
    ensures { slice_get (seen_log log.now) n ≡ Some (seen_steps result.now) }
{
    &log[n]
}

/// The index after the section at an index, where that section is a speculative run of the
/// construct's blocks.
///
/// # Errors
///
/// Fails where memory runs out.
fn after_section(
    alloc: Global,
    log: &[Vec<Step>],
    n: usize,
    entered: &EnteredConstruct,
    scratch: &mut Scratch,
) -> Result<Option<usize>, AllocError>
    requires is { IsEntered entered.now }
    requires scratch { IsScratch entered.now scratch.old }
    ensures after { (guess : ℕ → Carried) → HasGuesses entered.now guess
        → IfOk result (IsAfterSection log.now n entered.now guess) }
    ensures room { HasRoom entered.now scratch.new }
{
    if n >= log.len() {
        return Ok(None);
    }
    if is_speculative_run(alloc, entered, section_at(log, n), scratch)? {
        return Ok(Some(n + 1));
    }
    Ok(None)
}

/// The verdict with one more construct, where all sections before its own were right.
fn judge_next(
    alloc: Global,
    log: &[Vec<Step>],
    entered: &EnteredConstruct,
    judged: Judged,
    scratch: &mut Scratch,
) -> Result<Judged, AllocError>
    requires is { IsEntered entered.now }
    requires scratch { IsScratch entered.now scratch.old }
    requires right { judged.verdict ≡ Yes }
    ensures judged { IfOk result (λ after. JudgesNext log.now entered.now judged after) }
    ensures room { HasRoom entered.now scratch.new }
{
    match after_section(alloc, log, judged.next, entered, scratch)? {
        Some(next) => Ok(Judged {
            next,
            verdict: Verdict::Yes,
        }),
        None => Ok(refuse(judged.next)),
    }
}

/// The verdict with one more construct. Where a section was refused before, no further one is read.
///
/// # Errors
///
/// Fails where memory runs out.
pub(crate) fn judge_section(
    alloc: Global,
    log: &[Vec<Step>],
    entered: &EnteredConstruct,
    judged: Judged,
    scratch: &mut Scratch,
) -> Result<Judged, AllocError>
    requires is { IsEntered entered.now }
    requires scratch { IsScratch entered.now scratch.old }
    ensures judged { IfOk result (λ after. JudgesNext log.now entered.now judged after) }
    ensures room { HasRoom entered.now scratch.new }
{
    match judged.verdict {
        Verdict::No { .. } => Ok(judged),
        Verdict::Yes => judge_next(alloc, log, entered, judged, scratch),
    }
}

/// The verdict where all sections before an index were right, and no further one is expected.
fn end_verdict(log: &[Vec<Step>], next: usize) -> Verdict
    ensures right { length log.now ≤ next → result ≡ Yes }
    ensures early { next < length log.now → result ≡ No next }
{
    if next < log.len() {
        return no_at(next);
    }
    Verdict::Yes
}

/// The verdict on the whole log, where no further construct is passed.
pub(crate) fn judge_end(log: &[Vec<Step>], judged: Judged) -> Verdict
    ensures { (passed : List PassedConstruct) → HasJudged passed (seen_log log.now) judged
        → IsVerdictAfter passed log.now result }
{
    match judged.verdict {
        Verdict::No { .. } => judged.verdict,
        Verdict::Yes => end_verdict(log, judged.next),
    }
}

/// Judges a log: each construct that it visits is compared with the log's next section.
#[derive(Drop)]
pub(crate) struct Judge<'a> {
    pub(crate) log: &'a [Vec<Step>],
    pub(crate) judged: Judged,
}

impl<'a> Judge<'a> {
    /// One that has visited nothing.
    pub(crate) fn new(log: &'a [Vec<Step>]) -> Judge<'a>
        ensures log { result.log.now ≡ log.now }
        ensures judged { HasJudgedLog result [] result }
    {
        Judge {
            log,
            judged: nothing_judged(),
        }
    }

    /// The verdict on the log, where no further construct is visited.
    pub(crate) fn verdict(&self) -> Verdict
        ensures { GivesVerdict self.now result }
    {
        judge_end(self.log, self.judged)
    }
}

impl<'a> Visitor for Judge<'a> {
    ghost use Rattle.spf_replay_walk.specs.Judging.{HasJudgedLog};

    ghost has_visited = { λ first passed now. HasJudgedLog first passed now };

    fn visit(
        &mut self,
        alloc: Global,
        entered: &EnteredConstruct,
        scratch: &mut Scratch,
    ) -> Result<(), AllocError> {
        self.judged = judge_section(alloc, self.log, entered, self.judged, scratch)?;
        Ok(())
    }
}
