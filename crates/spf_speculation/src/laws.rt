//! The laws, each the contract of a function that does nothing.
ghost use Rattle.spf_speculation.specs.Alike.{RunsSeeVisibleSlots, RunsSeeTheGuessesOfTheirBlocks};
ghost use Rattle.spf_speculation.specs.Laws.{BlockRunsAreAttempts, UnstoppedAttemptsAreWhole};
ghost use Rattle.spf_speculation.specs.Laws.{RealLogsArePlainRuns, AttemptsAnswerAsOnTheEntry};
ghost use Rattle.spf_speculation.specs.Laws.{PlainRunsAnswerAsOnTheEntry};
ghost use Rattle.spf_speculation.specs.Laws.{RealLogsContinueThePlainRun};
ghost use Rattle.spf_speculation.specs.Laws.{BlocksAreFirstAttemptedAtTheirGuess};
ghost use Rattle.spf_speculation.specs.Laws.{SpeculativeRunsMeanThePlainRun, LogsMeanThePlainRun};
ghost use Rattle.spf_speculation.specs.Laws.{PlainRunsAreAnswered, EveryMergingIsASpeculativeRun};
ghost use Rattle.spf_speculation.specs.Laws.{JoinedLogsAreMerged, EachGuessHasARun};
ghost use Rattle.spf_speculation.specs.Prefixes.{PrefixesBegin, PrefixesGrow, PrefixesEnd};
ghost use Rattle.spf_speculation.specs.Prefixes.{PrefixesComplete, PrefixesHaveRealValues};
ghost use Rattle.spf_speculation.specs.Prefixes.{PrefixesDependOnEarlierLogs};
ghost use Rattle.spf_speculation.specs.Statements.{SpeculativeRunsMeanTheirStatement};

use spf_ast::laws::each_form_has_one_plain_run;
use spf_ast_laws::{each_construct_is_its_block_runs, each_form_sees_visible_slots_alone};
use spf_check_rules::laws::blocks_overwrite;

/// A run of a block whose loads outside the block's spans give the entry's words leaves an attempt
/// in the block's log; one that no turn stops leaves a whole one.
pub fn block_runs_are_attempts()
    ensures runs { BlockRunsAreAttempts }
    ensures unstopped { UnstoppedAttemptsAreWhole }
{}

/// The log of a block at its real row has the answer of the block's plain run, and leaves the same
/// words in the block's cells, whatever a wrong attempt left there. The answer of each whole
/// attempt, at a wrong row too, is that of a run on the entry's memory. So each log at a real row
/// continues the plain run by one block.
pub fn real_logs_are_plain_runs()
    ensures blocks { RealLogsArePlainRuns }
    ensures attempts { AttemptsAnswerAsOnTheEntry }
    ensures plain { PlainRunsAnswerAsOnTheEntry }
    ensures on { RealLogsContinueThePlainRun }
{
    each_form_has_one_plain_run();
    blocks_overwrite();
}

/// In a speculative run each block is first attempted at its guess, and again only where the guess
/// was wrong.
pub fn blocks_are_first_attempted_at_their_guess()
    ensures { BlocksAreFirstAttemptedAtTheirGuess }
{}

/// In whatever order the steps of the blocks come, the real rows and the result are those of the
/// plain run, and where no block traps so is the memory. It is enough that each block's log is
/// consistent alone. So a speculative run means what the construct's statement means in the plain
/// run of `main`.
pub fn speculative_runs_mean_the_plain_run()
    ensures runs { SpeculativeRunsMeanThePlainRun }
    ensures logs { LogsMeanThePlainRun }
    ensures answers { PlainRunsAreAnswered }
    ensures statements { SpeculativeRunsMeanTheirStatement }
{
    each_form_has_one_plain_run();
    blocks_overwrite();
    each_construct_is_its_block_runs();
}

/// Where each block's log is consistent alone, every merging of the logs that keeps the order of
/// each log is a speculative run.
pub fn every_merging_is_a_speculative_run()
    ensures { EveryMergingIsASpeculativeRun }
{}

/// Blocks are validated one by one. At first the validated prefix has no block; where the log of
/// the next block at its real row has a row as its answer, the prefix grows by this block; where it
/// has a trap, the run ends there. After each prefix the plain run stands at the same row, whatever
/// the logs of the other blocks are.
pub fn prefixes_grow()
    ensures begin { PrefixesBegin }
    ensures grow { PrefixesGrow }
    ensures end { PrefixesEnd }
    ensures complete { PrefixesComplete }
    ensures real { PrefixesHaveRealValues }
    ensures earlier { PrefixesDependOnEarlierLogs }
{
    each_form_has_one_plain_run();
    blocks_overwrite();
}

/// Logs that are joined block by block are a merging of them, and whatever the guesses, there is a
/// speculative run.
pub fn speculative_runs_exist()
    ensures joined { JoinedLogsAreMerged }
    ensures runs { EachGuessHasARun }
{
    each_form_has_one_plain_run();
    blocks_overwrite();
}

/// A speculative run depends only on the slots of `main` that are visible at its construct, and on
/// the guesses for the blocks after the first. So the run of a program that keeps other words in
/// hidden slots has the speculative runs of the plain one.
pub fn speculative_runs_see_visible_slots_alone()
    ensures slots { RunsSeeVisibleSlots }
    ensures guesses { RunsSeeTheGuessesOfTheirBlocks }
{
    each_form_sees_visible_slots_alone();
}
