//! Runs in pieces: why a run whose constructs are settled by their blocks means what the plain run
//! of its program does. Each law is the contract of a function that does nothing.
#![tactic(auto)]

ghost use Rattle.spf_engine_laws.specs.Laws.{RunsBegin, RunsAdvance, HeadersEndRuns};
ghost use Rattle.spf_engine_laws.specs.Laws.{ConstructsSettle, ConstructsEndRuns};
ghost use Rattle.spf_engine_laws.specs.Laws.{PassedHaveTheTraces};

use spf_ast_laws::{
    each_construct_is_its_block_runs, each_construct_is_self_contained,
    each_form_sees_visible_slots_alone,
};
use spf_speculation::laws::speculative_runs_see_visible_slots_alone;

/// A run in pieces goes on as the plain run of its program does, from its start over each piece to
/// its end, where each construct is settled with what its blocks came to. So its end has the
/// program's outcome; what was counted by then is its statistics, and what hosts were told and
/// which constructs were passed is as in the whole run. Traces of what was passed are those of the
/// run.
pub fn runs_in_pieces_go_on()
    ensures begin { RunsBegin }
    ensures advance { RunsAdvance }
    ensures headers { HeadersEndRuns }
    ensures settle { ConstructsSettle }
    ensures blocks { ConstructsEndRuns }
    ensures traces { PassedHaveTheTraces }
{
    each_form_sees_visible_slots_alone();
    each_construct_is_its_block_runs();
    each_construct_is_self_contained();
    speculative_runs_see_visible_slots_alone();
}
