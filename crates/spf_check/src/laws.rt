//! What holds of refusals and explanations. Each law is the contract of a function that does
//! nothing.
ghost use Rattle.spf_check.specs.Laws.{AreAcceptedOrRefused, FirstRefusalsAreTheSame};
ghost use Rattle.spf_check.specs.Laws.{RefusedAreNotAccepted, AreExplained, ExplanationsAreTheSame};

use spf_effects::laws::each_part_has_effects_in_lists;

/// Each program is accepted or has a first refusal, and not both; and it has no more than one.
pub fn one_first_refusal()
    ensures some { AreAcceptedOrRefused }
    ensures one { FirstRefusalsAreTheSame }
    ensures refused { RefusedAreNotAccepted }
{
    each_part_has_effects_in_lists();
}

/// Each program has exactly one explanation.
pub fn one_explanation()
    ensures some { AreExplained }
    ensures one { ExplanationsAreTheSame }
{
    each_part_has_effects_in_lists();
}
