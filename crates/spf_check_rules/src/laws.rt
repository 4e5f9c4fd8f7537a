//! The laws, each the contract of a function that does nothing.
ghost use Rattle.spf_check_rules.specs.Freedom.{TheRulesSetFree};
ghost use Rattle.spf_check_rules.specs.Overwriting.{BlocksOverwrite};

use spf_ast::laws::{
    each_form_has_one_plain_run, lawful_programs_are_quiet_and_small, silent_forms_leave_the_output,
};
use spf_effects_laws::each_part_keeps_to_its_effects;

/// A top construct of a lawful program that keeps the seven rules is rollback free: for every
/// input, all slots, every block number and carried row, whatever the loads answer, and wherever a
/// turn stops it.
pub fn the_rules_set_free()
    ensures { TheRulesSetFree }
{
    each_part_keeps_to_its_effects();
    lawful_programs_are_quiet_and_small();
    silent_forms_leave_the_output();
}

/// In a rollback free construct, two memories that agree on all arrays that aren't written give one
/// block of a fold, or the consumer, the same list of events, the same answer and, where it ends
/// with a value, the same contents of its spans.
pub fn blocks_overwrite()
    ensures { BlocksOverwrite }
{
    each_form_has_one_plain_run();
}
