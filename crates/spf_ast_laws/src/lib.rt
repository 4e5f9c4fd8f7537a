//! Laws about what programs mean. Each is the contract of a function that does nothing.
#![tactic(auto)]

ghost use Rattle.spf_ast_laws.specs.Chained.{ConstructsAreTheirBlocks, HeadersTrap};
ghost use Rattle.spf_ast_laws.specs.Agreement.{ExpressionsSeeVisibleSlots};
ghost use Rattle.spf_ast_laws.specs.Agreement.{ConditionsSeeVisibleSlots};
ghost use Rattle.spf_ast_laws.specs.Agreement.{StatementsSeeVisibleSlots, BlocksSeeVisibleSlots};
ghost use Rattle.spf_ast_laws.specs.Agreement.{MainSeesVisibleSlots, PartsSeeVisibleSlots};
ghost use Rattle.spf_ast_laws.specs.Agreement.{HeadersSeeVisibleSlots, PartsDeclareAnew};
ghost use Rattle.spf_ast_laws.specs.Keeping.{ConstructsAreSelfContained, ConstructsStandInMain};
ghost use Rattle.spf_ast_laws.specs.Keeping.{PartsAssignWhatTheyDeclare};

use spf_ast::laws::silent_forms_leave_the_output;

/// From states that agree on the visible slots each lawful form goes on alike: with the same
/// events, to the same value, trap, stop or misfit, and to states that agree on the slots that are
/// visible then.
pub fn each_form_sees_visible_slots_alone()
    ensures expressions { ExpressionsSeeVisibleSlots }
    ensures conditions { ConditionsSeeVisibleSlots }
    ensures statements { StatementsSeeVisibleSlots }
    ensures blocks { BlocksSeeVisibleSlots }
    ensures main { MainSeesVisibleSlots }
    ensures parts { PartsSeeVisibleSlots }
    ensures headers { HeadersSeeVisibleSlots }
{}

/// Each top construct of a lawful program stands at an index of `main` whose visible slots were
/// declared before it. So its parts find their own slots undeclared: what was in them before makes
/// no difference to what a part does.
pub fn each_part_declares_its_slots_anew()
    ensures constructs { ConstructsStandInMain }
    ensures parts { PartsDeclareAnew }
{
    each_form_sees_visible_slots_alone();
}

/// A construct of `main` whose parts assign no slot from outside and emit nothing, as the rules
/// demand, has blocks that can be run on their own.
pub fn each_construct_is_self_contained()
    ensures { ConstructsAreSelfContained }
{}

/// A part that assigns no slot from outside, as the rules demand, leaves each slot alone that it
/// doesn't declare.
pub fn each_part_assigns_what_it_declares()
    ensures { PartsAssignWhatTheyDeclare }
{}

/// What a construct of `main` means is what its block runs come to, one after another, each at the
/// value that the one before it gave: its value or its trap, the memory, and its real values. A
/// construct whose header traps ends with that trap.
pub fn each_construct_is_its_block_runs()
    ensures constructs { ConstructsAreTheirBlocks }
    ensures headers { HeadersTrap }
{
    silent_forms_leave_the_output();
}
