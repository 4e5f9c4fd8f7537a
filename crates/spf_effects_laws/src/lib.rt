//! That what is found in a form is all that it does, whatever its loads answer.
#![tactic(auto)]

ghost use Rattle.spf_effects_laws.specs.Keeping.{PartsKeepToTheirEffects};

/// In a lawful program each part of each top construct stores only what it may write, loads only
/// what it reads uncovered or has stored itself, and at its end has stored all that it surely
/// writes; whatever its loads answer.
pub fn each_part_keeps_to_its_effects()
    ensures { PartsKeepToTheirEffects }
{}
