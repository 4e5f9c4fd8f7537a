//! What the definitions of faults, of spellings and of lawful programs have to do with each other.
//! Each law is the contract of a function that does nothing.

ghost use Rattle.spf_types.specs.Laws.{ScopedProgramsHaveNoFaults, LawfulProgramsHaveNoFaults};
ghost use Rattle.spf_types.specs.Laws.{FaultlessProgramsAreScoped, SpellingsResolveToTheirPrograms};
ghost use Rattle.spf_types.specs.Laws.{ResolveOrAreRefused, ResolveToOne, AreRefusedForOne};
ghost use Rattle.spf_types.specs.Laws.{ResolvedAreNotRefused};

/// A lawful program is spelled without faults, and so is one that passes limits alone: nothing is a
/// fault that a lawful program may hold.
pub fn lawful_programs_have_no_faults()
    ensures scoped { ScopedProgramsHaveNoFaults }
    ensures lawful { LawfulProgramsHaveNoFaults }
{}

/// A raw program without faults, whose names are names and whose numbers a text can hold, spells a
/// program that is lawful but for limits.
pub fn programs_without_faults_are_scoped()
    ensures { FaultlessProgramsAreScoped }
{}

/// The spelling of a lawful program resolves to that program, and so does that of one that passes
/// limits alone.
pub fn spellings_resolve_to_their_programs()
    ensures { SpellingsResolveToTheirPrograms }
{}

/// A raw program, whose names are names and whose numbers a text can hold, resolves to exactly one
/// lawful program, or is refused for exactly one fault.
pub fn each_raw_program_resolves_or_is_refused()
    ensures some { ResolveOrAreRefused }
    ensures one_program { ResolveToOne }
    ensures one_fault { AreRefusedForOne }
    ensures not_both { ResolvedAreNotRefused }
{}
