//! Laws about what programs mean. Each is the contract of a function that does nothing.

ghost use Rattle.spf_ast.specs.Laws.{ExpressionsHaveOnePlainRun, ConditionsHaveOnePlainRun};
ghost use Rattle.spf_ast.specs.Laws.{BlocksHaveOnePlainRun, PartsHaveOneBlockRun};
ghost use Rattle.spf_ast.specs.Laws.{GuessesHaveOneAnswer, LawfulFunctionsAreSilent};
ghost use Rattle.spf_ast.specs.Laws.{LawfulProgramsHaveFewConstructs, SilentPartsLeaveTheOutput};
ghost use Rattle.spf_ast.specs.Laws.{HeadersLeaveTheOutput};
ghost use Rattle.spf_ast.specs.GoingOn.{BlocksWithoutBreakGoOn, LawfulBlocksKeepTheirBreaks};
ghost use Rattle.spf_ast.specs.GoingOn.{LawfulProgramsAreOrderly};

/// A form, a state and a memory have exactly one list of events that is consistent with the memory,
/// polls nothing, and is performed to its end.
pub fn each_form_has_one_plain_run()
    ensures expressions { ExpressionsHaveOnePlainRun }
    ensures conditions { ConditionsHaveOnePlainRun }
    ensures blocks { BlocksHaveOnePlainRun }
    ensures parts { PartsHaveOneBlockRun }
{}

/// With no shared cell the guess of a part of a row has exactly one answer on a memory, whatever it
/// stores: it is a function of the memory at the construct's entry.
pub fn each_guess_has_one_answer()
    ensures guesses { GuessesHaveOneAnswer }
{}

/// The functions of a lawful program emit nothing, and it has fewer than 2^32 top constructs.
pub fn lawful_programs_are_quiet_and_small()
    ensures functions { LawfulFunctionsAreSilent }
    ensures constructs { LawfulProgramsHaveFewConstructs }
{}

/// Where no function emits, a part that holds no `emit` leaves the output alone, and so does each
/// header: whatever the output is, they ask the same and end the same.
pub fn silent_forms_leave_the_output()
    ensures parts { SilentPartsLeaveTheOutput }
    ensures headers { HeadersLeaveTheOutput }
{}

/// A block that holds no `break` of a loop around it never breaks off, and no lawful block outside
/// of loops holds one.
pub fn breaks_stay_in_their_loops()
    ensures go_on { BlocksWithoutBreakGoOn }
    ensures lawful { LawfulBlocksKeepTheirBreaks }
    ensures programs { LawfulProgramsAreOrderly }
{}
