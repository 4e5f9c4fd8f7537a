//! Laws about lists of words. Each is the contract of a function that does nothing.
ghost use Rattle.spf_cli_words.specs.Laws.{EachAsksForOneOrNone};

/// Each list of words asks for one command, or for none.
pub fn each_list_of_words_asks_for_one_command_or_none()
    ensures { EachAsksForOneOrNone }
{}
