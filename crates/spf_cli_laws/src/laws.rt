//! Laws about the program's answers. Each is the contract of a function that does nothing.
ghost use Rattle.spf_cli_laws.specs.Laws.{VerdictsAreTheSame, NoTextIsLeftUnjudged};
ghost use Rattle.spf_cli_laws.specs.Laws.{NoneHasTwoAnswers, NoneIsLeftUnanswered};

use spf_apps_formats::laws::{each_demo_input_is_generated_once, files_have_one_verdict};
use spf_apps_machine_text::laws::machines_have_one_text;
use spf_batch_lists::laws::lists_have_one_verdict;
use spf_cli_answers::laws::{decoders_keep_their_formats, rules_say_one_thing};
use spf_cli_words::laws::each_list_of_words_asks_for_one_command_or_none;
use spf_parse::laws::{texts_say_writable_programs, tokens_go_wrong_once};
use spf_print_laws::laws::tokens_are_of_one_program;
use spf_replay::laws::each_run_has_one_schedule;
use spf_replay::verdict::verdicts_are_exact;
use spf_replay_log::laws::bytes_have_one_reading;
use spf_text::laws::{each_text_has_tokens_or_one_fault, texts_determine_their_tokens};
use spf_types::laws::each_raw_program_resolves_or_is_refused;

/// A text has at most one verdict, the program that it says or why it has none; and no text is left
/// without one.
pub fn each_text_has_one_verdict()
    ensures one { VerdictsAreTheSame }
    ensures left { NoTextIsLeftUnjudged }
{
    texts_determine_their_tokens();
    each_text_has_tokens_or_one_fault();
    tokens_are_of_one_program();
    tokens_go_wrong_once();
    texts_say_writable_programs();
    each_raw_program_resolves_or_is_refused();
}

/// A list of words has at most one answer, with what is supplied and over any files, and none is
/// left without an answer, whatever bytes the files hold.
pub fn each_list_of_words_has_one_answer()
    ensures one { NoneHasTwoAnswers }
    ensures left { NoneIsLeftUnanswered }
{
    rules_say_one_thing();
    each_text_has_one_verdict();
    files_have_one_verdict();
    machines_have_one_text();
    lists_have_one_verdict();
    bytes_have_one_reading();
    each_run_has_one_schedule();
    verdicts_are_exact();
    each_demo_input_is_generated_once();
    decoders_keep_their_formats();
    each_list_of_words_asks_for_one_command_or_none();
}
