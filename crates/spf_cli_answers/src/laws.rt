//! What the checker says of a program, what the decoders write, and what the statuses mean. Each
//! law is the contract of a function that does nothing.
ghost use Rattle.spf_cli_answers.specs.Laws.{RuleLaws, DecoderLaws, StatusesHaveCauses};

use spf_apps_formats::laws::{huf1_files_are_decoded_once, packbits_files_are_cut_once};
use spf_apps_laws::{huffman_decodes, lexer_finds_tokens, packbits_stops, packbits_unpacks};
use spf_check::laws::{one_explanation, one_first_refusal};

/// One thing is said of each program: it is accepted or has one first refusal, and it has one
/// explanation.
pub fn rules_say_one_thing()
    ensures { RuleLaws }
{
    one_first_refusal();
    one_explanation();
}

/// The answer of a run of a decoder's program is what its format says.
pub fn decoders_keep_their_formats()
    ensures { DecoderLaws }
{
    packbits_files_are_cut_once();
    packbits_unpacks();
    packbits_stops();
    huf1_files_are_decoded_once();
    huffman_decodes();
    lexer_finds_tokens();
}

/// The whole answer says that words aren't understood, or that a file failed, only for this cause,
/// and never that a put failed or memory ran out.
pub fn each_status_has_its_cause()
    ensures { StatusesHaveCauses }
{}
