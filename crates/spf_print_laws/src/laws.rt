//! Laws about canonical texts.

ghost use Rattle.spf_print_laws.specs.Laws.{CanonicalTextsReadBack, ScopedProgramsAreWritable};
ghost use Rattle.spf_print_laws.specs.Laws.{TextsSayTheirPrograms, TokensAreOfOneProgram};
ghost use Rattle.spf_print_laws.specs.Laws.{NoTokensAreLeft, ReadingsDetermineTheirPrograms};
ghost use Rattle.spf_print_laws.specs.Laws.{TextsDetermineTheirPrograms};
ghost use Rattle.spf_print_laws.specs.Laws.{TextsAreReadAsTheirPrograms};

use spf_text::laws::texts_determine_their_tokens;
use spf_types::laws::spellings_resolve_to_their_programs;

/// The grammar reads the canonical text of a raw program as that program again, apart from line
/// numbers.
///
/// Limits on the nesting and on the operators of an expression don't bind here: a program that was
/// built in another way than by the parser may have a text that the parser refuses as too deep.
pub fn canonical_texts_read_back()
    ensures { CanonicalTextsReadBack }
{}

/// What `print` writes of a lawful program reads back as that program, apart from line numbers; so
/// does what it would write of one that passes limits alone.
pub fn printed_programs_read_back()
    ensures writable { ScopedProgramsAreWritable }
    ensures text { TextsSayTheirPrograms }
{}

/// No tokens can be read as two programs, and all tokens either are those of a program or go wrong
/// at an offset.
pub fn tokens_are_of_one_program()
    ensures one { TokensAreOfOneProgram }
    ensures left { NoTokensAreLeft }
{}

/// The text of a lawful program determines it, apart from line numbers: what reads as its spelling
/// reads as that of no other, `print` writes the same text of no two, and where `parse` and
/// `resolve` take the text they give this program.
pub fn texts_determine_their_programs()
    ensures readings { ReadingsDetermineTheirPrograms }
    ensures texts { TextsDetermineTheirPrograms }
    ensures reader { TextsAreReadAsTheirPrograms }
{
    texts_determine_their_tokens();
    spellings_resolve_to_their_programs();
}
