//! What holds of tokens, and of what texts say. Each law is the contract of a function that does
//! nothing.
ghost use Rattle.spf_parse.specs.Laws.{TokensGoWrongOnce, TextsSayWritablePrograms};

use spf_text::laws::tokens_are_spelled_by_their_slices;

/// Tokens go wrong at one offset and in one way at most, and not at all where they are those of a
/// program.
pub fn tokens_go_wrong_once()
    ensures { TokensGoWrongOnce }
{}

/// The names of what a text says are names, and its numbers are numbers that a text can hold.
pub fn texts_say_writable_programs()
    ensures { TextsSayWritablePrograms }
{
    tokens_are_spelled_by_their_slices();
}
