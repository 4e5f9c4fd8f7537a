//! The texts of the built-in decoders, written out line by line for every block size.
#![tactic(auto)]

ghost use Rattle.spf_apps_texts.specs.Laws.{PackBitsIsItsText, HuffmanIsItsText, LexerIsItsText};
ghost use Rattle.spf_apps_texts.specs.Laws.{PackBitsTextSaysIt, HuffmanTextSaysIt, LexerTextSaysIt};

use spf_apps_programs::laws::programs_are_lawful;
use spf_print_laws::laws::{printed_programs_read_back, texts_determine_their_programs};

/// For each block size, and each machine's counts, the canonical text of each of the programs is
/// the text that is written out here line by line.
pub fn built_programs_are_their_texts()
    ensures packbits { PackBitsIsItsText }
    ensures huffman { HuffmanIsItsText }
    ensures lexer { LexerIsItsText }
{}

/// Each of these texts says its program, apart from line numbers, and where the reader takes it,
/// what it gives is that program.
pub fn texts_say_the_built_programs()
    ensures packbits { PackBitsTextSaysIt }
    ensures huffman { HuffmanTextSaysIt }
    ensures lexer { LexerTextSaysIt }
{
    built_programs_are_their_texts();
    programs_are_lawful();
    printed_programs_read_back();
    texts_determine_their_programs();
}
