//! What the decoders write: the plain meaning of the built programs, tied to their formats.
#![tactic(auto)]

ghost use Rattle.spf_apps_laws.specs.Laws.{PackBitsUnpacks, PackBitsStops, LexerFindsTokens};
ghost use Rattle.spf_apps_laws.specs.Laws.{HuffmanDecodes};

/// For each block size, the program that unpacks PackBits ends with what its input stands for.
pub fn packbits_unpacks()
    ensures { PackBitsUnpacks }
{}

/// For each block size, the program that unpacks PackBits traps where its output is full.
pub fn packbits_stops()
    ensures { PackBitsStops }
{}

/// For each block size, the program that runs LEX1 machines ends with the tokens that its machine
/// finds.
pub fn lexer_finds_tokens()
    ensures { LexerFindsTokens }
{}

/// For each block size, the program that decodes HUF1 ends with what its input is decoded to.
pub fn huffman_decodes()
    ensures { HuffmanDecodes }
{}
