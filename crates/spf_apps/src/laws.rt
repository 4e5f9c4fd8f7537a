//! Laws about the decoders. Each is the contract of a function that does nothing.
ghost use Rattle.spf_apps.specs.Laws.{PackBitsIsAccepted, HuffmanIsAccepted, LexerIsAccepted};

/// Each top construct of the three programs keeps all seven rules, for each block size and each
/// machine's counts.
pub fn decoders_are_accepted()
    ensures packbits { PackBitsIsAccepted }
    ensures huffman { HuffmanIsAccepted }
    ensures lexer { LexerIsAccepted }
{}
