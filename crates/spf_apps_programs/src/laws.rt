//! Laws about the programs. Each is the contract of a function that does nothing.
ghost use Rattle.spf_apps_programs.specs.Laws.{PackBitsIsLawful, HuffmanIsLawful, LexerIsLawful};

/// For each block size, and each machine's counts, the three programs are lawful.
pub fn programs_are_lawful()
    ensures packbits { PackBitsIsLawful }
    ensures huffman { HuffmanIsLawful }
    ensures lexer { LexerIsLawful }
{}
