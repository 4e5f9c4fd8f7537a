//! Laws about formats. Each is the contract of a function that does nothing.
ghost use Rattle.spf_apps_formats.specs.Laws.{Huf1HasOneVerdict, Lex1HasOneVerdict};
ghost use Rattle.spf_apps_formats.specs.Laws.{PackBitsIsCutOnce, Huf1IsDecodedOnce};
ghost use Rattle.spf_apps_formats.specs.Laws.{CodeWordsArePrefixFree, EncodedFilesDecode};
ghost use Rattle.spf_apps_formats.specs.Laws.{EachInputIsGeneratedOnce};

/// A file is HUF1, or it is refused at one offset, and not both; and likewise LEX1, with one count
/// of states and one of classes.
pub fn files_have_one_verdict()
    ensures huf1 { Huf1HasOneVerdict }
    ensures lex1 { Lex1HasOneVerdict }
{}

/// Each file is packets of PackBits and a rest that is cut off, in exactly one way.
pub fn packbits_files_are_cut_once()
    ensures { PackBitsIsCutOnce }
{}

/// Each HUF1 file is decoded to exactly one output.
pub fn huf1_files_are_decoded_once()
    ensures { Huf1IsDecodedOnce }
{}

/// The code words of a code are prefix free, so what is decoded of an encoded file are the symbols
/// that were encoded.
pub fn encoded_files_decode_to_their_symbols()
    ensures prefix_free { CodeWordsArePrefixFree }
    ensures decode { EncodedFilesDecode }
{}

/// For each kind, seed and size there is exactly one input that `generate` may draw.
pub fn each_demo_input_is_generated_once()
    ensures { EachInputIsGeneratedOnce }
{}
