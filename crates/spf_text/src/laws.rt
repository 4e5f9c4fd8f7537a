//! What holds of texts and their tokens. Each law is the contract of a function that does nothing.
ghost use Rattle.spf_text.specs.Laws.{TextsDetermineTheirTokens, TokensAreSpelledByTheirSlices};
ghost use Rattle.spf_text.specs.Laws.{TextsHaveTokensOrAFault, TextsHaveOneFault};

/// A text has at most one list of tokens.
pub fn texts_determine_their_tokens()
    ensures { TextsDetermineTheirTokens }
{}

/// Each token is spelled by its slice of the text.
pub fn tokens_are_spelled_by_their_slices()
    ensures { TokensAreSpelledByTheirSlices }
{}

/// Each text has tokens, or one fault: a byte at which nothing begins, or a number that is too
/// large.
pub fn each_text_has_tokens_or_one_fault()
    ensures some { TextsHaveTokensOrAFault }
    ensures one { TextsHaveOneFault }
{}
