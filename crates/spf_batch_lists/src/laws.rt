//! Laws about lists of names. Each is the contract of a function that does nothing.
ghost use Rattle.spf_batch_lists.specs.Laws.{ListsHaveOneVerdict};

/// A text is a list of names, and of these alone, or it has one first bad line, and not both.
pub fn lists_have_one_verdict()
    ensures { ListsHaveOneVerdict }
{}
