//! Verdicts on logs.
ghost use Rattle.spf_replay.specs.Verdicts.{VerdictsAreOne, YesHasEachSection, VerdictsSeeRuns};

/// Whether a log is one of the program's speculative runs.
#[derive(Clone, Copy, PartialEq, Eq, Debug)]
pub enum Verdict {
    /// It has one section for each construct with blocks, in order, and each is a speculative run.
    Yes,
    /// It isn't.
    No {
        /// The first section that isn't a speculative run, or is missing, or is one too many,
        /// counted from 0.
        section: u64,
    },
}

/// A log has one verdict. Where it is `Yes`, there are as many sections as are expected. What is
/// expected matters by its speculative runs alone.
pub fn verdicts_are_exact()
    ensures one { VerdictsAreOne }
    ensures sections { YesHasEachSection }
    ensures alike { VerdictsSeeRuns }
{}
