//! The rules, and what is said of a program that breaks one.

use crate::text::rule_name;
use spf_ast::syntax::Program;
use spf_region::range::Range;
use std::fmt;
use thiserror::Error;

/// A rule for top constructs. A program is refused by the first that its first faulty construct
/// breaks, in this order.
#[derive(Clone, Copy, PartialEq, Eq, Debug)]
pub enum Rule {
    /// No body, producer or consumer assigns a local that is declared outside of it.
    OuterAssign,
    /// No body, producer or consumer emits.
    EmitInside,
    /// The predictor writes nothing.
    PredictorWrites,
    /// No two blocks write the same cells, and a consumer writes nothing that its producer reads or
    /// writes.
    Overlap,
    /// The predictor reads no written array.
    PredictorReads,
    /// A body or consumer reads nothing of a written array before it has surely written it.
    ReadBeforeWrite,
    /// A body or consumer surely writes all that it may write.
    NotOverwritten,
}

/// Why a program is refused.
#[derive(Clone, Copy, PartialEq, Eq, Debug)]
pub struct Refusal {
    /// The rule that is broken.
    pub rule: Rule,
    /// The line of the construct that breaks it.
    pub line: u32,
    /// The first range that breaks it, where the rule is about ranges.
    pub range: Option<Range>,
}

/// Why a program isn't checked. It is handed back.
#[derive(Drop, Error)]
pub enum CheckError {
    /// A top construct breaks a rule.
    #[error("refused {} line {}", rule_name(.refusal.rule), .refusal.line)]
    Refused { program: Program, refusal: Refusal },
    /// There was no memory for the analysis.
    #[error("out of memory")]
    OutOfMemory { program: Program },
}

/// Shows the refusal, without the program.
impl fmt::Debug for CheckError {
    fn fmt<W: fmt::Write>(&self, f: &mut fmt::Formatter<W>) -> fmt::Result {
        match self {
            CheckError::Refused { refusal, .. } => write!(f, "Refused({refusal:?})"),
            CheckError::OutOfMemory { .. } => write!(f, "OutOfMemory"),
        }
    }
}
