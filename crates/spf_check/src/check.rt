//! Checks programs by the rules.
ghost use Rattle.std.specs.Prelude.{◌≡◌, option_map, IfOk};
ghost use Rattle.spf_ast.specs.Lawful.{IsLawful};
ghost use Rattle.spf_ast.specs.Syntax.{Program as plain_program};
ghost use Rattle.spf_ast.specs.View.{program as seen_program};
ghost use Rattle.spf_ast.specs.Construct.{fold, pair};
ghost use Rattle.spf_ast.specs.ConstructView.{construct as seen_construct};
ghost use Rattle.spf_check.specs.Parts.{AreEffectsOf};
ghost use Rattle.spf_check.specs.Verdicts.{IsExamined, IsVerdict};
ghost use Rattle.spf_check.specs.Checking.{IsChecked};

use crate::checked::{Checked, Writes};
use crate::construct::ConstructEffects;
use crate::rule::{CheckError, Refusal};
use spf_ast::construct::{ConstructKind, TopConstruct, constructs};
use spf_ast::syntax::{Part, Program};
use spf_effects::analysis::effects;
use spf_effects::effects::Effects;
use spf_region::list::RangeList;
use std::alloc::{AllocError, Global};

/// The result of examining one construct.
#[derive(Drop)]
pub(crate) enum Examined {
    Accepted(Writes),
    Refused(Refusal),
}

/// The verdict on a whole program.
#[derive(Drop)]
pub(crate) enum Verdict {
    Accepted(Vec<Writes>),
    Refused(Refusal),
}

/// The effects of all parts of a fold.
fn fold_effects(
    alloc: Global,
    program: &Program,
    construct: TopConstruct,
) -> Result<ConstructEffects, AllocError>
    ensures { (line : _) (head : _) (body : _)
        → seen_construct construct.entry ≡ fold line head body
        → IfOk result (AreEffectsOf (seen_program program.now) (fold line head body)) }
{
    Ok(ConstructEffects {
        guessed: effects(alloc, program, construct, Part::Body)?,
        predictor: effects(alloc, program, construct, Part::Predictor)?,
        producer: None,
    })
}

/// The effects of all parts of a pair.
fn pair_effects(
    alloc: Global,
    program: &Program,
    construct: TopConstruct,
) -> Result<ConstructEffects, AllocError>
    ensures { (line : _) (head : _) (producer : _) (consumer : _)
        → seen_construct construct.entry ≡ pair line head producer consumer
        → IfOk result (AreEffectsOf (seen_program program.now) (pair line head producer consumer)) }
{
    Ok(ConstructEffects {
        guessed: effects(alloc, program, construct, Part::Consumer)?,
        predictor: effects(alloc, program, construct, Part::Predictor)?,
        producer: Some(effects(alloc, program, construct, Part::Producer)?),
    })
}

/// The effects of all parts of a construct.
pub(crate) fn effects_of(
    alloc: Global,
    program: &Program,
    construct: TopConstruct,
) -> Result<ConstructEffects, AllocError>
    ensures { IfOk result
        (AreEffectsOf (seen_program program.now) (seen_construct construct.entry)) }
{
    match construct.kind {
        ConstructKind::Fold(_) => fold_effects(alloc, program, construct),
        ConstructKind::Pair(_) => pair_effects(alloc, program, construct),
    }
}

/// What a producer may write, where there is one.
fn written_by(producer: Option<Effects>) -> Option<RangeList>
    ensures { result ≡ option_map (λ e. e.may) producer }
{
    match producer {
        Some(producer) => Some(producer.may),
        None => None,
    }
}

/// What the block parts of a construct may write.
fn writes_of(found: ConstructEffects) -> Writes
    ensures guessed { result.guessed ≡ found.guessed.may }
    ensures producer { result.producer ≡ option_map (λ e. e.may) found.producer }
{
    let guessed = found.guessed;
    let producer = written_by(found.producer);
    Writes {
        guessed: guessed.may,
        producer,
    }
}

/// Judges a construct, given the effects of its parts.
fn judge(construct: &TopConstruct, found: ConstructEffects) -> Examined
    ensures { (p : plain_program) → AreEffectsOf p (seen_construct construct.now) found
        → IsExamined p (seen_construct construct.now) result }
{
    match found.lowest_broken() {
        Some((rule, range)) => Examined::Refused(Refusal {
            rule,
            line: construct.line,
            range,
        }),
        None => Examined::Accepted(writes_of(found)),
    }
}

/// Examines one construct.
fn examine_construct(
    alloc: Global,
    program: &Program,
    construct: TopConstruct,
) -> Result<Examined, AllocError>
    ensures { IfOk result (IsExamined (seen_program program.now) (seen_construct construct.entry)) }
{
    let found = effects_of(alloc, program, construct)?;
    Ok(judge(&construct, found))
}

/// Examines the top constructs of a program, in their order, up to the first that breaks a rule.
fn examine(alloc: Global, program: &Program) -> Result<Verdict, AllocError>
    ensures { IfOk result (IsVerdict (seen_program program.now)) }
{
    let found = constructs(alloc, &program.main)?;
    let mut writes = Vec::new(alloc);
    for construct in &found {
        match examine_construct(alloc, program, *construct)? {
            Examined::Accepted(kept) => writes.push(kept)?,
            Examined::Refused(refusal) => return Ok(Verdict::Refused(refusal)),
        }
    }
    Ok(Verdict::Accepted(writes))
}

/// Checks a lawful program by the seven rules: it is accepted exactly where each of its top
/// constructs keeps them all.
///
/// # Errors
///
/// `Refused` exactly where a top construct breaks a rule, with the first refusal: that of the first
/// such construct in the order of the text, by the lowest rule that it breaks, with the construct's
/// line and the first range that breaks the rule. `OutOfMemory` where there was no memory for the
/// analysis. Both hand the program back.
pub fn check(alloc: Global, program: Program) -> Result<Checked, CheckError>
    requires lawful { IsLawful (seen_program program) }
    ensures { IsChecked program result }
{
    // Law: what keeps the seven rules is rollback free.
    spf_check_rules::laws::the_rules_set_free();
    match examine(alloc, &program) {
        Ok(Verdict::Accepted(writes)) => Ok(Checked { program, writes }),
        Ok(Verdict::Refused(refusal)) => Err(CheckError::Refused { program, refusal }),
        Err(AllocError) => Err(CheckError::OutOfMemory { program }),
    }
}
