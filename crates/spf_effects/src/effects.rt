//! Effects of parts.
ghost use Rattle.std.specs.Prelude.{◌≡◌, IfOk};
ghost use Rattle.spf_ast.specs.View.{block as seen_block};
ghost use Rattle.spf_ast.specs.Syntax.{end};
ghost use Rattle.spf_effects.specs.Effects.{AreEffects, effects_of};
ghost use Rattle.spf_effects_findings.specs.Found.{finds_nothing};
ghost use Rattle.spf_effects.specs.Gathered.{IsGathered};

use spf_ast::syntax::Stmt;
use spf_effects_findings::findings::Findings;
use spf_effects_walk::slot_sets::slots_in;
use spf_effects_walk::slots::{assigns_other, emits};
use spf_region::list::RangeList;
use std::alloc::{AllocError, Global};

/// What a part of a top construct reads and writes, as far as its text shows.
#[derive(Drop)]
pub struct Effects {
    /// What it may read before it has surely written it.
    pub uncovered: RangeList,
    /// What it may write.
    pub may: RangeList,
    /// What it surely writes.
    pub must: RangeList,
    /// Whether it assigns a slot that is declared outside of it.
    pub assigns_outer: bool,
    /// Whether it emits.
    pub emits: bool,
}

/// The effects of a part in which nothing is found.
pub(crate) fn no_effects(alloc: Global) -> Effects
    ensures { AreEffects (effects_of finds_nothing end) result }
{
    Effects {
        uncovered: RangeList::new(alloc),
        may: RangeList::new(alloc),
        must: RangeList::new(alloc),
        assigns_outer: false,
        emits: false,
    }
}

/// The effects of a part with these statements in which this was found.
pub(crate) fn gather(
    alloc: Global,
    found: Findings,
    statements: &[Stmt],
) -> Result<Effects, AllocError>
    ensures { IfOk result (IsGathered found (seen_block statements.now)) }
{
    let slots = slots_in(alloc, statements)?;
    Ok(Effects {
        uncovered: found.uncovered,
        may: found.may,
        must: found.written,
        assigns_outer: assigns_other(statements, &slots.declared),
        emits: emits(statements),
    })
}
