//! The top constructs of a program.

ghost use Rattle.std.specs.Prelude.{◌≡◌, ◌^◌, ◌<◌, length, map, slice_get, MatchOption, IfOk, Some};
ghost use Rattle.std.specs.Prelude.{None};
ghost use Rattle.spf_ast.specs.View.{block as seen_block, predictor as seen_predictor};
ghost use Rattle.spf_ast.specs.View.{statement as seen_statement, program as seen_program};
ghost use Rattle.spf_ast.specs.Construct.{construct_of, constructs_in, carried_of, predictors_of};
ghost use Rattle.spf_ast.specs.Construct.{part_of as part_run, is_construct as is_construct_form};
ghost use Rattle.spf_ast.specs.ConstructView.{construct as seen_construct};

use crate::syntax::{Fold, Pair, Part, Predict, Program, Stmt, StmtKind};
use std::alloc::{AllocError, Global};

/// A top construct: a fold or a pair that is a direct statement of `main`.
#[derive(Clone, Copy)]
pub struct TopConstruct<'a> {
    /// The line that a trap of the statement itself would have.
    pub line: u32,
    /// What it is.
    pub kind: ConstructKind<'a>,
}

/// What a top construct is.
#[derive(Clone, Copy)]
pub enum ConstructKind<'a> {
    Fold(&'a Fold),
    Pair(&'a Pair),
}

impl<'a> TopConstruct<'a> {
    /// Returns the slots of the carried row.
    pub fn carried_slots(self) -> &'a [u32]
        ensures { result.now ≡ carried_of (seen_construct self.entry) }
    {
        match self.kind {
            ConstructKind::Fold(fold) => &fold.carried,
            ConstructKind::Pair(pair) => &pair.carried,
        }
    }

    /// Returns how the parts of a row are guessed.
    pub fn predictors(self) -> &'a [Predict]
        ensures { map seen_predictor result.now ≡ predictors_of (seen_construct self.entry) }
    {
        match self.kind {
            ConstructKind::Fold(fold) => &fold.predict,
            ConstructKind::Pair(pair) => &pair.predict,
        }
    }

    /// Returns the part that the block of this index runs: of a fold the body; of a pair the
    /// producer first, and then the consumer.
    pub fn part_of(self, block: u64) -> Part
        ensures { result ≡ part_run (seen_construct self.entry) block }
    {
        match self.kind {
            ConstructKind::Fold(_) => Part::Body,
            ConstructKind::Pair(_) if block == 0 => Part::Producer,
            ConstructKind::Pair(_) => Part::Consumer,
        }
    }
}

/// Returns whether a statement is a fold or a pair.
pub fn is_construct(kind: &StmtKind) -> bool
    ensures { result ≡ is_construct_form (seen_statement kind.now) }
{
    match kind {
        StmtKind::Fold(_) => true,
        StmtKind::Pair(_) => true,
        _ => false,
    }
}

/// Returns the construct that a statement is, where it is one.
pub fn as_construct<'a>(statement: &'a Stmt) -> Option<TopConstruct<'a>>
    ensures { MatchOption result
        (construct_of statement.now.line (seen_statement statement.now.kind) ≡ None) (λ c.
        construct_of statement.now.line (seen_statement statement.now.kind)
        ≡ Some (seen_construct c)) }
{
    let line = statement.line;
    match &statement.kind {
        StmtKind::Fold(fold) => Some(TopConstruct {
            line,
            kind: ConstructKind::Fold(fold),
        }),
        StmtKind::Pair(pair) => Some(TopConstruct {
            line,
            kind: ConstructKind::Pair(pair),
        }),
        _ => None,
    }
}

/// Returns how many of these statements are constructs.
pub fn count_constructs(main: &[Stmt]) -> u32
    requires { length (constructs_in (seen_block main.now)) < 2 ^ 32 }
    ensures { result ≡ length (constructs_in (seen_block main.now)) }
{
    let mut count = 0;
    for statement in main {
        if is_construct(&statement.kind) {
            count += 1;
        }
    }
    count
}

/// Returns the construct of this number among these statements, numbered from 0; none where there
/// are fewer.
pub fn find_construct<'a>(main: &'a [Stmt], number: u32) -> Option<TopConstruct<'a>>
    ensures { MatchOption result
        (slice_get (constructs_in (seen_block main.now)) number ≡ None)
        (λ c. slice_get (constructs_in (seen_block main.now)) number ≡ Some (seen_construct c)) }
{
    let mut left = number;
    for statement in main {
        if let Some(construct) = as_construct(statement) {
            if left == 0 {
                return Some(construct);
            }
            left -= 1;
        }
    }
    None
}

/// Returns all constructs among these statements, in their order.
///
/// # Errors
///
/// `AllocError` where there is no memory for the list.
pub fn constructs<'a>(alloc: Global, main: &'a [Stmt]) -> Result<Vec<TopConstruct<'a>>, AllocError>
    ensures { IfOk result
        (λ found. map seen_construct found.items ≡ constructs_in (seen_block main.now)) }
{
    let mut found = Vec::new(alloc);
    for statement in main {
        if let Some(construct) = as_construct(statement) {
            found.push(construct)?;
        }
    }
    Ok(found)
}

/// Returns how many top constructs a program has: folds and pairs that are direct statements of
/// `main`.
pub fn top_constructs(program: &Program) -> u32
    requires { length (constructs_in (seen_program program.now).main) < 2 ^ 32 }
    ensures { result ≡ length (constructs_in (seen_program program.now).main) }
{
    count_constructs(&program.main)
}
