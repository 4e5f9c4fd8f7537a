//! Sweeps: stores that each turn of a loop makes, at the loop's name or at a distance from it.
ghost use Rattle.std.specs.Prelude.{◌≡◌, ℤ, ◌+ℤ◌, if◌then◌else◌, ◌≤◌, ◌^◌, List, OnOk, Some, None};
ghost use Rattle.std.specs.Prelude.{IfSome, MatchOption, unsigned_abs};
ghost use Rattle.spf_region.specs.Bounds.{is_small};
ghost use Rattle.spf_region.specs.Ranges.{Offsets};
ghost use Rattle.spf_ast.specs.View.{expression as seen_expression, block as seen_block};
ghost use Rattle.spf_ast.specs.View.{statement as seen_statement};
ghost use Rattle.spf_effects_findings.specs.Forms.{distance, sweeps, loop_sweeps};
ghost use Rattle.spf_effects_findings.specs.Found.{Sweep, sweep_joined, sweeps_joined, swept};
ghost use Rattle.spf_effects_findings.specs.Extends.{IsSwept};
ghost use Rattle.spf_effects_walk.specs.Sweeping.{slot_of, number_of, signed, moved, sweeps_of};

use crate::slots::breaks;
use spf_ast::syntax::{Expr, Op, Stmt, StmtKind};
use spf_effects_findings::findings::{Findings, last_of_one};
use spf_region::bound::Bound;
use spf_region::range::Range;
use std::alloc::{AllocError, Global};

/// A sweep with an offset of greater magnitude isn't kept.
const LIMIT: i128 = 1 << 40;

fn is_small(n: i128) -> bool
    ensures { result ≡ is_small n }
{
    -LIMIT <= n && n <= LIMIT
}

/// The sum, where it is small.
fn small_sum(n: i64, distance: i128) -> Option<i64>
    requires { unsigned_abs distance ≤ 2 ^ 63 }
    ensures { result ≡ (if is_small (n +ℤ distance) then Some (n +ℤ distance) else None) }
{
    let sum = i128::from(n) + distance;
    if is_small(sum) {
        Some(sum as i64)
    } else {
        None
    }
}

/// The slot that an expression is.
fn slot_of(expr: &Expr) -> Option<u32>
    ensures { result ≡ slot_of (seen_expression expr.now) }
{
    match expr {
        Expr::Local(slot) => Some(*slot),
        _ => None,
    }
}

/// The number that an expression is.
fn number_of(expr: &Expr) -> Option<i64>
    ensures { result ≡ number_of (seen_expression expr.now) }
{
    match expr {
        Expr::Number(n) => Some(*n),
        _ => None,
    }
}

/// How far `x + n` or `x - n` is from `x`.
fn signed_step(op: Op, n: i64) -> Option<i128>
    ensures value { result ≡ signed op n }
    ensures size { IfSome result (λ d. unsigned_abs d ≤ 2 ^ 63) }
{
    match op {
        Op::Add => Some(i128::from(n)),
        Op::Sub => Some(-i128::from(n)),
        _ => None,
    }
}

/// How far the sum or difference of a slot and a number is from a loop's name.
fn distance_of_sum(name: u32, op: Op, slot: Option<u32>, n: Option<i64>) -> Option<i128>
    ensures value { result ≡ moved name op slot n }
    ensures size { IfSome result (λ d. unsigned_abs d ≤ 2 ^ 63) }
{
    match (slot, n) {
        (Some(slot), Some(n)) => {
            if slot != name {
                return None;
            }
            signed_step(op, n)
        }
        _ => None,
    }
}

/// How far an index is from a loop's name: the name itself, the name plus a number, or the name
/// minus a number.
fn distance(name: u32, index: &Expr) -> Option<i128>
    ensures value { result ≡ distance name (seen_expression index.now) }
    ensures size { IfSome result (λ d. unsigned_abs d ≤ 2 ^ 63) }
{
    match index {
        Expr::Local(slot) => {
            if *slot != name {
                return None;
            }
            Some(0)
        }
        Expr::Binary(op, base, n) => distance_of_sum(name, *op, slot_of(base), number_of(n)),
        Expr::Number(_)
        | Expr::Len
        | Expr::Input(_)
        | Expr::Load(_, _)
        | Expr::Call(_, _)
        | Expr::Neg(_) => None,
    }
}

/// The turns of a loop whose ends are one offset each.
#[derive(Clone, Copy)]
struct Turns {
    factor: i64,
    first: i64,
    last: i64,
}

/// The turns of a loop between ends of one offset each, where there is one.
fn turns_between(low: Bound, high: Bound) -> Option<Turns>
    ensures { MatchOption result ((s : List Sweep) (w : Offsets) → swept low high s w ≡ w) (λ t.
        (s : List Sweep) (w : Offsets)
        → swept low high s w ≡ sweeps_joined t.factor t.first t.last s w) }
{
    match (low, high) {
        (
            Bound::Known { factor, low, high },
            Bound::Known {
                factor: other_factor,
                low: end_low,
                high: end_high,
            },
        ) => {
            if factor != other_factor {
                return None;
            }
            let last = last_of_one(low, high, end_low, end_high)?;
            Some(Turns {
                factor,
                first: low,
                last,
            })
        }
        _ => None,
    }
}

/// Adds the offsets of a sweep to what is surely written, unless they are too great to be kept.
fn sweep_one(
    alloc: Global,
    turns: Turns,
    array: u32,
    distance: i128,
    found: &mut Findings,
) -> Result<(), AllocError>
    requires { unsigned_abs distance ≤ 2 ^ 63 }
    ensures { OnOk result (IsSwept (sweep_joined turns.factor turns.first turns.last
        (record { array = array; distance = distance })) found.old found.new) }
{
    match (
        small_sum(turns.first, distance),
        small_sum(turns.last, distance),
    ) {
        (Some(from), Some(to)) => {
            let range = Range::Affine {
                array,
                factor: turns.factor,
                from,
                to,
            };
            found.surely_write(alloc, range)
        }
        _ => Ok(()),
    }
}

/// Adds the sweep of a statement, where it is one.
fn sweep_statement(
    alloc: Global,
    name: u32,
    turns: Turns,
    kind: &StmtKind,
    found: &mut Findings,
) -> Result<(), AllocError>
    ensures { OnOk result (IsSwept (sweeps_joined turns.factor turns.first turns.last
        (sweeps_of name (seen_statement kind.now))) found.old found.new) }
{
    match kind {
        StmtKind::Store(array, index, _) => match distance(name, index) {
            Some(distance) => sweep_one(alloc, turns, *array, distance, found),
            None => Ok(()),
        },
        StmtKind::Let(_, _)
        | StmtKind::Assign(_, _)
        | StmtKind::Fill(_, _, _, _)
        | StmtKind::Emit(_)
        | StmtKind::Fail(_)
        | StmtKind::If(_, _, _)
        | StmtKind::For(_, _, _, _)
        | StmtKind::While(_, _, _)
        | StmtKind::Call(_, _)
        | StmtKind::Break => Ok(()),
        StmtKind::Fold(_) => Ok(()),
        StmtKind::Pair(_) => Ok(()),
    }
}

/// Adds the sweeps of a loop's body.
fn sweep_each(
    alloc: Global,
    name: u32,
    turns: Turns,
    body: &[Stmt],
    found: &mut Findings,
) -> Result<(), AllocError>
    ensures { OnOk result (IsSwept
        (sweeps_joined turns.factor turns.first turns.last (sweeps name (seen_block body.now)))
        found.old found.new) }
{
    for statement in body {
        sweep_statement(alloc, name, turns, &statement.kind, found)?;
    }
    Ok(())
}

/// Adds what the turns of a loop surely write: nothing where a `break` may end it before its last
/// turn.
pub(crate) fn sweep(
    alloc: Global,
    name: u32,
    low: Bound,
    high: Bound,
    body: &[Stmt],
    found: &mut Findings,
) -> Result<(), AllocError>
    ensures { OnOk result
        (IsSwept (swept low high (loop_sweeps name (seen_block body.now))) found.old found.new) }
{
    if breaks(body) {
        return Ok(());
    }
    match turns_between(low, high) {
        Some(turns) => sweep_each(alloc, name, turns, body, found),
        None => Ok(()),
    }
}
