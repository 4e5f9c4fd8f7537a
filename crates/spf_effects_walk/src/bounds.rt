//! Bounds of operators, and of the names of loops.
ghost use Rattle.std.specs.Prelude.{◌≡◌, ◌-ℤ◌, pos};
ghost use Rattle.spf_region.specs.Bounds.{kept};
ghost use Rattle.spf_effects_findings.specs.Forms.{binary_bound};
ghost use Rattle.spf_effects_findings.specs.Found.{turn_bound, has_no_turn};

use spf_ast::syntax::Op;
use spf_region::bound::Bound;

/// The bound of an operator's result.
pub(crate) fn binary_bound(op: Op, left: Bound, right: Bound) -> Bound
    ensures { result ≡ binary_bound op left right }
{
    match op {
        Op::Add => left.plus(right),
        Op::Sub => left.minus(right),
        Op::Mul => left.times(right),
        Op::Rem => left.rem(right),
        Op::And => left.mask(right),
        Op::Div | Op::Or | Op::Xor | Op::Shl | Op::Shr => Bound::Unknown,
    }
}

/// Returns whether a loop between these ends makes no turn in any block.
pub(crate) fn has_no_turn(low: Bound, high: Bound) -> bool
    ensures { result ≡ has_no_turn low high }
{
    match (low, high) {
        (
            Bound::Known {
                factor,
                low: first,
                ..
            },
            Bound::Known {
                factor: other_factor,
                high: end,
                ..
            },
        ) => factor == other_factor && end <= first,
        _ => false,
    }
}

/// What is known of the name of a loop: it goes from the low end to one below the high end.
pub(crate) fn turn_bound(low: Bound, high: Bound) -> Bound
    ensures { result ≡ turn_bound low high }
{
    match (low, high) {
        (
            Bound::Known {
                factor,
                low: first,
                ..
            },
            Bound::Known {
                factor: other_factor,
                high: end,
                ..
            },
        ) => {
            if factor != other_factor {
                return Bound::Unknown;
            }
            up_to(factor, first, end)
        }
        _ => Bound::Unknown,
    }
}

/// The bound of a number between `factor * k + first` and `factor * k + end - 1`.
fn up_to(factor: i64, first: i64, end: i64) -> Bound
    ensures { result ≡ kept factor first (end -ℤ pos 1) }
{
    let ends = Bound::Known {
        factor,
        low: first,
        high: end,
    };
    let back = Bound::Known {
        factor: 0,
        low: 0,
        high: -1,
    };
    ends.plus(back)
}
