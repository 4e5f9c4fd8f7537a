//! The operations on words: signed integers of 64 bits, and a trap where the exact answer isn't
//! one.

ghost use Rattle.std.specs.Prelude.{◌≡◌};
ghost use Rattle.spf_ast.specs.Word.{add_words, sub_words, mul_words, div_words, rem_words};
ghost use Rattle.spf_ast.specs.Word.{shl_words, shr_words, binary_words};

use crate::outcome::TrapKind;
use crate::syntax::Op;

/// Returns the sum. Traps with `Overflow` where it isn't a word.
#[inline]
pub fn add(a: i64, b: i64) -> Result<i64, TrapKind>
    ensures { result ≡ add_words a b }
{
    a.checked_add(b).ok_or(TrapKind::Overflow)
}

/// Returns the difference. Traps with `Overflow` where it isn't a word.
#[inline]
pub fn sub(a: i64, b: i64) -> Result<i64, TrapKind>
    ensures { result ≡ sub_words a b }
{
    a.checked_sub(b).ok_or(TrapKind::Overflow)
}

/// Returns the product. Traps with `Overflow` where it isn't a word.
#[inline]
pub fn mul(a: i64, b: i64) -> Result<i64, TrapKind>
    ensures { result ≡ mul_words a b }
{
    a.checked_mul(b).ok_or(TrapKind::Overflow)
}

/// Returns the quotient, truncated towards 0. Traps with `DivZero` where `b` is 0, and `Overflow`
/// for -2^63 by -1.
#[inline]
pub fn div(a: i64, b: i64) -> Result<i64, TrapKind>
    ensures { result ≡ div_words a b }
{
    if b == 0 {
        return Err(TrapKind::DivZero);
    }
    a.checked_div(b).ok_or(TrapKind::Overflow)
}

/// Returns the remainder of the truncated quotient, with the sign of `a`. Traps as `div` does.
#[inline]
pub fn rem(a: i64, b: i64) -> Result<i64, TrapKind>
    ensures { result ≡ rem_words a b }
{
    if b == 0 {
        return Err(TrapKind::DivZero);
    }
    a.checked_rem(b).ok_or(TrapKind::Overflow)
}

/// Returns `a` times 2^`b`. Traps with `Shift` where `b` isn't 0 to 63, and with `Overflow` where
/// the product isn't a word.
#[inline]
pub fn shl(a: i64, b: i64) -> Result<i64, TrapKind>
    ensures { result ≡ shl_words a b }
{
    if b < 0 || b > 63 {
        return Err(TrapKind::Shift);
    }
    if b == 63 {
        return match a {
            0 => Ok(0),
            -1 => Ok(i64::MIN),
            _ => Err(TrapKind::Overflow),
        };
    }
    mul(a, 1 << b as u32)
}

/// Returns the floor of `a` divided by 2^`b`. Traps with `Shift` where `b` isn't 0 to 63.
#[inline]
pub fn shr(a: i64, b: i64) -> Result<i64, TrapKind>
    ensures { result ≡ shr_words a b }
{
    if b < 0 || b > 63 {
        return Err(TrapKind::Shift);
    }
    Ok(a >> b as u32)
}

/// Returns what an operator gives for two words. `And`, `Or` and `Xor` work on the 64 bits of two's
/// complement and never trap.
#[inline]
pub fn binary(op: Op, a: i64, b: i64) -> Result<i64, TrapKind>
    ensures { result ≡ binary_words op a b }
{
    match op {
        Op::Add => add(a, b),
        Op::Sub => sub(a, b),
        Op::Mul => mul(a, b),
        Op::Div => div(a, b),
        Op::Rem => rem(a, b),
        Op::And => Ok(a & b),
        Op::Or => Ok(a | b),
        Op::Xor => Ok(a ^ b),
        Op::Shl => shl(a, b),
        Op::Shr => shr(a, b),
    }
}
