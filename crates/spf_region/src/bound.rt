//! What is known of a number at each block.
ghost use Rattle.std.specs.Prelude.{◌≡◌, neg_ℤ, ◌+ℤ◌, ◌-ℤ◌, ◌*ℤ◌};
ghost use Rattle.spf_region.specs.Bounds.{is_small, small, known, number, plus, minus, negated};
ghost use Rattle.spf_region.specs.Bounds.{constant, scaled, times, is_at_least_zero, remainder};
ghost use Rattle.spf_region.specs.Bounds.{masked, masked_by, remainder_by};
ghost use Rattle.spf_region.specs.Between.{known_between};

/// What is known of a number at block k: it lies between `factor * k + low` and
/// `factor * k + high`, or nothing is known.
#[derive(Clone, Copy, PartialEq, Eq, Debug)]
pub enum Bound {
    Known { factor: i64, low: i64, high: i64 },
    Unknown,
}

/// A bound with a factor or an offset of greater magnitude isn't kept.
const LIMIT: i64 = 1 << 40;

fn is_small(n: i64) -> bool
    ensures { result ≡ is_small n }
{
    -LIMIT <= n && n <= LIMIT
}

fn small(n: i64) -> Option<i64>
    ensures { result ≡ small n }
{
    if is_small(n) { Some(n) } else { None }
}

fn small_sum(a: i64, b: i64) -> Option<i64>
    ensures { result ≡ small (a +ℤ b) }
{
    match a.checked_add(b) {
        Some(sum) => small(sum),
        None => None,
    }
}

fn small_difference(a: i64, b: i64) -> Option<i64>
    ensures { result ≡ small (a -ℤ b) }
{
    match a.checked_sub(b) {
        Some(difference) => small(difference),
        None => None,
    }
}

fn small_negative(a: i64) -> Option<i64>
    ensures { result ≡ small (neg_ℤ a) }
{
    match a.checked_neg() {
        Some(negative) => small(negative),
        None => None,
    }
}

fn small_product(a: i64, b: i64) -> Option<i64>
    ensures { result ≡ small (a *ℤ b) }
{
    match a.checked_mul(b) {
        Some(product) => small(product),
        None => None,
    }
}

fn bound_of(factor: Option<i64>, low: Option<i64>, high: Option<i64>) -> Bound
    ensures { result ≡ known factor low high }
{
    match (factor, low, high) {
        (Some(factor), Some(low), Some(high)) => Bound::Known { factor, low, high },
        _ => Bound::Unknown,
    }
}

/// Known where all three numbers are given; the last two may be in either order.
fn known_between(factor: Option<i64>, one: Option<i64>, other: Option<i64>) -> Bound
    ensures { result ≡ known_between factor one other }
{
    match (one, other) {
        (Some(a), Some(b)) => bound_of(factor, Some(a.min(b)), Some(a.max(b))),
        _ => Bound::Unknown,
    }
}

/// The bound of the bitwise and with a constant, or another where this one says nothing.
fn masked_by(constant: Option<i64>, other: Bound) -> Bound
    ensures { result ≡ masked_by constant other }
{
    match constant {
        Some(c) => {
            if 0 <= c {
                bound_of(Some(0), Some(0), small(c))
            } else {
                other
            }
        }
        None => other,
    }
}

/// The bound of the remainder by a constant.
fn remainder_by(dividend: Bound, constant: Option<i64>) -> Bound
    ensures { result ≡ remainder_by dividend constant }
{
    match constant {
        Some(c) => {
            if c <= 0 {
                Bound::Unknown
            } else if dividend.is_at_least_zero() {
                bound_of(Some(0), Some(0), small(c - 1))
            } else {
                bound_of(Some(0), small(-(c - 1)), small(c - 1))
            }
        }
        None => Bound::Unknown,
    }
}

impl Bound {
    /// Returns the bound of a number.
    pub fn number(n: i64) -> Bound
        ensures number { result ≡ number n }
    {
        bound_of(Some(0), small(n), small(n))
    }

    /// Returns the bound of a sum.
    pub fn plus(self, other: Bound) -> Bound
        ensures plus { result ≡ plus self other }
    {
        match (self, other) {
            (
                Bound::Known { factor, low, high },
                Bound::Known {
                    factor: other_factor,
                    low: other_low,
                    high: other_high,
                },
            ) => {
                bound_of(
                    small_sum(factor, other_factor),
                    small_sum(low, other_low),
                    small_sum(high, other_high),
                )
            }
            _ => Bound::Unknown,
        }
    }

    /// Returns the bound of a difference.
    pub fn minus(self, other: Bound) -> Bound
        ensures minus { result ≡ minus self other }
    {
        match (self, other) {
            (
                Bound::Known { factor, low, high },
                Bound::Known {
                    factor: other_factor,
                    low: other_low,
                    high: other_high,
                },
            ) => {
                bound_of(
                    small_difference(factor, other_factor),
                    small_difference(low, other_high),
                    small_difference(high, other_low),
                )
            }
            _ => Bound::Unknown,
        }
    }

    /// Returns the bound of the negated number.
    pub fn negate(self) -> Bound
        ensures negated { result ≡ negated self }
    {
        match self {
            Bound::Known { factor, low, high } => {
                bound_of(
                    small_negative(factor),
                    small_negative(high),
                    small_negative(low),
                )
            }
            Bound::Unknown => Bound::Unknown,
        }
    }

    /// The one number that the bound leaves at every block.
    fn constant(self) -> Option<i64>
        ensures { result ≡ constant self }
    {
        match self {
            Bound::Known { factor, low, high } => {
                if factor == 0 && low == high {
                    Some(low)
                } else {
                    None
                }
            }
            Bound::Unknown => None,
        }
    }

    /// The bound of the number times a constant.
    fn scale(self, c: i64) -> Bound
        ensures { result ≡ scaled self c }
    {
        match self {
            Bound::Known { factor, low, high } => known_between(
                small_product(factor, c),
                small_product(low, c),
                small_product(high, c),
            ),
            Bound::Unknown => Bound::Unknown,
        }
    }

    /// Returns the bound of a product. One of the two has to be a constant.
    pub fn times(self, other: Bound) -> Bound
        ensures times { result ≡ times self other }
    {
        match (self.constant(), other.constant()) {
            (_, Some(c)) => self.scale(c),
            (Some(c), None) => other.scale(c),
            (None, None) => Bound::Unknown,
        }
    }

    /// Returns whether the number is at least 0 at every block.
    fn is_at_least_zero(self) -> bool
        ensures { result ≡ is_at_least_zero self }
    {
        match self {
            Bound::Known { factor, low, .. } => factor == 0 && 0 <= low,
            Bound::Unknown => false,
        }
    }

    /// Returns the bound of a remainder, where the divisor is a positive constant. It is known for
    /// every dividend.
    pub fn rem(self, other: Bound) -> Bound
        ensures remainder { result ≡ remainder self other }
    {
        remainder_by(self, other.constant())
    }

    /// Returns the bound of the bitwise and, where one side is a constant of at least 0. It is
    /// known for every other side.
    pub fn mask(self, other: Bound) -> Bound
        ensures masked { result ≡ masked self other }
    {
        masked_by(other.constant(), masked_by(self.constant(), Bound::Unknown))
    }
}
