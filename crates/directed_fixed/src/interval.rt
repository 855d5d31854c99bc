ghost use Rattle.std.specs.Prelude.{◌≡◌, ◌^◌, pos, ◌≤ℤ◌};
ghost use Rattle.rat_core.specs.Fraction.{ℚ, ◌÷◌, ◌+ℚ◌, ◌-ℚ◌, ◌*ℚ◌};
ghost use Rattle.directed_fixed.specs.Rounding.{IsFloor, IsCeiling, IsRounded};
ghost use Rattle.directed_fixed.specs.Ends.{Ends, Encloses, IsWithin, IsInterval, sum_of, difference_of, multiple_of, least_product};
ghost use Rattle.directed_fixed.specs.Ends.{greatest_product, outer as outer_of, outer_product as outer_product_of};

use crate::direction::{Direction, Down, Up};
use crate::scale::Scale;
use std::marker::{Model, PhantomData};

/// The fractions from `lo` to `hi`, which are whole numbers of units of `2^-BITS` of the scale. The ends are in order,
/// and within ±2^100.
#[derive_where(Clone, Copy, Debug, PartialEq, Eq)]
pub struct Interval<S: Scale> {
    lo: i128,
    hi: i128,
    scale: PhantomData<S>,
}

impl<S: Scale> Model for Interval<S> {
    ghost Value = { Ends };

    ghost view = { λ i. record { lo = i.lo; hi = i.hi } };

    ghost invariant = { λ i. IsInterval (record { lo = i.lo; hi = i.hi }) };

    ghost inverse = { λ e. record { lo = e.lo; hi = e.hi; scale = record {} } };
}

impl<S: Scale> Interval<S> {
    /// The interval with these ends.
    pub fn new(lo: i128, hi: i128) -> Interval<S>
        requires { IsInterval (record { lo = lo; hi = hi }) }
        ensures { result ≡ record { lo = lo; hi = hi } }
    {
        Interval {
            lo,
            hi,
            scale: PhantomData,
        }
    }

    /// The lower end.
    pub fn lo(&self) -> i128
        ensures value { result ≡ self.now.lo }
        ensures interval { IsInterval self.now }
    {
        self.lo
    }

    /// The upper end.
    pub fn hi(&self) -> i128
        ensures value { result ≡ self.now.hi }
        ensures interval { IsInterval self.now }
    {
        self.hi
    }

    /// What sums of a fraction of each lie in. Both ends are exact.
    pub fn add(self, other: Interval<S>) -> Interval<S>
        requires { IsWithin (2 ^ 100) (sum_of self other) }
        ensures ends { result ≡ sum_of self other }
        ensures sums { (u v : ℚ) → Encloses S.BITS self u → Encloses S.BITS other v → Encloses S.BITS result (u +ℚ v) }
    {
        Interval::new(self.lo + other.lo, self.hi + other.hi)
    }

    /// What differences of a fraction of each lie in. Both ends are exact.
    pub fn sub(self, other: Interval<S>) -> Interval<S>
        requires { IsWithin (2 ^ 100) (difference_of self other) }
        ensures ends { result ≡ difference_of self other }
        ensures differences { (u v : ℚ) → Encloses S.BITS self u → Encloses S.BITS other v → Encloses S.BITS result (u -ℚ v) }
    {
        Interval::new(self.lo - other.hi, self.hi - other.lo)
    }

    /// What the multiples by `c` lie in. Both ends are exact.
    pub fn scale(self, c: i64) -> Interval<S>
        requires { IsWithin (2 ^ 100) (multiple_of c self) }
        ensures ends { result ≡ multiple_of c self }
        ensures multiples { (u : ℚ) → Encloses S.BITS self u → Encloses S.BITS result (c ÷ 1 *ℚ u) }
    {
        let factor = i128::from(c);
        let at_lo = factor * self.lo;
        let at_hi = factor * self.hi;
        Interval::new(at_lo.min(at_hi), at_lo.max(at_hi))
    }

    /// What products of a fraction of each lie in. The ends are those of the exact range, each rounded away from it.
    pub fn times(self, other: Interval<S>) -> Interval<S>
        requires first_factor { IsWithin (2 ^ 62) self }
        requires second_factor { IsWithin (2 ^ 62) other }
        ensures lo { IsFloor result.lo (least_product self other) (pos (2 ^ S.BITS)) }
        ensures hi { IsCeiling result.hi (greatest_product self other) (pos (2 ^ S.BITS)) }
        ensures products { (u v : ℚ) → Encloses S.BITS self u → Encloses S.BITS other v → Encloses S.BITS result (u *ℚ v) }
    {
        Interval::new(
            outer_product::<Down, S>(&self, &other),
            outer_product::<Up, S>(&self, &other),
        )
    }

    /// What the quotients by `d` lie in: each v with v·d in this interval. The ends are those of the exact range, each
    /// rounded away from it.
    pub fn div_int(self, d: i128) -> Interval<S>
        requires positive { pos 1 ≤ℤ d }
        requires divisor { d ≤ℤ pos (2 ^ 63) }
        ensures lo { IsFloor result.lo self.lo d }
        ensures hi { IsCeiling result.hi self.hi d }
        ensures quotients { (v : ℚ) → Encloses S.BITS self (v *ℚ (d ÷ 1)) → Encloses S.BITS result v }
    {
        Interval::new(Down::div(self.lo, d), Up::div(self.hi, d))
    }
}

/// The outermost product of an end of `x` and an end of `y`, rounded outwards.
fn outer_product<D: Direction, S: Scale>(x: &Interval<S>, y: &Interval<S>) -> i128
    requires first_factor { IsWithin (2 ^ 62) x.now }
    requires second_factor { IsWithin (2 ^ 62) y.now }
    ensures { IsRounded D.UP result (outer_product_of D.UP x.now y.now) (pos (2 ^ S.BITS)) }
{
    let at_lo = outer::<D>(D::mul(x.lo, y.lo, S::BITS), D::mul(x.lo, y.hi, S::BITS));
    let at_hi = outer::<D>(D::mul(x.hi, y.lo, S::BITS), D::mul(x.hi, y.hi, S::BITS));
    outer::<D>(at_lo, at_hi)
}

/// The greater number where the direction is up, else the lesser one.
fn outer<D: Direction>(a: i128, b: i128) -> i128
    ensures { result ≡ outer_of D.UP a b }
{
    if D::UP { a.max(b) } else { a.min(b) }
}
