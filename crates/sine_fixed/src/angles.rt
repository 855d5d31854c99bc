//! The angles of a triangle over one denominator.
ghost use Rattle.std.specs.Prelude.{◌≡◌, ◌+◌, ◌*◌, ◌^◌, ◌≤◌, pos, unsigned_abs};
ghost use Rattle.rat_core.specs.Fraction.{whole, ◌÷◌, ◌≤ℚ◌};
ghost use Rattle.rat_core.specs.Written.{value};
ghost use Rattle.exp_sums.specs.Limits.{IsNear};
ghost use Rattle.trig_meaning.specs.Value.{turn_of};
ghost use Rattle.sine_fixed.specs.Angles.{IsAngles, IsTurnInRange, first_angle, second_angle};

use exp_sums::Dir;
use rat_core::Frac;

/// The angles `first / den` and `second / den` at corners 1 and 2, in half turns.
#[derive(Clone, Copy, Debug)]
pub struct Angles {
    pub first: i128,
    pub second: i128,
    pub den: i128,
}

/// The point (x, y) over the product of the denominators.
pub fn over_one_denominator(x: Frac, y: Frac) -> Angles
    requires x_least { whole 0 ≤ℚ value x }
    requires x_most { value x ≤ℚ whole 1 }
    requires y_least { whole 0 ≤ℚ value y }
    requires y_most { value y ≤ℚ whole 1 }
    requires x_denominator { x.den ≤ 2 ^ 21 }
    requires y_denominator { y.den ≤ 2 ^ 21 }
    ensures angles { IsAngles result }
    ensures first { first_angle result ≡ value x }
    ensures second { second_angle result ≡ value y }
    ensures denominator { result.den ≡ pos (x.den * y.den) }
{
    let x_den = x.den();
    let y_den = y.den();
    Angles {
        first: x.num() * y_den,
        second: y.num() * x_den,
        den: x_den * y_den,
    }
}

/// The numerator of `mx + ny` over the same denominator, for the direction (m, n).
pub fn turn_numerator(dir: Dir, at: &Angles) -> i128
    requires near { IsNear 4096 dir }
    requires in_range { IsTurnInRange dir at.now }
    requires angles { IsAngles at.now }
    ensures turn { result ÷ unsigned_abs at.now.den ≡ turn_of dir (first_angle at.now) (second_angle at.now) }
    ensures bound { unsigned_abs result ≤ (unsigned_abs dir.m + unsigned_abs dir.n) * unsigned_abs at.now.den }
    ensures size { unsigned_abs result ≤ 2 ^ 52 }
{
    i128::from(dir.m) * at.first + i128::from(dir.n) * at.second
}
