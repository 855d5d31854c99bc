//! The angles of a triangle that are whole multiples of pi / 2^21.
ghost use Rattle.std.specs.Prelude.{◌≡◌, ◌^◌, ◌≤◌, pos, IfSome};
ghost use Rattle.rat_core.specs.Fraction.{◌÷◌, whole, ◌≤ℚ◌};
ghost use Rattle.rat_core.specs.Written.{value};
ghost use Rattle.sine_fixed.specs.SineTables.{IsGridAngles, half_turn};

use rat_core::Frac;

/// So many parts of pi / 2^21 are half a turn.
const HALF_TURN: u64 = 1 << 21;

/// The angles at corners 1 and 2, in parts of pi / 2^21.
#[derive(Clone, Copy, Debug)]
pub struct GridAngles {
    pub first: u32,
    pub second: u32,
}

impl GridAngles {
    /// The point (x, y), where both denominators divide 2^21, as those of the centres of boxes do. Else `None`.
    pub fn of(x: Frac, y: Frac) -> Option<GridAngles>
        requires x_least { whole 0 ≤ℚ value x }
        requires x_most { value x ≤ℚ whole 1 }
        requires y_least { whole 0 ≤ℚ value y }
        requires y_most { value y ≤ℚ whole 1 }
        requires x_denominator { x.den ≤ 2 ^ 21 }
        requires y_denominator { y.den ≤ 2 ^ 21 }
        ensures angles { IfSome result IsGridAngles }
        ensures first { IfSome result (λ a. pos a.first ÷ half_turn ≡ value x) }
        ensures second { IfSome result (λ a. pos a.second ÷ half_turn ≡ value y) }
    {
        match (parts_of(x), parts_of(y)) {
            (Some(first), Some(second)) => Some(GridAngles { first, second }),
            _ => None,
        }
    }
}

/// A fraction from 0 to 1 in parts of 2^-21, where its denominator divides 2^21.
fn parts_of(x: Frac) -> Option<u32>
    requires least { whole 0 ≤ℚ value x }
    requires most { value x ≤ℚ whole 1 }
    requires denominator { x.den ≤ 2 ^ 21 }
    ensures parts { IfSome result (λ parts. pos parts ÷ half_turn ≡ value x) }
    ensures within { IfSome result (λ parts. parts ≤ half_turn) }
{
    in_parts(x.num().unsigned_abs() as u64, x.den().unsigned_abs() as u64)
}

/// The same of `num / den`. The factor between the denominators is a power of two, as 2^21 is.
fn in_parts(num: u64, den: u64) -> Option<u32>
    requires positive { 1 ≤ den }
    requires denominator { den ≤ 2 ^ 21 }
    requires within { num ≤ den }
    ensures parts { IfSome result (λ parts. pos parts ÷ half_turn ≡ pos num ÷ den) }
    ensures within { IfSome result (λ parts. parts ≤ half_turn) }
{
    let factor = HALF_TURN >> den.trailing_zeros();
    if factor * den == HALF_TURN {
        Some((factor * num) as u32)
    } else {
        None
    }
}
