ghost use Rattle.std.specs.Prelude.{◌≡◌, ℕ, ◌^◌, ◌≤◌, pos, ◌≤ℤ◌, unsigned_abs};
ghost use Rattle.rat_core.specs.Fraction.{◌÷◌, wrapped};
ghost use Rattle.trig_meaning.specs.Turn.{sine_of_turn};
ghost use Rattle.sine_fixed.specs.ReferenceAngle.{IsReference, reference_of, is_negative, value, sine_of};

use std::marker::Model;

/// An angle of `num / den` half turns, from 0 to 1/2, and whether its sine counts as negative: `0 ≤ 2·num ≤ den`, and
/// `den` is from 1 to 2^42.
#[derive(Clone, Copy, Debug, PartialEq, Eq)]
pub struct Reduced {
    pub negative: bool,
    pub num: i128,
    pub den: i128,
}

impl Model for Reduced {
    ghost use Rattle.std.specs.Prelude.{pos, ◌≤ℤ◌, unsigned_abs};
    ghost use Rattle.sine_fixed.specs.ReferenceAngle.{ReferenceAngle, IsReference};

    ghost Value = { ReferenceAngle };

    ghost view = { λ r. record { negative = r.negative; num = unsigned_abs r.num; den = unsigned_abs r.den } };

    ghost invariant = { λ r. (pos 0 ≤ℤ r.num) × (pos 1 ≤ℤ r.den) ×
        IsReference (record { negative = r.negative; num = unsigned_abs r.num; den = unsigned_abs r.den }) };

    ghost inverse = { λ a. record { negative = a.negative; num = pos a.num; den = pos a.den } };
}

/// The reference angle of `num / den` half turns, with the sign of the sine. Whole turns, which are 2, are taken off first,
/// and nothing is rounded. The denominator is kept.
pub fn turn(num: i128, den: i128) -> Reduced
    requires numerator { unsigned_abs num ≤ 2 ^ 52 }
    requires positive { pos 1 ≤ℤ den }
    requires denominator { den ≤ℤ pos (2 ^ 42) }
    ensures reference { IsReference result }
    ensures denominator { pos result.den ≡ den }
    ensures angle { value result ≡ reference_of (wrapped (num ÷ unsigned_abs den)) }
    ensures sign { result.negative ≡ is_negative (wrapped (num ÷ unsigned_abs den)) }
    ensures sine { (n : ℕ) → sine_of_turn n (num ÷ unsigned_abs den) ≡ sine_of n result }
{
    let rest = num.rem_euclid(2 * den);
    let (negative, num) = if 2 * rest <= den {
        (false, rest)
    } else if rest <= den {
        (false, den - rest)
    } else if 2 * rest <= 3 * den {
        (true, rest - den)
    } else {
        (true, 2 * den - rest)
    };
    Reduced { negative, num, den }
}

#[cfg(test)]
mod tests {
    use super::*;

    fn parts(t: Reduced) -> (bool, i128, i128) {
        (t.negative, t.num, t.den)
    }

    #[test]
    fn turns_are_reduced(rt: HostRuntime) {
        assert_eq!(rt; parts(turn(-4, 3)), (false, 1, 3));
        assert_eq!(rt; parts(turn(7, 4)), (true, 1, 4));
        assert_eq!(rt; parts(turn(1, 2)), (false, 1, 2));
        assert_eq!(rt; parts(turn(-3, 1)), (false, 0, 1));
    }
}
