ghost use Rattle.std.specs.Prelude.{ℕ, ◌^◌, ◌≤◌, Bool, true, false, pos, ◌*ℤ◌, ◌≤ℤ◌, unsigned_abs};
ghost use Rattle.directed_fixed.specs.Rounding.{IsRounded};

/// A direction in which a fraction is rounded to a whole number. The answer is on that side of the exact value and less
/// than one unit away from it, at negative numbers too.
pub trait Direction {
    /// Whether numbers are rounded up.
    const UP: bool;

    ghost UP: { Bool };

    /// `a · b / 2^bits`, rounded.
    fn mul(a: i128, b: i128, bits: u32) -> i128
        requires first_factor { unsigned_abs a ≤ 2 ^ 63 }
        requires second_factor { unsigned_abs b ≤ 2 ^ 63 }
        requires bits_in_range { bits ≤ 60 }
        ensures { IsRounded UP result (a *ℤ b) (pos (2 ^ bits)) };

    /// `a / b`, rounded.
    fn div(a: i128, b: i128) -> i128
        requires dividend { unsigned_abs a ≤ 2 ^ 120 }
        requires positive { pos 1 ≤ℤ b }
        requires divisor { b ≤ℤ pos (2 ^ 63) }
        ensures { IsRounded UP result a b };
}

/// Rounding down, to the floor.
#[derive(Clone, Copy, Debug, PartialEq, Eq)]
pub struct Down;

/// Rounding up, to the ceiling.
#[derive(Clone, Copy, Debug, PartialEq, Eq)]
pub struct Up;

impl Direction for Down {
    const UP: bool = false;

    ghost UP = { false };

    fn mul(a: i128, b: i128, bits: u32) -> i128 {
        (a * b) >> bits
    }

    fn div(a: i128, b: i128) -> i128 {
        a.div_euclid(b)
    }
}

impl Direction for Up {
    const UP: bool = true;

    ghost UP = { true };

    fn mul(a: i128, b: i128, bits: u32) -> i128 {
        -Down::mul(-a, b, bits)
    }

    fn div(a: i128, b: i128) -> i128 {
        -Down::div(-a, b)
    }
}

#[cfg(test)]
mod tests {
    use super::*;

    #[test]
    fn quotients(rt: HostRuntime) {
        assert_eq!(rt; Down::div(-7, 2), -4);
        assert_eq!(rt; Up::div(-7, 2), -3);
        assert_eq!(rt; Down::div(7, 2), 3);
        assert_eq!(rt; Up::div(7, 2), 4);
        assert_eq!(rt; Down::div(-8, 2), -4);
        assert_eq!(rt; Up::div(-8, 2), -4);
    }

    #[test]
    fn products(rt: HostRuntime) {
        assert_eq!(rt; Down::mul(-3, 5, 2), -4);
        assert_eq!(rt; Up::mul(-3, 5, 2), -3);
        assert_eq!(rt; Down::mul(3, -5, 2), -4);
        assert_eq!(rt; Up::mul(-3, -5, 2), 4);
        assert_eq!(rt; Up::mul(-4, 5, 2), -5);
    }
}
