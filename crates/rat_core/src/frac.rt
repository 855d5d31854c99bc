ghost use Rattle.std.specs.Prelude.{◌≡◌, ◌*◌, ◌^◌, ◌<◌, pos, ◌<ℤ◌, unsigned_abs};
ghost use Rattle.rat_core.specs.Fraction.{◌÷◌, ◌*ℚ◌};
ghost use Rattle.rat_core.specs.Written.{value, order_of};

use std::cmp::Ordering;
use std::marker::Model;

/// A fraction as it is written: a numerator over a denominator, not reduced. Both are below 2^60 in size, so a cross
/// product is below 2^120.
#[derive(Clone, Copy, Debug)]
pub struct Frac {
    num: i128,
    den: i128,
}

impl Model for Frac {
    ghost use Rattle.std.specs.Prelude.{◌^◌, ◌<◌, pos, ◌<ℤ◌, unsigned_abs};
    ghost use Rattle.rat_core.specs.Written.{Written};

    ghost Value = { Written };

    ghost view = { λ f. record { num = f.num; den = unsigned_abs f.den } };

    ghost invariant = { λ f. (unsigned_abs f.num < 2 ^ 60) × (pos 0 <ℤ f.den) × (f.den <ℤ pos (2 ^ 60)) };

    ghost inverse = { λ w. record { num = w.num; den = pos w.den } };
}

impl Frac {
    /// The fraction `num / den`, kept as it is written.
    pub fn new(num: i128, den: i128) -> Frac
        requires num_small { unsigned_abs num < 2 ^ 60 }
        requires den_positive { pos 0 <ℤ den }
        requires den_small { den <ℤ pos (2 ^ 60) }
        ensures { result ≡ record { num = num; den = unsigned_abs den } }
    {
        Frac { num, den }
    }

    /// The numerator.
    pub fn num(&self) -> i128
        ensures value { result ≡ self.now.num }
        ensures small { unsigned_abs result < 2 ^ 60 }
    {
        self.num
    }

    /// The denominator.
    pub fn den(&self) -> i128
        ensures value { result ≡ pos self.now.den }
        ensures positive { 0 < self.now.den }
        ensures small { self.now.den < 2 ^ 60 }
    {
        self.den
    }

    /// The order of the values, by cross multiplication.
    pub fn compare(&self, other: &Frac) -> Ordering
        ensures { result ≡ order_of (value self.now) (value other.now) }
    {
        let left = self.num * other.den;
        let right = other.num * self.den;
        left.cmp(&right)
    }

    /// Half the fraction: the same numerator over the doubled denominator.
    pub fn half(&self) -> Frac
        requires { self.now.den < 2 ^ 59 }
        ensures written { result ≡ record { num = self.now.num; den = 2 * self.now.den } }
        ensures halved { value result ≡ value self.now *ℚ (pos 1 ÷ 2) }
    {
        Frac {
            num: self.num,
            den: 2 * self.den,
        }
    }
}

#[cfg(test)]
mod tests {
    use super::*;

    #[test]
    fn compares_by_value(rt: HostRuntime) {
        let third = Frac::new(1, 3);
        let two_sixths = Frac::new(2, 6);
        let minus_half = Frac::new(-1, 2);
        assert_eq!(rt; third.compare(&two_sixths), Ordering::Equal);
        assert_eq!(rt; minus_half.compare(&third), Ordering::Less);
        assert_eq!(rt; third.compare(&minus_half), Ordering::Greater);

        // The cross products differ by 2^60 - 1, and exceed 64 bits by far.
        let below_one = Frac::new(1_152_921_504_606_846_974, 1_152_921_504_606_846_975);
        let nearer_one = Frac::new(1_152_921_504_606_846_975, 1_152_921_504_606_846_975);
        assert_eq!(rt; below_one.compare(&nearer_one), Ordering::Less);
    }

    #[test]
    fn halves_by_the_denominator(rt: HostRuntime) {
        let half = Frac::new(-5, 7).half();
        assert_eq!(rt; half.num(), -5);
        assert_eq!(rt; half.den(), 14);
    }
}
