ghost use Rattle.std.specs.Prelude.{◌≡◌, ℕ, ◌+◌, ◌*◌, ◌^◌, ◌≤◌, pos, ◌+ℤ◌, ◌≤ℤ◌, if◌then◌else◌};
ghost use Rattle.rat_core.specs.Fraction.{ℚ, ◌+ℚ◌, ◌-ℚ◌, ◌*ℚ◌, whole};
ghost use Rattle.trig_meaning.specs.PartialSums.{arctan_sum, pi_sum};
ghost use Rattle.directed_fixed.specs.Ends.{Encloses, IsWithin, sum_of, difference_of};
ghost use Rattle.pi_bounds.specs.Narrow.{IsNarrow};

use directed_fixed::{Interval, Scale};

/// The series are computed this many times as large as they are, so that the rounding of their terms is not seen in the
/// answer.
const GUARD: i128 = 1024;

/// Machin's formula `π = 16·arctan(1/5) − 4·arctan(1/239)`, with both series cut after the term `n`.
///
/// The answer is at most 64 units wide.
pub fn machin<S: Scale>(n: u32) -> Interval<S>
    requires { n ≤ 40 }
    ensures encloses { Encloses S.BITS result (pi_sum n) }
    ensures width { result.hi ≤ℤ (result.lo +ℤ pos 64) }
{
    let greater = arctan::<S>(5, n).scale(16);
    let lesser = arctan::<S>(239, n).scale(4);
    greater.sub(lesser).div_int(GUARD)
}

/// `GUARD` times the series of the arctangent of `1/k`, cut after the term `n`.
fn arctan<S: Scale>(k: u32, n: u32) -> Interval<S>
    requires base { (2 ≤ k) × (k ≤ 1000) }
    requires terms { n ≤ 40 }
    ensures encloses { Encloses S.BITS result (whole 1024 *ℚ arctan_sum k n) }
    ensures width { result.hi ≤ℤ (result.lo +ℤ pos (2 * (n + 1))) }
    ensures size { IsWithin (2 ^ 70 * (n + 1)) result }
{
    let mut power = part(guarded_one::<S>(), k);
    let mut sum = power;
    for j in 0..n {
        power = part(power, k * k);
        sum = with_term(sum, part(power, 2 * j + 3), j % 2 == 1);
    }
    sum
}

/// `GUARD` itself.
fn guarded_one<S: Scale>() -> Interval<S>
    ensures encloses { Encloses S.BITS result (whole 1024) }
    ensures narrow { IsNarrow result }
{
    let units = GUARD << S::BITS;
    Interval::new(units, units)
}

/// `x / d`.
fn part<S: Scale>(x: Interval<S>, d: u32) -> Interval<S>
    requires divisor { 2 ≤ d }
    requires narrow { IsNarrow x }
    ensures encloses { (v : ℚ) → Encloses S.BITS x (v *ℚ whole d) → Encloses S.BITS result v }
    ensures narrow { IsNarrow result }
{
    x.div_int(i128::from(d))
}

/// The sum with a term added or taken away.
fn with_term<S: Scale>(sum: Interval<S>, term: Interval<S>, is_added: bool) -> Interval<S>
    requires sum { IsWithin (2 ^ 99) sum }
    requires term { IsNarrow term }
    ensures encloses { (u v : ℚ) → Encloses S.BITS sum u → Encloses S.BITS term v → Encloses S.BITS result (if is_added then u +ℚ v else u -ℚ v) }
    ensures width { (w : ℕ) → sum.hi ≤ℤ (sum.lo +ℤ pos w) → result.hi ≤ℤ (result.lo +ℤ pos (w + 2)) }
    ensures size { (m : ℕ) → IsWithin m sum → IsWithin (m + 2 ^ 70) result }
{
    if is_added {
        sum.add(term)
    } else {
        sum.sub(term)
    }
}

#[cfg(test)]
mod tests {
    use super::*;
    use crate::{Coarse, Fine};

    fn is_narrow<S: Scale>(x: &Interval<S>) -> bool {
        x.hi() - x.lo() <= 64
    }

    // 16/5 − 4/239 = 3804/1195, between whole numbers of units
    #[test]
    fn first_terms(rt: HostRuntime) {
        let fine = machin::<Fine>(0);
        assert!(rt; fine.lo() <= 3670053057342632549);
        assert!(rt; fine.hi() >= 3670053057342632550);
        assert!(rt; is_narrow(&fine));
        assert!(rt; fine.lo() > Fine::PI_HI);

        let coarse = machin::<Coarse>(0);
        assert!(rt; coarse.lo() <= 3500035340635);
        assert!(rt; coarse.hi() >= 3500035340636);
        assert!(rt; is_narrow(&coarse));
        assert!(rt; coarse.lo() > Coarse::PI_HI);
    }

    // with a term taken away from each series
    #[test]
    fn two_terms(rt: HostRuntime) {
        let fine = machin::<Fine>(1);
        assert!(rt; fine.lo() <= 3620861852414395374);
        assert!(rt; fine.hi() >= 3620861852414395375);
        assert!(rt; is_narrow(&fine));
    }

    #[test]
    fn all_terms(rt: HostRuntime) {
        let fine = machin::<Fine>(40);
        assert!(rt; fine.lo() <= 3622009729038561421);
        assert!(rt; fine.hi() >= 3622009729038561422);
        assert!(rt; is_narrow(&fine));

        let coarse = machin::<Coarse>(40);
        assert!(rt; coarse.lo() <= 3454217652357);
        assert!(rt; coarse.hi() >= 3454217652358);
        assert!(rt; is_narrow(&coarse));
    }
}
