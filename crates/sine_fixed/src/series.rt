ghost use Rattle.std.specs.Prelude.{◌≡◌, ℕ, ◌+◌, ◌*◌, ◌/◌, ◌^◌, ◌≤◌, pos, ◌+ℤ◌, ◌≤ℤ◌, unsigned_abs};
ghost use Rattle.rat_core.specs.Fraction.{ℚ, ◌÷◌, whole, ◌*ℚ◌, ◌≤ℚ◌};
ghost use Rattle.trig_meaning.specs.PartialSums.{pi_sum, sine_sum};
ghost use Rattle.trig_meaning.specs.FromSomeOn.{FromSomeOn};
ghost use Rattle.directed_fixed.specs.Ends.{Encloses, IsWithin};
ghost use Rattle.sine_fixed.specs.ReferenceAngle.{value, signed_value, sine_of};
ghost use Rattle.sine_fixed.specs.Near.{IsNear};
ghost use Rattle.sine_fixed.specs.SineTables.{IsClose};

use crate::reduced::Reduced;
use directed_fixed::{Interval, Scale};

/// Pi in units of 2^-60, rounded down.
const PI: u128 = 0x3243_F6A8_885A_308D;

/// The power of the last term of the series is `2·LAST + 1`.
const LAST: usize = 11;

/// `4^j / (2j + 1)!` in units of 2^-60, rounded down, for j from 0 to `LAST`. At an angle of at most 8/5 all later terms
/// of the series come to at most `(8/5)^25 / 25!`, which is less than a hundredth of a unit.
const COEFFICIENTS: [u64; LAST + 1] = [
    1_152_921_504_606_846_976,
    768_614_336_404_564_650,
    153_722_867_280_912_930,
    14_640_273_074_372_660,
    813_348_504_131_814,
    29_576_309_241_156,
    758_366_903_619,
    14_445_083_878,
    212_427_704,
    2_484_534,
    23_662,
    187,
];

/// The sine of a reference angle with its sign. From some one on it contains the approximations of the sine.
///
/// The answer is at most 256 units wide, and its ends are from -3 to 3.
pub fn sine<S: Scale>(t: Reduced) -> Interval<S>
    ensures encloses { FromSomeOn (λ n. Encloses S.BITS result (sine_of n t)) }
    ensures width { result.hi ≤ℤ (result.lo +ℤ pos 256) }
    ensures size { IsWithin (3 * 2 ^ S.BITS) result }
{
    with_sign::<S>(t.negative, enclosure::<S>(series(angle(&t))))
}

/// The sine of a reference angle with its sign as one number, in units of 2^-60: within 30 of the approximations of the sine
/// from some one on.
pub fn close_sine(t: Reduced) -> i64
    ensures close { FromSomeOn (λ n. IsClose result (sine_of n t)) }
    ensures size { unsigned_abs result ≤ 2 ^ 61 }
{
    signed(t.negative, series(angle(&t)) as i64)
}

/// `number`, or its negative.
fn signed(negative: bool, number: i64) -> i64
    requires { unsigned_abs number ≤ 2 ^ 61 }
    ensures close { (v : ℚ) → IsClose number v → IsClose result (signed_value negative v) }
    ensures size { unsigned_abs result ≤ 2 ^ 61 }
{
    if negative { -number } else { number }
}

/// `x`, or its negative.
fn with_sign<S: Scale>(negative: bool, x: Interval<S>) -> Interval<S>
    requires { IsWithin (3 * 2 ^ S.BITS) x }
    ensures encloses { (u : ℚ) → Encloses S.BITS x u → Encloses S.BITS result (signed_value negative u) }
    ensures width { (w : ℕ) → x.hi ≤ℤ (x.lo +ℤ pos w) → result.hi ≤ℤ (result.lo +ℤ pos w) }
    ensures size { IsWithin (3 * 2 ^ S.BITS) result }
{
    if negative {
        Interval::new(-x.hi(), -x.lo())
    } else {
        x
    }
}

/// What a sine lies in, where `number` is its series in units of 2^-60. The sine is at most 27 of these under the number
/// and at most 30 over it: the series as cut off is within 26 and 29, and the terms that are left out come to less than
/// one. The shift to the scale takes off less than one unit.
fn enclosure<S: Scale>(number: u64) -> Interval<S>
    requires { number ≤ 2 ^ 61 }
    ensures encloses { (v : ℚ) → IsNear 27 30 number v → Encloses S.BITS result v }
    ensures width { result.hi ≤ℤ (result.lo +ℤ pos 58) }
    ensures size { IsWithin (3 * 2 ^ S.BITS) result }
{
    let units = i128::from(number >> (60 - S::BITS));
    Interval::new(units - 27, units + 31)
}

/// Pi times the reference angle, in units of 2^-60.
fn angle(t: &Reduced) -> u64
    ensures near { FromSomeOn (λ n. IsNear 0 2 result (pi_sum n *ℚ value t.now)) }
    ensures size { result ≤ 2 ^ 61 }
{
    quotient(PI * t.num.unsigned_abs(), t.den.unsigned_abs()) as u64
}

/// `n / d`, rounded down. Where d is a power of two, as at the centres of boxes, it is a shift.
fn quotient(n: u128, d: u128) -> u128
    requires { 1 ≤ d }
    ensures { result ≡ n / d }
{
    let bits = d.trailing_zeros();
    if bits < 64 && d == 1 << bits {
        n >> bits
    } else {
        n / d
    }
}

/// The series of the sine at `angle`, cut off after the term `LAST`, in units of 2^-60. With `w` for `z²/4` and `cj` for
/// `4^j / (2j + 1)!` it is `z·((c0 + w²·(c2 + ..)) − w·(c1 + w²·(c3 + ..)))`: two chains by Horner's scheme, which do not wait
/// for one another. Each number is cut to a whole one. Since `w²` is at most 7/16, a number of a chain is at most 16 units
/// too small.
fn series(angle: u64) -> u64
    requires { angle ≤ 2 ^ 61 }
    ensures near { (z : ℚ) → whole 0 ≤ℚ z → z ≤ℚ pos 8 ÷ 5 → IsNear 0 2 angle z → IsNear 26 29 result (sine_sum 11 z) }
    ensures size { result ≤ 2 ^ 61 }
{
    let quarter_square = product(angle, angle, 62);
    let square = product(quarter_square, quarter_square, 60);
    let mut even = COEFFICIENTS[LAST - 1];
    let mut odd = COEFFICIENTS[LAST];
    for j in 0..LAST / 2 {
        even = COEFFICIENTS[LAST - 3 - 2 * j] + product(square, even, 60);
        odd = COEFFICIENTS[LAST - 2 - 2 * j] + product(square, odd, 60);
    }
    product(angle, even - product(quarter_square, odd, 60), 60)
}

/// `a·b / 2^bits`, rounded down.
fn product(a: u64, b: u64, bits: u32) -> u64
    requires first_factor { a ≤ 2 ^ 61 }
    requires second_factor { b ≤ 2 ^ 61 }
    requires least_bits { 60 ≤ bits }
    requires most_bits { bits ≤ 62 }
    ensures { result ≡ a * b / 2 ^ bits }
{
    ((u128::from(a) * u128::from(b)) >> bits) as u64
}
