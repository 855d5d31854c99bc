//! What the difference of two heights' numbers has to reach, in units.
ghost use Rattle.std.specs.Prelude.{◌≡◌, ◌↔◌, ◌+◌, ◌*◌, ◌/◌, ◌^◌, ◌≤◌, pos, ◌+ℤ◌, ◌*ℤ◌, ◌≤ℤ◌, unsigned_abs, IsTrue};
ghost use Rattle.defining_functions.specs.Sizes.{AreSmall};
ghost use Rattle.gradient_bounds.specs.Decision.{measured, needed_at, IsThreshold};

use crate::threshold::{Measure, Threshold};
use exp_sums::Sizes;

/// The slack for each unit of the weight and one more.
fn margin(threshold: &Threshold, weight: u64) -> i128
    requires threshold { IsThreshold threshold.now }
    requires weight { weight ≤ 32768 }
    ensures is { result ≡ threshold.now.slack *ℤ pos (1 + weight) }
    ensures size { unsigned_abs result ≤ 2 ^ 76 }
{
    threshold.slack * (1 + i128::from(weight))
}

/// The margin, and 256 units for each unit of the weight: by so much the difference of two numbers may lie above the value
/// of the function.
fn allowance(threshold: &Threshold, weight: u64) -> i128
    requires threshold { IsThreshold threshold.now }
    requires weight { weight ≤ 32768 }
    ensures is { result ≡ pos (256 * weight) +ℤ threshold.now.slack *ℤ pos (1 + weight) }
    ensures size { unsigned_abs result ≤ 2 ^ 77 }
{
    256 * i128::from(weight) + margin(threshold, weight)
}

/// The size that the threshold measures.
fn size_by(measure: Measure, sizes: &Sizes) -> u64
    ensures { result ≡ measured measure sizes.now }
{
    match measure {
        Measure::Reach => sizes.reach,
        Measure::Bend => sizes.bend,
    }
}

/// What the threshold has for this size, times its parts.
fn product(threshold: &Threshold, sizes: &Sizes) -> i128
    requires threshold { IsThreshold threshold.now }
    requires sizes { AreSmall sizes.now }
    ensures is { result ≡ threshold.now.rate *ℤ pos (measured threshold.now.measure sizes.now) }
    ensures at_least { pos 0 ≤ℤ result }
    ensures size { unsigned_abs result ≤ 2 ^ 97 }
{
    threshold.rate * i128::from(size_by(threshold.measure, sizes))
}

/// `n / d`, rounded down. Where d is a power of two, as at boxes, it is a shift.
fn quotient(n: u128, d: u128) -> u128
    requires { 1 ≤ d }
    ensures { result ≡ n / d }
{
    let bits = d.trailing_zeros();
    if bits < 64 && d == 1 << bits {
        n >> bits
    } else {
        n / d
    }
}

/// A number that is at least what a function of these sizes needs, and at most a unit more.
pub fn enough(threshold: &Threshold, sizes: &Sizes) -> i128
    requires threshold { IsThreshold threshold.now }
    requires sizes { AreSmall sizes.now }
    ensures { needed_at threshold.now sizes.now ≤ℤ result }
{
    let parts = product(threshold, sizes).unsigned_abs();
    let rounded = quotient(parts, threshold.parts.unsigned_abs()) as i128 + 1;
    allowance(threshold, sizes.weight) + rounded
}

/// Whether a difference reaches what a function of these sizes needs: its threshold, rounded up, and the errors of the sines.
/// Both sides are taken times the threshold's parts, so nothing is divided.
pub fn reaches_needed(difference: i128, threshold: &Threshold, sizes: &Sizes) -> bool
    requires difference { unsigned_abs difference ≤ 2 ^ 77 }
    requires threshold { IsThreshold threshold.now }
    requires sizes { AreSmall sizes.now }
    ensures { IsTrue result ↔ (needed_at threshold.now sizes.now ≤ℤ difference) }
{
    let rest = difference - allowance(threshold, sizes.weight);
    product(threshold, sizes) <= rest * threshold.parts
}
