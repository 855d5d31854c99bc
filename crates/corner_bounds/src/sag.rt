//! What functions have to reach at the corners of a box, in units.
ghost use Rattle.std.specs.Prelude.{◌≡◌, ◌+◌, ◌-◌, ◌*◌, ◌^◌, ◌≤◌, pos, ◌*ℤ◌, ◌≤ℤ◌, unsigned_abs};
ghost use Rattle.directed_fixed.specs.Rounding.{IsCeiling};
ghost use Rattle.gradient_bounds.specs.Decision.{IsThreshold};
ghost use Rattle.corner_bounds.specs.Sag.{IsSagThreshold};

use directed_fixed::{Direction, Scale, Up};
use gradient_bounds::{Measure, Threshold};

/// The square of pi, in units, rounded up.
fn pi_square<S: Scale>() -> i128
    ensures square { IsCeiling result (S.PI_HI *ℤ S.PI_HI) (pos (2 ^ S.BITS)) }
    ensures at_least { pos 0 ≤ℤ result }
    ensures size { unsigned_abs result ≤ 2 ^ 64 }
{
    Up::mul(S::PI_HI, S::PI_HI, S::BITS)
}

/// The square of half the side at a level is 1 over this.
fn parts(level: u32) -> i128
    requires { level ≤ 20 }
    ensures { result ≡ pos (2 ^ (2 * level + 2)) }
{
    1 << (2 * level + 2)
}

/// The slack `2^-low`, in units.
fn slack_units<S: Scale>(low: u32) -> i128
    requires { low ≤ S.BITS }
    ensures { result ≡ pos (2 ^ (S.BITS - low)) }
{
    1 << (S::BITS - low)
}

/// What functions have to reach at the corners of a box of this level: the sag, so far may a function lie in the box below
/// its values at the corners, which is 2·pi² times its bend times the square of half the side, and the margin with the
/// slack `2^-low`.
pub fn sag_threshold<S: Scale>(level: u32, low: u32) -> Threshold
    requires level { level ≤ 20 }
    requires low { low ≤ S.BITS }
    ensures sag { IsSagThreshold S.BITS S.PI_HI level low result }
    ensures threshold { IsThreshold result }
{
    Threshold {
        measure: Measure::Bend,
        rate: 2 * pi_square::<S>(),
        parts: parts(level),
        slack: slack_units::<S>(low),
    }
}
