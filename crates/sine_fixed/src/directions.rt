//! The sine and the cosine of a direction at a triangle.
ghost use Rattle.std.specs.Prelude.{◌*◌, ◌^◌, pos, ◌+ℤ◌, ◌≤ℤ◌};
ghost use Rattle.rat_core.specs.Fraction.{◌÷◌, ◌+ℚ◌};
ghost use Rattle.exp_sums.specs.Limits.{IsNear};
ghost use Rattle.trig_meaning.specs.FromSomeOn.{FromSomeOn};
ghost use Rattle.trig_meaning.specs.Turn.{sine_of_turn};
ghost use Rattle.trig_meaning.specs.Value.{turn_of};
ghost use Rattle.directed_fixed.specs.Ends.{Encloses, IsWithin};
ghost use Rattle.sine_fixed.specs.Angles.{IsAngles, IsTurnInRange, IsHalfTurnInRange, first_angle, second_angle};

use crate::{Angles, sine, turn, turn_numerator};
use directed_fixed::{Interval, Scale};
use exp_sums::Dir;

/// The sine of pi·(mx + ny), where the direction is (m, n) and the angles are x and y: the direction's second coordinate.
///
/// The answer is at most 256 units wide.
pub fn direction_sine<S: Scale>(dir: Dir, at: &Angles) -> Interval<S>
    requires near { IsNear 4096 dir }
    requires in_range { IsTurnInRange dir at.now }
    requires angles { IsAngles at.now }
    ensures encloses { FromSomeOn (λ n. Encloses S.BITS result (sine_of_turn n (turn_of dir (first_angle at.now) (second_angle at.now)))) }
    ensures width { result.hi ≤ℤ (result.lo +ℤ pos 256) }
    ensures size { IsWithin (3 * 2 ^ S.BITS) result }
{
    sine::<S>(turn(turn_numerator(dir, at), at.den))
}

/// The cosine, which is the sine a quarter turn further: the direction's first coordinate. A quarter turn is half a half turn.
///
/// The answer is at most 256 units wide.
pub fn direction_cosine<S: Scale>(dir: Dir, at: &Angles) -> Interval<S>
    requires near { IsNear 4096 dir }
    requires in_range { IsHalfTurnInRange dir at.now }
    requires angles { IsAngles at.now }
    requires denominator { at.now.den ≤ℤ pos (2 ^ 41) }
    ensures encloses { FromSomeOn (λ n. Encloses S.BITS result
        (sine_of_turn n (turn_of dir (first_angle at.now) (second_angle at.now) +ℚ pos 1 ÷ 2))) }
    ensures width { result.hi ≤ℤ (result.lo +ℤ pos 256) }
    ensures size { IsWithin (3 * 2 ^ S.BITS) result }
{
    sine::<S>(turn(2 * turn_numerator(dir, at) + at.den, 2 * at.den))
}
