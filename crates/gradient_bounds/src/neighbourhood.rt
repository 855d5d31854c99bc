//! Neighbourhoods in the angle plane: points and boxes.
ghost use Rattle.std.specs.Prelude.{◌≡◌, ◌+◌, ◌-◌, ◌^◌, ◌≤◌, pos};
ghost use Rattle.rat_core.specs.Fraction.{whole, ◌+ℚ◌, ◌<ℚ◌};
ghost use Rattle.rat_core.specs.Written.{value};
ghost use Rattle.rational_polygon.specs.Square.{centre, half_side};
ghost use Rattle.gradient_bounds.specs.Decision.{IsThreshold, drift_threshold};
ghost use Rattle.gradient_bounds.specs.Neighbourhood.{IsNeighbourhood, ball_of};

use crate::threshold::{Measure, Threshold};
use directed_fixed::Scale;
use rat_core::Frac;
use rational_polygon::GridBox;
use sine_fixed::{Angles, over_one_denominator};

/// The points whose coordinates differ from those of the centre by at most `radius / centre.den`: a box, or a point
/// where the radius is 0.
#[derive(Clone, Copy, Debug)]
pub struct Neighbourhood {
    pub centre: Angles,
    pub radius: i128,
}

/// The triangle (x, y) alone.
pub fn point(x: Frac, y: Frac) -> Neighbourhood
    requires first { whole 0 <ℚ value x }
    requires second { whole 0 <ℚ value y }
    requires third { value x +ℚ value y <ℚ whole 1 }
    requires x_denominator { x.den ≤ 2 ^ 20 }
    requires y_denominator { y.den ≤ 2 ^ 20 }
    ensures neighbourhood { IsNeighbourhood result }
    ensures ball { ball_of result ≡ record { x = value x; y = value y; radius = whole 0 } }
    ensures radius { result.radius ≡ pos 0 }
{
    Neighbourhood {
        centre: over_one_denominator(x, y),
        radius: 0,
    }
}

/// The box. Half its side is one part of the centre's denominator.
pub fn square(place: GridBox) -> Neighbourhood
    ensures neighbourhood { IsNeighbourhood result }
    ensures ball { ball_of result ≡ record { x = (centre place).x; y = (centre place).y; radius = half_side place } }
    ensures radius { result.radius ≡ pos 1 }
    ensures denominator { result.centre.den ≡ pos (2 ^ (place.level + 1)) }
{
    let (x, y) = place.centre();
    Neighbourhood {
        centre: Angles {
            first: x.num(),
            second: y.num(),
            den: x.den(),
        },
        radius: 1,
    }
}

/// What functions have to reach at the centre: pi times the reach times the radius, the drift, and the margin with the
/// narrower slack of the scale.
pub fn drift_threshold<S: Scale>(neighbourhood: &Neighbourhood) -> Threshold
    requires { IsNeighbourhood neighbourhood.now }
    ensures is { result ≡ drift_threshold S.BITS S.LOW_BITS S.PI_HI neighbourhood.now }
    ensures threshold { IsThreshold result }
{
    Threshold {
        measure: Measure::Reach,
        rate: S::PI_HI * neighbourhood.radius,
        parts: neighbourhood.centre.den,
        slack: slack_units::<S>(),
    }
}

/// The narrower slack, in units.
fn slack_units<S: Scale>() -> i128
    ensures { result ≡ pos (2 ^ (S.BITS - S.LOW_BITS)) }
{
    1 << (S::BITS - S::LOW_BITS)
}
