//! The plane of a triangle.
ghost use Rattle.std.specs.Prelude.{◌≡◌, ◌^◌, ◌≤◌, pos};
ghost use Rattle.rat_core.specs.Fraction.{whole, ◌+ℚ◌, ◌<ℚ◌};
ghost use Rattle.rat_core.specs.Written.{value};
ghost use Rattle.exp_sums.specs.FormalPoint.{monomial};
ghost use Rattle.exp_sums.specs.Limits.{IsNear, IsWithin};
ghost use Rattle.plane_points.specs.Spots.{IsSpotOf, IsCrossProduct};
ghost use Rattle.plane_points.specs.Kept.{IsUnitSpot, IsSmallSpot};

use crate::spot::Spot;
use exp_sums::{Dir, ExpSum};
use pi_bounds::Fine;
use rat_core::Frac;
use sine_fixed::{Angles, direction_cosine, direction_sine, over_one_denominator};
use std::marker::Model;

/// The plane in which a triangle lies, with its circumcircle as the unit circle. It is seen as the triangle's angles at the corners 1
/// and 2, in half turns.
#[derive(Debug, Drop)]
pub struct Plane {
    x: Frac,
    y: Frac,
    /// Both over one denominator.
    angles: Angles,
}

impl Model for Plane {
    ghost use Rattle.plane_points.specs.Spots.{TriangleAngles};

    ghost Value = { TriangleAngles };

    ghost use Rattle.plane_points.specs.Kept.{IsPlane};

    ghost view = { λ p. (p.x, p.y) };

    ghost invariant = { λ p. IsPlane (p.x, p.y) p.angles };
}

impl Plane {
    /// The plane of the triangle (x, y).
    pub fn at(x: Frac, y: Frac) -> Plane
        requires first { whole 0 <ℚ value x }
        requires second { whole 0 <ℚ value y }
        requires third { value x +ℚ value y <ℚ whole 1 }
        requires x_denominator { x.den ≤ 2 ^ 20 }
        requires y_denominator { y.den ≤ 2 ^ 20 }
        ensures { result ≡ (x, y) }
    {
        Plane {
            x,
            y,
            angles: over_one_denominator(x, y),
        }
    }

    /// The coordinates of a formal point of which each direction has numbers from -1,000 to 1,000.
    ///
    /// Each is within 2^-52 of the point's own for each unit of its weight.
    pub fn spot(&self, z: &ExpSum) -> Spot
        requires { IsWithin 1000 z.now }
        ensures spot { IsSpotOf self.now z.now result }
        ensures size { IsSmallSpot (2 ^ 93) result }
    {
        let mut spot = Spot { x: 0, y: 0 };
        for term in z.terms() {
            spot = spot.plus(term.c, self.unit(term.dir));
        }
        spot
    }

    /// The spots of two formal points. The cross product of any spots of these points is the value of the sine form of the one's conjugate
    /// times the other, within 2^-44 for each unit of both weights.
    pub fn spot_pair(&self, v: &ExpSum, d: &ExpSum) -> (Spot, Spot)
        requires first { IsWithin 1000 v.now }
        requires second { IsWithin 1000 d.now }
        ensures first { IsSpotOf self.now v.now result.0 }
        ensures second { IsSpotOf self.now d.now result.1 }
        ensures cross { (s t : Spot) → IsSpotOf self.now v.now s → IsSpotOf self.now d.now t → IsCrossProduct self.now v.now d.now s t }
    {
        (self.spot(v), self.spot(d))
    }

    /// The coordinates of a direction, each at most 256 units below its own. A corner of the triangle itself is a direction.
    pub fn unit(&self, dir: Dir) -> Spot
        requires { IsNear 1000 dir }
        ensures spot { IsSpotOf self.now (monomial (pos 1) dir) result }
        ensures unit { IsUnitSpot self.now dir result }
        ensures size { IsSmallSpot (2 ^ 62) result }
    {
        Spot {
            x: direction_cosine::<Fine>(dir, &self.angles).lo(),
            y: direction_sine::<Fine>(dir, &self.angles).lo(),
        }
    }
}
