//! The numbers of formal points in a picture.
ghost use Rattle.std.specs.Prelude.{◌^◌, ◌≤◌, pos, unsigned_abs};
ghost use Rattle.rat_core.specs.Fraction.{◌÷◌, whole, ◌-ℚ◌, ◌*ℚ◌, ◌≤ℚ◌, abs};
ghost use Rattle.rat_core.specs.Written.{value};
ghost use Rattle.exp_sums.specs.FormalPoint.{FormalPoint};
ghost use Rattle.exp_sums.specs.Limits.{IsWithin, weight};
ghost use Rattle.plane_points.specs.Kept.{IsSmallSpot};
ghost use Rattle.plane_points.specs.Spots.{TriangleAngles, IsSpotOf, in_units};
ghost use Rattle.svg_pictures.specs.Coordinates.{IsPictureOf};

use crate::picture_point::PicturePoint;
use exp_sums::ExpSum;
use plane_points::{Plane, Spot};

/// Where a formal point stands in a picture: 1000 times the numbers of its spot, rounded once.
///
/// Those are within 255 times 2^-52 of its coordinates. 1000 times this and the 1/2 of the rounding is less than 1.
pub fn picture_of(z: &ExpSum, plane: &Plane) -> PicturePoint
    requires light { weight z.now ≤ 255 }
    requires within { IsWithin 65 z.now }
    ensures { IsPictureOf z.now (value plane.now.0) (value plane.now.1) result }
{
    picture_at(plane.spot(z))
}

/// Where the point of a spot stands in a picture.
pub fn picture_at(spot: Spot) -> PicturePoint
    requires { IsSmallSpot (2 ^ 70) spot }
    ensures { (at : TriangleAngles) (p : FormalPoint) → weight p ≤ 255 → IsSpotOf at p spot → IsPictureOf p (value at.0) (value at.1) result }
{
    PicturePoint {
        across: rounded(spot.x),
        down: -rounded(spot.y),
    }
}

/// 1000 times a number in units of 2^-60, rounded to the nearest whole number.
fn rounded(z: i128) -> i32
    requires { unsigned_abs z ≤ 2 ^ 70 }
    ensures near { abs (result ÷ 1 -ℚ whole 1000 *ℚ in_units z) ≤ℚ pos 1 ÷ 2 }
    ensures size { unsigned_abs result ≤ 2 ^ 24 }
{
    ((1000 * z + (1 << 59)) >> 60) as i32
}
