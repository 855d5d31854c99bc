//! Where a bounce point stands in a picture.
ghost use Rattle.std.specs.Prelude.{◌≡◌, ◌^◌, ◌≤◌};
ghost use Rattle.bounce_path.specs.Bounces.{IsOnEdge};
ghost use Rattle.unfolding.specs.Triangle.{IsCorner, next_corner};
ghost use Rattle.svg_pictures.specs.BouncePoints.{point_on, between};

use crate::drawn::DrawnTriangle;
use crate::ends::corner_after;
use crate::picture_point::PicturePoint;
use bounce_path::Bounce;

/// The parts of an edge of which `low` and `high` of a bounce have one number together: twice 2^40.
const PARTS: i128 = 1 << 41;

/// The point of a bounce on an edge of a drawn triangle: halfway from `low` to `high`.
pub fn bounce_point(bounce: &Bounce, triangle: &DrawnTriangle) -> PicturePoint
    requires { IsOnEdge bounce.now }
    ensures { result ≡ point_on triangle.now bounce.now }
{
    let after = corner_after(bounce.edge);
    let start = triangle.point(after);
    let end = triangle.point(corner_after(after));
    let share = bounce.low + bounce.high;
    PicturePoint {
        across: between(start.across, end.across, share),
        down: between(start.down, end.down, share),
    }
}

/// The number so many parts of the way from `start` to `end`, rounded to the nearest whole number.
fn between(start: i32, end: i32, share: u64) -> i32
    requires { share ≤ 2 ^ 41 }
    ensures { result ≡ between start end share }
{
    let share = i128::from(share);
    let sum = i128::from(start) * (PARTS - share) + i128::from(end) * share;
    (sum + PARTS / 2).div_euclid(PARTS) as i32
}
