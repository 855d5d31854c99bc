//! The triangle itself, drawn.
ghost use Rattle.std.specs.Prelude.{◌≡◌};
ghost use Rattle.exp_sums.specs.Limits.{IsNear};
ghost use Rattle.rat_core.specs.Written.{value};
ghost use Rattle.unfolding.specs.Triangle.{IsCorner, corner_dir};
ghost use Rattle.svg_pictures.specs.PathPicture.{IsFirstTriangle};

use crate::coordinates::picture_at;
use crate::drawn::DrawnTriangle;
use exp_sums::Dir;
use plane_points::Plane;

/// The triangle of a plane, drawn. Its corners are directions.
pub fn first_triangle(plane: &Plane) -> DrawnTriangle
    ensures { IsFirstTriangle (value plane.now.0) (value plane.now.1) result }
{
    DrawnTriangle {
        first: picture_at(plane.unit(Dir { m: 1, n: 1 })),
        second: picture_at(plane.unit(Dir { m: -1, n: -1 })),
        third: picture_at(plane.unit(Dir { m: 1, n: -1 })),
    }
}
