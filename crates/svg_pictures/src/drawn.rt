//! A triangle as it is drawn.
ghost use Rattle.std.specs.Prelude.{◌≡◌};
ghost use Rattle.unfolding.specs.Triangle.{IsCorner};
ghost use Rattle.svg_pictures.specs.Drawn.{point_at};

use crate::picture_point::PicturePoint;

/// A triangle in a picture: the points of its corners 1, 2 and 3.
#[derive(Clone, Copy, Debug, PartialEq, Eq, Default)]
pub struct DrawnTriangle {
    pub first: PicturePoint,
    pub second: PicturePoint,
    pub third: PicturePoint,
}

impl DrawnTriangle {
    /// The point of a corner.
    pub fn point(&self, corner: u8) -> PicturePoint
        requires { IsCorner corner }
        ensures { result ≡ point_at self.now corner }
    {
        match corner {
            1 => self.first,
            2 => self.second,
            _ => self.third,
        }
    }
}
