//! What is seen of a picture.
ghost use Rattle.std.specs.Prelude.{◌≡◌, ◌<◌, length};
ghost use Rattle.std.specs.Int.{int_min, int_max};
ghost use Rattle.svg_pictures.specs.Drawn.{points_of};
ghost use Rattle.svg_pictures.specs.UnfoldingPicture.{IsFrame};

use crate::drawn::DrawnTriangle;
use crate::picture_point::PicturePoint;

/// The least and the greatest numbers of some points.
#[derive(Clone, Copy, Debug)]
pub struct Frame {
    pub left: i32,
    pub right: i32,
    pub top: i32,
    pub bottom: i32,
}

impl Frame {
    /// The frame of one point.
    fn around(point: PicturePoint) -> Frame
        ensures { result ≡ record { left = point.across; right = point.across; top = point.down; bottom = point.down } }
    {
        Frame {
            left: point.across,
            right: point.across,
            top: point.down,
            bottom: point.down,
        }
    }

    /// The least frame that has one more point.
    fn with(self, point: PicturePoint) -> Frame
        ensures { result ≡ record {
          left = int_min self.left point.across;
          right = int_max self.right point.across;
          top = int_min self.top point.down;
          bottom = int_max self.bottom point.down;
        } }
    {
        Frame {
            left: self.left.min(point.across),
            right: self.right.max(point.across),
            top: self.top.min(point.down),
            bottom: self.bottom.max(point.down),
        }
    }
}

/// The frame of all corners of some triangles.
pub fn frame_of(triangles: &[DrawnTriangle]) -> Frame
    requires { 0 < length triangles.now }
    ensures { IsFrame (points_of triangles.now) result }
{
    let mut frame = Frame::around(triangles[0].first);
    for triangle in triangles {
        frame = frame
            .with(triangle.first)
            .with(triangle.second)
            .with(triangle.third);
    }
    frame
}
