//! Where a point stands in a picture.

/// The numbers of a point in a picture: how far to the right, and how far down. One unit is 1/1000 of the radius of the
/// circle round the first triangle.
#[derive(Clone, Copy, Debug, PartialEq, Eq, Default)]
pub struct PicturePoint {
    pub across: i32,
    pub down: i32,
}
