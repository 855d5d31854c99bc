use plane_points::Spot;

/// A corner of a triangle of an unfolding, and its place in the plane.
#[derive(Clone, Copy, Debug)]
pub(crate) struct CornerSpot {
    /// How many mirrors the triangle is from the first.
    pub triangle: u32,
    /// 1, 2 or 3.
    pub corner: u8,
    /// The corner's place, in units of 2^-60.
    pub spot: Spot,
}
