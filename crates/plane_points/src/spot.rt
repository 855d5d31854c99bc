ghost use Rattle.std.specs.Prelude.{◌≡◌, ◌^◌, ◌≤◌, ◌+ℤ◌, ◌*ℤ◌, unsigned_abs};
ghost use Rattle.plane_points.specs.Kept.{IsSmallSpot};

/// A place in the plane: two coordinates in units of 2^-60.
#[derive(Clone, Copy, Debug, PartialEq, Eq)]
pub struct Spot {
    pub x: i128,
    pub y: i128,
}

impl Spot {
    /// This place moved by `c` times another.
    pub(crate) fn plus(self, c: i64, other: Spot) -> Spot
        requires small { IsSmallSpot (2 ^ 93) self }
        requires factor { unsigned_abs c ≤ 2 ^ 31 }
        requires other { IsSmallSpot (2 ^ 62) other }
        ensures x { result.x ≡ self.x +ℤ c *ℤ other.x }
        ensures y { result.y ≡ self.y +ℤ c *ℤ other.y }
    {
        let c = i128::from(c);
        Spot {
            x: self.x + c * other.x,
            y: self.y + c * other.y,
        }
    }
}
