//! Places in the plane of a triangle.
ghost use Rattle.std.specs.Prelude.{◌≡◌, ◌+ℤ◌, ◌*ℤ◌};
ghost use Rattle.unfolding.specs.Signed.{sign_of};
ghost use Rattle.word_search.specs.Places.{IsSmallPlace, height_over};

/// A place in the plane: two coordinates in units of 2^-55.
#[derive(Clone, Copy, Debug)]
pub(crate) struct Place {
    pub x: i64,
    pub y: i64,
}

impl Place {
    /// This place moved by another one, or, where `minus` is set, by its opposite.
    pub(crate) fn moved(self, minus: bool, by: Place) -> Place
        requires near { IsSmallPlace 48 self }
        requires unit { IsSmallPlace 1 by }
        ensures x { result.x ≡ self.x +ℤ sign_of minus *ℤ by.x }
        ensures y { result.y ≡ self.y +ℤ sign_of minus *ℤ by.y }
    {
        if minus {
            Place {
                x: self.x - by.x,
                y: self.y - by.y,
            }
        } else {
            Place {
                x: self.x + by.x,
                y: self.y + by.y,
            }
        }
    }

    /// The cross product of a shift and this place: how far on the left of the shift it lies, times the shift's length.
    ///
    /// The answer is in units of 2^-110.
    pub(crate) fn height(self, shift: Place) -> i128
        requires place { IsSmallPlace 48 self }
        requires shift { IsSmallPlace 48 shift }
        ensures { result ≡ height_over shift self }
    {
        i128::from(shift.x) * i128::from(self.y) - i128::from(shift.y) * i128::from(self.x)
    }
}
