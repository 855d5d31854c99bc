//! Signed directions.
use exp_sums::Dir;

/// A direction, or where `minus` is set the point of the unit circle opposite to it.
#[derive(Clone, Copy, Debug, PartialEq, Eq)]
pub struct Signed {
    /// Whether the point is opposite to the direction.
    pub minus: bool,
    /// The direction.
    pub dir: Dir,
}
