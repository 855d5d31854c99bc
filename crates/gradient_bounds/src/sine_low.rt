//! One entry of a table of sines.
use exp_sums::Dir;

/// A direction with a number for its sine at a point, in units of a scale: the sine is from `low` to `low + 256`.
#[derive(Clone, Copy, Debug, PartialEq, Eq)]
pub struct SineLow {
    pub dir: Dir,
    pub low: i128,
}
