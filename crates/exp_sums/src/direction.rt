//! The exponent of a direction.

/// The direction (m, n), which stands for `e^(iπ(mx + ny))`. Directions are ordered by m, then by n.
#[derive(Clone, Copy, Debug, PartialEq, Eq, PartialOrd, Ord, Default)]
pub struct Dir {
    /// How often the angle at corner 1, `πx`, is taken.
    pub m: i32,
    /// How often the angle at corner 2, `πy`, is taken.
    pub n: i32,
}
