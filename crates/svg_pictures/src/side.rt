//! The sides of a path.

/// Which end of a crossed edge.
#[derive(Clone, Copy, Debug, PartialEq, Eq)]
pub enum Side {
    /// The end on the path's left.
    Upper,
    /// The end on its right.
    Lower,
}
