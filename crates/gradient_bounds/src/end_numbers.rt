//! The numbers of the heights of one edge.

/// The numbers of the heights of the two ends of an edge, in units of the scale.
#[derive(Clone, Copy, Debug)]
pub struct EndNumbers {
    pub upper: i128,
    pub lower: i128,
}
