//! One step from height to height.

use crate::shared_end::SharedEnd;

/// How the heights of an edge's two ends follow from one another, and from those of the edge before.
#[derive(Clone, Copy, Debug, PartialEq, Eq)]
pub struct Step {
    /// The end that the edge shares with the edge before.
    pub shared: SharedEnd,
    /// Where the form stands that the upper end's height has more than the lower one's.
    pub plus: usize,
    /// Where the form stands that it has less.
    pub minus: usize,
}
