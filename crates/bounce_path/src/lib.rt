//! The billiard path of a stable word in a triangle: the level at which it runs in the word's unfolding, and the points
//! at which it meets the edges.
//!
//! The one contract: the level lies between all lower and all upper corners and near the middle, and each bounce point
//! is where a line at that level meets its edge, within 2^-16 of the edge's length.
#![tactic(auto)]

mod billiard_path;
mod bounce;
mod crossing;
mod fault;
mod finding;
mod gap;
mod shares;
#[cfg(test)]
mod tests;

pub use billiard_path::Path;
pub use bounce::Bounce;
pub use fault::PathFault;
pub use finding::path;
