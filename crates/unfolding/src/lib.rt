//! Unfolds a triangle along a word: the triangle is mirrored in each edge that the word names, one after the other.
//!
//! The one contract of the crate: an [`Unfolding`] is seen as its word, and each reader answers what the definition by
//! nested mirrors says of that word, exactly, for all triangles at once.
#![tactic(auto)]

mod along;
pub mod laws;
mod signed;
#[cfg(test)]
mod tests;
mod triangle;
mod unfolding;
mod walk;

pub use along::centre_after;
pub use signed::Signed;
pub use triangle::next_corner;
pub use unfolding::Unfolding;
