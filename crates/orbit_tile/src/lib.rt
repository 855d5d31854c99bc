//! The tile of a stable word: the triangles in which the word has a corridor, as patches of the unit square.
//!
//! The one contract: the patches are the leaves of one quadtree of the unit square, each patch and each division by its
//! cause. So an inside patch has a corridor at each of its points, and an outside one at none.
#![tactic(auto)]

mod due;
mod fault;
pub mod laws;
mod patch;
#[cfg(test)]
mod tests;
mod tiling;

pub use fault::TileFault;
pub use patch::{Patch, PatchKind};
pub use tiling::tile;

/// The greatest level of a patch.
pub const MAX_DEPTH: u32 = 10;

/// The most patches of a tile.
pub const MAX_PATCHES: u32 = 200_000;
