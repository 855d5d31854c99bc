//! Strictly convex polygons with rational corners, their unions, and the boxes of a quadtree over the unit square, exactly.
//!
//! The one contract: a `Polygon` is strictly convex and lies inside the triangle of the grid, a `Region` is 1 to 8 of them on one
//! grid; `holds`, `apart` and `apart_region` are exact.
#![tactic(auto)]

mod edge;
mod fault;
mod finding;
mod grid_box;
pub mod laws;
mod polygon;
mod rectangle;
mod region;
#[cfg(test)]
mod tests;

pub use fault::{PolygonFault, RegionFault};
pub use grid_box::GridBox;
pub use polygon::Polygon;
pub use region::Region;

/// The finest grid: the most steps that make 1.
pub const MAX_GRID: u32 = 1_048_576;

/// The deepest level of a box.
pub const MAX_LEVEL: u32 = 20;

/// The fewest corners of a polygon.
pub const MIN_CORNERS: usize = 3;

/// The most corners of a polygon.
pub const MAX_CORNERS: usize = 16;

/// The most polygons of a region.
pub const MAX_POLYGONS: usize = 8;
