use crate::{MAX_CORNERS, MAX_GRID, MAX_POLYGONS, MIN_CORNERS};
use thiserror::Error;

/// Why a grid and corners make no polygon. Corners and edges are counted from 1; edge `i` goes from corner `i` to the next one.
#[derive(Clone, Copy, Debug, PartialEq, Eq, Error)]
pub enum PolygonFault {
    /// The grid is not from 1 to `MAX_GRID`.
    #[error("the grid is not from 1 to {MAX_GRID}")]
    Grid,
    /// There are fewer than `MIN_CORNERS` corners, or more than `MAX_CORNERS`.
    #[error("there are not {MIN_CORNERS} to {MAX_CORNERS} corners")]
    Count,
    /// The first corner (X, Y) with X = 0, Y = 0 or X + Y at least the grid.
    #[error("corner {i} is not strictly inside the triangle of the grid")]
    Corner { i: u32 },
    /// The lexicographically least edge and corner, where the corner is no end of the edge and not strictly left of it.
    #[error("corner {j} is not strictly left of edge {i}")]
    Turn { i: u32, j: u32 },
}

/// Why polygons make no region. They are counted from 1.
#[derive(Clone, Copy, Debug, PartialEq, Eq, Error)]
pub enum RegionFault {
    /// There is no polygon, or there are more than `MAX_POLYGONS`.
    #[error("there are not 1 to {MAX_POLYGONS} polygons")]
    Count,
    /// The first polygon on another grid than the first one's.
    #[error("polygon {i} is on another grid than the first")]
    Grid { i: u32 },
}
