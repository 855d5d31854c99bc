//! The first reason why corners make no polygon.
ghost use Rattle.std.specs.Prelude.{◌≡◌, ℕ, ◌-◌, ◌<◌, ◌≤◌, ◌↔◌, All, IsTrue, MatchOption, OnOk, IfErr, length, slice_index_or};
ghost use Rattle.rational_polygon.specs.Outline.{Outline, IsGrid, IsCount, IsInside, IsNumber, IsConvexAt, IsStrictlyConvex, IsPolygon};
ghost use Rattle.rational_polygon.specs.Fault.{IsFaultOf, IsFirstOutside, IsFirstTurn};

use crate::edge::{corner_at, side_of_edge};
use crate::fault::PolygonFault;
use crate::rectangle::on_grid;
use crate::{MAX_CORNERS, MAX_GRID, MIN_CORNERS};

/// Passes the corners of a polygon. Else the first condition that fails.
pub(crate) fn check_outline(grid: u32, corners: &[(u32, u32)]) -> Result<(), PolygonFault>
    ensures passed { OnOk result (IsPolygon (record { grid = grid; corners = corners.now })) }
    ensures refused { IfErr result (IsFaultOf (record { grid = grid; corners = corners.now })) }
{
    if !(1..=MAX_GRID).contains(&grid) {
        return Err(PolygonFault::Grid);
    }
    if !(MIN_CORNERS..=MAX_CORNERS).contains(&corners.len()) {
        return Err(PolygonFault::Count);
    }
    if let Some(i) = first_outside(grid, corners) {
        return Err(PolygonFault::Corner { i });
    }
    match first_turn(grid, corners) {
        Some((i, j)) => Err(PolygonFault::Turn { i, j }),
        None => Ok(()),
    }
}

// Whether the corner lies strictly inside the triangle of the grid.
fn is_inside(grid: u32, corner: (u32, u32)) -> bool
    ensures { IsTrue result ↔ IsInside grid corner }
{
    let (x, y) = corner;
    x >= 1 && y >= 1 && u64::from(x) + u64::from(y) < u64::from(grid)
}

// The number of the first corner that does not lie inside.
fn first_outside(grid: u32, corners: &[(u32, u32)]) -> Option<u32>
    requires { length corners.now ≤ MAX_CORNERS }
    ensures { let outline : Outline = record { grid = grid; corners = corners.now } in
        MatchOption result (All (IsInside grid) corners.now) (IsFirstOutside outline) }
{
    for k in 1..=corners.len() as u32 {
        if !is_inside(grid, corner_at(corners, k)) {
            return Some(k);
        }
    }
    None
}

// The lexicographically least edge and corner at which the corners are not convex.
fn first_turn(grid: u32, corners: &[(u32, u32)]) -> Option<(u32, u32)>
    requires grid { IsGrid grid }
    requires count { IsCount (length corners.now) }
    requires inside { All (IsInside grid) corners.now }
    ensures { let outline : Outline = record { grid = grid; corners = corners.now } in
        MatchOption result (IsStrictlyConvex outline) (λ pair. IsFirstTurn outline pair.0 pair.1) }
{
    for i in 1..=corners.len() as u32 {
        if let Some(j) = first_not_left(grid, corners, i) {
            return Some((i, j));
        }
    }
    None
}

// The first corner at which the corners are not convex against edge `i`.
fn first_not_left(grid: u32, corners: &[(u32, u32)], i: u32) -> Option<u32>
    requires grid { IsGrid grid }
    requires count { IsCount (length corners.now) }
    requires inside { All (IsInside grid) corners.now }
    requires number { IsNumber (record { grid = grid; corners = corners.now }) i }
    ensures { let outline : Outline = record { grid = grid; corners = corners.now } in
        MatchOption result
        ((j : ℕ) → IsNumber outline j → IsConvexAt outline i j)
        (λ j. IsNumber outline j × (¬ IsConvexAt outline i j) × ((l : ℕ) → IsNumber outline l → l < j → IsConvexAt outline i l)) }
{
    for j in 1..=corners.len() as u32 {
        if !is_convex_at(grid, corners, i, j) {
            return Some(j);
        }
    }
    None
}

// Whether corner `j` is an end of edge `i` or strictly left of it.
fn is_convex_at(grid: u32, corners: &[(u32, u32)], i: u32, j: u32) -> bool
    requires grid { IsGrid grid }
    requires count { IsCount (length corners.now) }
    requires inside { All (IsInside grid) corners.now }
    requires edge { IsNumber (record { grid = grid; corners = corners.now }) i }
    requires corner { IsNumber (record { grid = grid; corners = corners.now }) j }
    ensures { IsTrue result ↔ IsConvexAt (record { grid = grid; corners = corners.now }) i j }
{
    if j == i || j == i % corners.len() as u32 + 1 {
        return true;
    }
    let (x, y) = corner_at(corners, j);
    side_of_edge(grid, corners, i, &on_grid(grid, x), &on_grid(grid, y)).is_gt()
}
