//! Where points lie against the edges of corners on a grid.
ghost use Rattle.std.specs.Prelude.{◌≡◌, ℕ, ◌-◌, ◌*◌, ◌^◌, ◌<◌, ◌≤◌, pos, ◌-ℤ◌, ◌*ℤ◌, ◌↔◌, unsigned_abs, All, IsTrue, length, slice_index_or};
ghost use Rattle.rat_core.specs.Fraction.{whole};
ghost use Rattle.rat_core.specs.Written.{value, order_of};
ghost use Rattle.rational_polygon.specs.Point.{orientation};
ghost use Rattle.rational_polygon.specs.Outline.{Outline, grid_point, IsGrid, IsInside, IsNumber, corner, next, IsOnOrLeftOfEdges};

use crate::{MAX_CORNERS, MAX_GRID};
use rat_core::Frac;
use std::cmp::Ordering;

// From `from` to `to`, with a sign.
fn steps(from: u32, to: u32) -> i128
    requires from { from ≤ MAX_GRID }
    requires to { to ≤ MAX_GRID }
    ensures value { result ≡ pos to -ℤ pos from }
    ensures small { unsigned_abs result ≤ MAX_GRID }
{
    i128::from(to) - i128::from(from)
}

// How far `x` lies beyond the line of the grid at `at`, in grid steps, times the denominator of `x`.
fn offset(grid: u32, at: u32, x: &Frac) -> i128
    requires grid { grid ≤ MAX_GRID }
    requires at { at ≤ MAX_GRID }
    requires denominator { x.now.den ≤ 2 ^ 21 }
    ensures value { result ≡ pos grid *ℤ x.now.num -ℤ pos at *ℤ pos x.now.den }
    ensures small { unsigned_abs result ≤ 2 ^ 81 }
{
    i128::from(grid) * x.num() - i128::from(at) * x.den()
}

// `Greater` where the point `(x, y)` is strictly left of the edge from `a` to `b`, `Equal` where it is on its line.
fn side_of(grid: u32, a: (u32, u32), b: (u32, u32), x: &Frac, y: &Frac) -> Ordering
    requires grid { IsGrid grid }
    requires first { IsInside grid a }
    requires second { IsInside grid b }
    requires across { x.now.den ≤ 2 ^ 21 }
    requires up { y.now.den ≤ 2 ^ 21 }
    ensures { result ≡ order_of (orientation (grid_point grid a) (grid_point grid b) (record { x = value x.now; y = value y.now })) (whole 0) }
{
    let left = steps(a.0, b.0) * offset(grid, a.1, y) * x.den();
    let right = steps(a.1, b.1) * offset(grid, a.0, x) * y.den();
    left.cmp(&right)
}

/// The corner of the number `k`, counted from 1.
pub(crate) fn corner_at(corners: &[(u32, u32)], k: u32) -> (u32, u32)
    requires at_least { 1 ≤ k }
    requires at_most { k ≤ length corners.now }
    ensures { result ≡ slice_index_or corners.now (k - 1) (0, 0) }
{
    corners[k as usize - 1]
}

/// Where the point `(x, y)` lies against edge `k`: `Greater` where it is strictly left, `Equal` where it is on its line.
pub(crate) fn side_of_edge(
    grid: u32,
    corners: &[(u32, u32)],
    k: u32,
    x: &Frac,
    y: &Frac,
) -> Ordering
    requires grid { IsGrid grid }
    requires inside { All (IsInside grid) corners.now }
    requires number { IsNumber (record { grid = grid; corners = corners.now }) k }
    requires count { length corners.now ≤ MAX_CORNERS }
    requires across { x.now.den ≤ 2 ^ 21 }
    requires up { y.now.den ≤ 2 ^ 21 }
    ensures { let outline : Outline = record { grid = grid; corners = corners.now } in
        result ≡ order_of (orientation (corner outline k) (corner outline (next outline k)) (record { x = value x.now; y = value y.now })) (whole 0) }
{
    let next = k % corners.len() as u32 + 1;
    side_of(grid, corner_at(corners, k), corner_at(corners, next), x, y)
}

/// Whether the point `(x, y)` is on or left of every edge.
pub(crate) fn is_left_of_edges(grid: u32, corners: &[(u32, u32)], x: &Frac, y: &Frac) -> bool
    requires grid { IsGrid grid }
    requires inside { All (IsInside grid) corners.now }
    requires count { length corners.now ≤ MAX_CORNERS }
    requires across { x.now.den ≤ 2 ^ 21 }
    requires up { y.now.den ≤ 2 ^ 21 }
    ensures { let outline : Outline = record { grid = grid; corners = corners.now } in
        IsTrue result ↔ IsOnOrLeftOfEdges outline (record { x = value x.now; y = value y.now }) }
{
    for k in 1..=corners.len() as u32 {
        if side_of_edge(grid, corners, k, x, y).is_lt() {
            return false;
        }
    }
    true
}
