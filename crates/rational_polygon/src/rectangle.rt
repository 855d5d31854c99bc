//! The bounding rectangle of corners on a grid.
ghost use Rattle.std.specs.Prelude.{◌≡◌, ◌↔◌, ◌<◌, ◌≤◌, ◌⊎◌, pos, All, Any, IsTrue};
ghost use Rattle.rat_core.specs.Fraction.{◌÷◌, ◌≤ℚ◌, ◌<ℚ◌};
ghost use Rattle.rat_core.specs.Written.{value};
ghost use Rattle.rational_polygon.specs.Outline.{grid_point, IsInRectangle};
ghost use Rattle.rational_polygon.specs.Square.{dyadic};

use crate::MAX_LEVEL;
use rat_core::Frac;

/// The fraction `steps / grid`.
pub(crate) fn on_grid(grid: u32, steps: u32) -> Frac
    requires { 0 < grid }
    ensures { result ≡ record { num = pos steps; den = grid } }
{
    Frac::new(i128::from(steps), i128::from(grid))
}

// Whether the rectangle begins at `x` or left of it.
fn begins_left(grid: u32, corners: &[(u32, u32)], x: &Frac) -> bool
    requires { 0 < grid }
    ensures { IsTrue result ↔ Any (λ c. (grid_point grid c).x ≤ℚ value x.now) corners.now }
{
    corners
        .iter()
        .any(|corner| on_grid(grid, corner.0).compare(x).is_le())
}

// Whether the rectangle ends at `x` or right of it.
fn ends_right(grid: u32, corners: &[(u32, u32)], x: &Frac) -> bool
    requires { 0 < grid }
    ensures { IsTrue result ↔ Any (λ c. value x.now ≤ℚ (grid_point grid c).x) corners.now }
{
    corners
        .iter()
        .any(|corner| x.compare(&on_grid(grid, corner.0)).is_le())
}

// Whether the rectangle begins at `y` or below it.
fn begins_below(grid: u32, corners: &[(u32, u32)], y: &Frac) -> bool
    requires { 0 < grid }
    ensures { IsTrue result ↔ Any (λ c. (grid_point grid c).y ≤ℚ value y.now) corners.now }
{
    corners
        .iter()
        .any(|corner| on_grid(grid, corner.1).compare(y).is_le())
}

// Whether the rectangle ends at `y` or above it.
fn ends_above(grid: u32, corners: &[(u32, u32)], y: &Frac) -> bool
    requires { 0 < grid }
    ensures { IsTrue result ↔ Any (λ c. value y.now ≤ℚ (grid_point grid c).y) corners.now }
{
    corners
        .iter()
        .any(|corner| y.compare(&on_grid(grid, corner.1)).is_le())
}

// Whether `x` lies between the left and the right side.
fn is_within_across(grid: u32, corners: &[(u32, u32)], x: &Frac) -> bool
    requires { 0 < grid }
    ensures { IsTrue result ↔ (Any (λ c. (grid_point grid c).x ≤ℚ value x.now) corners.now
        × Any (λ c. value x.now ≤ℚ (grid_point grid c).x) corners.now) }
{
    begins_left(grid, corners, x) && ends_right(grid, corners, x)
}

// Whether `y` lies between the lower and the upper side.
fn is_within_up(grid: u32, corners: &[(u32, u32)], y: &Frac) -> bool
    requires { 0 < grid }
    ensures { IsTrue result ↔ (Any (λ c. (grid_point grid c).y ≤ℚ value y.now) corners.now
        × Any (λ c. value y.now ≤ℚ (grid_point grid c).y) corners.now) }
{
    begins_below(grid, corners, y) && ends_above(grid, corners, y)
}

/// Whether the point `(x, y)` lies in the closed rectangle.
pub(crate) fn is_in_rectangle(grid: u32, corners: &[(u32, u32)], x: &Frac, y: &Frac) -> bool
    requires { 0 < grid }
    ensures { IsTrue result ↔ IsInRectangle (record { grid = grid; corners = corners.now }) (record { x = value x.now; y = value y.now }) }
{
    is_within_across(grid, corners, x) && is_within_up(grid, corners, y)
}

// Whether `n / 2^level` is less than `steps / grid`.
fn is_before(n: u32, level: u32, grid: u32, steps: u32) -> bool
    requires level { level ≤ MAX_LEVEL }
    requires grid { 0 < grid }
    ensures { IsTrue result ↔ (dyadic n level <ℚ pos steps ÷ grid) }
{
    u64::from(n) * u64::from(grid) < u64::from(steps) << level
}

// Whether `n / 2^level` is greater than `steps / grid`.
fn is_behind(n: u32, level: u32, grid: u32, steps: u32) -> bool
    requires level { level ≤ MAX_LEVEL }
    requires grid { 0 < grid }
    ensures { IsTrue result ↔ (pos steps ÷ grid <ℚ dyadic n level) }
{
    u64::from(steps) << level < u64::from(n) * u64::from(grid)
}

// Whether the rectangle lies strictly right of `n / 2^level`.
fn is_right_of_line(grid: u32, corners: &[(u32, u32)], n: u32, level: u32) -> bool
    requires level { level ≤ MAX_LEVEL }
    requires grid { 0 < grid }
    ensures { IsTrue result ↔ All (λ c. dyadic n level <ℚ (grid_point grid c).x) corners.now }
{
    corners
        .iter()
        .all(|corner| is_before(n, level, grid, corner.0))
}

// Whether it lies strictly left of `n / 2^level`.
fn is_left_of_line(grid: u32, corners: &[(u32, u32)], n: u32, level: u32) -> bool
    requires level { level ≤ MAX_LEVEL }
    requires grid { 0 < grid }
    ensures { IsTrue result ↔ All (λ c. (grid_point grid c).x <ℚ dyadic n level) corners.now }
{
    corners
        .iter()
        .all(|corner| is_behind(n, level, grid, corner.0))
}

// Whether it lies strictly above `n / 2^level`.
fn is_above_line(grid: u32, corners: &[(u32, u32)], n: u32, level: u32) -> bool
    requires level { level ≤ MAX_LEVEL }
    requires grid { 0 < grid }
    ensures { IsTrue result ↔ All (λ c. dyadic n level <ℚ (grid_point grid c).y) corners.now }
{
    corners
        .iter()
        .all(|corner| is_before(n, level, grid, corner.1))
}

// Whether it lies strictly below `n / 2^level`.
fn is_below_line(grid: u32, corners: &[(u32, u32)], n: u32, level: u32) -> bool
    requires level { level ≤ MAX_LEVEL }
    requires grid { 0 < grid }
    ensures { IsTrue result ↔ All (λ c. (grid_point grid c).y <ℚ dyadic n level) corners.now }
{
    corners
        .iter()
        .all(|corner| is_behind(n, level, grid, corner.1))
}

/// Whether the rectangle lies strictly right of `right / 2^level`, or strictly left of `left / 2^level`.
pub(crate) fn is_beyond_across(
    grid: u32,
    corners: &[(u32, u32)],
    left: u32,
    right: u32,
    level: u32,
) -> bool
    requires level { level ≤ MAX_LEVEL }
    requires grid { 0 < grid }
    ensures { IsTrue result ↔ (All (λ c. dyadic right level <ℚ (grid_point grid c).x) corners.now
        ⊎ All (λ c. (grid_point grid c).x <ℚ dyadic left level) corners.now) }
{
    is_right_of_line(grid, corners, right, level) || is_left_of_line(grid, corners, left, level)
}

/// Whether the rectangle lies strictly above `above / 2^level`, or strictly below `below / 2^level`.
pub(crate) fn is_beyond_up(
    grid: u32,
    corners: &[(u32, u32)],
    below: u32,
    above: u32,
    level: u32,
) -> bool
    requires level { level ≤ MAX_LEVEL }
    requires grid { 0 < grid }
    ensures { IsTrue result ↔ (All (λ c. dyadic above level <ℚ (grid_point grid c).y) corners.now
        ⊎ All (λ c. (grid_point grid c).y <ℚ dyadic below level) corners.now) }
{
    is_above_line(grid, corners, above, level) || is_below_line(grid, corners, below, level)
}
