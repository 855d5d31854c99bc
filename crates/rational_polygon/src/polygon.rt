ghost use Rattle.std.specs.Prelude.{◌≡◌, ℕ, ◌^◌, ◌≤◌, ◌↔◌, IsTrue, IsOk, IfOk, Err};
ghost use Rattle.rat_core.specs.Written.{value};
ghost use Rattle.rational_polygon.specs.Outline.{IsPolygon, IsInPolygon};
ghost use Rattle.rational_polygon.specs.Fault.{IsFaultOf};
ghost use Rattle.rational_polygon.specs.declared.fault.PolygonFault.{PolygonFault};

use crate::edge::is_left_of_edges;
use crate::fault::PolygonFault;
use crate::finding::check_outline;
use crate::rectangle::is_in_rectangle;
use rat_core::Frac;
use std::marker::Model;

/// A strictly convex polygon with `MIN_CORNERS` to `MAX_CORNERS` corners, which run counterclockwise. The corner `(X, Y)` is the point
/// `(X / grid, Y / grid)`, and lies strictly inside the triangle `x > 0`, `y > 0`, `x + y < 1`.
#[derive(Debug, Drop)]
pub struct Polygon {
    grid: u32,
    corners: Vec<(u32, u32)>,
}

impl Model for Polygon {
    ghost use Rattle.rational_polygon.specs.Outline.{Outline, IsPolygon};

    ghost Value = { Outline };

    ghost view = { λ p. record { grid = p.grid; corners = p.corners.items } };

    ghost invariant = { λ p. IsPolygon (record { grid = p.grid; corners = p.corners.items }) };
}

impl Polygon {
    /// The polygon with these corners in grid steps. It keeps the vector; where they make no polygon, the vector is dropped.
    pub fn new(grid: u32, corners: Vec<(u32, u32)>) -> Result<Polygon, PolygonFault>
        ensures polygon { IsOk result ↔ IsPolygon (record { grid = grid; corners = corners.items }) }
        ensures kept { IfOk result (λ polygon. polygon ≡ record { grid = grid; corners = corners.items }) }
        ensures refused { (fault : PolygonFault) → (result ≡ Err fault) ↔ IsFaultOf (record { grid = grid; corners = corners.items }) fault }
    {
        check_outline(grid, corners.as_slice())?;
        Ok(Polygon { grid, corners })
    }

    /// How many grid steps make 1.
    pub fn grid(&self) -> u32
        ensures value { result ≡ self.now.grid }
        ensures is_polygon { IsPolygon self.now }
    {
        self.grid
    }

    /// The corners in grid steps, counterclockwise.
    pub fn corners(&self) -> &[(u32, u32)]
        ensures all { result.now ≡ self.now.corners }
        ensures is_polygon { IsPolygon self.now }
    {
        self.corners.as_slice()
    }

    /// Whether the point `(x, y)` lies in the closed bounding rectangle of the corners, and on or left of every edge.
    pub fn holds(&self, x: Frac, y: Frac) -> bool
        requires x { x.den ≤ 2 ^ 21 }
        requires y { y.den ≤ 2 ^ 21 }
        ensures { IsTrue result ↔ IsInPolygon self.now (record { x = value x; y = value y }) }
    {
        let corners = self.corners.as_slice();
        is_in_rectangle(self.grid, corners, &x, &y) && is_left_of_edges(self.grid, corners, &x, &y)
    }
}
