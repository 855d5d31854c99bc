ghost use Rattle.std.specs.Prelude.{◌≡◌, ℕ, ◌+◌, ◌*◌, ◌^◌, ◌<◌, ◌≤◌, ◌⊎◌, ◌↔◌, pos, IsTrue};
ghost use Rattle.rat_core.specs.Written.{value};
ghost use Rattle.rational_polygon.specs.Point.{IsStrictlyRight};
ghost use Rattle.rational_polygon.specs.Square.{child, box_corner, centre, IsBox};
ghost use Rattle.rational_polygon.specs.Outline.{IsNumber, corner, next};
ghost use Rattle.rational_polygon.specs.Apart.{IsBeyond, IsRightOf, IsApart};
ghost use Rattle.rational_polygon.specs.Region.{IsApartFromRegion};

use crate::MAX_LEVEL;
use crate::edge::side_of_edge;
use crate::polygon::Polygon;
use crate::rectangle::{is_beyond_across, is_beyond_up};
use crate::region::Region;
use rat_core::Frac;
use std::marker::Model;

/// The closed square with the lower left corner `(i, j) / 2^level` and the side `1 / 2^level`. The level is at most `MAX_LEVEL`,
/// and `i` and `j` are below `2^level`, so that it lies in the unit square.
#[derive(Clone, Copy, Debug, PartialEq, Eq, Default)]
pub struct GridBox {
    pub i: u32,
    pub j: u32,
    pub level: u32,
}

impl Model for GridBox {
    ghost use Rattle.rational_polygon.specs.Square.{Square, IsBox};

    ghost Value = { Square };

    ghost view = { λ b. record { i = b.i; j = b.j; level = b.level } };

    ghost invariant = { λ b. IsBox (record { i = b.i; j = b.j; level = b.level }) };

    ghost inverse = { λ s. record { i = s.i; j = s.j; level = s.level } };
}

impl GridBox {
    /// The child of number `c`: lower left, lower right, upper left, upper right.
    pub fn child(self, c: u8) -> GridBox
        requires number { c < 4 }
        requires level { self.level < MAX_LEVEL }
        ensures value { result ≡ child self c }
        ensures is_box { IsBox result }
    {
        GridBox {
            i: 2 * self.i + u32::from(c % 2),
            j: 2 * self.j + u32::from(c / 2),
            level: self.level + 1,
        }
    }

    /// The centre, over the denominator `2^(level + 1)`.
    pub fn centre(self) -> (Frac, Frac)
        ensures x { result.0 ≡ record { num = pos (2 * self.i + 1); den = 2 ^ (self.level + 1) } }
        ensures y { result.1 ≡ record { num = pos (2 * self.j + 1); den = 2 ^ (self.level + 1) } }
        ensures is_centre { record { x = value result.0; y = value result.1 } ≡ centre self }
        ensures is_box { IsBox self }
    {
        let level = self.level + 1;
        (dyadic(2 * self.i + 1, level), dyadic(2 * self.j + 1, level))
    }

    /// Whether the box lies strictly beyond the bounding rectangle of the polygon on one side, or its four corners lie
    /// strictly right of one edge.
    pub fn apart(self, polygon: &Polygon) -> bool
        ensures { IsTrue result ↔ IsApart self polygon.now }
    {
        self.is_beyond(polygon) || self.is_right_of_an_edge(polygon)
    }

    /// Whether the box is apart from each polygon of the region.
    pub fn apart_region(self, region: &Region) -> bool
        ensures { IsTrue result ↔ IsApartFromRegion self region.now }
    {
        for polygon in region.polygons() {
            if !self.apart(polygon) {
                return false;
            }
        }
        true
    }

    /// The corner `(a, b)`, where `(0, 0)` is lower left and `(1, 1)` upper right, over the denominator `2^level`.
    pub fn corner(self, a: u32, b: u32) -> (Frac, Frac)
        requires a { a ≤ 1 }
        requires b { b ≤ 1 }
        ensures x { result.0 ≡ record { num = pos (self.i + a); den = 2 ^ self.level } }
        ensures y { result.1 ≡ record { num = pos (self.j + b); den = 2 ^ self.level } }
        ensures small { 2 ^ self.level ≤ 2 ^ MAX_LEVEL }
        ensures is_corner { record { x = value result.0; y = value result.1 } ≡ box_corner self a b }
        ensures is_box { IsBox self }
    {
        (
            dyadic(self.i + a, self.level),
            dyadic(self.j + b, self.level),
        )
    }

    fn is_beyond(self, polygon: &Polygon) -> bool
        ensures { IsTrue result ↔ IsBeyond self polygon.now }
    {
        let (grid, corners) = (polygon.grid(), polygon.corners());
        is_beyond_across(grid, corners, self.i, self.i + 1, self.level)
            || is_beyond_up(grid, corners, self.j, self.j + 1, self.level)
    }

    fn is_right_of_an_edge(self, polygon: &Polygon) -> bool
        ensures { IsTrue result ↔ ((k : ℕ) × IsNumber polygon.now k × IsRightOf self polygon.now k) }
    {
        for k in 1..=polygon.corners().len() as u32 {
            if self.is_right_of(polygon, k) {
                return true;
            }
        }
        false
    }

    // Whether the four corners lie strictly right of edge `k`.
    fn is_right_of(self, polygon: &Polygon, k: u32) -> bool
        requires { IsNumber polygon.now k }
        ensures { IsTrue result ↔ IsRightOf self polygon.now k }
    {
        self.has_corner_right_of(polygon, k, 0, 0)
            && self.has_corner_right_of(polygon, k, 1, 0)
            && self.has_corner_right_of(polygon, k, 0, 1)
            && self.has_corner_right_of(polygon, k, 1, 1)
    }

    // Whether the corner `(a, b)` lies strictly right of edge `k`.
    fn has_corner_right_of(self, polygon: &Polygon, k: u32, a: u32, b: u32) -> bool
        requires number { IsNumber polygon.now k }
        requires a { a ≤ 1 }
        requires b { b ≤ 1 }
        ensures { IsTrue result ↔ IsStrictlyRight (corner polygon.now k) (corner polygon.now (next polygon.now k)) (box_corner self a b) }
    {
        let (x, y) = self.corner(a, b);
        side_of_edge(polygon.grid(), polygon.corners(), k, &x, &y).is_lt()
    }
}

// The fraction `n / 2^level`.
fn dyadic(n: u32, level: u32) -> Frac
    requires { level ≤ MAX_LEVEL + 1 }
    ensures { result ≡ record { num = pos n; den = 2 ^ level } }
{
    Frac::new(i128::from(n), i128::from(1u32 << level))
}
