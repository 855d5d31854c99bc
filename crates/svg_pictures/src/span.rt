//! How far the places of a region reach.
ghost use Rattle.std.specs.Prelude.{◌≡◌, fold};
ghost use Rattle.rational_polygon.specs.Region.{IsRegion};
ghost use Rattle.svg_pictures.specs.Places.{places_in, places_of};
ghost use Rattle.svg_pictures.specs.Spans.{span_of, extent_of, margin_of, stroke_of};
ghost use Rattle.svg_pictures.specs.Widened.{widened};

use crate::place::{Place, UNITS, place_of};
use rational_polygon::Polygon;

/// The least and the greatest numbers of some places.
#[derive(Clone, Copy, Debug, PartialEq, Eq)]
pub struct Span {
    pub left: u32,
    pub right: u32,
    pub top: u32,
    pub bottom: u32,
}

/// What each place of a region widens.
const NOWHERE: Span = Span {
    left: UNITS,
    right: 0,
    top: UNITS,
    bottom: 0,
};

impl Span {
    /// With one more place.
    fn with(self, place: Place) -> Span
        ensures { result ≡ widened self place }
    {
        Span {
            left: self.left.min(place.across),
            right: self.right.max(place.across),
            top: self.top.min(place.down),
            bottom: self.bottom.max(place.down),
        }
    }

    /// With the places of a polygon.
    fn with_polygon(self, polygon: &Polygon) -> Span
        ensures { result ≡ fold widened self (places_in polygon.now) }
    {
        let grid = polygon.grid();
        let corners = polygon.corners();
        let mut span = self;
        for corner in corners {
            span = span.with(place_of(grid, *corner));
        }
        span
    }

    /// The greater of the width and the height.
    fn extent(&self) -> u32
        ensures { result ≡ extent_of self.now }
    {
        let width = self.right.saturating_sub(self.left);
        let height = self.bottom.saturating_sub(self.top);
        width.max(height)
    }

    /// How much more is seen on each side.
    pub fn margin(&self) -> u32
        ensures { result ≡ margin_of self.now }
    {
        self.extent() / 16
    }

    /// How wide the outlines are.
    pub fn stroke(&self) -> u32
        ensures { result ≡ stroke_of self.now }
    {
        (self.extent() / 400).max(1)
    }
}

/// The span of a region.
pub fn span_of(polygons: &[Polygon]) -> Span
    requires { IsRegion polygons.now }
    ensures { result ≡ span_of (places_of polygons.now) }
{
    let mut span = NOWHERE;
    for polygon in polygons {
        span = span.with_polygon(polygon);
    }
    span
}
