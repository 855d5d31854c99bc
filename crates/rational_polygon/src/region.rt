ghost use Rattle.std.specs.Prelude.{◌≡◌, ◌^◌, ◌≤◌, ◌↔◌, IsTrue, IsOk, IfOk, Err, OnOk, IfErr, MatchOption, All, length};
ghost use Rattle.rat_core.specs.Written.{value};
ghost use Rattle.rational_polygon.specs.Outline.{IsPolygon};
ghost use Rattle.rational_polygon.specs.Region.{IsPolygonCount, IsOnOneGrid, IsRegion, IsInRegion, IsFirstOtherGrid, IsRegionFaultOf};
ghost use Rattle.rational_polygon.specs.declared.fault.RegionFault.{RegionFault};

use crate::MAX_POLYGONS;
use crate::fault::RegionFault;
use crate::polygon::Polygon;
use rat_core::Frac;
use std::marker::Model;

/// The union of 1 to `MAX_POLYGONS` strictly convex polygons on one grid.
#[derive(Debug, Drop)]
pub struct Region {
    polygons: Vec<Polygon>,
}

impl Model for Region {
    ghost use Rattle.std.specs.Prelude.{List};
    ghost use Rattle.rational_polygon.specs.Outline.{Outline};
    ghost use Rattle.rational_polygon.specs.Region.{IsRegion};

    ghost Value = { List Outline };

    ghost view = { λ r. r.polygons.items };

    ghost invariant = { λ r. IsRegion r.polygons.items };
}

impl Region {
    /// The region of these polygons. It keeps the vector; where they make no region, the vector is dropped. It takes no memory.
    pub fn new(polygons: Vec<Polygon>) -> Result<Region, RegionFault>
        ensures region { IsOk result ↔ IsRegion polygons.items }
        ensures kept { IfOk result (λ region. region ≡ polygons.items) }
        ensures refused { (fault : RegionFault) → (result ≡ Err fault) ↔ IsRegionFaultOf polygons.items fault }
    {
        check_polygons(polygons.as_slice())?;
        Ok(Region { polygons })
    }

    /// The polygons, all on one grid.
    pub fn polygons(&self) -> &[Polygon]
        ensures all { result.now ≡ self.now }
        ensures is_region { IsRegion self.now }
    {
        self.polygons.as_slice()
    }

    /// Whether the point `(x, y)` lies in one of the polygons.
    pub fn holds(&self, x: Frac, y: Frac) -> bool
        requires x { x.den ≤ 2 ^ 21 }
        requires y { y.den ≤ 2 ^ 21 }
        ensures { IsTrue result ↔ IsInRegion self.now (record { x = value x; y = value y }) }
    {
        self.polygons().iter().any(|polygon| polygon.holds(x, y))
    }
}

// Passes the polygons of a region. Else the first condition that fails.
fn check_polygons(polygons: &[Polygon]) -> Result<(), RegionFault>
    ensures passed { OnOk result (IsRegion polygons.now) }
    ensures refused { IfErr result (IsRegionFaultOf polygons.now) }
{
    if !(1..=MAX_POLYGONS).contains(&polygons.len()) {
        return Err(RegionFault::Count);
    }
    match first_other_grid(polygons) {
        Some(i) => Err(RegionFault::Grid { i }),
        None => Ok(()),
    }
}

// The number of the first polygon on another grid than the first one's.
fn first_other_grid(polygons: &[Polygon]) -> Option<u32>
    requires { IsPolygonCount (length polygons.now) }
    ensures { MatchOption result (All IsPolygon polygons.now × IsOnOneGrid polygons.now) (IsFirstOtherGrid polygons.now) }
{
    let grid = polygons[0].grid();
    for (k, polygon) in polygons.iter().enumerate() {
        if polygon.grid() != grid {
            return Some(k as u32 + 1);
        }
    }
    None
}
