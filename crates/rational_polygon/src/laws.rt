//! What follows from the definitions alone: each function's contract is a law.
ghost use Rattle.rational_polygon.specs.Laws.{PolygonLiesInUnitSquare, EdgesImplyRectangle, ApartHoldsNone};
ghost use Rattle.rational_polygon.specs.Laws.{ChildrenCover, ChildrenLieWithin, CornersAreTriangles, PointsAreTriangles};
ghost use Rattle.rational_polygon.specs.Laws.{RegionLiesInUnitSquare, ApartRegionHoldsNone};
ghost use Rattle.rational_polygon.specs.Laws.{RegionCornersAreTriangles, RegionPointsAreTriangles, OnePolygonIsRegion};

/// Every point of a polygon lies in the unit square.
pub fn polygon_lies_in_unit_square()
    ensures { PolygonLiesInUnitSquare }
{}

/// What is on or left of every edge of a polygon lies in its bounding rectangle.
pub fn edges_imply_rectangle()
    ensures { EdgesImplyRectangle }
{}

/// A box that is apart from a polygon has no point of it.
pub fn apart_holds_none()
    ensures { ApartHoldsNone }
{}

/// A point of a box lies in one of its four children.
pub fn children_cover()
    ensures { ChildrenCover }
{}

/// Each child lies in its box.
pub fn children_lie_within()
    ensures { ChildrenLieWithin }
{}

/// Each corner of a polygon is a triangle and a point of the polygon, so that a claim on all its points is never empty.
pub fn corners_are_triangles()
    ensures { CornersAreTriangles }
{}

/// Every point of a polygon is a triangle, so that a claim on those points of it that are triangles leaves out none.
pub fn points_are_triangles()
    ensures { PointsAreTriangles }
{}

/// Every point of a region lies in the unit square.
pub fn region_lies_in_unit_square()
    ensures { RegionLiesInUnitSquare }
{}

/// A box that is apart from a region has no point of it.
pub fn apart_region_holds_none()
    ensures { ApartRegionHoldsNone }
{}

/// Each corner of a region's polygons is a triangle and a point of the region.
pub fn region_corners_are_triangles()
    ensures { RegionCornersAreTriangles }
{}

/// Every point of a region is a triangle.
pub fn region_points_are_triangles()
    ensures { RegionPointsAreTriangles }
{}

/// One polygon is a region with the same points, and the same boxes are apart from it.
pub fn one_polygon_is_region()
    ensures { OnePolygonIsRegion }
{}
