//! The second round: whether two files have one version and one region.
ghost use Rattle.std.specs.Prelude.{◌≡◌, ◌≤◌, ◌<◌, ◌^◌, ℕ, List, All, map, length, IfSome, MatchOption};
ghost use Rattle.std.specs.List.{flat_map};
ghost use Rattle.rational_polygon.specs.Outline.{Outline, IsPolygon};
ghost use Rattle.covering_file.specs.Header.{corner_line, polygon_lines};
ghost use Rattle.cover_merge.specs.Rounds.{AreAlike, DifferAfter, lines_of_region};

use crate::lines::lines_before_polygons;
use covering_file::Header;
use rational_polygon::{MAX_POLYGONS, Polygon};

/// How many lines up to the last corner are the same before the first that is another. `None` where all are.
pub fn first_other_line(first: &Header, second: &Header) -> Option<u32>
    ensures found { MatchOption result (AreAlike first.now second.now) (DifferAfter (lines_of_region first.now) (lines_of_region second.now)) }
    ensures few { IfSome result (λ same. same ≤ 1003) }
{
    if first.version() != second.version() {
        return Some(0);
    }
    let polygons = first.region().polygons();
    let others = second.region().polygons();
    if polygons[0].grid() != others[0].grid() {
        return Some(1);
    }
    if polygons.len() != others.len() {
        return Some(2);
    }
    let same = first_other_polygon(polygons, others)?;
    Some(lines_before_polygons(first.version()) + same)
}

// The same for the lines of polygons, of which there are as many in both.
fn first_other_polygon(polygons: &[Polygon], others: &[Polygon]) -> Option<u32>
    requires count { length polygons.now ≡ length others.now }
    requires few { length polygons.now ≤ MAX_POLYGONS }
    requires polygons { All IsPolygon polygons.now }
    ensures found { MatchOption result (map (λ (o : Outline). o.corners) polygons.now ≡ map (λ (o : Outline). o.corners) others.now)
        (DifferAfter (flat_map polygon_lines polygons.now) (flat_map polygon_lines others.now)) }
    ensures few { IfSome result (λ same. same ≤ 1000) }
{
    let mut lines = 0;
    for (k, polygon) in polygons.iter().enumerate() {
        if let Some(same) = first_other_corner(polygon, &others[k]) {
            return Some(lines + same);
        }
        lines += polygon.corners().len() as u32 + 1;
    }
    None
}

// The same for the lines of one polygon.
fn first_other_corner(polygon: &Polygon, other: &Polygon) -> Option<u32>
    ensures found { MatchOption result (polygon.now.corners ≡ other.now.corners) (DifferAfter (polygon_lines polygon.now) (polygon_lines other.now)) }
    ensures few { IfSome result (λ same. same ≤ 16) }
{
    let corners = polygon.corners();
    let others = other.corners();
    if corners.len() != others.len() {
        return Some(0);
    }
    for (k, corner) in corners.iter().enumerate() {
        if *corner != others[k] {
            return Some(k as u32 + 1);
        }
    }
    None
}
