//! How many lines a file has, and how many up to its last corner and before its first node.
ghost use Rattle.std.specs.Prelude.{◌≡◌, ◌+◌, ◌≤◌, ℕ, All, length};
ghost use Rattle.std.specs.List.{flat_map};
ghost use Rattle.rational_polygon.specs.Outline.{IsPolygon};
ghost use Rattle.covering_file.specs.Header.{count_lines, polygon_lines};
ghost use Rattle.cover_merge.specs.Rounds as rounds;

use covering_file::{Header, Tree};
use rational_polygon::{MAX_POLYGONS, Polygon};

/// The lines of a file, with its end line.
pub fn line_count(tree: &Tree) -> u32
    ensures value { result ≡ rounds.line_count tree.now }
    ensures few { result ≤ 2000175 }
{
    lines_before_nodes(tree.header()) + tree.nodes().len() as u32 + 1
}

/// The lines before the first node.
pub fn lines_before_nodes(header: &Header) -> u32
    ensures value { result ≡ rounds.lines_before_nodes header.now }
    ensures few { result ≤ 174 }
{
    lines_of_region(header) + header.words().len() as u32 + 2
}

/// The lines from the first to the last corner.
pub fn lines_of_region(header: &Header) -> u32
    ensures value { result ≡ length (rounds.lines_of_region header.now) }
    ensures few { result ≤ 140 }
{
    lines_before_polygons(header.version()) + lines_of_polygons(header.region().polygons())
}

/// The lines before the first polygon: version 1 does not say how many there are.
pub fn lines_before_polygons(version: u8) -> u32
    ensures value { (count : ℕ) → result ≡ 2 + length (count_lines version count) }
    ensures few { result ≤ 3 }
{
    match version {
        1 => 2,
        _ => 3,
    }
}

// A line for each polygon and each of its corners.
fn lines_of_polygons(polygons: &[Polygon]) -> u32
    requires polygons { All IsPolygon polygons.now }
    requires few { length polygons.now ≤ MAX_POLYGONS }
    ensures value { result ≡ length (flat_map polygon_lines polygons.now) }
    ensures few { result ≤ 136 }
{
    let mut lines = 0;
    for polygon in polygons {
        lines += polygon.corners().len() as u32 + 1;
    }
    lines
}
