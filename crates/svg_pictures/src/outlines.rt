//! The outlines of a region in the picture of a covering.
ghost use Rattle.std.specs.Prelude.{◌≡◌, ◌++◌, All, codes};
ghost use Rattle.std.specs.List.{flat_map};
ghost use Rattle.mcb_ends.specs.Bytes.{Writes};
ghost use Rattle.mcb_ends.specs.Causes.{HasCause};
ghost use Rattle.rational_polygon.specs.Outline.{IsGrid, IsInside};
ghost use Rattle.svg_pictures.specs.CoveringPicture.{corner_text, corners_text, outline_end, outline_line};

use crate::place::place_of;
use crate::tile_picture::number;
use mcb_ends::{Failed, Sink, put, put_all};
use rational_polygon::Polygon;

/// Writes a closed line through the corners of each polygon, so wide.
pub fn write_outlines<K: Sink>(polygons: &[Polygon], width: u32, out: &mut K) -> Result<(), Failed>
    ensures text { Writes (K.written out.old) (K.written out.new) result (flat_map (outline_line width) polygons.now) }
    ensures room { K.room out.new ≡ K.room out.old }
    ensures cause { HasCause (K.faults out.old) (K.faults out.new) result }
{
    for polygon in polygons {
        write_outline(polygon, width, out)?;
    }
    Ok(())
}

fn write_outline<K: Sink>(polygon: &Polygon, width: u32, out: &mut K) -> Result<(), Failed>
    ensures text { Writes (K.written out.old) (K.written out.new) result (outline_line width polygon.now) }
    ensures room { K.room out.new ≡ K.room out.old }
    ensures cause { HasCause (K.faults out.old) (K.faults out.new) result }
{
    put(out, b"<polygon points=\"")?;
    write_corners(polygon.grid(), polygon.corners(), out)?;
    write_outline_end(width, out)
}

fn write_outline_end<K: Sink>(width: u32, out: &mut K) -> Result<(), Failed>
    ensures text { Writes (K.written out.old) (K.written out.new) result (outline_end width) }
    ensures room { K.room out.new ≡ K.room out.old }
    ensures cause { HasCause (K.faults out.old) (K.faults out.new) result }
{
    let width = number(width);
    put_all(
        out,
        &[
            b"\" fill=\"none\" stroke=\"black\" stroke-width=\"",
            width.digits(),
            b"\"/>\n",
        ],
    )
}

// The corners are parted by spaces.
fn write_corners<K: Sink>(grid: u32, corners: &[(u32, u32)], out: &mut K) -> Result<(), Failed>
    requires grid { IsGrid grid }
    requires inside { All (IsInside grid) corners.now }
    ensures text { Writes (K.written out.old) (K.written out.new) result (corners_text grid corners.now) }
    ensures room { K.room out.new ≡ K.room out.old }
    ensures cause { HasCause (K.faults out.old) (K.faults out.new) result }
{
    match corners.split_first() {
        Some((first, others)) => {
            write_corner(grid, *first, out)?;
            write_next_corners(grid, others, out)
        }
        None => Ok(()),
    }
}

fn write_next_corners<K: Sink>(grid: u32, corners: &[(u32, u32)], out: &mut K) -> Result<(), Failed>
    requires grid { IsGrid grid }
    requires inside { All (IsInside grid) corners.now }
    ensures text { Writes (K.written out.old) (K.written out.new) result (flat_map (λ c. codes " " ++ corner_text grid c) corners.now) }
    ensures room { K.room out.new ≡ K.room out.old }
    ensures cause { HasCause (K.faults out.old) (K.faults out.new) result }
{
    for corner in corners {
        write_next_corner(grid, *corner, out)?;
    }
    Ok(())
}

fn write_next_corner<K: Sink>(grid: u32, corner: (u32, u32), out: &mut K) -> Result<(), Failed>
    requires grid { IsGrid grid }
    requires inside { IsInside grid corner }
    ensures text { Writes (K.written out.old) (K.written out.new) result (codes " " ++ corner_text grid corner) }
    ensures room { K.room out.new ≡ K.room out.old }
    ensures cause { HasCause (K.faults out.old) (K.faults out.new) result }
{
    put(out, b" ")?;
    write_corner(grid, corner, out)
}

fn write_corner<K: Sink>(grid: u32, corner: (u32, u32), out: &mut K) -> Result<(), Failed>
    requires grid { IsGrid grid }
    requires inside { IsInside grid corner }
    ensures text { Writes (K.written out.old) (K.written out.new) result (corner_text grid corner) }
    ensures room { K.room out.new ≡ K.room out.old }
    ensures cause { HasCause (K.faults out.old) (K.faults out.new) result }
{
    let place = place_of(grid, corner);
    let across = number(place.across);
    let down = number(place.down);
    put_all(out, &[across.digits(), b",", down.digits()])
}
