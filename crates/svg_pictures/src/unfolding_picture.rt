//! The picture of an unfolding.
ghost use Rattle.std.specs.Prelude.{◌≡◌, ◌^◌, ◌≤◌, pos, ◌+ℤ◌, ◌-ℤ◌};
ghost use Rattle.std.specs.Fmt.{signed_decimal};
ghost use Rattle.std.specs.List.{flat_map};
ghost use Rattle.mcb_ends.specs.Bytes.{Writes};
ghost use Rattle.mcb_ends.specs.Causes.{HasCause};
ghost use Rattle.rat_core.specs.Fraction.{whole, ◌+ℚ◌, ◌<ℚ◌};
ghost use Rattle.rat_core.specs.Written.{value};
ghost use Rattle.svg_pictures.specs.UnfoldingPicture.{WritesUnfolding, unfolding_text, frame_line, polygon_line, dot_line};

use crate::drawn::DrawnTriangle;
use crate::ends::ends;
use crate::frame::{Frame, frame_of};
use crate::picture_point::PicturePoint;
use crate::side::Side;
use crate::svg::{write_first_line, write_last_line};
use crate::triangles::draw_triangles;
use mcb_ends::{Decimal, Failed, Sink, put_all};
use plane_points::Plane;
use rat_core::Frac;
use unfolding::Unfolding;

/// Writes the picture of an unfolding in the triangle (x, y), with a blue dot at the upper corner of each crossed edge and
/// a red one at the lower corner, or a prefix of it and fails. The angles are in half turns. It takes no memory.
///
/// The numbers are 1000 times the coordinates, within 1, where the radius of the circle round the first triangle is 1.
pub fn write_unfolding<K: Sink>(u: &Unfolding, x: Frac, y: Frac, out: &mut K) -> Result<(), Failed>
    requires first { whole 0 <ℚ value x }
    requires second { whole 0 <ℚ value y }
    requires third { value x +ℚ value y <ℚ whole 1 }
    requires x_denominator { x.den ≤ 2 ^ 20 }
    requires y_denominator { y.den ≤ 2 ^ 20 }
    ensures text { WritesUnfolding u.now (value x) (value y) (K.written out.old) (K.written out.new) result }
    ensures room { K.room out.new ≡ K.room out.old }
    ensures cause { HasCause (K.faults out.old) (K.faults out.new) result }
{
    let edges = u.word().letters();
    let drawn = draw_triangles(u, &Plane::at(x, y));
    let triangles = &drawn[..edges.len() + 1];
    let uppers = ends(edges, triangles, Side::Upper);
    let lowers = ends(edges, triangles, Side::Lower);
    write_drawing(
        &frame_of(triangles),
        triangles,
        &uppers[..edges.len()],
        &lowers[..edges.len()],
        out,
    )
}

fn write_drawing<K: Sink>(
    frame: &Frame,
    triangles: &[DrawnTriangle],
    uppers: &[PicturePoint],
    lowers: &[PicturePoint],
    out: &mut K,
) -> Result<(), Failed>
    ensures text { Writes (K.written out.old) (K.written out.new) result (unfolding_text frame.now triangles.now uppers.now lowers.now) }
    ensures room { K.room out.new ≡ K.room out.old }
    ensures cause { HasCause (K.faults out.old) (K.faults out.new) result }
{
    write_frame(frame, out)?;
    write_polygons(triangles, out)?;
    write_dots(b"blue", uppers, out)?;
    write_dots(b"red", lowers, out)?;
    write_last_line(out)
}

// The first line, with 100 units more on each side of the frame.
pub(crate) fn write_frame<K: Sink>(frame: &Frame, out: &mut K) -> Result<(), Failed>
    ensures text { Writes (K.written out.old) (K.written out.new) result (frame_line frame.now) }
    ensures room { K.room out.new ≡ K.room out.old }
    ensures cause { HasCause (K.faults out.old) (K.faults out.new) result }
{
    write_first_line(
        edge(frame.left),
        edge(frame.top),
        extent(frame.left, frame.right),
        extent(frame.top, frame.bottom),
        out,
    )
}

// The left or the upper edge of what is seen.
fn edge(least: i32) -> i64
    ensures { result ≡ least -ℤ pos 100 }
{
    i64::from(least) - 100
}

// Its width or its height.
fn extent(least: i32, greatest: i32) -> i64
    ensures { result ≡ greatest -ℤ least +ℤ pos 200 }
{
    i64::from(greatest) - i64::from(least) + 200
}

fn write_polygons<K: Sink>(triangles: &[DrawnTriangle], out: &mut K) -> Result<(), Failed>
    ensures text { Writes (K.written out.old) (K.written out.new) result (flat_map polygon_line triangles.now) }
    ensures room { K.room out.new ≡ K.room out.old }
    ensures cause { HasCause (K.faults out.old) (K.faults out.new) result }
{
    for triangle in triangles {
        write_polygon(triangle, out)?;
    }
    Ok(())
}

pub(crate) fn write_polygon<K: Sink>(triangle: &DrawnTriangle, out: &mut K) -> Result<(), Failed>
    ensures text { Writes (K.written out.old) (K.written out.new) result (polygon_line triangle.now) }
    ensures room { K.room out.new ≡ K.room out.old }
    ensures cause { HasCause (K.faults out.old) (K.faults out.new) result }
{
    let first_across = number(triangle.first.across);
    let first_down = number(triangle.first.down);
    let second_across = number(triangle.second.across);
    let second_down = number(triangle.second.down);
    let third_across = number(triangle.third.across);
    let third_down = number(triangle.third.down);
    put_all(
        out,
        &[
            b"<polygon points=\"",
            first_across.digits(),
            b",",
            first_down.digits(),
            b" ",
            second_across.digits(),
            b",",
            second_down.digits(),
            b" ",
            third_across.digits(),
            b",",
            third_down.digits(),
            b"\" fill=\"none\" stroke=\"black\"/>\n",
        ],
    )
}

fn write_dots<K: Sink>(colour: &[u8], points: &[PicturePoint], out: &mut K) -> Result<(), Failed>
    ensures text { Writes (K.written out.old) (K.written out.new) result (flat_map (dot_line colour.now) points.now) }
    ensures room { K.room out.new ≡ K.room out.old }
    ensures cause { HasCause (K.faults out.old) (K.faults out.new) result }
{
    for point in points {
        write_dot(colour, *point, out)?;
    }
    Ok(())
}

fn write_dot<K: Sink>(colour: &[u8], point: PicturePoint, out: &mut K) -> Result<(), Failed>
    ensures text { Writes (K.written out.old) (K.written out.new) result (dot_line colour.now point) }
    ensures room { K.room out.new ≡ K.room out.old }
    ensures cause { HasCause (K.faults out.old) (K.faults out.new) result }
{
    let across = number(point.across);
    let down = number(point.down);
    put_all(
        out,
        &[
            b"<circle cx=\"",
            across.digits(),
            b"\" cy=\"",
            down.digits(),
            b"\" r=\"40\" fill=\"",
            colour,
            b"\"/>\n",
        ],
    )
}

pub(crate) fn number(n: i32) -> Decimal
    ensures { result ≡ signed_decimal n }
{
    Decimal::signed(i64::from(n))
}
