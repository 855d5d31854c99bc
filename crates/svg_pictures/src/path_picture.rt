//! The picture of a path.
ghost use Rattle.std.specs.Prelude.{◌≡◌, ◌^◌, ◌≤◌};
ghost use Rattle.std.specs.List.{All, flat_map};
ghost use Rattle.mcb_ends.specs.Bytes.{Writes};
ghost use Rattle.mcb_ends.specs.Causes.{HasCause};
ghost use Rattle.rat_core.specs.Fraction.{whole, ◌+ℚ◌, ◌<ℚ◌};
ghost use Rattle.rat_core.specs.Written.{value};
ghost use Rattle.bounce_path.specs.Bounces.{IsOnEdge};
ghost use Rattle.svg_pictures.specs.BouncePoints.{drawn_bounces, next_point_text};
ghost use Rattle.svg_pictures.specs.PathPicture.{WritesPath, path_text, points_text, point_text, points_line};

use crate::bounce_point::bounce_point;
use crate::drawn::DrawnTriangle;
use crate::first_triangle::first_triangle;
use crate::frame::{Frame, frame_of};
use crate::picture_point::PicturePoint;
use crate::svg::write_last_line;
use crate::unfolding_picture::{number, write_frame, write_polygon};
use bounce_path::{Bounce, Path};
use mcb_ends::{Failed, Sink, put, put_all};
use plane_points::Plane;
use rat_core::Frac;

/// Writes the picture of a path in the triangle (x, y): the triangle, and in red the closed path through the bounce points;
/// or a prefix of it and fails. The angles are in half turns. It takes no memory.
///
/// The numbers of the corners are those of the picture of an unfolding. Those of a bounce point are 1000 times the
/// coordinates, within 2.
pub fn write_path<K: Sink>(path: &Path, x: Frac, y: Frac, out: &mut K) -> Result<(), Failed>
    requires first { whole 0 <ℚ value x }
    requires second { whole 0 <ℚ value y }
    requires third { value x +ℚ value y <ℚ whole 1 }
    requires x_denominator { x.den ≤ 2 ^ 20 }
    requires y_denominator { y.den ≤ 2 ^ 20 }
    ensures text { WritesPath path.now.bounces (value x) (value y) (K.written out.old) (K.written out.new) result }
    ensures room { K.room out.new ≡ K.room out.old }
    ensures cause { HasCause (K.faults out.old) (K.faults out.new) result }
{
    let triangle = first_triangle(&Plane::at(x, y));
    write_drawing(&frame_of(&[triangle]), &triangle, path.bounces(), out)
}

fn write_drawing<K: Sink>(
    frame: &Frame,
    triangle: &DrawnTriangle,
    bounces: &[Bounce],
    out: &mut K,
) -> Result<(), Failed>
    requires { All IsOnEdge bounces.now }
    ensures text { Writes (K.written out.old) (K.written out.new) result (path_text frame.now triangle.now (drawn_bounces triangle.now bounces.now)) }
    ensures room { K.room out.new ≡ K.room out.old }
    ensures cause { HasCause (K.faults out.old) (K.faults out.new) result }
{
    write_frame(frame, out)?;
    write_polygon(triangle, out)?;
    write_bounces(triangle, bounces, out)?;
    write_last_line(out)
}

// The closed path. The points are parted by spaces.
fn write_bounces<K: Sink>(
    triangle: &DrawnTriangle,
    bounces: &[Bounce],
    out: &mut K,
) -> Result<(), Failed>
    requires { All IsOnEdge bounces.now }
    ensures text { Writes (K.written out.old) (K.written out.new) result (points_line (drawn_bounces triangle.now bounces.now)) }
    ensures room { K.room out.new ≡ K.room out.old }
    ensures cause { HasCause (K.faults out.old) (K.faults out.new) result }
{
    put(out, b"<polygon points=\"")?;
    write_points(triangle, bounces, out)?;
    put(out, b"\" fill=\"none\" stroke=\"red\"/>\n")
}

fn write_points<K: Sink>(
    triangle: &DrawnTriangle,
    bounces: &[Bounce],
    out: &mut K,
) -> Result<(), Failed>
    requires { All IsOnEdge bounces.now }
    ensures text { Writes (K.written out.old) (K.written out.new) result (points_text (drawn_bounces triangle.now bounces.now)) }
    ensures room { K.room out.new ≡ K.room out.old }
    ensures cause { HasCause (K.faults out.old) (K.faults out.new) result }
{
    match bounces.split_first() {
        Some((first, others)) => {
            write_point(bounce_point(first, triangle), out)?;
            write_next_points(triangle, others, out)
        }
        None => Ok(()),
    }
}

fn write_next_points<K: Sink>(
    triangle: &DrawnTriangle,
    bounces: &[Bounce],
    out: &mut K,
) -> Result<(), Failed>
    requires { All IsOnEdge bounces.now }
    ensures text { Writes (K.written out.old) (K.written out.new) result (flat_map (next_point_text triangle.now) bounces.now) }
    ensures room { K.room out.new ≡ K.room out.old }
    ensures cause { HasCause (K.faults out.old) (K.faults out.new) result }
{
    for bounce in bounces {
        write_next_point(triangle, bounce, out)?;
    }
    Ok(())
}

fn write_next_point<K: Sink>(
    triangle: &DrawnTriangle,
    bounce: &Bounce,
    out: &mut K,
) -> Result<(), Failed>
    requires { IsOnEdge bounce.now }
    ensures text { Writes (K.written out.old) (K.written out.new) result (next_point_text triangle.now bounce.now) }
    ensures room { K.room out.new ≡ K.room out.old }
    ensures cause { HasCause (K.faults out.old) (K.faults out.new) result }
{
    put(out, b" ")?;
    write_point(bounce_point(bounce, triangle), out)
}

fn write_point<K: Sink>(point: PicturePoint, out: &mut K) -> Result<(), Failed>
    ensures text { Writes (K.written out.old) (K.written out.new) result (point_text point) }
    ensures room { K.room out.new ≡ K.room out.old }
    ensures cause { HasCause (K.faults out.old) (K.faults out.new) result }
{
    let across = number(point.across);
    let down = number(point.down);
    put_all(out, &[across.digits(), b",", down.digits()])
}
