ghost use Rattle.std.specs.Prelude.{◌≡◌, Some};
ghost use Rattle.std.specs.List.{flat_map};
ghost use Rattle.mcb_ends.specs.Bytes.{Writes};
ghost use Rattle.mcb_ends.specs.Causes.{HasCause};
ghost use Rattle.billiards_cli.specs.Commands.Points.{points_text, corner_line, shift_line, spot_line};

use super::CornerSpot;
use crate::end_line::write_end;
use mcb_ends::{Decimal, Failed, Sink, put, put_all, put_wide};
use plane_points::Spot;

/// Writes a line for each corner, one for the shift where there is one, and the number of corners.
pub(crate) fn write_rows<K: Sink>(
    corners: &[CornerSpot],
    shift: Option<Spot>,
    out: &mut K,
) -> Result<(), Failed>
    ensures text { Writes (K.written out.old) (K.written out.new) result (points_text corners.now shift) }
    ensures room { K.room out.new ≡ K.room out.old }
    ensures cause { HasCause (K.faults out.old) (K.faults out.new) result }
{
    write_corners(corners, out)?;
    write_shift(shift, out)?;
    write_end(corners.len(), out)
}

fn write_corners<K: Sink>(corners: &[CornerSpot], out: &mut K) -> Result<(), Failed>
    ensures text { Writes (K.written out.old) (K.written out.new) result (flat_map corner_line corners.now) }
    ensures room { K.room out.new ≡ K.room out.old }
    ensures cause { HasCause (K.faults out.old) (K.faults out.new) result }
{
    for corner in corners {
        write_corner(*corner, out)?;
    }
    Ok(())
}

fn write_corner<K: Sink>(corner: CornerSpot, out: &mut K) -> Result<(), Failed>
    ensures text { Writes (K.written out.old) (K.written out.new) result (corner_line corner) }
    ensures room { K.room out.new ≡ K.room out.old }
    ensures cause { HasCause (K.faults out.old) (K.faults out.new) result }
{
    let triangle = Decimal::new(u64::from(corner.triangle));
    let number = Decimal::new(u64::from(corner.corner));
    put_all(out, &[triangle.digits(), b" ", number.digits(), b" "])?;
    write_spot(corner.spot, out)
}

// A word that is not stable has no such line.
fn write_shift<K: Sink>(shift: Option<Spot>, out: &mut K) -> Result<(), Failed>
    ensures text { Writes (K.written out.old) (K.written out.new) result (shift_line shift) }
    ensures room { K.room out.new ≡ K.room out.old }
    ensures cause { HasCause (K.faults out.old) (K.faults out.new) result }
{
    match shift {
        Some(spot) => write_shift_at(spot, out),
        None => Ok(()),
    }
}

fn write_shift_at<K: Sink>(spot: Spot, out: &mut K) -> Result<(), Failed>
    ensures text { Writes (K.written out.old) (K.written out.new) result (shift_line (Some spot)) }
    ensures room { K.room out.new ≡ K.room out.old }
    ensures cause { HasCause (K.faults out.old) (K.faults out.new) result }
{
    put(out, b"shift ")?;
    write_spot(spot, out)
}

// The coordinates, and the end of the line.
fn write_spot<K: Sink>(spot: Spot, out: &mut K) -> Result<(), Failed>
    ensures text { Writes (K.written out.old) (K.written out.new) result (spot_line spot) }
    ensures room { K.room out.new ≡ K.room out.old }
    ensures cause { HasCause (K.faults out.old) (K.faults out.new) result }
{
    put_wide(out, spot.x)?;
    put(out, b" ")?;
    put_wide(out, spot.y)?;
    put(out, b"\n")
}
