//! The picture of a tile.
ghost use Rattle.std.specs.Prelude.{◌≡◌, ◌≤◌, decimal};
ghost use Rattle.std.specs.List.{All, flat_map};
ghost use Rattle.mcb_ends.specs.Bytes.{Writes};
ghost use Rattle.mcb_ends.specs.Causes.{HasCause};
ghost use Rattle.orbit_tile.specs.declared.TheConstants.{MAX_DEPTH};
ghost use Rattle.svg_pictures.specs.TilePicture.{tile_text, rectangle_line, colour_of, side_of, left_of, top_of};

use crate::svg::{write_first_line, write_last_line};
use mcb_ends::{Decimal, Failed, Sink, put_all};
use orbit_tile::{Patch, PatchKind};
use rational_polygon::GridBox;

/// The width and the height of the picture. Each side of a patch is a whole number of units.
const SIZE: u32 = 1024;

/// Writes the picture of a tile, or a prefix of it and fails: a square for each patch, black where it is inside, white
/// outside, gray where it is undecided, silver beyond. It takes no memory.
pub fn write_tile<K: Sink>(patches: &[Patch], out: &mut K) -> Result<(), Failed>
    requires { All (λ patch. patch.place.level ≤ MAX_DEPTH) patches.now }
    ensures text { Writes (K.written out.old) (K.written out.new) result (tile_text patches.now) }
    ensures room { K.room out.new ≡ K.room out.old }
    ensures cause { HasCause (K.faults out.old) (K.faults out.new) result }
{
    write_first_line(0, 0, SIZE as i64, SIZE as i64, out)?;
    write_rectangles(patches, out)?;
    write_last_line(out)
}

fn write_rectangles<K: Sink>(patches: &[Patch], out: &mut K) -> Result<(), Failed>
    requires { All (λ patch. patch.place.level ≤ MAX_DEPTH) patches.now }
    ensures text { Writes (K.written out.old) (K.written out.new) result (flat_map rectangle_line patches.now) }
    ensures room { K.room out.new ≡ K.room out.old }
    ensures cause { HasCause (K.faults out.old) (K.faults out.new) result }
{
    for patch in patches {
        write_rectangle(*patch, out)?;
    }
    Ok(())
}

fn write_rectangle<K: Sink>(patch: Patch, out: &mut K) -> Result<(), Failed>
    requires { patch.place.level ≤ MAX_DEPTH }
    ensures text { Writes (K.written out.old) (K.written out.new) result (rectangle_line patch) }
    ensures room { K.room out.new ≡ K.room out.old }
    ensures cause { HasCause (K.faults out.old) (K.faults out.new) result }
{
    let left = number(left(patch.place));
    let top = number(top(patch.place));
    let side = number(side(patch.place));
    put_all(
        out,
        &[
            b"<rect x=\"",
            left.digits(),
            b"\" y=\"",
            top.digits(),
            b"\" width=\"",
            side.digits(),
            b"\" height=\"",
            side.digits(),
            b"\" fill=\"",
            colour(patch.kind),
            b"\"/>\n",
        ],
    )
}

pub(crate) fn number(n: u32) -> Decimal
    ensures { result ≡ decimal n }
{
    Decimal::new(u64::from(n))
}

fn colour(kind: PatchKind) -> &'static [u8]
    ensures { result.now ≡ colour_of kind }
{
    match kind {
        PatchKind::Inside => b"black",
        PatchKind::Outside => b"white",
        PatchKind::Undecided => b"gray",
        PatchKind::Beyond => b"silver",
    }
}

/// The side of a box in the picture.
fn side(place: GridBox) -> u32
    requires { place.level ≤ MAX_DEPTH }
    ensures { result ≡ side_of place }
{
    SIZE >> place.level
}

/// Its left edge.
fn left(place: GridBox) -> u32
    requires { place.level ≤ MAX_DEPTH }
    ensures { result ≡ left_of place }
{
    place.i * side(place)
}

/// Its upper edge. The second axis of the picture points down.
fn top(place: GridBox) -> u32
    requires { place.level ≤ MAX_DEPTH }
    ensures { result ≡ top_of place }
{
    SIZE - (place.j + 1) * side(place)
}
