//! The square of a leaf in the picture of a covering.
ghost use Rattle.std.specs.Prelude.{◌≡◌, ◌+◌, ◌-◌, ◌*◌, ◌^◌, ◌≤◌};
ghost use Rattle.mcb_ends.specs.Bytes.{Writes};
ghost use Rattle.mcb_ends.specs.Causes.{HasCause};
ghost use Rattle.rational_polygon.specs.declared.TheConstants.{MAX_LEVEL};
ghost use Rattle.svg_pictures.specs.CoveringPicture.{side_at, square_line, node_text};

use crate::colours::colour;
use crate::place::UNITS;
use crate::tile_picture::number;
use covering_file::Node;
use mcb_ends::{Failed, Sink, put_all};
use rational_polygon::{GridBox, MAX_LEVEL};

/// Writes what a node adds to the picture at its box: the square of a leaf that is not outside.
pub fn write_node<K: Sink>(place: GridBox, node: Node, out: &mut K) -> Result<(), Failed>
    ensures text { Writes (K.written out.old) (K.written out.new) result (node_text place node) }
    ensures room { K.room out.new ≡ K.room out.old }
    ensures cause { HasCause (K.faults out.old) (K.faults out.new) result }
{
    match node {
        Node::Shown(i) => write_square(place, colour(i), b"", out),
        Node::Corner(i) => write_square(place, colour(i), b" fill-opacity=\"0.75\"", out),
        Node::Uncovered => write_square(place, b"black", b"", out),
        Node::Split | Node::Outside => Ok(()),
    }
}

// Writes the square of a box in a colour. Behind that stands `more`.
fn write_square<K: Sink>(
    place: GridBox,
    colour: &[u8],
    more: &[u8],
    out: &mut K,
) -> Result<(), Failed>
    ensures text { Writes (K.written out.old) (K.written out.new) result (square_line place colour.now more.now) }
    ensures room { K.room out.new ≡ K.room out.old }
    ensures cause { HasCause (K.faults out.old) (K.faults out.new) result }
{
    let left = number(left(place));
    let top = number(top(place));
    let side = number(side_at(place.level));
    put_all(
        out,
        &[
            b"<rect x=\"",
            left.digits(),
            b"\" y=\"",
            top.digits(),
            b"\" width=\"",
            side.digits(),
            b"\" height=\"",
            side.digits(),
            b"\" fill=\"",
            colour,
            b"\"",
            more,
            b"/>\n",
        ],
    )
}

/// The left edge of a box.
fn left(place: GridBox) -> u32
    ensures { result ≡ place.i * side_at place.level }
{
    place.i * side_at(place.level)
}

/// Its upper edge.
fn top(place: GridBox) -> u32
    ensures { result ≡ 2 ^ 20 - (place.j + 1) * side_at place.level }
{
    UNITS - (place.j + 1) * side_at(place.level)
}

/// The side of a box of this level.
fn side_at(level: u32) -> u32
    requires { level ≤ MAX_LEVEL }
    ensures { result ≡ side_at level }
{
    1 << (MAX_LEVEL - level)
}
