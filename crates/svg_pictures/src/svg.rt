//! The first and the last line of a picture.
ghost use Rattle.std.specs.Prelude.{◌≡◌};
ghost use Rattle.mcb_ends.specs.Bytes.{Writes};
ghost use Rattle.mcb_ends.specs.Causes.{HasCause};
ghost use Rattle.svg_pictures.specs.Svg.{first_line, last_line};

use mcb_ends::{Decimal, Failed, Sink, put, put_all};

/// Writes the first line, with the left and the upper edge, the width and the height of what is seen.
pub fn write_first_line<K: Sink>(
    left: i64,
    top: i64,
    width: i64,
    height: i64,
    out: &mut K,
) -> Result<(), Failed>
    ensures text { Writes (K.written out.old) (K.written out.new) result (first_line left top width height) }
    ensures room { K.room out.new ≡ K.room out.old }
    ensures cause { HasCause (K.faults out.old) (K.faults out.new) result }
{
    let left = Decimal::signed(left);
    let top = Decimal::signed(top);
    let width = Decimal::signed(width);
    let height = Decimal::signed(height);
    put_all(
        out,
        &[
            b"<svg xmlns=\"http://www.w3.org/2000/svg\" viewBox=\"",
            left.digits(),
            b" ",
            top.digits(),
            b" ",
            width.digits(),
            b" ",
            height.digits(),
            b"\">\n",
        ],
    )
}

/// Writes the last line.
pub fn write_last_line<K: Sink>(out: &mut K) -> Result<(), Failed>
    ensures text { Writes (K.written out.old) (K.written out.new) result last_line }
    ensures room { K.room out.new ≡ K.room out.old }
    ensures cause { HasCause (K.faults out.old) (K.faults out.new) result }
{
    put(out, b"</svg>\n")
}
