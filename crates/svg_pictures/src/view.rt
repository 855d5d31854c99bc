//! What is seen of the picture of a covering.
ghost use Rattle.std.specs.Prelude.{◌≡◌, ◌-◌, ◌*◌, ◌+◌, ◌-ℤ◌, pos};
ghost use Rattle.mcb_ends.specs.Bytes.{Writes};
ghost use Rattle.mcb_ends.specs.Causes.{HasCause};
ghost use Rattle.svg_pictures.specs.Spans.{view_line};

use crate::span::Span;
use crate::svg::write_first_line;
use mcb_ends::{Failed, Sink};

/// Writes the first line: the span, and the margin on each side of it.
pub fn write_view<K: Sink>(span: &Span, out: &mut K) -> Result<(), Failed>
    ensures text { Writes (K.written out.old) (K.written out.new) result (view_line span.now) }
    ensures room { K.room out.new ≡ K.room out.old }
    ensures cause { HasCause (K.faults out.old) (K.faults out.new) result }
{
    let margin = span.margin();
    write_first_line(
        edge(span.left, margin),
        edge(span.top, margin),
        reach(span.left, span.right, margin),
        reach(span.top, span.bottom, margin),
        out,
    )
}

// The left or the upper edge of what is seen.
fn edge(least: u32, margin: u32) -> i64
    ensures { result ≡ pos least -ℤ pos margin }
{
    i64::from(least) - i64::from(margin)
}

// Its width or its height.
fn reach(least: u32, greatest: u32, margin: u32) -> i64
    ensures { result ≡ pos (greatest - least + 2 * margin) }
{
    i64::from(greatest.saturating_sub(least)) + 2 * i64::from(margin)
}
