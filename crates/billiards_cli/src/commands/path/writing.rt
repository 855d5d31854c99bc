ghost use Rattle.std.specs.Prelude.{◌≡◌, ◌+◌, ◌<◌, ◌^◌};
ghost use Rattle.mcb_ends.specs.Bytes.{Writes};
ghost use Rattle.mcb_ends.specs.Causes.{HasCause};
ghost use Rattle.billiards_cli.specs.Commands.Path.{path_text, level_line, bounce_lines, bounce_line};

use crate::end_line::write_end;
use bounce_path::{Bounce, Path};
use mcb_ends::{Decimal, Failed, Sink, put, put_all, put_wide};

/// Writes the level, a line for each bounce and their number.
pub(crate) fn write_bounces<K: Sink>(path: &Path, out: &mut K) -> Result<(), Failed>
    ensures text { Writes (K.written out.old) (K.written out.new) result (path_text path.now) }
    ensures room { K.room out.new ≡ K.room out.old }
    ensures cause { HasCause (K.faults out.old) (K.faults out.new) result }
{
    write_level(path.level(), out)?;
    write_lines(path.bounces(), out)?;
    write_end(path.bounces().len(), out)
}

fn write_level<K: Sink>(level: i128, out: &mut K) -> Result<(), Failed>
    ensures text { Writes (K.written out.old) (K.written out.new) result (level_line level) }
    ensures room { K.room out.new ≡ K.room out.old }
    ensures cause { HasCause (K.faults out.old) (K.faults out.new) result }
{
    put(out, b"level ")?;
    put_wide(out, level)?;
    put(out, b"\n")
}

fn write_lines<K: Sink>(bounces: &[Bounce], out: &mut K) -> Result<(), Failed>
    ensures text { Writes (K.written out.old) (K.written out.new) result (bounce_lines 1 bounces.now) }
    ensures room { K.room out.new ≡ K.room out.old }
    ensures cause { HasCause (K.faults out.old) (K.faults out.new) result }
{
    for (place, bounce) in bounces.iter().enumerate() {
        write_line(place, bounce, out)?;
    }
    Ok(())
}

// The line of the bounce at this place, counted from 0.
fn write_line<K: Sink>(place: usize, bounce: &Bounce, out: &mut K) -> Result<(), Failed>
    requires { place + 1 < 2 ^ 64 }
    ensures text { Writes (K.written out.old) (K.written out.new) result (bounce_line (place + 1) bounce.now) }
    ensures room { K.room out.new ≡ K.room out.old }
    ensures cause { HasCause (K.faults out.old) (K.faults out.new) result }
{
    let number = Decimal::new(place as u64 + 1);
    let edge = Decimal::new(u64::from(bounce.edge));
    let low = Decimal::new(bounce.low);
    let high = Decimal::new(bounce.high);
    put_all(
        out,
        &[
            number.digits(),
            b" ",
            edge.digits(),
            b" ",
            low.digits(),
            b" ",
            high.digits(),
            b"\n",
        ],
    )
}
