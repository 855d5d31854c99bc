//! The last line of a list.
ghost use Rattle.std.specs.Prelude.{◌≡◌};
ghost use Rattle.mcb_ends.specs.Bytes.{Writes};
ghost use Rattle.mcb_ends.specs.Causes.{HasCause};
ghost use Rattle.billiards_cli.specs.EndLine.{end_text};

use mcb_ends::{Decimal, Failed, Sink, put_all};

/// Writes how many there are.
pub(crate) fn write_end<K: Sink>(count: usize, out: &mut K) -> Result<(), Failed>
    ensures text { Writes (K.written out.old) (K.written out.new) result (end_text count) }
    ensures room { K.room out.new ≡ K.room out.old }
    ensures cause { HasCause (K.faults out.old) (K.faults out.new) result }
{
    put_all(out, &[b"end ", Decimal::new(count as u64).digits(), b"\n"])
}
