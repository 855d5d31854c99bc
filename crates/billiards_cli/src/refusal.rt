ghost use Rattle.std.specs.Prelude.{◌≡◌};
ghost use Rattle.mcb_ends.specs.Bytes.{Writes};
ghost use Rattle.mcb_ends.specs.Causes.{HasCause};
ghost use Rattle.billiards_cli.specs.Refusals.{refused_text, numbered_text, argument_text};

use line_grammar::Reason;
use mcb_ends::{Decimal, Failed, Sink, put_all};

/// Writes which line of the input is refused, counted from 1, and why.
pub(crate) fn write_refusal<K: Sink>(line: u32, reason: Reason, out: &mut K) -> Result<(), Failed>
    ensures text { Writes (K.written out.old) (K.written out.new) result (refused_text line reason) }
    ensures room { K.room out.new ≡ K.room out.old }
    ensures cause { HasCause (K.faults out.old) (K.faults out.new) result }
{
    write_numbered_refusal(line, reason.number(), out)
}

/// Writes which line of the input is refused, counted from 1, and the number of the reason.
pub(crate) fn write_numbered_refusal<K: Sink>(
    line: u32,
    number: u8,
    out: &mut K,
) -> Result<(), Failed>
    ensures text { Writes (K.written out.old) (K.written out.new) result (numbered_text line number) }
    ensures room { K.room out.new ≡ K.room out.old }
    ensures cause { HasCause (K.faults out.old) (K.faults out.new) result }
{
    let line_digits = Decimal::new(u64::from(line));
    let number_digits = Decimal::new(u64::from(number));
    put_all(
        out,
        &[
            b"refused line=",
            line_digits.digits(),
            b" reason=",
            number_digits.digits(),
            b"\n",
        ],
    )
}

/// Writes why an argument is refused.
pub(crate) fn write_argument_refusal<K: Sink>(reason: Reason, out: &mut K) -> Result<(), Failed>
    ensures text { Writes (K.written out.old) (K.written out.new) result (argument_text reason) }
    ensures room { K.room out.new ≡ K.room out.old }
    ensures cause { HasCause (K.faults out.old) (K.faults out.new) result }
{
    let digits = Decimal::new(u64::from(reason.number()));
    put_all(out, &[b"refused argument reason=", digits.digits(), b"\n"])
}
